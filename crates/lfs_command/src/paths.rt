//! The names of paths, as texts spell them.

ghost use Rattle.std.specs.Prelude.{◌≡◌, ◌≢◌, ◌⊎◌, ◌∷◌, All, IfOk, IfErr, flat_map, map};
ghost use Rattle.std.specs.List.{list_all};
ghost use Rattle.std.specs.Option.{option_map};
ghost use Rattle.lfs_meta.specs.Name.{is_name};
ghost use Rattle.lfs_fs.specs.Path.{IsPathText, IsNoPath};
ghost use Rattle.lfs_command.specs.declared.refusal.Refusal.TheVariants.{Memory, BadPath};
ghost use Rattle.lfs_command.specs.Parent.{last_name};

use crate::refusal::Refusal;
use bstr::ByteSlice;
use lfs_meta::{is_name, names_are_decided};
use std::alloc::{AllocError, Global};

/// The pieces between the slashes of a text.
fn pieces_of<'a>(alloc: Global, text: &'a [u8]) -> Result<Vec<&'a [u8]>, AllocError>
    ensures joined { IfOk result (λ pieces. 47 ∷ text.now ≡ flat_map (λ p. 47 ∷ p) (map (λ p. p.now) pieces.items)) }
    ensures apart { IfOk result (λ pieces. All (All (λ b. b ≢ 47)) (map (λ p. p.now) pieces.items)) }
{
    text.split_str(b"/").collect(alloc)
}

/// Whether files and directories may have these names.
fn are_names(pieces: &[&[u8]]) -> bool
    ensures { result ≡ list_all (λ p. is_name p.now) pieces.now }
{
    pieces.iter().all(|piece| is_name(piece))
}

/// The names from the root on that a text spells: `/` before each of them, and `/` alone for the root. `BadPath` where the text
/// spells no path: it begins with no slash, ends with one behind a name, or has an empty name, `.` or `..` in it. `Memory`
/// says only that a growth was refused.
pub fn names_of<'a>(alloc: Global, text: &'a [u8]) -> Result<Vec<&'a [u8]>, Refusal>
    ensures spelled { IfOk result (λ names. IsPathText text.now (map (λ n. n.now) names.items)) }
    ensures refused { IfErr result (λ refusal. (refusal ≡ Memory) ⊎ ((refusal ≡ BadPath) × IsNoPath text.now)) }
{
    names_are_decided();
    let Some(rest) = text.strip_prefix(b"/") else {
        return Err(Refusal::BadPath);
    };
    if rest.is_empty() {
        return Ok(Vec::new(alloc));
    }
    let pieces = pieces_of(alloc, rest)?;
    if are_names(&pieces) {
        Ok(pieces)
    } else {
        Err(Refusal::BadPath)
    }
}

/// The last name of a path; the root has none.
pub fn last_of<'a>(names: &[&'a [u8]]) -> Option<&'a [u8]>
    ensures { option_map (λ n. n.now) result ≡ last_name (map (λ n. n.now) names.now) }
{
    names.last().copied()
}
