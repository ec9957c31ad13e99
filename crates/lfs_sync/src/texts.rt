//! Texts of paths, and the names that they spell.

ghost use Rattle.std.specs.Prelude.{◌≡◌, ◌++◌, ◌∷◌, IfOk, MatchOption, OnOk, flat_map, map};
ghost use Rattle.lfs_fs.specs.Path.{IsNoPath, IsPathText, path_text};

use lfs_command::{Refusal, names_of};
use std::alloc::{AllocError, Global};

/// The names from the root on that a text spells; none where it spells no path.
pub(crate) fn names_in<'a>(
    alloc: Global,
    text: &'a [u8],
) -> Result<Option<Vec<&'a [u8]>>, AllocError>
    ensures { IfOk result (λ names. MatchOption names (IsNoPath text.now) (λ ns. IsPathText text.now (map (λ n. n.now) ns.items))) }
{
    match names_of(alloc, text) {
        Ok(names) => Ok(Some(names)),
        Err(refusal) => match refusal {
            Refusal::Memory => Err(AllocError),
            _ => Ok(None),
        },
    }
}

/// Adds names, a slash before each.
fn append_names(text: &mut Vec<u8>, names: &[&[u8]]) -> Result<(), AllocError>
    ensures { OnOk result (text.new.items ≡ text.old.items ++ flat_map (λ m. 47 ∷ m) (map (λ n. n.now) names.now)) }
{
    for name in names {
        text.push(b'/')?;
        text.extend_from_slice(name)?;
    }
    Ok(())
}

/// The text of a path behind another.
pub(crate) fn text_of(
    alloc: Global,
    prefix: &[&[u8]],
    rest: &[&[u8]],
) -> Result<Vec<u8>, AllocError>
    ensures { IfOk result (λ text. text.items ≡ path_text (map (λ n. n.now) prefix.now ++ map (λ n. n.now) rest.now)) }
{
    let mut text = Vec::new(alloc);
    append_names(&mut text, prefix)?;
    append_names(&mut text, rest)?;
    if text.is_empty() {
        text.push(b'/')?;
        return Ok(text);
    }
    Ok(text)
}
