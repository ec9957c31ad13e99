//! What an entry of an outline takes of a block.

ghost use Rattle.std.specs.Prelude.{◌≡◌, ◌≤◌};
ghost use Rattle.lfs_meta.specs.Fits.{BodyFits};
ghost use Rattle.lfs_fs.specs.AsStored.{stored_body};
ghost use Rattle.lfs_fs.specs.OutlineHeld.{outline_body_held};
ghost use Rattle.lfs_fs.specs.Weight.{body_weight, weight};

use lfs_fs::{OutlineBody, OutlineEntry};
use lfs_meta::attributes_weight;

/// The bytes of a tag's word.
const WORD_LEN: u32 = 4;
/// The bytes of a struct of two words.
const WORDS_LEN: u32 = 8;

/// The bytes of a struct's tag with its data.
fn body_weight(body: &OutlineBody) -> u32
    requires { BodyFits (stored_body (outline_body_held body.now)) }
    ensures value { result ≡ body_weight (outline_body_held body.now) }
    ensures small { result ≤ 1026 }
{
    match body {
        OutlineBody::Inline(bytes) => WORD_LEN + bytes.len() as u32,
        OutlineBody::Chain { .. } | OutlineBody::Directory(..) => WORD_LEN + WORDS_LEN,
    }
}

/// The bytes that an entry takes of a block: four for each of its tags, with its name, its struct's data and its attributes'
/// values.
///
/// Source: SPEC.md, "Metadata tags".
pub fn weight(entry: &OutlineEntry) -> u32
    ensures value { result ≡ weight entry.now }
    ensures small { result ≤ 264708 }
{
    let named = WORD_LEN + entry.name.len() as u32;
    named + body_weight(&entry.body) + attributes_weight(&entry.attributes)
}
