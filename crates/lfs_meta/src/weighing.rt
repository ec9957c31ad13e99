//! What an entry takes of a block.

ghost use Rattle.std.specs.Prelude.{◌≡◌, ◌+◌, ◌<◌, ◌≤◌, ◌^◌, length};
ghost use Rattle.lfs_meta.specs.BodyHeld.{body_held};
ghost use Rattle.lfs_meta.specs.Fits.{RiseFrom};
ghost use Rattle.lfs_meta.specs.Body.{body_bytes};
ghost use Rattle.lfs_meta.specs.Weighing.{attributes_weight, weight_as_stored};

use crate::attribute::Attribute;
use crate::body::Body;
use crate::entry::Entry;

/// The bytes of a tag's word.
const WORD_LEN: u32 = 4;
/// The bytes of a struct of two words.
const WORDS_LEN: u32 = 8;

/// The bytes of an attribute's tag with its value.
fn attribute_weight(attribute: &Attribute) -> u32
    ensures { result ≡ 4 + length attribute.now.1 }
{
    WORD_LEN + attribute.value.len() as u32
}

/// The bytes of attributes' tags with their values.
fn tags_len(attributes: &[Attribute]) -> u32
    requires { attributes_weight attributes.now < 2 ^ 32 }
    ensures { result ≡ attributes_weight attributes.now }
{
    let mut sum = 0;
    for attribute in attributes {
        sum += attribute_weight(attribute);
    }
    sum
}

/// The bytes that attributes take of a block: four for the tag of each, with its value.
pub fn attributes_weight(attributes: &[Attribute]) -> u32
    requires { RiseFrom 0 attributes.now }
    ensures value { result ≡ attributes_weight attributes.now }
    ensures small { result ≤ 262656 }
{
    tags_len(attributes)
}

/// The bytes of a struct.
fn body_len(body: &Body) -> usize
    ensures { result ≡ length (body_bytes (body_held body.now)) }
{
    match body {
        Body::Inline(bytes) => bytes.len(),
        Body::Chain { .. } | Body::Directory(..) => WORDS_LEN as usize,
    }
}

/// The bytes that an entry takes of a block: four for each of its tags, with its name, its struct's data and its
/// attributes' values.
pub fn weight(entry: &Entry) -> u32
    ensures value { result ≡ weight_as_stored entry.now }
    ensures small { result ≤ 264708 }
{
    let named = WORD_LEN + entry.name.len() as u32;
    let embodied = WORD_LEN + body_len(&entry.body) as u32;
    named + embodied + attributes_weight(&entry.attributes)
}
