//! The limits that a survey's superblock states.

ghost use Rattle.std.specs.Prelude.{◌≡◌, ◌≤◌, ◌+◌, ◌*◌, ℕ, List, [], IfNone, IfSome, Some, length};
ghost use Rattle.lfs_fs.specs.Superblock.{IsSuperblock, header_of, word_at};
ghost use Rattle.lfs_meta.specs.Entry.{StoredEntry};
ghost use Rattle.lfs_survey.specs.AllPlaces.{entry_at_place};
ghost use Rattle.lfs_survey.specs.Faults.{StatesLimits, first_entry};

use crate::all_places::entry_at;
use crate::entry_faults::first_entry;
use crate::survey::Survey;
use byteorder::{ByteOrder, LittleEndian};
use lfs_fs::Limits;
use lfs_meta::{Body, Entry, Kind};

/// The superblock's name.
const NAME: [u8; 8] = *b"littlefs";
/// The length of its struct, in bytes.
const LEN: usize = 24;

/// The struct of an entry, where the entry is a superblock.
fn struct_of(entry: &Entry) -> Option<&[u8]>
    ensures found { IfSome result (λ bytes. IsSuperblock entry.now bytes.now) }
    ensures none { IfNone result ((bytes : List ℕ) → IsSuperblock entry.now bytes → ⊥) }
{
    let Body::Inline(bytes) = &entry.body else {
        return None;
    };
    if entry.kind == Kind::Super && entry.name.as_slice() == NAME.as_slice() && bytes.len() == LEN {
        Some(bytes)
    } else {
        None
    }
}

/// One of the words of a superblock's struct.
fn word_at(bytes: &[u8], index: usize) -> u32
    requires { 4 * index + 4 ≤ length bytes.now }
    ensures { result ≡ word_at bytes.now index }
{
    let at = 4 * index;
    LittleEndian::read_u32(&bytes[at..at + 4])
}

/// The limits that an entry says, where it is a superblock.
fn limits_in(entry: &Entry) -> Option<Limits>
    ensures found { IfSome result (λ limits. (bytes : List ℕ) × IsSuperblock entry.now bytes × (limits ≡ (header_of bytes []).limits)) }
    ensures none { IfNone result ((bytes : List ℕ) → IsSuperblock entry.now bytes → ⊥) }
{
    let bytes = struct_of(entry)?;
    Some(Limits {
        name: word_at(bytes, 3),
        file: word_at(bytes, 4),
        attribute: word_at(bytes, 5),
    })
}

/// The limits that the first entry of a survey states, where it is a superblock.
///
/// Source: SPEC.md, "0x0ff superblock".
pub fn stated_limits(survey: &Survey) -> Option<Limits>
    ensures found { IfSome result (StatesLimits survey.now.areas.items) }
    ensures none { IfNone result ((e : StoredEntry) (bytes : List ℕ) → entry_at_place survey.now.areas.items first_entry ≡ Some e → IsSuperblock e bytes → ⊥) }
{
    limits_in(entry_at(survey, first_entry())?)
}
