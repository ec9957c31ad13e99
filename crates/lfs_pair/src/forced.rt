//! What is written even where it stays the same.

ghost use Rattle.std.specs.Prelude.{◌≡◌, ◌==◌, option_map};
ghost use Rattle.lfs_pair.specs.Difference.{forced_value, is_called, is_struct_forced};
ghost use Rattle.lfs_pair.specs.DifferenceSeen.{forced_seen};
ghost use Rattle.lfs_pair.specs.Spelling.{name_kind};

use crate::edits::name_kind;
use lfs_meta::Entry;

/// What is written even where it stays the same. An entry is told by its name, and the superblock's by none.
#[derive(Clone, Copy)]
pub enum Forced<'a> {
    /// Nothing.
    Nothing,
    /// The struct of an entry.
    Struct(Option<&'a [u8]>),
    /// The value of a kind among an entry's attributes.
    Value(Option<&'a [u8]>, u8),
}

/// Whether an entry is the superblock's.
fn is_superblock(entry: &Entry) -> bool
    ensures { result ≡ (name_kind entry.now.kind == 0x0ff) }
{
    name_kind(entry.kind) == 0x0ff
}

/// Whether an entry has a name, where no name is the superblock's.
#[tactic(auto, unfolding(crate::specs::Difference::is_called))]
fn is_called(name: Option<&[u8]>, entry: &Entry) -> bool
    ensures { result ≡ is_called (option_map (λ n. n.now) name.entry) entry.now }
{
    match name {
        None => is_superblock(entry),
        Some(name) => !is_superblock(entry) && name == entry.name.as_slice(),
    }
}

/// Whether an entry's struct is forced.
#[tactic(auto, unfolding(crate::specs::Difference::is_struct_forced))]
pub(crate) fn is_struct_forced(forced: Forced<'_>, entry: &Entry) -> bool
    ensures { result ≡ is_struct_forced (forced_seen forced.entry) entry.now }
{
    match forced {
        Forced::Struct(name) => is_called(name, entry),
        Forced::Nothing | Forced::Value(..) => false,
    }
}

/// The kind of the value that is forced of an entry's.
#[tactic(auto, unfolding(crate::specs::Difference::forced_value))]
pub(crate) fn forced_value(forced: Forced<'_>, entry: &Entry) -> Option<u8>
    ensures { result ≡ forced_value (forced_seen forced.entry) entry.now }
{
    match forced {
        Forced::Value(name, kind) => {
            if is_called(name, entry) {
                Some(kind)
            } else {
                None
            }
        }
        Forced::Nothing | Forced::Struct(_) => None,
    }
}
