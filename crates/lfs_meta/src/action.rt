//! What a tag does.

use crate::tail::is_null;
use lfs_tag::{DELETED, NO_ID, Tag};

/// What a tag does to the part of a pair, by its type.
///
/// Source: SPEC.md, "Metadata types".
#[derive(Clone, Copy, PartialEq, Eq)]
pub(crate) enum Action {
    /// Puts a blank entry in at the tag's id; later ones move up.
    Create,
    /// Takes the entry at the tag's id out; later ones move down.
    Delete,
    /// Names the entry, and adds blank entries up to it where there are fewer.
    SetName,
    /// Gives the entry a struct.
    SetBody,
    /// Sets or takes out one of the entry's attributes.
    SetAttribute,
    /// Says how the thread goes on.
    SetTail,
    /// Sets the pair's share of the global state.
    SetDelta,
}

impl Action {
    ghost use Rattle.std.specs.Prelude.{◌≡◌};
    ghost use Rattle.lfs_tag.specs.Tags.{item_with};
    ghost use Rattle.lfs_meta.specs.Action.{action_of, is_bad};

    /// What a tag of this type does, `None` where the type isn't known.
    #[tactic(auto, unfolding(crate::specs::Action::action_of))]
    pub(crate) fn of(kind: u16) -> Option<Action>
        ensures { result ≡ action_of kind }
    {
        match kind {
            0x401 => Some(Action::Create),
            0x4ff => Some(Action::Delete),
            0x001 | 0x002 | 0x0ff => Some(Action::SetName),
            0x200 | 0x201 | 0x202 => Some(Action::SetBody),
            0x300..=0x3ff => Some(Action::SetAttribute),
            0x600 | 0x601 => Some(Action::SetTail),
            0x7ff => Some(Action::SetDelta),
            _ => None,
        }
    }

    /// Whether a tag of this action is refused where there are `count` entries, for its id or its length. `bytes` are
    /// the tag's data.
    #[tactic(auto, unfolding(crate::specs::Action::is_bad))]
    pub(crate) fn is_bad(self, tag: Tag, bytes: &[u8], count: usize) -> bool
        ensures { result ≡ is_bad self (item_with tag bytes.now) count }
    {
        let id = usize::from(tag.id);
        let is_deleted = tag.len == DELETED;
        match self {
            Action::Create => id > count || tag.id == NO_ID || tag.len != 0,
            Action::Delete => id >= count || tag.len != 0,
            Action::SetName => tag.id == NO_ID || is_deleted,
            Action::SetBody => id >= count || is_deleted || (tag.kind != 0x201 && tag.len != 8),
            Action::SetAttribute => id >= count,
            Action::SetTail => tag.len != 8 || (tag.kind == 0x601 && is_null(bytes)),
            Action::SetDelta => tag.len != 12,
        }
    }
}
