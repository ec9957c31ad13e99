//! Single tags of a change that no part is written as.

ghost use Rattle.std.specs.Prelude.{◌≡◌, ◌<◌};
ghost use Rattle.lfs_tag.specs.Writing.{item_of};
ghost use Rattle.lfs_pair.specs.Difference.{create_item, delete_item, gone_item, tail_item};

use crate::edits::{ATTRIBUTE, HARD_TAIL, SOFT_TAIL, edit, words};
use lfs_meta::Tail;
use lfs_tag::{DELETED, Edit, EditData, NO_ID, Tag};

/// The type of a tag that creates an entry.
const CREATE: u16 = 0x401;
/// The type of a tag that deletes an entry.
const DELETE: u16 = 0x4ff;
/// The number of no block.
const NULL: u32 = 0xffff_ffff;

/// The tag that creates an entry.
pub(crate) fn create_edit<'a>(id: u16) -> Edit<'a>
    requires { id < 1023 }
    ensures { item_of result ≡ create_item id }
{
    edit(CREATE, id, EditData::Bytes(&[]))
}

/// The tag that deletes an entry.
pub(crate) fn delete_edit<'a>(id: u16) -> Edit<'a>
    requires { id < 1023 }
    ensures { item_of result ≡ delete_item id }
{
    edit(DELETE, id, EditData::Bytes(&[]))
}

/// The tag that marks the attribute of a kind deleted.
pub(crate) fn gone_edit<'a>(id: u16, kind: u8) -> Edit<'a>
    requires { id < 1023 }
    ensures { item_of result ≡ gone_item id kind }
{
    Edit {
        tag: Tag {
            kind: ATTRIBUTE + u16::from(kind),
            id,
            len: DELETED,
        },
        content: EditData::Bytes(&[]),
    }
}

/// The tag of a tail: of the thread's end, two null pointers.
#[tactic(auto, unfolding(crate::specs::Difference::tail_item))]
pub(crate) fn tail_edit<'a>(tail: Tail) -> Edit<'a>
    ensures { item_of result ≡ tail_item tail }
{
    match tail {
        Tail::End => edit(SOFT_TAIL, NO_ID, words(NULL, NULL)),
        Tail::Soft(first, second) => edit(SOFT_TAIL, NO_ID, words(first, second)),
        Tail::Hard(first, second) => edit(HARD_TAIL, NO_ID, words(first, second)),
    }
}
