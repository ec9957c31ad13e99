//! Changes, and what is lent where their images are looked at.

use lfs_block::Patch;
use lfs_json::Form;

/// All changes of a history, of which the first `done` are done, an erased block of its images, and the form in which they are told.
#[derive(Clone, Copy)]
pub(crate) struct Course<'a> {
    pub(crate) patches: &'a [Patch],
    pub(crate) done: usize,
    pub(crate) erased: &'a [u8],
    pub(crate) form: Form,
}
