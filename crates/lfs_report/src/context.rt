//! What is kept beside the end of a run, for what is told of it.

use crate::later::Later;
use lfs_block::MountFault;
use std::alloc::Global;

/// What is kept beside the end of a run.
#[derive(Drop)]
pub struct Context {
    /// Commits of later disk versions in what was read as an image.
    pub later: Later,
    /// Whether the image is read as a device does.
    pub by_device: bool,
    /// The text that the statement of a stop speaks of; empty where it speaks of none.
    pub text: Vec<u8>,
    /// The first place of the fault in the image.
    pub place: Option<String>,
    /// Why an image doesn't mount of which all is saved all the same.
    pub unmounted: Option<MountFault>,
    /// Whether the image is refused for what a device left unfinished: read as a device does, it mounts.
    pub mounts_by_device: bool,
    /// What is told of what is saved of an image, a text a line.
    pub lines: Vec<String>,
}

impl Context {
    /// Nothing yet.
    pub fn new(alloc: Global) -> Context {
        Context {
            later: Later {
                image: None,
                other: None,
            },
            by_device: false,
            text: Vec::new(alloc),
            place: None,
            unmounted: None,
            mounts_by_device: false,
            lines: Vec::new(alloc),
        }
    }
}
