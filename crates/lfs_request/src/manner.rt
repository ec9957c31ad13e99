//! How an image's file is read.

use crate::view::View;

/// How an image's file is read.
#[derive(Clone, Copy)]
pub struct Manner {
    /// Whether the state before commits of a later disk version is gone on with, where such stand in it, which is refused else.
    pub takes_older: bool,
    /// How the image is looked at in it; as a device does, no commit is a later one.
    pub view: View,
}
