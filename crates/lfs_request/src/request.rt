//! What is asked for on an image.

use crate::operation::Operation;

/// What is asked for on an image.
#[derive(Drop)]
pub struct Request<'a> {
    /// What is to be done.
    pub operation: Operation<'a>,
    /// The block size, in bytes.
    pub size: u32,
    /// Whether a file that is there is not replaced by a new image.
    pub is_new: bool,
    /// Whether the state before commits of a later disk version is gone on with, where such stand in an image, which is refused else.
    pub takes_older: bool,
    /// The image's file name.
    pub image: &'a str,
}
