//! An image that a new one is made of.

use crate::manner::Manner;

/// An image that a new one is made of.
#[derive(Clone, Copy)]
pub struct SourceImage<'a> {
    /// The name of its file.
    pub file: &'a str,
    /// The size of its blocks, in bytes.
    pub size: u32,
    /// How it is read.
    pub manner: Manner,
}
