//! The block sizes that `auto` stands for.

/// The block sizes that `auto` stands for, in bytes.
#[derive(Clone, Copy)]
pub struct AutoSizes {
    /// That of the image.
    pub image: u32,
    /// That of the image that it is compared with, or made of.
    pub other: u32,
}
