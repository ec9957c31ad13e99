//! A file whose image states the block size that `auto` stands for.

/// A file whose image states the block size that `auto` stands for.
#[derive(Clone, Copy)]
pub struct AutoFile<'a> {
    /// The file's name.
    pub name: &'a str,
    /// Where in it the image begins, in bytes.
    pub place: u64,
}
