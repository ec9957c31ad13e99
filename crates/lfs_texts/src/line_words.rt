//! A line of a script, with its words.

/// A line of a script that isn't passed over, with its words.
#[derive(Drop)]
pub(crate) struct LineWords<'a> {
    /// The line's number, from 1 on.
    pub(crate) number: usize,
    /// The line, without what ends it.
    pub(crate) line: &'a [u8],
    /// The bytes that its words stand for.
    pub(crate) words: Vec<Vec<u8>>,
}
