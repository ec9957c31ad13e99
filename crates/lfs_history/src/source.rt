//! Where the bytes of a command come from.

/// Where the bytes that a command brings come from: the contents of a file that is put, or the value of an attribute.
#[derive(Drop)]
pub enum Source<'a> {
    /// They come on standard input.
    Input,
    /// They are what is in a file of the host.
    File(&'a str),
    /// They are said with the command.
    Said(Vec<u8>),
}
