//! Why a host doesn't read.

/// Why a file or standard input was not read.
#[derive(Clone, Copy, Debug, PartialEq, Eq)]
pub enum ReadFault {
    /// A growth of memory was refused.
    Memory,
    /// The file is not there, is no regular file, or the system refused to read.
    CannotRead,
}
