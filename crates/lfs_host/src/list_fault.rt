//! Why a host doesn't list a folder.

/// Why a host doesn't list a folder.
#[derive(Clone, Copy, Debug, PartialEq, Eq)]
pub enum ListFault {
    /// A growth of memory was refused.
    Memory,
    /// A name in the folder isn't UTF-8.
    NotText,
    /// The folder is not there, is none, or the system refused to read.
    CannotRead,
}
