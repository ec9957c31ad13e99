//! What a host has under a name.

/// What a host has under a name. Links aren't followed.
#[derive(Clone, Copy, PartialEq, Eq)]
pub enum HostKind {
    /// Nothing.
    Missing,
    /// A regular file.
    File,
    /// A folder.
    Folder,
    /// Something else, as a link, a socket or a device.
    Other,
}
