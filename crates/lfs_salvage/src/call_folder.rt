//! The folder of a call.

/// The folder of a call.
#[derive(Drop)]
pub(crate) struct CallFolder {
    /// Its name on the host.
    pub name: String,
    /// Whether it is the folder above, since the host can't have a name for a directory.
    pub is_nameless: bool,
}
