//! How an image is looked at in its file.

/// How an image is looked at in its file.
#[derive(Clone, Copy)]
pub struct View {
    /// Whether it is read as a device does: also disk version 2.1, and a superblock that was expanded.
    pub by_device: bool,
    /// Where in its file it begins, in bytes, where others stand behind it or before it; it is all of its file for `None`.
    pub offset: Option<u64>,
}

impl View {
    ghost use Rattle.std.specs.Prelude.{◌≡◌};
    ghost use Rattle.lfs_request.specs.View.{start_of};

    /// Where in its file it begins, in bytes.
    pub fn start(self) -> u64
        ensures { result ≡ start_of self }
    {
        self.offset.unwrap_or(0)
    }
}
