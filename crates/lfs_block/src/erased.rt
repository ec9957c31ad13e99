//! Bytes that nothing was written to.

ghost use Rattle.std.specs.Prelude.{◌≡◌, ◌↔◌, IsTrue, length};
ghost use Rattle.lfs_block.specs.Disk.{erased_block};

/// What each byte of an erased block is.
pub(crate) const ERASED: u8 = 0xff;

/// Whether the bytes are those of an erased block.
pub(crate) fn is_erased(bytes: &[u8]) -> bool
    ensures { IsTrue result ↔ (bytes.now ≡ erased_block (length bytes.now)) }
{
    bytes.iter().all(|byte| *byte == ERASED)
}
