//! The disk version that a superblock states.

ghost use Rattle.std.specs.Prelude.{◌≡◌, length};
ghost use Rattle.lfs_lower.specs.Spelled.{lowered_header};

use lfs_block::little_word;

/// The disk version that is lowered.
const LATER_VERSION: u32 = 0x0002_0001;
/// The disk version that it is lowered to, as it is spelled.
const VERSION_BYTES: [u8; 4] = [0, 0, 2, 0];

/// Puts version 2.0 in the place of 2.1 into a superblock's struct.
pub(crate) fn lower_header(bytes: &mut [u8])
    requires { length bytes.old ≡ 24 }
    ensures { bytes.new ≡ lowered_header bytes.old }
{
    if little_word(bytes) == LATER_VERSION {
        bytes[..4].copy_from_slice(&VERSION_BYTES);
    }
}
