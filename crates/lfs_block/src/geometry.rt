//! The block sizes and counts that are edited.

ghost use Rattle.std.specs.Prelude.{◌≡◌, ◌↔◌, IsTrue};
ghost use Rattle.lfs_block.specs.Geometry.{IsGeometry, is_geometry};

/// The least block size, in bytes.
pub const MIN_BLOCK_SIZE: u32 = 256;
/// The greatest block size, in bytes.
pub const MAX_BLOCK_SIZE: u32 = 65_536;
/// Each block size is a multiple of this many bytes, to which a written commit reaches.
pub const BLOCK_SIZE_STEP: u32 = 16;
/// The least number of blocks.
pub const MIN_BLOCK_COUNT: u32 = 2;
/// The greatest number of blocks.
pub const MAX_BLOCK_COUNT: u32 = 65_536;
/// The greatest length of an image, in bytes.
pub const MAX_IMAGE_LENGTH: u64 = 67_108_864;

/// Whether `count` blocks of `size` bytes are an image that is edited: the size a multiple of 16 from 256 to 65,536,
/// the count from 2 to 65,536, and at most 67,108,864 bytes in all.
pub fn geometry_ok(size: u32, count: u32) -> bool
    ensures geometry { IsTrue result ↔ IsGeometry size count }
    ensures test { result ≡ is_geometry size count }
{
    (MIN_BLOCK_SIZE..=MAX_BLOCK_SIZE).contains(&size)
        && size % BLOCK_SIZE_STEP == 0
        && (MIN_BLOCK_COUNT..=MAX_BLOCK_COUNT).contains(&count)
        && u64::from(count) * u64::from(size) <= MAX_IMAGE_LENGTH
}
