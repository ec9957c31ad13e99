//! The lowest layer: an image as numbered blocks of bytes, exact changes of it, the checksum of metadata, and the
//! faults for which an image is refused.
#![tactic(auto)]

mod blocks;
mod checksum;
mod checksum_tables;
mod erased;
mod geometry;
mod image;
mod image_fault;
mod lengthened;
mod mount_fault;
mod overlay;
mod patch;
mod patch_laws;
mod record;
mod side;
mod word;

pub use blocks::Blocks;
pub use checksum::crc32;
pub use geometry::{
    BLOCK_SIZE_STEP, MAX_BLOCK_COUNT, MAX_BLOCK_SIZE, MAX_IMAGE_LENGTH, geometry_ok,
};
pub use image::Image;
pub use image_fault::ImageFault;
pub use lengthened::Lengthened;
pub use mount_fault::MountFault;
pub use overlay::Overlay;
pub use patch::Patch;
pub use patch_laws::{
    applied_patches_change_their_blocks, applied_patches_revert, changes_change_their_blocks,
    flipped_patches_are_patches, grown_images_keep_their_count, images_are_their_blocks,
    kept_counts_change_their_blocks, put_blocks_stand, resized_images_keep_their_blocks,
    reverted_patches_apply_again,
};
pub use record::Record;
pub use word::little_word;
