//! New images.

ghost use Rattle.std.specs.Prelude.{◌≡◌, IfSome};
ghost use Rattle.lfs_block.specs.Geometry.{IsGeometry};
ghost use Rattle.lfs_fs.specs.Limits.{new_limits};
ghost use Rattle.lfs_edit.specs.Formatted.{IsFormatted};

use lfs_block::Image;
use lfs_edit::format;
use std::alloc::Global;

/// A new image of so many blocks of this size; `None` where a growth of memory was refused.
pub fn new_image_of(alloc: Global, size: u32, count: u32) -> Option<Image>
    requires { IsGeometry size count }
    ensures image { IfSome result (λ image. (image.disk.size ≡ size) × IsFormatted size count new_limits image.disk.bytes) }
{
    let Ok(bytes) = format(alloc, size, count) else {
        return None;
    };
    Image::new(bytes, size).ok()
}
