//! Room for the images of changes.

ghost use Rattle.std.specs.List.{AllByRecursion};
ghost use Rattle.lfs_block.specs.Disk.{IsDisk};
ghost use Rattle.lfs_block.specs.Patch.{IsGrowth};
ghost use Rattle.lfs_session.specs.Known.{HaveSize, ReservesFor};

use lfs_block::{Blocks, Image, Patch};

/// Makes room for the image after each change, once for all of them, so that making them and taking them back takes no memory.
/// False where memory is refused.
pub(crate) fn reserve_for(image: &mut Image, patches: &[Patch]) -> bool
    requires disk { IsDisk image.old.disk }
    requires patches { AllByRecursion IsGrowth patches.now }
    requires size { HaveSize image.old.disk.size patches.now }
    ensures { ReservesFor patches.now result image.old image.new }
{
    let mut greatest = image.count();
    for patch in patches {
        let after = patch.after();
        if after > greatest {
            greatest = after;
        }
    }
    image.reserve(greatest)
}
