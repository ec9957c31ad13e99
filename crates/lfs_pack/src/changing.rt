//! Changes made of an image in memory.

ghost use Rattle.std.specs.Prelude.{◌≡◌};
ghost use Rattle.std.specs.List.{AllByRecursion};
ghost use Rattle.lfs_block.specs.Change.{IsRising};
ghost use Rattle.lfs_block.specs.Patch.{put_all};
ghost use Rattle.lfs_block.specs.PatchLaws.{IsDiskAs};
ghost use Rattle.lfs_law.specs.WrittenLinks.{CanBeMade};

use lfs_block::{Blocks, Image, Patch, Record, kept_counts_change_their_blocks};

/// Makes changes of an image, where there are some.
pub(crate) fn make_changes(image: &mut Image, changes: Vec<Record>)
    requires rising { IsRising changes.items }
    requires can { AllByRecursion (CanBeMade image.old.disk) changes.items }
    ensures made { image.new.disk ≡ put_all changes.items image.old.disk }
    ensures disk { IsDiskAs image.old.disk image.new.disk }
{
    kept_counts_change_their_blocks();
    let size = image.size();
    let count = image.count();
    if changes.is_empty() {
        return;
    }
    prove!(count <= image.room());
    let patch = Patch::of(size, count, count, changes);
    patch.apply(image);
}
