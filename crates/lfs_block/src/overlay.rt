//! An image as a patch leaves it, or as it was before one.

use crate::blocks::Blocks;
use crate::patch::Patch;
use crate::record::record_of;
use crate::side::Side;
use std::marker::Model;

/// An image as a patch leaves it, or as it was before the patch, without a copy: the blocks that the patch names have the
/// patch's bytes, those that it adds otherwise are erased, and all others are those of the image that it lies on. Its meaning
/// is the disk that the patch makes.
#[derive(Drop)]
pub struct Overlay<'a, B: Blocks> {
    base: &'a B,
    patch: &'a Patch,
    erased: &'a [u8],
    side: Side,
}

impl<'a, B: Blocks> Model for Overlay<'a, B> {
    ghost use Rattle.lfs_block.specs.Disk.{Disk};
    ghost use Rattle.lfs_block.specs.Overlay.{IsOverlay, laid_side};

    ghost Value = { Disk };

    ghost view = { λ o. laid_side o.side o.patch.now (B.disk o.base.now) };

    ghost invariant = { λ o. IsOverlay o.patch.now o.erased.now (B.disk o.base.now) };
}

impl<'a, B: Blocks> Overlay<'a, B> {
    ghost use Rattle.std.specs.Prelude.{◌≡◌};
    ghost use Rattle.lfs_block.specs.Overlay.{IsOverlay};
    ghost use Rattle.lfs_block.specs.Patch.{applied, reverted};

    /// The image as the patch leaves it. `erased` is lent for the blocks that are added.
    pub fn after(base: &'a B, patch: &'a Patch, erased: &'a [u8]) -> Overlay<'a, B>
        requires { IsOverlay patch.now erased.now (B.disk base.now) }
        ensures { result ≡ applied patch.now (B.disk base.now) }
    {
        Overlay {
            base,
            patch,
            erased,
            side: Side::New,
        }
    }

    /// The image as it was before the patch. `erased` is lent for blocks behind the image's end.
    pub fn before(base: &'a B, patch: &'a Patch, erased: &'a [u8]) -> Overlay<'a, B>
        requires { IsOverlay patch.now erased.now (B.disk base.now) }
        ensures { result ≡ reverted patch.now (B.disk base.now) }
    {
        Overlay {
            base,
            patch,
            erased,
            side: Side::Old,
        }
    }
}

impl<'a, B: Blocks> Blocks for Overlay<'a, B> {
    ghost disk = { λ overlay. overlay };

    fn size(&self) -> u32 {
        self.patch.size()
    }

    fn count(&self) -> u32 {
        self.patch.count(self.side)
    }

    fn block(&self, n: u32) -> &[u8] {
        match record_of(self.patch.records(), n) {
            Some(record) => record.side(self.side),
            None if n < self.base.count() => self.base.block(n),
            None => self.erased,
        }
    }
}
