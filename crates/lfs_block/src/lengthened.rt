//! An image with more blocks behind its end.

use crate::blocks::Blocks;
use std::marker::Model;

/// An image with more blocks behind its end, each of them erased, without a copy. Its meaning is the lengthened disk; with the number
/// of blocks that the image has it is the image.
#[derive(Drop)]
pub struct Lengthened<'a, B: Blocks> {
    base: &'a B,
    count: u32,
    erased: &'a [u8],
}

impl<'a, B: Blocks> Model for Lengthened<'a, B> {
    ghost use Rattle.lfs_block.specs.Disk.{Disk, resized};
    ghost use Rattle.lfs_block.specs.Lengthened.{Lengthens};

    ghost Value = { Disk };

    ghost view = { λ l. resized l.count (B.disk l.base.now) };

    ghost invariant = { λ l. Lengthens (B.disk l.base.now) l.count l.erased.now };
}

impl<'a, B: Blocks> Lengthened<'a, B> {
    ghost use Rattle.std.specs.Prelude.{◌≡◌};
    ghost use Rattle.lfs_block.specs.Disk.{resized};
    ghost use Rattle.lfs_block.specs.Lengthened.{Lengthens};

    /// The image with `count` blocks. `erased` is lent for those that are added.
    pub fn of(base: &'a B, count: u32, erased: &'a [u8]) -> Lengthened<'a, B>
        requires { Lengthens (B.disk base.now) count erased.now }
        ensures { result ≡ resized count (B.disk base.now) }
    {
        Lengthened {
            base,
            count,
            erased,
        }
    }
}

impl<'a, B: Blocks> Blocks for Lengthened<'a, B> {
    ghost disk = { λ lengthened. lengthened };

    fn size(&self) -> u32 {
        self.base.size()
    }

    fn count(&self) -> u32 {
        self.count
    }

    fn block(&self, n: u32) -> &[u8] {
        if n < self.base.count() {
            self.base.block(n)
        } else {
            self.erased
        }
    }
}
