//! An image that a device left, taken over.

ghost use Rattle.std.specs.Prelude.{IfOk, IfErr};
ghost use Rattle.lfs_change.specs.Adopting.{IsAdoption, RefusesAdopting};

use lfs_adopt::{NewBlock, TakenOver};
use lfs_block::Image;
use lfs_fs::mount;
use lfs_request::Fault;
use std::alloc::Global;
use std::mem::forget;

/// How an image is taken over.
#[derive(Drop)]
pub struct Adoption {
    /// The blocks that are written anew: for each block of the image the one in its place, if there is one.
    pub blocks: Vec<Option<NewBlock>>,
    /// The numbers of the blocks that differ from the image as the device left it, in order.
    pub changed: Vec<u32>,
}

/// How an image that a device left is taken over. What it becomes mounts. Takes memory.
pub fn adopted(alloc: Global, image: &Image) -> Result<Adoption, Fault>
    ensures adopted { IfOk result (λ adoption. IsAdoption image.now.disk adoption) }
    ensures refused { IfErr result (λ fault. RefusesAdopting image.now.disk fault) }
{
    let TakenOver { draft, changed, .. } = lfs_adopt::adopted(alloc, image)?;
    let mounted = mount(alloc, &draft)?;
    forget(mounted);
    Ok(Adoption {
        blocks: draft.into_blocks(),
        changed,
    })
}
