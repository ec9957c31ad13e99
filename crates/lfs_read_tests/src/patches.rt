//! Patches by example.

ghost use Rattle.std.specs.Prelude.{◌≡◌, ◌<◌, ◌≤◌, replicate, IfOk, IfSome};
ghost use Rattle.lfs_block.specs.Change.{IsBlockChange};
ghost use Rattle.lfs_block.specs.Disk.{erased_block};
ghost use Rattle.lfs_block.specs.Geometry.{IsGeometry};

use crate::images::filled_image;
use lfs_block::{Blocks, Image, Lengthened, Overlay, Patch, Record, geometry_ok};
use std::alloc::{AllocError, Global};

/// What the blocks of the image are filled with.
pub(crate) const SHORT: [u8; 4] = [0, 1, 2, 3];

/// So many bytes of one value.
fn filled(alloc: Global, size: u32, fill: u8) -> Result<Vec<u8>, AllocError>
    ensures { IfOk result (λ bytes. bytes.items ≡ replicate size fill) }
{
    vec![in alloc; fill; size as usize]
}

/// So many bytes that nothing was written to.
fn erased(alloc: Global, size: u32) -> Result<Vec<u8>, AllocError>
    ensures { IfOk result (λ bytes. bytes.items ≡ erased_block size) }
{
    filled(alloc, size, 0xff)
}

/// The change of a block's bytes, of one value before and of one after.
pub(crate) fn record(
    alloc: Global,
    size: u32,
    number: u32,
    old: u8,
    new: u8,
) -> Result<Record, AllocError>
    ensures number { IfOk result (λ r. r.number ≡ number) }
    ensures complete { IfOk result (λ r. IsBlockChange size r) }
    ensures old { IfOk result (λ r. r.old ≡ replicate size old) }
{
    let old = filled(alloc, size, old)?;
    let new = filled(alloc, size, new)?;
    Ok(Record { number, old, new })
}

/// The patch of an image of four blocks that makes 1 to 8 in block 1, and `old` to 9 in the block `second`.
fn patch_of(alloc: Global, size: u32, after: u32, second: u32, old: u8) -> Result<Patch, AllocError>
    requires before { IsGeometry size 4 }
    requires after { IsGeometry size after }
    requires rise { 4 ≤ after }
    requires first { 1 < second }
    requires within { second < after }
    requires erased { 4 ≤ second → old ≡ 0xff }
{
    let mut records = Vec::new(alloc);
    records.push(record(alloc, size, 1, 1, 8)?)?;
    records.push(record(alloc, size, second, old, 9)?)?;
    Ok(Patch::of(size, 4, after, records))
}

/// The patch that lengthens the image to six blocks, and writes into blocks 1 and 5; or the one that writes into blocks 1 and 3.
pub(crate) fn sample(alloc: Global, is_longer: bool) -> Result<Patch, AllocError> {
    if is_longer {
        patch_of(alloc, 256, 6, 5, 0xff)
    } else {
        patch_of(alloc, 256, 4, 3, 3)
    }
}

/// The image of four blocks that these patches are made of.
pub(crate) fn short(alloc: Global) -> Option<Image>
    ensures { IfSome result (λ image. image.disk.size ≡ 256) }
{
    filled_image(alloc, 256, &SHORT)
}

/// Whether so many blocks of 256 bytes begin with these.
pub(crate) fn begin(blocks: &impl Blocks, firsts: &[u8]) -> bool {
    for n in 0..blocks.count() {
        if blocks.block(n).first() != firsts.get(n as usize) {
            return false;
        }
    }
    blocks.size() == 256 && blocks.count() as usize == firsts.len()
}

/// Whether a patch is made of an image, which is so before and behind it, and is taken back.
fn turns(patch: &Patch, image: &mut Image, old: &[u8], new: &[u8]) -> bool {
    if !patch.agrees_old(image) || patch.after() > image.room() {
        return false;
    }
    patch.apply(image);
    if !begin(image, new) || !patch.agrees_new(image) {
        return false;
    }
    patch.revert(image);
    begin(image, old)
}

/// Whether a patch of two blocks leads from four blocks of 256 bytes to so many, for which an image has room then; and isn't made
/// of it yet.
fn is_to_make(patch: &Patch, image: &mut Image, after: u32) -> bool {
    patch.size() == 256
        && patch.before() == 4
        && patch.after() == after
        && patch.records().len() == 2
        && geometry_ok(image.size(), after)
        && image.reserve(after)
        && !patch.agrees_new(image)
}

/// Whether a patch is made of the short image, which is so behind it, and is taken back.
fn turns_short(alloc: Global, patch: &Patch, after: u32, new: &[u8]) -> bool {
    match short(alloc) {
        Some(mut image) => {
            is_to_make(patch, &mut image, after) && turns(patch, &mut image, &SHORT, new)
        }
        None => false,
    }
}

/// Whether the patch that keeps the number of blocks is, or the other one.
fn is_turned(alloc: Global, is_longer: bool, after: u32, new: &[u8]) -> bool {
    match sample(alloc, is_longer) {
        Ok(patch) => turns_short(alloc, &patch, after, new),
        Err(_) => false,
    }
}

#[test]
fn applies_and_reverts(rt: HostRuntime) {
    assert!(rt; is_turned(rt.alloc(), false, 4, &[0, 8, 2, 9]));
}

#[test]
fn lengthens_and_cuts(rt: HostRuntime) {
    assert!(rt; is_turned(rt.alloc(), true, 6, &[0, 8, 2, 3, 0xff, 9]));
}

/// Whether a patch makes one of these blocks.
fn makes(alloc: Global, patch: &Patch, fills: &[u8]) -> bool {
    match filled_image(alloc, 256, fills) {
        Some(image) => patch.agrees_new(&image),
        None => false,
    }
}

/// Whether the patch that lengthens the image makes added blocks that are erased or named, and no others.
fn makes_erased_or_named(alloc: Global) -> bool {
    match sample(alloc, true) {
        Ok(patch) => {
            makes(alloc, &patch, &[0, 8, 2, 3, 0xff, 9])
                && !makes(alloc, &patch, &[0, 8, 2, 3, 7, 9])
        }
        Err(_) => false,
    }
}

#[test]
fn added_blocks_are_erased_or_named(rt: HostRuntime) {
    assert!(rt; makes_erased_or_named(rt.alloc()));
}

/// Whether an image has room for its blocks, and for two more once they are reserved, and keeps its bytes.
fn reserves(alloc: Global) -> bool {
    let Some(mut image) = short(alloc) else {
        return false;
    };
    let has_room = image.room() >= 4 && image.reserve(6) && image.room() >= 6;
    image.into_bytes().len() == 1_024 && has_room
}

#[test]
fn room_is_reserved(rt: HostRuntime) {
    assert!(rt; reserves(rt.alloc()));
}

/// Whether the short image shows this once a patch is made.
fn shows_after(alloc: Global, patch: &Patch, firsts: &[u8]) -> bool {
    let Some(image) = short(alloc) else {
        return false;
    };
    let Ok(erased) = erased(alloc, image.size()) else {
        return false;
    };
    patch.size() == image.size()
        && patch.records().len() == 2
        && begin(&Overlay::after(&image, patch, &erased), firsts)
}

/// Whether it does once one of the patches is.
fn shows_made(alloc: Global, is_longer: bool, firsts: &[u8]) -> bool {
    match sample(alloc, is_longer) {
        Ok(patch) => shows_after(alloc, &patch, firsts),
        Err(_) => false,
    }
}

#[test]
fn overlays_show_what_patches_make(rt: HostRuntime) {
    assert!(rt; shows_made(rt.alloc(), false, &[0, 8, 2, 9]));
    assert!(rt; shows_made(rt.alloc(), true, &[0, 8, 2, 3, 0xff, 9]));
}

/// Whether the image that a patch makes shows this as if it weren't made.
fn shows_before(alloc: Global, patch: &Patch, made: &[u8], firsts: &[u8]) -> bool {
    let Some(image) = filled_image(alloc, 256, made) else {
        return false;
    };
    let Ok(erased) = erased(alloc, image.size()) else {
        return false;
    };
    patch.size() == image.size()
        && patch.records().len() == 2
        && begin(&Overlay::before(&image, patch, &erased), firsts)
}

/// Whether what the patch that lengthens the image makes shows what was there.
fn shows_what_was_there(alloc: Global) -> bool {
    match sample(alloc, true) {
        Ok(patch) => shows_before(alloc, &patch, &[0, 8, 2, 3, 0xff, 9], &SHORT),
        Err(_) => false,
    }
}

#[test]
fn overlays_show_what_was_there(rt: HostRuntime) {
    assert!(rt; shows_what_was_there(rt.alloc()));
}

/// Whether the short image shows this as if it had this number of blocks.
fn shows_longer(alloc: Global, count: u32, firsts: &[u8]) -> bool {
    let Some(image) = short(alloc) else {
        return false;
    };
    let Ok(erased) = erased(alloc, image.size()) else {
        return false;
    };
    geometry_ok(image.size(), count)
        && image.count() <= count
        && begin(&Lengthened::of(&image, count, &erased), firsts)
}

#[test]
fn lengthened_images_go_on_with_erased_blocks(rt: HostRuntime) {
    assert!(rt; shows_longer(rt.alloc(), 6, &[0, 1, 2, 3, 0xff, 0xff]));
    assert!(rt; shows_longer(rt.alloc(), 4, &SHORT));
}
