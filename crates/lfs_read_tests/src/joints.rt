//! Patches as one, by example.

use crate::patches::{SHORT, begin, record, sample, short};
use lfs_block::{Blocks, Image, Patch};
use lfs_journal::{Joint, composed_patches_apply};
use std::alloc::{AllocError, Global};

/// The patch that writes into blocks 1 and 2 behind the one that writes into blocks 1 and 3.
fn later(alloc: Global) -> Result<Patch, AllocError> {
    let mut records = Vec::new(alloc);
    records.push(record(alloc, 256, 1, 8, 7)?)?;
    records.push(record(alloc, 256, 2, 2, 6)?)?;
    Ok(Patch::of(256, 4, 4, records))
}

/// Makes two patches one after another in an image, and answers both as one, if they are patches of it.
fn made_as_one(
    alloc: Global,
    image: &mut Image,
    first: &Patch,
    second: &Patch,
) -> Result<Option<Patch>, AllocError> {
    composed_patches_apply();
    prove!(image.count() <= image.room());
    if !first.agrees_old(image) || first.after() > image.room() {
        return Ok(None);
    }
    first.apply(image);
    if !second.agrees_old(image) || second.after() > image.room() {
        return Ok(None);
    }
    second.apply(image);
    let named = second.records().len();
    let mut joint = Joint::of(alloc, first)?;
    joint.lay(alloc, second)?;
    if named == 2 {
        Ok(Some(joint.into_patch()))
    } else {
        Ok(None)
    }
}

/// Whether a patch names three blocks, and takes back what it makes of the short image, which is shown.
fn is_of_both(patch: &Patch, image: &mut Image) -> bool {
    if patch.records().len() != 3 || !begin(image, &[0, 7, 6, 9]) || !patch.agrees_new(image) {
        return false;
    }
    patch.revert(image);
    begin(image, &SHORT)
}

/// Whether two patches are one that takes both back at once.
fn are_one(alloc: Global) -> bool {
    let Some(mut image) = short(alloc) else {
        return false;
    };
    let (Ok(first), Ok(second)) = (sample(alloc, false), later(alloc)) else {
        return false;
    };
    match made_as_one(alloc, &mut image, &first, &second) {
        Ok(Some(patch)) => is_of_both(&patch, &mut image),
        _ => false,
    }
}

#[test]
fn two_patches_are_one(rt: HostRuntime) {
    assert!(rt; are_one(rt.alloc()));
}
