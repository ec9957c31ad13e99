//! Judging what stands at a place.

ghost use Rattle.std.specs.Prelude.{◌≡◌, ◌≤◌, length, IfOk, IfSome, IfNone, None};
ghost use Rattle.std.specs.List.{AllByRecursion};
ghost use Rattle.lfs_fs.specs.Cause.{HasCause, IsOfFormat};
ghost use Rattle.lfs_fs.specs.Mounted.{MountedValue, IsMountOf};
ghost use Rattle.lfs_find.specs.Found.{IsBest, IsFoundAt, IsReadAt, IsVerdict, IsWithin, end_of};
ghost use Rattle.lfs_find.specs.declared.unmounted.Unmounted.TheVariants.{Mount};

use crate::found::Found;
use crate::place::Place;
use crate::unmounted::Unmounted;
use lfs_block::{Blocks, Image, MountFault};
use lfs_fs::mount;
use lfs_settle::read_as;
use std::alloc::{AllocError, Global};

/// The image that is read at a place of a file.
fn read_at(alloc: Global, bytes: &[u8], place: Place) -> Result<Vec<u8>, AllocError>
    requires { end_of place ≤ length bytes.now }
    ensures { IfOk result (λ image. IsReadAt bytes.now place image.items) }
{
    let (_, rest) = bytes.split_at(place.at);
    let (held, _) = rest.split_at(place.count as usize * place.size as usize);
    let mut image = Vec::new(alloc);
    image.extend_from_slice(held)?;
    read_as(alloc, true, place.size, image)
}

/// Why an image does not mount; `None` if it does.
fn fault_of(alloc: Global, image: &Image) -> Result<Option<MountFault>, AllocError>
    ensures mounts { IfOk result (λ fault. IfNone fault ((m : MountedValue) × IsMountOf image.now.disk m)) }
    ensures cause { IfOk result (λ fault. IfSome fault (λ f. IsOfFormat f × HasCause image.now.disk f)) }
{
    let Err(fault) = mount(alloc, image) else {
        return Ok(None);
    };
    match fault {
        MountFault::Memory => Err(AllocError),
        _ => Ok(Some(fault)),
    }
}

/// What is found at a place where an image was read.
fn found_image(alloc: Global, place: Place, image: &Image) -> Result<Found, AllocError>
    ensures place { IfOk result (λ found. found.place ≡ place) }
    ensures verdict { IfOk result (λ found. IsVerdict image.now.disk found.fault) }
{
    let _fits_the_limits = image.size();
    Ok(Found {
        place,
        fault: fault_of(alloc, image)?.map(Unmounted::Mount),
    })
}

/// What is found at a place of a file. Takes memory.
fn found_at(alloc: Global, bytes: &[u8], place: Place) -> Result<Found, AllocError>
    requires { end_of place ≤ length bytes.now }
    ensures place { IfOk result (λ found. found.place ≡ place) }
    ensures found { IfOk result (λ found. IsFoundAt bytes.now found) }
{
    let image = read_at(alloc, bytes, place)?;
    match Image::new(image, place.size) {
        Ok(image) => found_image(alloc, place, &image),
        Err((fault, _)) => Ok(Found {
            place,
            fault: Some(Unmounted::Image(fault)),
        }),
    }
}

/// What is found at the first of these places that mounts, and else at the first one; `None` if there is none. Takes memory.
pub(crate) fn best_of(
    alloc: Global,
    bytes: &[u8],
    places: &[Place],
) -> Result<Option<Found>, AllocError>
    requires { AllByRecursion (IsWithin bytes.now) places.now }
    ensures { IfOk result (λ best. IsBest bytes.now places.now None best) }
{
    let mut first = None;
    for place in places {
        let found = found_at(alloc, bytes, *place)?;
        if found.fault.is_none() {
            return Ok(Some(found));
        }
        first = first.or(Some(found));
    }
    Ok(first)
}
