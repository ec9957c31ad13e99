//! All but an image is forgotten.

ghost use Rattle.std.specs.Prelude.{◌≡◌, false};
ghost use Rattle.lfs_block.specs.Disk.{IsDisk};
ghost use Rattle.lfs_request.specs.Fault.{blames_output, status_of};
ghost use Rattle.lfs_change.specs.Forgetting.{AnswersForgetting};

use crate::outcomes::outcome_of;
use lfs_block::Image;
use lfs_request::{Fault, Outcome};
use lfs_session::{Session, Unmounted};
use std::alloc::Global;

/// Forgets all but bytes that are an image, with blocks of `size` bytes: where it mounts it gets a journal without changes. The journal
/// isn't read, whatever it is; with a fault it is answered as it was handed in, and so is the image. Takes memory.
pub fn forgotten(alloc: Global, size: u32, image: Vec<u8>, journal: Vec<u8>) -> Outcome
    ensures answers { AnswersForgetting result.fault size image.items journal.items result }
    ensures failed { blames_output result.fault ≡ false }
    ensures status { result.status ≡ status_of result.fault }
{
    match Image::new(image, size) {
        Ok(image) => image_forgotten(alloc, image, journal),
        Err((fault, image)) => Outcome::new(image, journal, Some(Fault::Image(fault))),
    }
}

/// Forgets all but an image.
fn image_forgotten(alloc: Global, image: Image, journal: Vec<u8>) -> Outcome
    requires { IsDisk image.disk }
    ensures answers { AnswersForgetting result.fault image.disk.size image.disk.bytes journal.items result }
    ensures failed { blames_output result.fault ≡ false }
    ensures status { result.status ≡ status_of result.fault }
{
    match Session::fresh(alloc, image) {
        Ok(session) => outcome_of(session),
        Err(Unmounted { fault, image }) => {
            Outcome::new(image.into_bytes(), journal, Some(Fault::from(fault)))
        }
    }
}
