//! Why an image was refused that a new one is made of, with what is known of it beside.

ghost use Rattle.std.specs.Prelude.{◌≡◌};
ghost use Rattle.lfs_request.specs.declared.fault.Fault.TheVariants.{Other};
ghost use Rattle.lfs_request.specs.declared.other_fault.OtherFault.TheVariants as other;

use crate::context::Context;
use crate::stated::{Sight, statement_for};
use crate::stop::Stop;
use crate::stopping::{blocks_in, statement_of_mount};
use lfs_block::{Image, ImageFault, MountFault};
use lfs_request::{Fault, OtherFault};
use std::alloc::Global;

/// Why bytes were refused as the image that a new one is made of, with blocks of `size` bytes, and what they state.
pub fn stop_of_source_bytes(fault: ImageFault, size: u32, bytes: &[u8]) -> Stop
    ensures { result.fault ≡ Other (other.Image fault) }
{
    let fault = Fault::Other(OtherFault::Image(fault));
    Stop {
        fault,
        statement: statement_for(fault, Sight::none(), Sight::of(size, bytes)),
        count: blocks_in(size, bytes),
        at: 0,
    }
}

/// Why the image that a new one is made of didn't mount, with what it states, or with the place of its fault, whose text is put into
/// `context`; `seen` is what was seen of its bytes. Takes memory, and tells of nothing more where it is refused.
pub fn stop_of_source(
    alloc: Global,
    fault: MountFault,
    image: &Image,
    seen: Sight,
    context: &mut Context,
) -> Stop
    ensures { result.fault ≡ Other (other.Mount fault) }
{
    Stop {
        fault: Fault::Other(OtherFault::Mount(fault)),
        statement: statement_of_mount(alloc, fault, image, seen, context),
        count: None,
        at: 0,
    }
}
