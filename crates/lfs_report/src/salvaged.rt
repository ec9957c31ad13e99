//! What was saved of an image that doesn't mount, as it is told.

ghost use Rattle.std.specs.Prelude.{◌≡◌};
ghost use Rattle.lfs_request.specs.declared.fault.Fault.TheVariants.{Mount};

use crate::stated::{Sight, Statement, statement_for};
use crate::stop::Stop;
use crate::superblock::superblock_statement;
use lfs_block::{Image, MountFault};
use lfs_request::Fault;
use std::alloc::Global;

/// Why not all of an image was saved, which doesn't mount for this fault, with what the image states where that may be why, and whether
/// what it begins with was read; `seen` is what is seen of its bytes. Takes memory, and tells of nothing more where it is refused.
pub fn stop_of_salvaging(
    alloc: Global,
    fault: MountFault,
    image: &Image,
    is_front_read: bool,
    seen: Sight,
) -> Stop
    ensures { result.fault ≡ Mount fault }
{
    Stop {
        fault: Fault::Mount(fault),
        statement: statement_of_lost(alloc, fault, image, is_front_read, seen),
        count: None,
        at: 0,
    }
}

/// What is told of an image of which something is lost, beside that: what its superblock states, behind a fault of its geometry or its
/// version; else what is seen of it, unless what it begins with is read, and the fault is one of another place.
fn statement_of_lost(
    alloc: Global,
    fault: MountFault,
    image: &Image,
    is_front_read: bool,
    seen: Sight,
) -> Option<Statement> {
    match fault {
        MountFault::Geometry | MountFault::Version => superblock_statement(alloc, fault, image),
        MountFault::NoValidCommit if is_front_read => None,
        fault => statement_for(Fault::Mount(fault), seen, Sight::none()),
    }
}
