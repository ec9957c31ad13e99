//! The session of an image and of the bytes of its journal.

ghost use Rattle.std.specs.Prelude.{◌≡◌, IfOk, IfErr};
ghost use Rattle.lfs_change.specs.Change.{DenotesOn, RefusesDenoting};

use lfs_block::Image;
use lfs_history::OpenFault;
use lfs_session::{Refused, Session};
use std::alloc::Global;

/// The session of an image and the bytes of its journal; without any, nothing was done to the image.
pub(crate) fn opened(alloc: Global, image: Image, journal: &[u8]) -> Result<Session, Refused>
    ensures opened { IfOk result (λ session. DenotesOn image.disk journal.now session) }
    ensures refused { IfErr result (λ refused. RefusesDenoting refused.fault image.disk journal.now) }
    ensures handed_back { IfErr result (λ refused. refused.image.disk ≡ image.disk) }
{
    if !journal.is_empty() {
        return Session::open(alloc, image, journal);
    }
    match Session::fresh(alloc, image) {
        Ok(session) => Ok(session),
        Err(unmounted) => Err(Refused {
            fault: OpenFault::Mount(unmounted.fault),
            image: unmounted.image,
        }),
    }
}
