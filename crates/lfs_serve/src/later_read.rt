//! Commits of later disk versions in what a step is done on.

ghost use Rattle.std.specs.Prelude.{◌≡◌};
ghost use Rattle.lfs_open.specs.Later.{refused_by};
ghost use Rattle.lfs_report.specs.Stop.{stopped_by};
ghost use Rattle.lfs_serve.specs.LaterRead.{later_read};

use lfs_lower::later_version;
use lfs_open::pass;
use lfs_report::{Context, Later, Stop};
use lfs_request::{Manner, Query};
use lfs_step::Step;

/// Refuses those in what a step is done on: an image of these bytes, and the one that it is compared with.
pub(crate) fn pass_step(
    manner: Manner,
    step: &Step<'_>,
    size: u32,
    image: &[u8],
    context: &mut Context,
) -> Result<(), Stop>
    ensures { stopped_by result ≡ refused_by manner (later_read step.now size image.now) }
{
    if manner.view.by_device {
        context.by_device = true;
        return Ok(());
    }
    pass(manner, later_read(step, size, image), context)
}

/// Those in an image of these bytes, and in the one that it is compared with. An image is taken over with them.
fn later_read(step: &Step<'_>, size: u32, image: &[u8]) -> Later
    ensures { result ≡ later_read step.now size image.now }
{
    if let Step::Adopt { .. } = step {
        return Later {
            image: None,
            other: None,
        };
    }
    let other = match step {
        Step::Ask {
            query: Query::Diff {
                other,
                size: other_size,
                ..
            },
            ..
        } => later_version(other, *other_size),
        _ => None,
    };
    Later {
        image: later_version(image, size),
        other,
    }
}
