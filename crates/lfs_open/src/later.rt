//! Commits of later disk versions in what is read as an image.

ghost use Rattle.std.specs.Prelude.{◌≡◌};
ghost use Rattle.lfs_report.specs.Stop.{stopped_by};
ghost use Rattle.lfs_open.specs.Later.{later_alone, later_in_source, refused_by};

use lfs_block::MountFault;
use lfs_lower::later_version;
use lfs_report::{Context, Later, Statement, Stop};
use lfs_request::{Fault, Manner, OtherFault};

/// Refuses those in an image alone, of blocks of `size` bytes, unless its manner takes them. Those that are to be told of are put into
/// `context`, as they are by the next one.
pub(crate) fn pass_alone(
    manner: Manner,
    size: u32,
    bytes: &[u8],
    context: &mut Context,
) -> Result<(), Stop>
    ensures { stopped_by result ≡ refused_by manner (later_alone size bytes.now) }
{
    if manner.view.by_device {
        context.by_device = true;
        return Ok(());
    }
    pass(manner, later_alone(size, bytes), context)
}

/// Refuses those in an image that another one is made of.
pub(crate) fn pass_source(
    manner: Manner,
    size: u32,
    bytes: &[u8],
    context: &mut Context,
) -> Result<(), Stop>
    ensures { stopped_by result ≡ refused_by manner (later_in_source size bytes.now) }
{
    if manner.view.by_device {
        context.by_device = true;
        return Ok(());
    }
    pass(manner, later_in_source(size, bytes), context)
}

/// Those in an image alone.
fn later_alone(size: u32, bytes: &[u8]) -> Later
    ensures { result ≡ later_alone size bytes.now }
{
    Later {
        image: later_version(bytes, size),
        other: None,
    }
}

/// Those in an image that another one is made of.
fn later_in_source(size: u32, bytes: &[u8]) -> Later
    ensures { result ≡ later_in_source size bytes.now }
{
    Later {
        image: None,
        other: later_version(bytes, size),
    }
}

/// Refuses commits of later versions, by the versions that stand in an image and in another one, unless the manner takes them. Those that
/// are to be told of are put into `context`.
pub fn pass(manner: Manner, later: Later, context: &mut Context) -> Result<(), Stop>
    ensures { stopped_by result ≡ refused_by manner later }
{
    must_be_read(manner, later)?;
    if later.image.is_some() || later.other.is_some() {
        context.later = later;
    }
    Ok(())
}

/// Refuses them, unless they are read, or the state before them is gone on with.
fn must_be_read(manner: Manner, later: Later) -> Result<(), Stop>
    ensures { stopped_by result ≡ refused_by manner later }
{
    if manner.takes_older || manner.view.by_device {
        return Ok(());
    }
    match (later.image, later.other) {
        (Some(version), _) => Err(stop_of(Fault::Mount(MountFault::Version), version)),
        (None, Some(version)) => Err(stop_of(
            Fault::Other(OtherFault::Mount(MountFault::Version)),
            version,
        )),
        (None, None) => Ok(()),
    }
}

/// The fault of an image in which commits of this version stand.
fn stop_of(fault: Fault, version: u32) -> Stop
    ensures { result.fault ≡ fault }
{
    Stop {
        fault,
        statement: Some(Statement::Later(version)),
        count: None,
        at: 0,
    }
}
