//! An image that a new one is made of, opened.

ghost use Rattle.std.specs.Prelude.{◌≡◌, ◌⊎◌, IfErr, IfOk};
ghost use Rattle.lfs_command.specs.declared.refusal.Refusal.TheVariants.{Memory};
ghost use Rattle.lfs_fs.specs.Mounted.{IsMountOf};
ghost use Rattle.lfs_host.specs.Scene.{IsCovered, KeepsAll, KeepsTally};
ghost use Rattle.lfs_request.specs.declared.fault.Fault.TheVariants.{Refused};
ghost use Rattle.lfs_open.specs.Opened.{IsSourceOpened, IsOpenedAs, IsOpenedOn, RefusesMounting};
ghost use Rattle.lfs_open.specs.Repacking.{JudgesSource, ReadsSource, RefusesSource};

use crate::later::pass_source;
use crate::viewing::read_by;
use lfs_block::{Blocks, Image, MountFault};
use lfs_exchange::read_other;
use lfs_fs::{Limits, Mounted, mount, outlines_are_sound};
use lfs_host::Host;
use lfs_pack::{SourceRow, source_rows};
use lfs_report::{Context, Sight, Stop, stop_of_source, stop_of_source_bytes};
use lfs_request::SourceImage;
use std::alloc::{AllocError, Global};

/// An image that a new one is made of: what is taken of it.
#[derive(Drop)]
pub struct Opened {
    /// How many bytes it has.
    pub len: u32,
    /// Its limits.
    pub limits: Limits,
    /// Copies of its rows.
    pub rows: Vec<SourceRow>,
}

/// Opens an image that a new one is made of. What commits of a later version stand in it is put into `context`, and the text of what is
/// told where it is refused. Takes memory.
pub fn open_source<H: Host>(
    alloc: Global,
    host: &mut H,
    context: &mut Context,
    source: &SourceImage<'_>,
) -> Result<Opened, Stop>
    ensures opened { IfOk result (IsSourceOpened source.now (H.known host.old).files) }
    ensures refused { IfErr result (λ stop. RefusesSource source.now (H.known host.old) (H.known host.new) stop.fault) }
    ensures tally { IsCovered (H.known host.old) source.now.file.now → KeepsTally (H.known host.old) (H.known host.new) }
    ensures kept { KeepsAll (H.known host.old) (H.known host.new) }
{
    let bytes = source_bytes(alloc, host, context, source)?;
    opened_as(alloc, source.size, bytes, context)
}

/// The bytes of its file, as they are read in its manner.
fn source_bytes<H: Host>(
    alloc: Global,
    host: &mut H,
    context: &mut Context,
    source: &SourceImage<'_>,
) -> Result<Vec<u8>, Stop>
    ensures read { IfOk result (λ image. ReadsSource source.now (H.known host.old).files image.items) }
    ensures refused { IfErr result (λ stop. RefusesSource source.now (H.known host.old) (H.known host.new) stop.fault) }
    ensures tally { IsCovered (H.known host.old) source.now.file.now → KeepsTally (H.known host.old) (H.known host.new) }
    ensures kept { KeepsAll (H.known host.old) (H.known host.new) }
{
    let SourceImage { file, size, manner } = *source;
    let bytes = read_other(alloc, host, manner.view.start(), file)?;
    pass_source(manner, size, &bytes, context)?;
    Ok(read_by(alloc, manner.view, size, bytes)?)
}

/// Opens the image that bytes are.
fn opened_as(
    alloc: Global,
    size: u32,
    bytes: Vec<u8>,
    context: &mut Context,
) -> Result<Opened, Stop>
    ensures opened { IfOk result (IsOpenedAs size bytes.items) }
    ensures refused { IfErr result (λ stop. (stop.fault ≡ Refused Memory) ⊎ JudgesSource size bytes.items stop.fault) }
{
    let seen = Sight::of(size, &bytes);
    match Image::new(bytes, size) {
        Ok(image) => opened_on(alloc, &image, seen, context),
        Err((fault, bytes)) => Err(stop_of_source_bytes(fault, size, &bytes)),
    }
}

/// Opens an image, of which this is seen.
fn opened_on(
    alloc: Global,
    image: &Image,
    seen: Sight,
    context: &mut Context,
) -> Result<Opened, Stop>
    ensures opened { IfOk result (IsOpenedOn image.now.disk) }
    ensures refused { IfErr result (λ stop. (stop.fault ≡ Refused Memory) ⊎ RefusesMounting image.now.disk stop.fault) }
{
    outlines_are_sound();
    let mounted = mounted_source(alloc, image, seen, context)?;
    Ok(Opened {
        len: image.size() * image.count(),
        limits: mounted.outline().limits,
        rows: source_rows(alloc, image, &mounted)?,
    })
}

/// Mounts it.
fn mounted_source(
    alloc: Global,
    image: &Image,
    seen: Sight,
    context: &mut Context,
) -> Result<Mounted, Stop>
    ensures mounted { IfOk result (λ mounted. IsMountOf image.now.disk mounted) }
    ensures refused { IfErr result (λ stop. (stop.fault ≡ Refused Memory) ⊎ RefusesMounting image.now.disk stop.fault) }
{
    match mount(alloc, image) {
        Ok(mounted) => Ok(mounted),
        Err(MountFault::Memory) => Err(Stop::from(AllocError)),
        Err(fault) => Err(stop_of_source(alloc, fault, image, seen, context)),
    }
}
