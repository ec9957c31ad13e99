//! What is saved of an image, which needn't mount, in a new folder of the host.

ghost use Rattle.std.specs.Prelude.{◌≡◌, ◌≤◌, IfErr, IfOk, None, Some, if◌then◌else◌, length, true};
ghost use Rattle.lfs_block.specs.Disk.{IsDisk, image_of};
ghost use Rattle.lfs_block.specs.declared.mount_fault.MountFault.{MountFault};
ghost use Rattle.lfs_fs.specs.Mounted.{IsMountOf};
ghost use Rattle.lfs_host.specs.HostTree.{IsKind};
ghost use Rattle.lfs_host.specs.Scene.{KeepsFiles};
ghost use Rattle.lfs_host.specs.declared.host_kind.HostKind.TheVariants.{Missing};
ghost use Rattle.lfs_lower.specs.Through.{IsLoweredThrough};
ghost use Rattle.lfs_report.specs.Stop.{stopped_by};
ghost use Rattle.lfs_request.specs.declared.fault.Fault.TheVariants.{Mount};
ghost use Rattle.lfs_salvage.specs.Saved.{SavesAll};
ghost use Rattle.lfs_open.specs.ReadBy.{IsReadFrom};
ghost use Rattle.lfs_open.specs.Salvaging.{AreOwn, EndsImage, EndsNamed, EndsSalvage, EndsSalvaged, EndsSaving, Finds, misses, named_end};

use crate::extracting::{extract_mounted, fault_of_extracting, must_be_missing};
use crate::viewing::read_by;
use lfs_block::{Blocks, Image, MountFault};
use lfs_exchange::{StepKind, taken_up};
use lfs_fs::{Mounted, mount};
use lfs_host::Host;
use lfs_lower::lower_all;
use lfs_report::{Context, Sight, Stop, stop_of_image, stop_of_salvaging};
use lfs_request::{Fault, Request, View};
use lfs_salvage::{Saved, has_other_names, salvage_lines, save_image};
use lfs_survey::{Found, has_older, older_lines, older_places, survey_all};
use std::alloc::{AllocError, Global};

/// Bytes of an image's file, from its place on.
#[derive(Drop)]
struct HeldBytes {
    /// The size of a block.
    size: u32,
    /// The file's own bytes.
    own: Vec<u8>,
    /// Those of the image, as a device reads them.
    read: Vec<u8>,
}

/// An image that is salvaged.
#[derive(Drop)]
struct Reading {
    /// It, as a device reads it.
    image: Image,
    /// The image of its file's own bytes.
    disk: Image,
    /// That with each block lowered.
    parts: Image,
    /// What is seen of its bytes.
    seen: Sight,
}

/// Makes a folder of the host with all that can still be read of an image's file, which is read as a device does: if the image mounts, and
/// hosts have all its names, the folder that is made of any. It ends well only if nothing that is named is lost, and no older state of a
/// pair is saved. What is told of it is put into `context`. Takes memory.
pub fn salvaged<H: Host>(
    alloc: Global,
    host: &mut H,
    request: &Request<'_>,
    context: &mut Context,
    view: View,
    dir: &str,
) -> Result<(), Stop>
    ensures made { EndsSalvage view request.now.size request.now.image.now dir.now (H.known host.old) (H.known host.new) (stopped_by result) }
    ensures kept { KeepsFiles (H.known host.old) (H.known host.new) }
{
    let handed = taken_up(alloc, host, StepKind::Asks, view.start(), request.image)?;
    context.by_device = true;
    let own = Vec::from_slice(alloc, &handed.image)?;
    let read = read_by_device(alloc, view, request.size, handed.image)?;
    let held = HeldBytes {
        size: request.size,
        own,
        read,
    };
    salvage_bytes(alloc, host, context, held, dir)
}

/// Bytes of an image's file, from its place on, as a device reads them.
fn read_by_device(
    alloc: Global,
    view: View,
    size: u32,
    bytes: Vec<u8>,
) -> Result<Vec<u8>, AllocError>
    ensures { IfOk result (λ read. IsReadFrom view.offset true size bytes.items read.items) }
{
    let as_device = View {
        by_device: true,
        offset: view.offset,
    };
    read_by(alloc, as_device, size, bytes)
}

/// Makes a folder with all that can still be read of bytes that are an image.
fn salvage_bytes<H: Host>(
    alloc: Global,
    host: &mut H,
    context: &mut Context,
    held: HeldBytes,
    dir: &str,
) -> Result<(), Stop>
    requires { length held.read.items ≤ length held.own.items }
    ensures made { EndsSalvaged held.size held.own.items held.read.items dir.now
        (H.known host.old).tree (H.known host.old).made (H.known host.new) (stopped_by result) }
    ensures kept { KeepsFiles (H.known host.old) (H.known host.new) }
{
    let HeldBytes { size, own, read } = held;
    let seen = Sight::of(size, &read);
    match Image::new(read, size) {
        Ok(image) => {
            let reading = reading_of(alloc, seen, own, image)?;
            salvage_image(alloc, host, context, &reading, dir)
        }
        Err((fault, read)) => Err(stop_of_image(Fault::Image(fault), size, &read)),
    }
}

/// An image of which this is seen, with those of its file's own bytes.
fn reading_of(alloc: Global, seen: Sight, own: Vec<u8>, image: Image) -> Result<Reading, AllocError>
    requires { length image.disk.bytes ≤ length own.items }
    ensures image { IfOk result (λ reading. reading.image.disk ≡ image.disk) }
    ensures own { IfOk result (λ reading. AreOwn image.disk.size own.items image.disk.bytes reading.disk.disk reading.parts.disk) }
{
    let (disk, parts) = own_images(alloc, own, &image)?;
    Ok(Reading {
        image,
        disk,
        parts,
        seen,
    })
}

/// The image of a file's own bytes that is as long as the one that is read of them, and a copy of it with each block lowered.
fn own_images(alloc: Global, own: Vec<u8>, image: &Image) -> Result<(Image, Image), AllocError>
    requires { length image.now.disk.bytes ≤ length own.items }
    ensures { IfOk result (λ read. AreOwn image.now.disk.size own.items image.now.disk.bytes read.0.disk read.1.disk) }
{
    let mut own = own;
    own.truncate((image.size() * image.count()) as usize);
    let mut parts = image_like(image, Vec::from_slice(alloc, &own)?);
    lower_all(alloc, &mut parts)?;
    Ok((image_like(image, own), parts))
}

/// The image of bytes that are as many as another one has.
fn image_like(image: &Image, bytes: Vec<u8>) -> Image
    requires { length bytes.items ≡ length image.now.disk.bytes }
    ensures { result.disk ≡ image_of image.now.disk.size bytes.items }
{
    let Ok(made) = Image::new(bytes, image.size()) else {
        unreachable!();
    };
    made
}

/// Makes a folder with all that can still be read of an image.
fn salvage_image<H: Host>(
    alloc: Global,
    host: &mut H,
    context: &mut Context,
    reading: &Reading,
    dir: &str,
) -> Result<(), Stop>
    ensures made { EndsImage reading.now.image.disk reading.now.disk.disk reading.now.parts.disk dir.now
        (H.known host.old).tree (H.known host.old).made (H.known host.new) (stopped_by result) }
    ensures kept { KeepsFiles (H.known host.old) (H.known host.new) }
{
    match mount(alloc, &reading.image) {
        Ok(mounted) => salvage_mounted(alloc, host, context, reading, &mounted, dir),
        Err(MountFault::Memory) => Err(Stop::from(AllocError)),
        Err(cause) => save_readable(alloc, host, context, reading, cause, dir),
    }
}

/// Makes a folder of all that can be read of an image, which is told to have this fault.
fn save_readable<H: Host>(
    alloc: Global,
    host: &mut H,
    context: &mut Context,
    reading: &Reading,
    cause: MountFault,
    dir: &str,
) -> Result<(), Stop>
    ensures made { EndsSaving reading.now.disk.disk reading.now.parts.disk cause dir.now
        (H.known host.old).tree (H.known host.old).made (H.known host.new) (stopped_by result) }
    ensures kept { KeepsFiles (H.known host.old) (H.known host.new) }
{
    let saved = save_new(alloc, host, &reading.disk, &reading.parts, dir)?;
    ended(alloc, context, cause, reading, saved)
}

/// Makes a folder of an image that mounts so. If something is found that no path leads to, or a name that a host may not have, all that can
/// be read is saved; else, if an older state of a pair is found, it ends with `DamagedCommit`.
fn salvage_mounted<H: Host>(
    alloc: Global,
    host: &mut H,
    context: &mut Context,
    reading: &Reading,
    mounted: &Mounted,
    dir: &str,
) -> Result<(), Stop>
    requires mounted { IsMountOf reading.now.image.disk mounted.now }
    ensures made { EndsImage reading.now.image.disk reading.now.disk.disk reading.now.parts.disk dir.now
        (H.known host.old).tree (H.known host.old).made (H.known host.new) (stopped_by result) }
    ensures kept { KeepsFiles (H.known host.old) (H.known host.new) }
{
    let (has_lost, is_older, has_other, lines) = find(alloc, &reading.disk, &reading.parts)?;
    if has_lost {
        return save_readable(alloc, host, context, reading, MountFault::Orphan, dir);
    }
    if has_other {
        return save_named(alloc, host, context, reading, dir);
    }
    extract_mounted(alloc, host, &reading.image, mounted, b"/", &mut None, dir)?;
    if is_older {
        context.lines = lines;
        return Err(Stop::from(Fault::DamagedCommit));
    }
    Ok(())
}

/// Makes a folder of all that can be read of an image that mounts, of which a host may not have each name. It ends with `HostName` if
/// something is lost.
fn save_named<H: Host>(
    alloc: Global,
    host: &mut H,
    context: &mut Context,
    reading: &Reading,
    dir: &str,
) -> Result<(), Stop>
    ensures made { EndsNamed reading.now.disk.disk reading.now.parts.disk dir.now
        (H.known host.old).tree (H.known host.old).made (H.known host.new) (stopped_by result) }
    ensures kept { KeepsFiles (H.known host.old) (H.known host.new) }
{
    let saved = save_new(alloc, host, &reading.disk, &reading.parts, dir)?;
    ended_named(alloc, context, &reading.disk, saved)
}

/// How it ends that this was saved of an image that mounts. What is told of it is put into `context`.
fn ended_named(alloc: Global, context: &mut Context, disk: &Image, saved: Saved) -> Result<(), Stop>
    ensures { stopped_by result ≡ named_end disk.now.disk saved }
{
    let end = end_of_named(disk, &saved);
    if let Ok(lines) = salvage_lines(alloc, disk, saved) {
        context.lines = lines;
    }
    end
}

/// The end itself.
fn end_of_named(disk: &Image, saved: &Saved) -> Result<(), Stop>
    ensures { stopped_by result ≡ named_end disk.now.disk saved.now }
{
    if saved.has_loss() {
        return Err(Stop::from(Fault::HostName));
    }
    if has_older(true, disk, &saved.areas) {
        return Err(Stop::from(Fault::DamagedCommit));
    }
    Ok(())
}

/// Whether something is found that no path leads to, whether an older state of a pair is, and whether a name is that a host may not have,
/// with what is told of older states.
fn find(
    alloc: Global,
    disk: &Image,
    parts: &Image,
) -> Result<(bool, bool, bool, Vec<String>), AllocError>
    ensures { IfOk result (λ found. Finds disk.now.disk parts.now.disk found.0 found.1 found.2) }
{
    let survey = survey_all(alloc, parts)?;
    let places = older_places(alloc, true, disk, &survey)?;
    let lines = older_lines(alloc, &survey, &places)?;
    let has_lost = survey.areas.len() > 1;
    let has_other = has_other_names(&survey.areas);
    Ok((
        has_lost,
        has_older(true, disk, &survey.areas),
        has_other,
        lines,
    ))
}

/// Saves all that can still be read of an image, of files in `disk` and of pairs in `parts`, unless something is there under the folder's
/// name.
fn save_new<H: Host>(
    alloc: Global,
    host: &mut H,
    disk: &Image,
    parts: &Image,
    dir: &str,
) -> Result<Saved, Fault>
    ensures saved { IfOk result (λ saved. IsKind (H.known host.old).tree dir.now Missing
        × SavesAll disk.now.disk parts.now.disk dir.now (H.known host.old).made (H.known host.new).made saved) }
    ensures stopped { IfErr result (λ fault. (cause : MountFault) → EndsSaving disk.now.disk parts.now.disk cause dir.now
        (H.known host.old).tree (H.known host.old).made (H.known host.new) (Some fault)) }
    ensures kept { KeepsFiles (H.known host.old) (H.known host.new) }
{
    must_be_missing(host, dir)?;
    match save_image(alloc, disk, parts, dir, host) {
        Ok(saved) => Ok(saved),
        Err(fault) => Err(fault_of_extracting(fault)),
    }
}

/// How it ends that this was saved of an image that doesn't mount for this cause: with the cause if something is missed. What is told of it is put into `context`.
fn ended(
    alloc: Global,
    context: &mut Context,
    cause: MountFault,
    reading: &Reading,
    saved: Saved,
) -> Result<(), Stop>
    ensures { stopped_by result ≡ (if misses reading.now.disk.disk saved then Some (Mount cause) else None) }
{
    let end = end_of(alloc, cause, reading, &saved);
    if end.is_ok() {
        context.unmounted = Some(cause);
    }
    if let Ok(lines) = salvage_lines(alloc, &reading.disk, saved) {
        context.lines = lines;
    }
    end
}

/// The end itself.
fn end_of(alloc: Global, cause: MountFault, reading: &Reading, saved: &Saved) -> Result<(), Stop>
    ensures { stopped_by result ≡ (if misses reading.now.disk.disk saved.now then Some (Mount cause) else None) }
{
    if misses(&reading.disk, saved) {
        let is_read = is_front_read(saved);
        return Err(stop_of_salvaging(alloc, cause, &reading.image, is_read, reading.seen));
    }
    Ok(())
}

/// Whether something isn't saved as it was last: it is lost, or an older state of a pair is saved, since a later commit is damaged.
fn misses(disk: &Image, saved: &Saved) -> bool
    ensures { result ≡ misses disk.now.disk saved.now }
{
    saved.has_loss() || has_older(true, disk, &saved.areas)
}

/// Whether a part is found at the pair with which an image begins.
fn is_front_read(saved: &Saved) -> bool {
    match saved.areas.first() {
        Some(root) => matches!(root.found.first(), Some(Found::Part(_))),
        None => false,
    }
}
