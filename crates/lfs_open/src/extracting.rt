//! What is made of an image in a new folder of the host.

ghost use Rattle.std.specs.Prelude.{◌≡◌, ◌⊎◌, IfErr, OnOk};
ghost use Rattle.std.specs.Option.{option_map};
ghost use Rattle.std.specs.Result.{result_err};
ghost use Rattle.lfs_request.specs.declared.fault.Fault.TheVariants.{HostEntry};
ghost use Rattle.lfs_exchange.specs.Handing.{IsUnreadBy};
ghost use Rattle.lfs_fs.specs.Mounted.{IsMountOf};
ghost use Rattle.lfs_host.specs.HostTree.{IsKind};
ghost use Rattle.lfs_host.specs.declared.host_kind.HostKind.TheVariants.{Missing};
ghost use Rattle.lfs_host.specs.HostCall.{Looking};
ghost use Rattle.lfs_host.specs.Scene.{KeepsAll, KeepsFiles};
ghost use Rattle.lfs_report.specs.Stop.{stopped_by};
ghost use Rattle.lfs_open.specs.Extracting.{EndsBytes, EndsExtract, EndsMaking, FindsFolder, fault_of_extracting};
ghost use Rattle.lfs_open.specs.Salvaging.{IsOther};

use crate::later::pass_alone;
use crate::viewing::read_by;
use lfs_block::Image;
use lfs_command::Refusal;
use lfs_exchange::{StepKind, fault_of_reading, taken_up};
use lfs_extract::{ExtractFault, extract_rows};
use lfs_fs::{Mounted, mount};
use lfs_host::{Host, HostKind};
use lfs_report::{Context, Stop, stop_of_extracting, stop_of_image};
use lfs_request::{Fault, Manner, Place, Request, View, names_of_directory};
use std::alloc::Global;

/// Makes a folder of the host out of what stands at a path in an image's file and below it, as the image is looked at. What commits of a
/// later version stand in it is put into
/// `context`. Takes memory.
pub fn extracted<H: Host>(
    alloc: Global,
    host: &mut H,
    request: &Request<'_>,
    context: &mut Context,
    view: View,
    path: &[u8],
    dir: &str,
) -> Result<(), Stop>
    ensures made { EndsExtract (record { takes_older = request.now.takes_older; view = view }) request.now.size request.now.image.now path.now dir.now
        (H.known host.old) (H.known host.new) (stopped_by result) }
    ensures kept { KeepsFiles (H.known host.old) (H.known host.new) }
{
    let handed = taken_up(alloc, host, StepKind::Asks, view.start(), request.image)?;
    let manner = Manner {
        takes_older: request.takes_older,
        view,
    };
    pass_alone(manner, request.size, &handed.image, context)?;
    let image = read_by(alloc, view, request.size, handed.image)?;
    extract_bytes(alloc, host, request, context, image, path, dir)
}

/// Makes a folder out of bytes that are an image. The text of what is told of its end is put into `context`.
fn extract_bytes<H: Host>(
    alloc: Global,
    host: &mut H,
    request: &Request<'_>,
    context: &mut Context,
    bytes: Vec<u8>,
    path: &[u8],
    dir: &str,
) -> Result<(), Stop>
    ensures made { EndsBytes request.now.size bytes.items path.now dir.now
        (H.known host.old).tree (H.known host.old).made (H.known host.new) (stopped_by result) }
    ensures kept { KeepsFiles (H.known host.old) (H.known host.new) }
{
    let size = request.size;
    let image = match Image::new(bytes, size) {
        Ok(image) => image,
        Err((fault, bytes)) => return Err(stop_of_image(Fault::Image(fault), size, &bytes)),
    };
    let mut place = None;
    match extract_image(alloc, host, &image, path, &mut place, dir) {
        Ok(()) => Ok(()),
        Err(fault) => Err(stop_of_extracting(
            alloc,
            &request.operation,
            fault,
            image,
            place,
            context,
        )),
    }
}

/// Makes a folder out of an image. Where the path is refused the place is left.
fn extract_image<H: Host>(
    alloc: Global,
    host: &mut H,
    image: &Image,
    path: &[u8],
    place: &mut Option<Place>,
    dir: &str,
) -> Result<(), Fault>
    ensures made { EndsMaking image.now.disk path.now dir.now (H.known host.old).tree (H.known host.old).made (H.known host.new) (result_err result) }
    ensures kept { KeepsFiles (H.known host.old) (H.known host.new) }
{
    let mounted = mount(alloc, image)?;
    extract_mounted(alloc, host, image, &mounted, path, place, dir)
}

/// Makes a folder out of what stands at a path and below it in an image that mounts so. The path is judged first: it has to be that of a
/// directory. Where it is refused the place is left. Takes memory.
pub(crate) fn extract_mounted<H: Host>(
    alloc: Global,
    host: &mut H,
    image: &Image,
    mounted: &Mounted,
    path: &[u8],
    place: &mut Option<Place>,
    dir: &str,
) -> Result<(), Fault>
    requires { IsMountOf image.now.disk mounted.now }
    ensures made { EndsMaking image.now.disk path.now dir.now
        (H.known host.old).tree (H.known host.old).made (H.known host.new) (result_err result) }
    ensures other { IsOther (result_err result) }
    ensures kept { KeepsFiles (H.known host.old) (H.known host.new) }
{
    match names_of_directory(alloc, image, mounted, path) {
        Ok(at) => {
            must_be_missing(host, dir)?;
            told(extract_rows(alloc, image, mounted, &at, dir, host))
        }
        Err(refusal) => {
            *place = Place::of(alloc, mounted.outline(), path, None);
            Err(Fault::Refused(refusal))
        }
    }
}

/// The end of making a folder, as it is told.
fn told(made: Result<(), ExtractFault>) -> Result<(), Fault>
    ensures { result_err result ≡ option_map fault_of_extracting (result_err made) }
{
    match made {
        Ok(()) => Ok(()),
        Err(fault) => Err(fault_of_extracting(fault)),
    }
}

/// What a fault of making a folder is told as.
pub(crate) fn fault_of_extracting(fault: ExtractFault) -> Fault
    ensures { result ≡ fault_of_extracting fault }
{
    match fault {
        ExtractFault::Memory => Fault::Refused(Refusal::Memory),
        ExtractFault::HostName => Fault::HostName,
        ExtractFault::CannotWrite => Fault::CannotWrite,
    }
}

/// Refuses a folder under whose name there is something already.
pub(crate) fn must_be_missing<H: Host>(host: &mut H, dir: &str) -> Result<(), Fault>
    ensures missing { OnOk result (IsKind (H.known host.old).tree dir.now Missing) }
    ensures refused { IfErr result (λ fault. IsUnreadBy (Looking dir.now) (H.known host.new) fault ⊎ ((fault ≡ HostEntry) × FindsFolder dir.now (H.known host.old).tree (H.known host.old).made (H.known host.new).made)) }
    ensures kept { KeepsAll (H.known host.old) (H.known host.new) }
{
    match host.kind(dir) {
        Ok(HostKind::Missing) => Ok(()),
        Ok(HostKind::File) => Err(Fault::HostEntry),
        Ok(HostKind::Folder) => Err(Fault::HostEntry),
        Ok(HostKind::Other) => Err(Fault::HostEntry),
        Err(fault) => Err(fault_of_reading(fault)),
    }
}
