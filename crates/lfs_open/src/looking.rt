//! Looking for images in a file of a host.

ghost use Rattle.std.specs.Prelude.{IfErr, IfOk};
ghost use Rattle.std.specs.Result.{result_err};
ghost use Rattle.lfs_exchange.specs.Handing.{IsUnreadBy};
ghost use Rattle.lfs_open.specs.Finding.{EndsFinding, PrintsText, most_flash};
ghost use Rattle.lfs_open.specs.FoundText.{found_text};
ghost use Rattle.lfs_host.specs.Files.{ReadsFile};
ghost use Rattle.lfs_host.specs.HostCall.{Reading};
ghost use Rattle.lfs_host.specs.Scene.{KeepsAll, KeepsInput};

use crate::sending::send_found;
use lfs_command::Refusal;
use lfs_exchange::{Output, fault_of_reading, flush};
use lfs_find::{Found, find_images};
use lfs_host::Host;
use lfs_json::Form;
use lfs_listing::Unsent;
use lfs_request::Fault;
use std::alloc::Global;

/// The most bytes of a file that are looked at: as many as a file may have.
const MOST_FLASH: u64 = 9_223_372_036_854_775_807;

/// Lists the images that stand in the file of this name on standard output, a line each, as `send_found` sends them. `CannotRead` if the
/// host refuses to read it, `CannotWrite` if it refuses what is printed. Takes memory.
pub fn list_images<H: Host>(
    alloc: Global,
    host: &mut H,
    form: Form,
    name: &str,
) -> Result<(), Fault>
    ensures { EndsFinding form name.now (H.known host.old) (H.known host.new) (result_err result) }
{
    let bytes = flash_bytes(alloc, host, name)?;
    let found = find_images(alloc, &bytes)?;
    print_found(alloc, host, form, &found)
}

/// The bytes of the file in which images are looked for.
fn flash_bytes<H: Host>(alloc: Global, host: &mut H, name: &str) -> Result<Vec<u8>, Fault>
    ensures read { IfOk result (λ bytes. ReadsFile (H.known host.old).files name.now most_flash bytes.items) }
    ensures refused { IfErr result (IsUnreadBy (Reading name.now) (H.known host.new)) }
    ensures kept { KeepsAll (H.known host.old) (H.known host.new) }
{
    match host.read(alloc, name, 0, MOST_FLASH) {
        Ok(bytes) => Ok(bytes),
        Err(fault) => Err(fault_of_reading(fault)),
    }
}

/// Prints the lines of what is found, and hands them on.
fn print_found<H: Host>(
    alloc: Global,
    host: &mut H,
    form: Form,
    found: &[Found],
) -> Result<(), Fault>
    ensures printed { PrintsText (result_err result) (H.known host.old) (H.known host.new) (found_text form found.now) }
    ensures kept { KeepsInput (H.known host.old) (H.known host.new) }
{
    match send_found(alloc, form, found, &mut Output::new(host)) {
        Ok(()) => flush(host),
        Err(Unsent::CannotWrite) => Err(Fault::CannotWrite),
        Err(Unsent::Memory) => Err(Fault::Refused(Refusal::Memory)),
    }
}
