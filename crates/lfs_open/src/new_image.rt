//! Whether what was to become an image is the one that its journal leads to.

ghost use Rattle.std.specs.Prelude.{◌≡◌, Some};
ghost use Rattle.lfs_host.specs.Scene.{KeepsAll};
ghost use Rattle.lfs_open.specs.Blamed.{IsBlamed};

use lfs_block::{Image, MAX_IMAGE_LENGTH};
use lfs_exchange::names_of;
use lfs_host::Host;
use lfs_journal::MAX_JOURNAL_LENGTH;
use lfs_report::{Statement, Stop};
use lfs_request::Fault;
use lfs_session::Session;
use std::alloc::Global;

/// Why a step on an image of this name ended early; where its journal is another image's, with whether that is the one beside it. Takes
/// memory.
pub fn with_new_image<H: Host>(
    alloc: Global,
    host: &mut H,
    size: u32,
    name: &str,
    stop: Stop,
) -> Stop
    ensures fault { result.fault ≡ stop.fault }
    ensures blamed { IsBlamed (Some stop.fault) (H.known host.old) → IsBlamed (Some stop.fault) (H.known host.new) }
    ensures kept { KeepsAll (H.known host.old) (H.known host.new) }
{
    let Fault::JournalMismatch = stop.fault else {
        return stop;
    };
    if !leads_to_new(alloc, host, size, name) {
        return stop;
    }
    stop.with(Some(Statement::NewImage))
}

/// Whether the journal of an image leads to what was to become it.
fn leads_to_new<H: Host>(alloc: Global, host: &mut H, size: u32, name: &str) -> bool
    ensures kept { KeepsAll (H.known host.old) (H.known host.new) }
{
    match names_of(alloc, name) {
        Ok(names) => leads_to(
            alloc,
            host,
            size,
            names.new_image.as_str(),
            names.journal.as_str(),
        ),
        Err(_) => false,
    }
}

/// Whether a journal leads to an image, both by their names.
fn leads_to<H: Host>(alloc: Global, host: &mut H, size: u32, image: &str, journal: &str) -> bool
    ensures kept { KeepsAll (H.known host.old) (H.known host.new) }
{
    let Ok(bytes) = host.find(alloc, image, MAX_IMAGE_LENGTH) else {
        return false;
    };
    match host.find(alloc, journal, MAX_JOURNAL_LENGTH) {
        Ok(journal) => opens(alloc, size, bytes, &journal),
        Err(_) => false,
    }
}

/// Whether bytes are an image that a journal leads to.
fn opens(alloc: Global, size: u32, bytes: Vec<u8>, journal: &[u8]) -> bool {
    match Image::new(bytes, size) {
        Ok(image) => Session::open(alloc, image, journal).is_ok(),
        Err(_) => false,
    }
}
