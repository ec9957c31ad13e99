//! What is asked of an image and its journal.

ghost use Rattle.std.specs.Prelude.{◌≡◌, false, IfErr};
ghost use Rattle.std.specs.Result.{result_err};
ghost use Rattle.lfs_block.specs.Disk.{Disk};
ghost use Rattle.lfs_fs.specs.Mounted.{IsMountOf};
ghost use Rattle.lfs_listing.specs.Unsent.{SendsListing, blames_sink};
ghost use Rattle.lfs_request.specs.Fault.{blames_output, status_of};
ghost use Rattle.lfs_listing.specs.Below.{names};
ghost use Rattle.lfs_step.specs.Asking.{RefusesAsked, SendsAsked};
ghost use Rattle.lfs_step.specs.Listed.{listing_text};
ghost use Rattle.lfs_step.specs.Comparing.{said_form};
ghost use Rattle.lfs_step.specs.Outcome.{Answers, SendsText, given};
ghost use Rattle.lfs_step.specs.Query.{RefusesReport, SendsReport, blocks_text, end_of_check};
ghost use Rattle.lfs_request.specs.declared.query.Query.TheVariants.{Blocks, Cat, Check, Ls};
ghost use Rattle.lfs_step.specs.declared.step.Step.TheVariants.{Ask};

use crate::comparing::compare_bytes;
use crate::contents::send_file;
use crate::recounting::recount;
use crate::sending::{fault_of_listing, sent_complete};
use crate::summary::{check_text, has_longer};
use lfs_block::Image;
use lfs_fs::{Mounted, mount};
use lfs_json::Form;
use lfs_listing::{
    MountedImage, Unsent, send_block_map, send_block_sums, send_digests, send_listing,
};
use lfs_request::{Fault, Outcome, Place, Query, names_there};
use lfs_sink::{Sink, send};
use std::alloc::Global;
use std::mem::forget;

/// Answers a query of bytes that are an image, with blocks of `size` bytes, and of its journal, in a form; both are answered as they were
/// handed in. Takes memory.
pub fn queried<S: Sink>(
    alloc: Global,
    query: Query<'_, Vec<u8>>,
    form: Form,
    size: u32,
    image: Vec<u8>,
    journal: Vec<u8>,
    out: &mut S,
) -> Outcome
    requires { S.failed out.old ≡ false }
    ensures answers { Answers (Ask query.entry form) (given size image.items journal.items) result }
    ensures sent { SendsText (Ask query.entry form) (given size image.items journal.items) result (S.sent out.old) (S.sent out.new) }
    ensures failed { S.failed out.new ≡ blames_output result.fault }
    ensures kept { S.kept out.new ≡ S.kept out.old }
    ensures status { result.status ≡ status_of result.fault }
{
    match Image::new(image, size) {
        Ok(mut image) => {
            let mut place = None;
            let fault = report(alloc, query, form, &mut image, &journal, &mut place, out).err();
            Outcome::placed(image.into_bytes(), journal, fault, 0, place)
        }
        Err((fault, image)) => Outcome::new(image, journal, Some(Fault::Image(fault))),
    }
}

/// Says the answer to a query of an image, which stands again as it was, and its journal. Where the path of a file is refused the place
/// is left.
fn report<S: Sink>(
    alloc: Global,
    query: Query<'_, Vec<u8>>,
    form: Form,
    image: &mut Image,
    journal: &[u8],
    place: &mut Option<Place>,
    out: &mut S,
) -> Result<(), Fault>
    requires { S.failed out.old ≡ false }
    ensures refused { IfErr result (λ fault. RefusesAsked query.entry form image.old.disk journal.now fault) }
    ensures sent { SendsAsked query.entry form image.old.disk journal.now (result_err result) (S.sent out.old) (S.sent out.new) }
    ensures failed { S.failed out.new ≡ blames_output (result_err result) }
    ensures kept { S.kept out.new ≡ S.kept out.old }
    ensures disk { image.new.disk ≡ image.old.disk }
{
    match query {
        Query::Check { version, most } => say_check(alloc, form, version, most, image, out),
        Query::Ls { path, digests } => {
            say_listing(alloc, form, digests, image, path, place, out)
        }
        Query::Blocks { sums } => say_blocks(alloc, form, image, sums, out),
        Query::Cat { path } => say_contents(alloc, form, image, path, place, out),
        Query::Diff { other, size, quiet } => {
            compare_bytes(alloc, image, size, other, said_form(quiet, form), out)
        }
        Query::Log => recount(alloc, form, image, journal, out),
    }
}

/// How what differs is said: in a form, or for `None` not at all.
fn said_form(quiet: bool, form: Form) -> Option<Form>
    ensures { result ≡ said_form quiet form }
{
    if quiet { None } else { Some(form) }
}

/// Says what an image of this disk version holds, in one line, and which files stand in their entries and are longer than `most` bytes, if
/// that is asked for. What was mounted isn't given back to the allocator, since the program ends behind its answer: to give names back one
/// by one takes a tenth of the time of a check.
fn say_check<S: Sink>(
    alloc: Global,
    form: Form,
    version: u32,
    most: Option<u32>,
    image: &Image,
    out: &mut S,
) -> Result<(), Fault>
    requires { S.failed out.old ≡ false }
    ensures refused { IfErr result (λ fault. RefusesReport (Check version most) form image.now.disk fault) }
    ensures sent { SendsReport (Check version most) form image.now.disk (result_err result) (S.sent out.old) (S.sent out.new) }
    ensures failed { S.failed out.new ≡ blames_output (result_err result) }
    ensures kept { S.kept out.new ≡ S.kept out.old }
{
    let mounted = mount(alloc, image)?;
    let text = check_text(alloc, form, version, most, image, &mounted)?;
    let longer = has_longer(most, &mounted);
    forget(mounted);
    check_ended(send(out, &text), longer)
}

/// How a check ends, by whether its text went out completely, and whether a file is longer than is asked.
fn check_ended(complete: bool, longer: bool) -> Result<(), Fault>
    ensures { result_err result ≡ end_of_check complete longer }
{
    sent_complete(complete)?;
    if longer {
        return Err(Fault::Differ);
    }
    Ok(())
}

/// Says what stands at a path of an image and below, row by row. Where the path is refused the place is left.
fn say_listing<S: Sink>(
    alloc: Global,
    form: Form,
    digests: bool,
    image: &Image,
    path: &[u8],
    place: &mut Option<Place>,
    out: &mut S,
) -> Result<(), Fault>
    requires { S.failed out.old ≡ false }
    ensures refused { IfErr result (λ fault. RefusesReport (Ls path.entry digests) form image.now.disk fault) }
    ensures sent { SendsReport (Ls path.entry digests) form image.now.disk (result_err result) (S.sent out.old) (S.sent out.new) }
    ensures failed { S.failed out.new ≡ blames_output (result_err result) }
    ensures kept { S.kept out.new ≡ S.kept out.old }
{
    let mounted = mount(alloc, image)?;
    let said = say_rows(alloc, form, digests, image, &mounted, path, place, out);
    forget(mounted);
    said
}

/// Says what stands at a path of an image that is mounted, and below.
fn say_rows<S: Sink>(
    alloc: Global,
    form: Form,
    digests: bool,
    image: &Image,
    mounted: &Mounted,
    path: &[u8],
    place: &mut Option<Place>,
    out: &mut S,
) -> Result<(), Fault>
    requires mounted { IsMountOf image.now.disk mounted.now }
    requires works { S.failed out.old ≡ false }
    ensures refused { IfErr result (λ fault. RefusesReport (Ls path.entry digests) form image.now.disk fault) }
    ensures sent { SendsReport (Ls path.entry digests) form image.now.disk (result_err result) (S.sent out.old) (S.sent out.new) }
    ensures failed { S.failed out.new ≡ blames_output (result_err result) }
    ensures kept { S.kept out.new ≡ S.kept out.old }
{
    match names_there(alloc, image, mounted, path) {
        Ok(names) => match send_rows(alloc, form, digests, image, mounted, &names, out) {
            Ok(()) => Ok(()),
            Err(unsent) => Err(fault_of_listing(unsent)),
        },
        Err(refusal) => {
            *place = Place::of(alloc, mounted.outline(), path, None);
            Err(Fault::Refused(refusal))
        }
    }
}

/// Sends the listing of what stands at a path of a mounted image and below, with the digests of files' contents or without.
fn send_rows<S: Sink>(
    alloc: Global,
    form: Form,
    digests: bool,
    image: &Image,
    mounted: &Mounted,
    at: &[&[u8]],
    out: &mut S,
) -> Result<(), Unsent>
    requires mounted { IsMountOf image.now.disk mounted.now }
    requires works { S.failed out.old ≡ false }
    ensures sent { SendsListing (result_err result) (S.sent out.old) (S.sent out.new)
        (listing_text form digests image.now.disk (names at.now) mounted.now.rows) }
    ensures failed { S.failed out.new ≡ blames_sink (result_err result) }
    ensures kept { S.kept out.new ≡ S.kept out.old }
{
    if digests {
        let image = MountedImage {
            disk: image,
            mounted,
        };
        return send_digests(alloc, form, &image, at, out);
    }
    send_listing(alloc, form, mounted.rows(), at, out)
}

/// Sends which block of a mounted image holds what, or in place of that how many blocks each path takes.
fn send_blocks<S: Sink>(
    alloc: Global,
    form: Form,
    mounted: &Mounted,
    sums: bool,
    out: &mut S,
) -> Result<(), Unsent>
    requires mounted { (disk : Disk) × IsMountOf disk mounted.now }
    requires works { S.failed out.old ≡ false }
    ensures sent { SendsListing (result_err result) (S.sent out.old) (S.sent out.new) (blocks_text form sums mounted.now) }
    ensures failed { S.failed out.new ≡ blames_sink (result_err result) }
    ensures kept { S.kept out.new ≡ S.kept out.old }
{
    if sums {
        send_block_sums(alloc, form, mounted, out)
    } else {
        send_block_map(alloc, form, mounted, out)
    }
}

/// Says which block of an image holds what, or how many blocks each path takes, line by line.
fn say_blocks<S: Sink>(
    alloc: Global,
    form: Form,
    image: &Image,
    sums: bool,
    out: &mut S,
) -> Result<(), Fault>
    requires { S.failed out.old ≡ false }
    ensures refused { IfErr result (λ fault. RefusesReport (Blocks sums) form image.now.disk fault) }
    ensures sent { SendsReport (Blocks sums) form image.now.disk (result_err result) (S.sent out.old) (S.sent out.new) }
    ensures failed { S.failed out.new ≡ blames_output (result_err result) }
    ensures kept { S.kept out.new ≡ S.kept out.old }
{
    let mounted = mount(alloc, image)?;
    let sent = send_blocks(alloc, form, &mounted, sums, out);
    forget(mounted);
    match sent {
        Ok(()) => Ok(()),
        Err(unsent) => Err(fault_of_listing(unsent)),
    }
}

/// Says the contents of a file, which go out slice by slice. Where its path is refused the place is left.
fn say_contents<S: Sink>(
    alloc: Global,
    form: Form,
    image: &Image,
    path: &[u8],
    place: &mut Option<Place>,
    out: &mut S,
) -> Result<(), Fault>
    requires { S.failed out.old ≡ false }
    ensures refused { IfErr result (λ fault. RefusesReport (Cat path.entry) form image.now.disk fault) }
    ensures sent { SendsReport (Cat path.entry) form image.now.disk (result_err result) (S.sent out.old) (S.sent out.new) }
    ensures failed { S.failed out.new ≡ blames_output (result_err result) }
    ensures kept { S.kept out.new ≡ S.kept out.old }
{
    let mounted = mount(alloc, image)?;
    let said = say_file(alloc, form, image, &mounted, path, place, out);
    forget(mounted);
    said
}

/// Says the contents of a file of an image that is mounted.
fn say_file<S: Sink>(
    alloc: Global,
    form: Form,
    image: &Image,
    mounted: &Mounted,
    path: &[u8],
    place: &mut Option<Place>,
    out: &mut S,
) -> Result<(), Fault>
    requires mounted { IsMountOf image.now.disk mounted.now }
    requires works { S.failed out.old ≡ false }
    ensures refused { IfErr result (λ fault. RefusesReport (Cat path.entry) form image.now.disk fault) }
    ensures sent { SendsReport (Cat path.entry) form image.now.disk (result_err result) (S.sent out.old) (S.sent out.new) }
    ensures failed { S.failed out.new ≡ blames_output (result_err result) }
    ensures kept { S.kept out.new ≡ S.kept out.old }
{
    match send_file(alloc, image, mounted, path, out) {
        Ok(complete) => sent_complete(complete),
        Err(refusal) => {
            *place = Place::of(alloc, mounted.outline(), path, None);
            Err(Fault::Refused(refusal))
        }
    }
}
