//! What another image has otherwise.

ghost use Rattle.std.specs.Prelude.{◌≡◌, ◌⊎◌, false, IfErr, IfOk};
ghost use Rattle.std.specs.Result.{result_err};
ghost use Rattle.lfs_block.specs.declared.mount_fault.MountFault.{MountFault};
ghost use Rattle.lfs_fs.specs.Cause.{HasCause};
ghost use Rattle.lfs_fs.specs.Mounted.{IsMountOf};
ghost use Rattle.lfs_command.specs.declared.refusal.Refusal.TheVariants.{Memory};
ghost use Rattle.lfs_request.specs.Fault.{blames_output};
ghost use Rattle.lfs_request.specs.declared.fault.Fault.TheVariants.{Other, Refused};
ghost use Rattle.lfs_request.specs.declared.other_fault.OtherFault.TheVariants as other_fault;
ghost use Rattle.lfs_json.specs.declared.form.Form.TheVariants.{Text};
ghost use Rattle.lfs_listing.specs.Difference.{is_some_text};
ghost use Rattle.lfs_listing.specs.Unsent.{SendsListing, blames_sink};
ghost use Rattle.lfs_step.specs.Comparing.{RefusesCompared, RefusesDifference, SendsCompared, SendsDifference, end_of, image_difference, limits_difference};
ghost use Rattle.lfs_step.specs.Comparing.{form_of, limits_line, limits_text, said_text, same_limits};

use crate::sending::fault_of_listing;
use lfs_block::{Image, MountFault};
use lfs_command::Refusal;
use lfs_fs::{Limits, Mounted, mount};
use lfs_json::{Form, append_json_limits};
use lfs_listing::{MountedImage, Unsent, have_difference, send_difference};
use lfs_request::{Fault, OtherFault};
use lfs_sink::Sink;
use std::alloc::{AllocError, Global};
use std::mem::forget;

/// Says what the bytes `others`, with blocks of `size` bytes, have otherwise than an image, in a form, or for `None` only whether they do.
/// The first of these that holds is told: the bytes are no image, the first image doesn't mount, the other doesn't, something differs.
pub(crate) fn compare_bytes<S: Sink>(
    alloc: Global,
    image: &Image,
    size: u32,
    others: Vec<u8>,
    said: Option<Form>,
    out: &mut S,
) -> Result<(), Fault>
    requires { S.failed out.old ≡ false }
    ensures refused { IfErr result (λ fault. RefusesCompared said image.now.disk size others.items fault) }
    ensures sent { SendsCompared said image.now.disk size others.items (result_err result) (S.sent out.old) (S.sent out.new) }
    ensures failed { S.failed out.new ≡ blames_output (result_err result) }
    ensures kept { S.kept out.new ≡ S.kept out.old }
{
    match Image::new(others, size) {
        Ok(other) => compare(alloc, image, &other, said, out),
        Err((fault, _)) => Err(Fault::Other(OtherFault::Image(fault))),
    }
}

/// Says what another image has otherwise. What was mounted isn't given back to the allocator, since the program ends behind its answer.
fn compare<S: Sink>(
    alloc: Global,
    image: &Image,
    other: &Image,
    said: Option<Form>,
    out: &mut S,
) -> Result<(), Fault>
    requires { S.failed out.old ≡ false }
    ensures refused { IfErr result (λ fault. RefusesDifference (form_of said) image.now.disk other.now.disk fault) }
    ensures sent { SendsDifference said image.now.disk other.now.disk (result_err result) (S.sent out.old) (S.sent out.new) }
    ensures failed { S.failed out.new ≡ blames_output (result_err result) }
    ensures kept { S.kept out.new ≡ S.kept out.old }
{
    let mounted = mount(alloc, image)?;
    let mounted_other = mount_other(alloc, other)?;
    let first = MountedImage {
        disk: image,
        mounted: &mounted,
    };
    let second = MountedImage {
        disk: other,
        mounted: &mounted_other,
    };
    let differs = say_difference(alloc, &first, &second, said, out);
    forget(mounted);
    forget(mounted_other);
    ended(differs)
}

/// How it ends that it was said what differs, or whether anything does.
fn ended(differs: Result<bool, Unsent>) -> Result<(), Fault>
    ensures { result_err result ≡ end_of differs }
{
    match differs {
        Ok(false) => Ok(()),
        Ok(true) => Err(Fault::Differ),
        Err(unsent) => Err(fault_of_listing(unsent)),
    }
}

/// Says what a second image has otherwise, where both are mounted, in a form, or for `None` only whether it has; answers whether it has.
fn say_difference<S: Sink>(
    alloc: Global,
    first: &MountedImage<'_, Image>,
    second: &MountedImage<'_, Image>,
    said: Option<Form>,
    out: &mut S,
) -> Result<bool, Unsent>
    requires first { IsMountOf first.now.disk.now.disk first.now.mounted.now }
    requires second { IsMountOf second.now.disk.now.disk second.now.mounted.now }
    requires works { S.failed out.old ≡ false }
    ensures sent { SendsListing (result_err result) (S.sent out.old) (S.sent out.new) (said_text said
        (image_difference (form_of said) first.now.disk.now.disk first.now.mounted.now second.now.disk.now.disk second.now.mounted.now)) }
    ensures differs { IfOk result (λ differs. differs ≡ is_some_text
        (image_difference (form_of said) first.now.disk.now.disk first.now.mounted.now second.now.disk.now.disk second.now.mounted.now)) }
    ensures failed { S.failed out.new ≡ blames_sink (result_err result) }
    ensures kept { S.kept out.new ≡ S.kept out.old }
{
    match said {
        None => Ok(have_image_difference(alloc, first, second)?),
        Some(form) => send_image_difference(alloc, form, first, second, out),
    }
}

/// Whether a second image has anything otherwise.
fn have_image_difference(
    alloc: Global,
    first: &MountedImage<'_, Image>,
    second: &MountedImage<'_, Image>,
) -> Result<bool, AllocError>
    requires first { IsMountOf first.now.disk.now.disk first.now.mounted.now }
    requires second { IsMountOf second.now.disk.now.disk second.now.mounted.now }
    ensures { IfOk result (λ differs. differs ≡ is_some_text
        (image_difference Text first.now.disk.now.disk first.now.mounted.now second.now.disk.now.disk second.now.mounted.now)) }
{
    let limits = first.mounted.limits();
    let line = limits_difference(alloc, Form::Text, limits, second.mounted.limits())?;
    have_difference(alloc, first, second, line)
}

/// Sends what a second image has otherwise, in a form; answers whether there is anything.
fn send_image_difference<S: Sink>(
    alloc: Global,
    form: Form,
    first: &MountedImage<'_, Image>,
    second: &MountedImage<'_, Image>,
    out: &mut S,
) -> Result<bool, Unsent>
    requires first { IsMountOf first.now.disk.now.disk first.now.mounted.now }
    requires second { IsMountOf second.now.disk.now.disk second.now.mounted.now }
    requires works { S.failed out.old ≡ false }
    ensures sent { SendsListing (result_err result) (S.sent out.old) (S.sent out.new)
        (image_difference form first.now.disk.now.disk first.now.mounted.now second.now.disk.now.disk second.now.mounted.now) }
    ensures differs { IfOk result (λ differs. differs ≡ is_some_text
        (image_difference form first.now.disk.now.disk first.now.mounted.now second.now.disk.now.disk second.now.mounted.now)) }
    ensures failed { S.failed out.new ≡ blames_sink (result_err result) }
    ensures kept { S.kept out.new ≡ S.kept out.old }
{
    let limits = first.mounted.limits();
    let line = limits_difference(alloc, form, limits, second.mounted.limits())?;
    send_difference(alloc, form, first, second, None, line, out)
}

/// Whether limits are the same.
fn same_limits(limits: Limits, others: Limits) -> bool
    ensures { result ≡ same_limits limits others }
{
    limits.name == others.name && limits.file == others.file && limits.attribute == others.attribute
}

/// The line of an image's limits.
fn limits_line(alloc: Global, limits: Limits) -> Result<Vec<u8>, AllocError>
    ensures { IfOk result (λ line. line.items ≡ limits_line limits) }
{
    let Limits {
        name,
        file,
        attribute,
    } = limits;
    let line = format!(in alloc; "~ limits {name} {file} {attribute}\n")?;
    Ok(line.into_bytes())
}

/// The line of an image's limits in a form.
fn limits_text(alloc: Global, form: Form, limits: Limits) -> Result<Vec<u8>, AllocError>
    ensures { IfOk result (λ line. line.items ≡ limits_text form limits) }
{
    match form {
        Form::Text => limits_line(alloc, limits),
        Form::Json => {
            let mut line = Vec::new(alloc);
            append_json_limits(alloc, &mut line, limits)?;
            Ok(line)
        }
    }
}

/// The line of an image's limits where those of another one differ; else nothing.
fn limits_difference(
    alloc: Global,
    form: Form,
    limits: Limits,
    others: Limits,
) -> Result<Vec<u8>, AllocError>
    ensures { IfOk result (λ line. line.items ≡ limits_difference form limits others) }
{
    if same_limits(limits, others) {
        return Ok(Vec::new(alloc));
    }
    limits_text(alloc, form, others)
}

/// Mounts an image that another is compared with.
fn mount_other(alloc: Global, other: &Image) -> Result<Mounted, Fault>
    ensures mounted { IfOk result (λ mounted. IsMountOf other.now.disk mounted) }
    ensures refused { IfErr result (λ fault. (fault ≡ Refused Memory)
        ⊎ ((cause : MountFault) × (fault ≡ Other (other_fault.Mount cause)) × HasCause other.now.disk cause)) }
{
    match mount(alloc, other) {
        Ok(mounted) => Ok(mounted),
        Err(MountFault::Memory) => Err(Fault::Refused(Refusal::Memory)),
        Err(fault) => Err(Fault::Other(OtherFault::Mount(fault))),
    }
}
