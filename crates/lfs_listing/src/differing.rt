//! Sending what differs between two images.

ghost use Rattle.std.specs.Prelude.{◌≡◌, ◌==◌, ◌&&◌, ◌||◌, ◌++◌, IfOk, IfSome, false, length};
ghost use Rattle.std.specs.Result.{result_err};
ghost use Rattle.lfs_json.specs.declared.form.Form.TheVariants.{Text};
ghost use Rattle.lfs_fs.specs.Listed.{rows_listed};
ghost use Rattle.lfs_fs.specs.Mounted.{IsMountOf};
ghost use Rattle.lfs_listing.specs.Comparing.{AreComplete, Leads};
ghost use Rattle.lfs_listing.specs.Difference.{difference, is_some_text};
ghost use Rattle.lfs_listing.specs.Unsent.{SendsListing, blames_sink};

use crate::ahead::Ahead;
use crate::buffer::{send_if_full, send_rest};
use crate::images::Images;
use crate::merging::append_next;
use crate::unsent::Unsent;
use lfs_block::{Blocks, Patch};
use lfs_fs::{Mounted, Rows, rows_show_the_tree};
use lfs_json::Form;
use lfs_sink::Sink;
use std::alloc::{AllocError, Global};

/// An image with what it mounts to.
#[derive(Drop)]
pub struct MountedImage<'a, B: Blocks> {
    /// The image.
    pub disk: &'a B,
    /// What is known of it.
    pub mounted: &'a Mounted,
}

/// The rows of a mounted image, whose contents can be read there.
pub(crate) fn complete_rows<'a, B: Blocks>(image: &MountedImage<'a, B>) -> Rows<'a>
    requires { IsMountOf (B.disk image.now.disk.now) image.now.mounted.now }
    ensures rows { rows_listed result ≡ image.now.mounted.now.rows }
    ensures complete { AreComplete (B.disk image.now.disk.now) (rows_listed result) }
{
    rows_show_the_tree();
    let _size = image.disk.size();
    image.mounted.rows()
}

/// Whether no row is left of either image.
fn are_empty(first: &Ahead<'_>, second: &Ahead<'_>) -> bool
    ensures { result ≡ (length first.now == 0 && length second.now == 0) }
{
    first.is_empty() && second.is_empty()
}

/// Whether a text has any byte.
fn is_some_text(text: &[u8]) -> bool
    ensures { result ≡ is_some_text text.now }
{
    !text.is_empty()
}

/// Whether anything differs so far: it has been told, or it waits.
fn is_told(told: bool, text: &[u8]) -> bool
    ensures { result ≡ (told || is_some_text text.now) }
{
    told || is_some_text(text)
}

/// Sends a text and what differs between the rows of two images behind it, and answers whether there is any of both.
fn send_merged<A: Blocks, B: Blocks, S: Sink>(
    alloc: Global,
    form: Form,
    mut text: Vec<u8>,
    images: &Images<'_, A, B>,
    first: &mut Ahead<'_>,
    second: &mut Ahead<'_>,
    out: &mut S,
) -> Result<bool, Unsent>
    requires first { AreComplete images.now.0 first.old }
    requires second { AreComplete images.now.1 second.old }
    requires works { S.failed out.old ≡ false }
    ensures sent { SendsListing (result_err result) (S.sent out.old) (S.sent out.new)
        (text.items ++ difference form images.now.0 first.old images.now.1 second.old) }
    ensures differs { IfOk result (λ differs. differs
        ≡ is_some_text (text.items ++ difference form images.now.0 first.old images.now.1 second.old)) }
    ensures failed { S.failed out.new ≡ blames_sink (result_err result) }
    ensures kept { S.kept out.new ≡ S.kept out.old }
{
    let mut differs = is_some_text(&text);
    'rows: while !are_empty(first, second) {
        append_next(alloc, form, &mut text, images, first, second)?;
        differs = is_told(differs, &text);
        send_if_full(&mut text, out)?;
    }
    send_rest(&mut text, out)?;
    Ok(differs)
}

/// Sends a text, and behind it what differs between the trees of two mounted images, row by row in the order of paths: the lines of a row
/// that only the first has, each with `- ` in front; those of a row that only the second has, with `+ `; and where both have another kind
/// or other attributes at a path, the first's and then the second's. Of files that differ in their contents alone the second's own line is
/// sent, with `~ ` in front. In JSON `change` says so in an object a row: `removed`, `added` or `contents`. Equal trees send no row. The
/// answer is whether anything was sent. `between` is the patch that leads from the first to the second, where it is known: the blocks that
/// it leaves aren't read. `CannotWrite` where the sink fails, and a beginning went out, not all; `Memory` says only that a growth was
/// refused, and a beginning went out, perhaps all. At most 64 KiB of the text and the lines of two rows wait at a time, and no contents are
/// copied.
pub fn send_difference<A: Blocks, B: Blocks, S: Sink>(
    alloc: Global,
    form: Form,
    first: &MountedImage<'_, A>,
    second: &MountedImage<'_, B>,
    between: Option<&Patch>,
    text: Vec<u8>,
    out: &mut S,
) -> Result<bool, Unsent>
    requires first { IsMountOf (A.disk first.now.disk.now) first.now.mounted.now }
    requires second { IsMountOf (B.disk second.now.disk.now) second.now.mounted.now }
    requires between { IfSome between (λ p. Leads p.now (A.disk first.now.disk.now) (B.disk second.now.disk.now)) }
    requires works { S.failed out.old ≡ false }
    ensures sent { SendsListing (result_err result) (S.sent out.old) (S.sent out.new)
        (text.items ++ difference form (A.disk first.now.disk.now) first.now.mounted.now.rows (B.disk second.now.disk.now) second.now.mounted.now.rows) }
    ensures differs { IfOk result (λ differs. differs ≡ is_some_text (text.items
        ++ difference form (A.disk first.now.disk.now) first.now.mounted.now.rows (B.disk second.now.disk.now) second.now.mounted.now.rows)) }
    ensures failed { S.failed out.new ≡ blames_sink (result_err result) }
    ensures kept { S.kept out.new ≡ S.kept out.old }
{
    let images = Images::new(first.disk, second.disk, between);
    let mut left = Ahead::new(alloc, complete_rows(first))?;
    let mut right = Ahead::new(alloc, complete_rows(second))?;
    send_merged(alloc, form, text, &images, &mut left, &mut right, out)
}

/// Whether `send_difference` would send anything of a text and the trees of two mounted images. It reads no further than to what differs
/// first.
pub fn have_difference<'a, A: Blocks, B: Blocks>(
    alloc: Global,
    first: &'a MountedImage<'a, A>,
    second: &'a MountedImage<'a, B>,
    text: Vec<u8>,
) -> Result<bool, AllocError>
    requires first { IsMountOf (A.disk first.now.disk.now) first.now.mounted.now }
    requires second { IsMountOf (B.disk second.now.disk.now) second.now.mounted.now }
    ensures { IfOk result (λ differs. differs ≡ is_some_text (text.items
        ++ difference Text (A.disk first.now.disk.now) first.now.mounted.now.rows (B.disk second.now.disk.now) second.now.mounted.now.rows)) }
{
    let images = Images::new(first.disk, second.disk, None);
    let mut left = Ahead::new(alloc, complete_rows(first))?;
    let mut right = Ahead::new(alloc, complete_rows(second))?;
    differ(alloc, text, &images, &mut left, &mut right)
}

/// Whether a text has any byte, or the rows of two images differ.
fn differ<A: Blocks, B: Blocks>(
    alloc: Global,
    mut text: Vec<u8>,
    images: &Images<'_, A, B>,
    first: &mut Ahead<'_>,
    second: &mut Ahead<'_>,
) -> Result<bool, AllocError>
    requires first { AreComplete images.now.0 first.old }
    requires second { AreComplete images.now.1 second.old }
    ensures { IfOk result (λ differs. differs
        ≡ is_some_text (text.items ++ difference Text images.now.0 first.old images.now.1 second.old)) }
{
    'rows: while !is_some_text(&text) && !are_empty(first, second) {
        append_next(alloc, Form::Text, &mut text, images, first, second)?;
    }
    Ok(is_some_text(&text))
}
