//! The rows of two images, merged in the order of their paths.

ghost use Rattle.std.specs.Prelude.{◌≡◌, ◌+◌, ◌<◌, ◌==◌, ◌&&◌, ◌++◌, OnOk, false, length};
ghost use Rattle.lfs_listing.specs.Ahead.{first_changed};
ghost use Rattle.lfs_listing.specs.Comparing.{AreComplete};
ghost use Rattle.lfs_listing.specs.Difference.{are_alike, difference};

use crate::ahead::Ahead;
use crate::images::Images;
use crate::mark::Mark;
use crate::same_attributes::have_same_attributes;
use lfs_block::Blocks;
use lfs_fs::Row;
use lfs_json::Form;
use std::alloc::{AllocError, Global};
use std::cmp::Ordering;

/// Whether two rows are files with the same attributes.
fn are_alike(row: &Row<'_>, other: &Row<'_>) -> bool
    ensures { result ≡ are_alike row.now.entry other.now.entry }
{
    !row.is_dir() && !other.is_dir() && have_same_attributes(row.attributes, other.attributes)
}

/// Adds what differs between the first rows of two images.
fn append_changed<A: Blocks, B: Blocks>(
    alloc: Global,
    form: Form,
    text: &mut Vec<u8>,
    images: &Images<'_, A, B>,
    first: &Ahead<'_>,
    second: &Ahead<'_>,
) -> Result<(), AllocError>
    requires first { AreComplete images.now.0 first.now }
    requires second { AreComplete images.now.1 second.now }
    ensures { OnOk result (text.new.items ≡ text.old.items ++ first_changed form images.now.0 first.now images.now.1 second.now) }
{
    let (Some(row), Some(other)) = (first.first(), second.first()) else {
        return Ok(());
    };
    if images.show_same(row, other) {
        return Ok(());
    }
    if are_alike(row, other) {
        return second.append_contents(alloc, form, text);
    }
    first.append_first(alloc, form, text, Mark::Removed)?;
    second.append_first(alloc, form, text, Mark::Added)
}

/// Adds what differs at the least path of what is left of two images, and leaves it behind.
pub(crate) fn append_next<A: Blocks, B: Blocks>(
    alloc: Global,
    form: Form,
    text: &mut Vec<u8>,
    images: &Images<'_, A, B>,
    first: &mut Ahead<'_>,
    second: &mut Ahead<'_>,
) -> Result<(), AllocError>
    requires first { AreComplete images.now.0 first.old }
    requires second { AreComplete images.now.1 second.old }
    requires some { (length first.old == 0 && length second.old == 0) ≡ false }
    ensures text { OnOk result (text.new.items ++ difference form images.now.0 first.new images.now.1 second.new
        ≡ text.old.items ++ difference form images.now.0 first.old images.now.1 second.old) }
    ensures first { OnOk result (AreComplete images.now.0 first.new) }
    ensures second { OnOk result (AreComplete images.now.1 second.new) }
    ensures fewer { OnOk result (length first.new + length second.new < length first.old + length second.old) }
{
    match first.order(second) {
        Ordering::Less => {
            first.append_first(alloc, form, text, Mark::Removed)?;
            first.advance()
        }
        Ordering::Greater => {
            second.append_first(alloc, form, text, Mark::Added)?;
            second.advance()
        }
        Ordering::Equal => {
            append_changed(alloc, form, text, images, first, second)?;
            first.advance()?;
            second.advance()
        }
    }
}
