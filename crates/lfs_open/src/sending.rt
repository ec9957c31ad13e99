//! Sending the lines of what is found.

ghost use Rattle.std.specs.Prelude.{◌≡◌, false, IfOk};
ghost use Rattle.std.specs.Result.{result_err};
ghost use Rattle.lfs_listing.specs.Unsent.{SendsListing, blames_sink};
ghost use Rattle.lfs_open.specs.FoundText.{found_text};

use crate::lines::append_found;
use lfs_find::Found;
use lfs_json::Form;
use lfs_listing::Unsent;
use lfs_sink::{Sink, send};
use std::alloc::{AllocError, Global};

/// The lines of all that is found.
fn found_text(alloc: Global, form: Form, found: &[Found]) -> Result<Vec<u8>, AllocError>
    ensures { IfOk result (λ text. text.items ≡ found_text form found.now) }
{
    let mut text = Vec::new(alloc);
    for here in found {
        append_found(alloc, form, &mut text, here)?;
    }
    Ok(text)
}

/// Sends a line for each image that is found in a file: where it stands in hexadecimal digits after `0x`, its version, the size and the
/// number of its blocks, and the number of its bytes. At the line's end stands `mounts`, or the number and the name of its fault. As JSON
/// it is an object with the same: `at`, `version`, `block`, `count`, `bytes`, and of one that doesn't mount `fault` and `name`.
/// `CannotWrite` where the sink fails, and a beginning went out, not all; `Memory` says only that a growth was refused, and a beginning
/// went out, perhaps all. Takes memory.
pub fn send_found<S: Sink>(
    alloc: Global,
    form: Form,
    found: &[Found],
    out: &mut S,
) -> Result<(), Unsent>
    requires { S.failed out.old ≡ false }
    ensures sent { SendsListing (result_err result) (S.sent out.old) (S.sent out.new) (found_text form found.now) }
    ensures failed { S.failed out.new ≡ blames_sink (result_err result) }
    ensures kept { S.kept out.new ≡ S.kept out.old }
{
    let text = found_text(alloc, form, found)?;
    if send(out, &text) {
        Ok(())
    } else {
        Err(Unsent::CannotWrite)
    }
}
