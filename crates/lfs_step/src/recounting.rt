//! What the changes in a journal changed.

ghost use Rattle.std.specs.Prelude.{◌≡◌, false, IfErr, IfOk};
ghost use Rattle.std.specs.Result.{result_err};
ghost use Rattle.lfs_change.specs.Change.{RefusesDenoting};
ghost use Rattle.lfs_request.specs.Fault.{blames_output};
ghost use Rattle.lfs_step.specs.Recounting.{IsRecount, RefusesRecount, SendsRecount};

use crate::log::log_of;
use crate::sending::sent_complete;
use lfs_block::{Blocks, Image};
use lfs_fs::mount;
use lfs_history::OpenFault;
use lfs_json::Form;
use lfs_request::Fault;
use lfs_sink::{Sink, send};
use std::alloc::Global;

/// Tells what the changes in a journal changed of an image, which stands again as it was. An empty journal is one without changes; the
/// journal is judged as where a change is taken back, before anything goes out.
pub(crate) fn recount<S: Sink>(
    alloc: Global,
    form: Form,
    image: &mut Image,
    journal: &[u8],
    out: &mut S,
) -> Result<(), Fault>
    requires { S.failed out.old ≡ false }
    ensures refused { IfErr result (λ fault. RefusesRecount form image.old.disk journal.now fault) }
    ensures sent { SendsRecount form image.old.disk journal.now (result_err result) (S.sent out.old) (S.sent out.new) }
    ensures failed { S.failed out.new ≡ blames_output (result_err result) }
    ensures kept { S.kept out.new ≡ S.kept out.old }
    ensures disk { image.new.disk ≡ image.old.disk }
{
    let text = recount_of(alloc, form, image, journal)?;
    sent_complete(send(out, &text))
}

/// The text of the history that an image and the bytes of a journal denote; without any, nothing was done to the image, which stands
/// again as it was.
fn recount_of(
    alloc: Global,
    form: Form,
    image: &mut Image,
    journal: &[u8],
) -> Result<Vec<u8>, OpenFault>
    ensures text { IfOk result (λ text. IsRecount form image.old.disk journal.now text.items) }
    ensures refused { IfErr result (λ fault. RefusesDenoting fault image.old.disk journal.now) }
    ensures disk { image.new.disk ≡ image.old.disk }
{
    if !journal.is_empty() {
        return log_of(alloc, form, image, journal);
    }
    let _size = image.size();
    mount(alloc, image)?;
    Ok(Vec::new(alloc))
}
