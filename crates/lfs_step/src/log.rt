//! The text of a history.

ghost use Rattle.std.specs.Prelude.{◌≡◌, IfOk, IfErr};
ghost use Rattle.lfs_history.specs.History.{History};
ghost use Rattle.lfs_history.specs.Opening.{Opens, RefusesOpening};
ghost use Rattle.lfs_step.specs.Log.{IsHistoryLog};

use crate::appending::append_changes;
use crate::course::Course;
use crate::mounting::erased_block;
use lfs_block::{Blocks, Image};
use lfs_fs::mounted_images_have_no_cause;
use lfs_history::OpenFault;
use lfs_json::Form;
use lfs_session::{Changes, read_changes};
use lfs_sink::MemorySink;
use std::alloc::Global;

/// The text of the history that the bytes of a journal denote on an image: for each change, from the oldest on, a line with its number and
/// `done` or `undone`, and then what differs between the tree of the image before it and that of the image after it, as `send_difference`
/// sends it; in JSON the line is an object with `number` and `state`. It is refused as `Session::open` refuses the journal: by the image's
/// own cause, then
/// `JournalFormat`, `JournalMismatch` and `JournalImage`; want of memory is told as the mount's. One image is held and moved
/// along, each other one is mounted once, and the image stands again as it was.
pub fn log_of(
    alloc: Global,
    form: Form,
    image: &mut Image,
    journal: &[u8],
) -> Result<Vec<u8>, OpenFault>
    ensures text { IfOk result (λ text. (h : History) × Opens image.old.disk journal.now h × IsHistoryLog form h text.items) }
    ensures refused { IfErr result (λ fault. RefusesOpening fault image.old.disk journal.now) }
    ensures disk { image.new.disk ≡ image.old.disk }
{
    mounted_images_have_no_cause();
    let Changes {
        outline: _,
        patches,
        done,
    } = read_changes(alloc, image, journal)?;
    let erased = erased_block(alloc, image.size())?;
    let course = Course {
        patches: &patches,
        done,
        erased: &erased,
        form,
    };
    let mut text = MemorySink::new(alloc);
    append_changes(alloc, image, &course, done, &mut text)?;
    Ok(text.bytes)
}
