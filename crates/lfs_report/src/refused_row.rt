//! The row of a folder, or of another image, for which that isn't packed.

ghost use Rattle.std.specs.Prelude.{◌≡◌};

use crate::context::Context;
use crate::finding::Finding;
use crate::stated::Statement;
use crate::stop::Stop;
use lfs_command::Refusal;
use lfs_fs::Limits;
use lfs_pack::PackRow;
use lfs_request::Fault;
use std::alloc::Global;

/// Why packing rows ended early; where that is for one of them, with what is said of it, and with the text of its path in `context`.
/// Takes memory, and tells of no row where it is refused.
pub fn with_row(
    alloc: Global,
    limits: Limits,
    rows: &[PackRow<'_>],
    context: &mut Context,
    stop: Stop,
) -> Stop
    ensures { result.fault ≡ stop.fault }
{
    let Some(finding) = finding_of(stop.fault, limits) else {
        return stop;
    };
    let Some(text) = copied_path(alloc, rows, stop.at) else {
        return stop;
    };
    context.text = text;
    stop.with(Some(Statement::Row(finding)))
}

/// What a fault says of a row, where it is of one.
fn finding_of(fault: Fault, limits: Limits) -> Option<Finding> {
    match fault {
        Fault::Refused(Refusal::NameTooLong) => Some(Finding::LongName(limits.name)),
        Fault::Refused(Refusal::FileTooLarge) => Some(Finding::LongFile(limits.file)),
        Fault::Refused(Refusal::AttrTooLarge) => Some(Finding::LongValue(limits.attribute)),
        Fault::Refused(Refusal::EntryTooLarge) => Some(Finding::LargeEntry),
        _ => None,
    }
}

/// A copy of the text of the path of the row at this place.
fn copied_path(alloc: Global, rows: &[PackRow<'_>], at: usize) -> Option<Vec<u8>> {
    Vec::from_slice(alloc, rows.get(at)?.path).ok()
}
