//! What helps with an image that a device wrote.

use lfs_history::Move;
use lfs_request::{Operation, Query, Request};

/// The disk version with which it helps, with its major number in the upper half.
const VERSION: u32 = 0x0002_0001;

/// What the option `--device` does.
const READS: &str = "--device reads it";
/// What `adopt` does.
const TAKES_OVER: &str = "adopt takes it over";

/// What helps: the option by which the command that is asked for reads the image as a device does, or the command that takes it over;
/// nothing if the request says so already.
pub(crate) fn hint_of(request: &Request<'_>) -> Option<&'static str> {
    match &request.operation {
        Operation::Ask { view, .. } | Operation::Extract { view, .. } if view.by_device => None,
        Operation::Salvage { .. } | Operation::Adopt { .. } => None,
        Operation::Repack { source, .. } if source.manner.view.by_device => None,
        Operation::Ask {
            query: Query::Log,
            ..
        } => Some(TAKES_OVER),
        Operation::Ask { .. } | Operation::Extract { .. } | Operation::Repack { .. } => Some(READS),
        _ => Some(TAKES_OVER),
    }
}

/// A hint, if it helps with an image of a disk version.
pub(crate) fn hint_at(version: u32, hint: Option<&'static str>) -> Option<&'static str> {
    if version == VERSION { hint } else { None }
}

/// Whether the command that is asked for takes `--older`: it carries no command out on the image.
pub(crate) fn takes_older(request: &Request<'_>) -> bool {
    !matches!(
        request.operation,
        Operation::Tree { .. }
            | Operation::Batch { .. }
            | Operation::Change(Move::Do { .. } | Move::Together { .. })
    )
}
