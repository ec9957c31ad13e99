//! What is told of the place of a fault for which an image doesn't mount.

use crate::context::Context;
use crate::stated::Statement;
use lfs_block::{Image, MountFault};
use lfs_survey::fault_place;
use std::alloc::Global;

/// What is told behind a fault for which an image doesn't mount: its first place, whose line is put into `context`, or what is told as
/// usual, where there is no such place, or where the image states something in front, and that isn't read. Takes memory, and tells of no
/// place where it is refused.
pub(crate) fn statement_at(
    alloc: Global,
    image: &Image,
    fault: MountFault,
    usual: Option<Statement>,
    context: &mut Context,
) -> Option<Statement> {
    let Some(place) = fault_place(alloc, image, fault, context.by_device) else {
        return usual;
    };
    match usual {
        Some(Statement::Stated(..) | Statement::Unread(_)) if place.is_front => usual,
        Some(Statement::Expanded) => {
            context.place = Some(place.text);
            usual
        }
        _ => {
            context.place = Some(place.text);
            Some(Statement::Place)
        }
    }
}
