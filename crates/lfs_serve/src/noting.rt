//! What is told of an image beside the answer to a question.

ghost use Rattle.std.specs.Prelude.{◌≡◌};

use crate::unfinished::{Telling, is_nothing, unfinished_lines, unfinished_within};
use lfs_adopt::Draft;
use lfs_block::Image;
use lfs_report::Context;
use lfs_request::{Manner, Outcome, Query};
use lfs_settle::{Ended, read_by_device, settle, unfinished};
use lfs_step::Step;
use lfs_survey::image_notes;
use std::alloc::{AllocError, Global};
use std::mem::replace;

/// Puts into `context` what is told of an image of these bytes beside the answer to a question, or where it is taken over: of which pairs an older state is read, and,
/// if its directories are asked for, which of them go on in a part without an entry. Takes memory, and tells of nothing if it is
/// refused.
pub(crate) fn note_step(
    alloc: Global,
    manner: Manner,
    step: &Step<'_>,
    size: u32,
    image: &[u8],
    context: &mut Context,
) {
    let Some(tells_empty) = telling_of(step) else {
        return;
    };
    if let Ok(lines) = image_notes(alloc, size, image, manner.view.by_device, tells_empty) {
        context.lines = lines;
    }
}

/// What is ended of what a device left unfinished in an image of these bytes, if the image is checked as a device reads it; `None` if it is
/// nothing. Hands the bytes out again. Takes memory, and finds nothing if it is refused.
pub(crate) fn unfinished_in(
    alloc: Global,
    manner: Manner,
    step: &Step<'_>,
    size: u32,
    bytes: Vec<u8>,
) -> (Vec<u8>, Option<Ended>)
    ensures { result.0.items ≡ bytes.items }
{
    if !manner.view.by_device || !is_check(step) {
        return (bytes, None);
    }
    if manner.view.offset.is_some() {
        let ended = unfinished_within(alloc, size, &bytes).unwrap_or(None);
        return (bytes, ended);
    }
    match Image::new(bytes, size) {
        Ok(image) => {
            let ended = unfinished(alloc, &image).ok();
            (image.into_bytes(), ended)
        }
        Err((_, bytes)) => (bytes, None),
    }
}

/// Puts into `context` what is told of that, after what is there. The image is the one in which it is ended; its bytes are handed out again.
/// Takes memory, and tells of nothing if it is refused.
pub(crate) fn note_unfinished(
    alloc: Global,
    size: u32,
    bytes: Vec<u8>,
    ended: Option<Ended>,
    context: &mut Context,
) -> Vec<u8>
    ensures { result.items ≡ bytes.items }
{
    let Some(ended) = ended else {
        return bytes;
    };
    if is_nothing(&ended) {
        return bytes;
    }
    match Image::new(bytes, size) {
        Ok(image) => {
            if let Ok(lines) = unfinished_lines(alloc, &image, &ended, Telling::Read) {
                add_lines(context, lines);
            }
            image.into_bytes()
        }
        Err((_, bytes)) => bytes,
    }
}

/// What is told of what was left unfinished in an image of these bytes, if it is taken over. Hands the bytes out again. Takes memory, and
/// tells of nothing if it is refused.
pub(crate) fn lines_taken_over(
    alloc: Global,
    step: &Step<'_>,
    size: u32,
    bytes: Vec<u8>,
) -> (Vec<u8>, Vec<String>)
    ensures { result.0.items ≡ bytes.items }
{
    let Step::Adopt { .. } = step else {
        return (bytes, Vec::new(alloc));
    };
    match Image::new(bytes, size) {
        Ok(image) => {
            let lines = lines_ended(alloc, &image).unwrap_or(Vec::new(alloc));
            (image.into_bytes(), lines)
        }
        Err((_, bytes)) => (bytes, Vec::new(alloc)),
    }
}

/// The outcome with its image as a device reads it, in which the place of a fault is looked for. Takes memory, and leaves it as it is if it
/// is refused.
pub(crate) fn by_device(
    alloc: Global,
    size: u32,
    outcome: Outcome,
    context: &mut Context,
) -> Outcome {
    let mut outcome = outcome;
    let image = replace(&mut outcome.image, Vec::new(alloc));
    if let Ok(image) = read_by_device(alloc, size, image) {
        outcome.image = image;
        context.by_device = true;
    }
    outcome
}

/// What is told of what is ended in an image that is taken over. Takes memory.
fn lines_ended(alloc: Global, image: &Image) -> Result<Vec<String>, AllocError> {
    let mut draft = Draft::of(alloc, image)?;
    let ended = settle(alloc, &mut draft)?;
    if is_nothing(&ended) {
        return Ok(Vec::new(alloc));
    }
    unfinished_lines(alloc, &draft, &ended, Telling::TakenOver)
}

/// Puts lines after those that are there, unless memory is refused.
pub(crate) fn add_lines(context: &mut Context, lines: Vec<String>) {
    let mut lines = lines;
    let _is_kept = context.lines.append(&mut lines);
}

/// Whether directories without end are told of beside the answer to a question; `None` if nothing is.
fn telling_of(step: &Step<'_>) -> Option<bool> {
    match step {
        Step::Ask {
            query: Query::Check { .. } | Query::Ls { .. },
            ..
        } => Some(true),
        Step::Ask {
            query: Query::Blocks { .. },
            ..
        }
        | Step::Adopt { .. } => Some(false),
        _ => None,
    }
}

/// Whether an image is checked.
fn is_check(step: &Step<'_>) -> bool {
    matches!(
        step,
        Step::Ask {
            query: Query::Check { .. },
            ..
        }
    )
}
