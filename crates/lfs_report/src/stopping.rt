//! Why a run ended early, with what is known of it beside.

ghost use Rattle.std.specs.Prelude.{◌≡◌};

use crate::context::Context;
use crate::fault_line::statement_at;
use crate::path_note::{PathNote, note_of};
use crate::seen::Seen;
use crate::stated::{Sight, Statement, statement_for};
use crate::stop::Stop;
use crate::superblock::superblock_statement;
use lfs_block::{Blocks, Image, MountFault};
use lfs_command::Refusal;
use lfs_fs::mount;
use lfs_history::{Move, StepFault};
use lfs_journal::Journal;
use lfs_request::{Fault, KeptJournal, Operation, Outcome, Place, Request};
use lfs_settle::read_by_device;
use std::alloc::Global;

/// Why bytes were refused as an image of blocks of `size` bytes, with what they state.
pub fn stop_of_image(fault: Fault, size: u32, bytes: &[u8]) -> Stop
    ensures { result.fault ≡ fault }
{
    Stop {
        fault,
        statement: statement_for(fault, Sight::of(size, bytes), Sight::none()),
        count: blocks_in(size, bytes),
        at: 0,
    }
}

/// Why a step that was run for a request ended early, with what its image states, the place of its fault, whose text is put into `context`,
/// what is known of its path there, or what its journal has; `seen` is what was seen of the step before. Takes memory, and tells of
/// nothing more where it is refused.
pub fn stop_of_run(
    alloc: Global,
    request: &Request<'_>,
    fault: Fault,
    outcome: Outcome,
    seen: Seen,
    context: &mut Context,
) -> Stop
    ensures fault { result.fault ≡ fault }
    ensures at { result.at ≡ outcome.at }
{
    let size = request.size;
    let count = seen.count.or(blocks_in(size, &outcome.image));
    let at = outcome.at;
    let statement = match fault {
        Fault::Step(fault) => changes_statement(alloc, &request.operation, fault, outcome.journal),
        Fault::Refused(refusal) => {
            refused_statement(alloc, &request.operation, refusal, outcome, context)
        }
        Fault::Mount(fault) => statement_of_bytes(alloc, size, fault, outcome.image, context),
        fault => statement_for(fault, Sight::of(size, &outcome.image), seen.other),
    };
    Stop {
        fault,
        statement,
        count,
        at,
    }
}

/// What is known of a refusal: which command of a plan it was, whose text is put into `context`, or what is known of its path.
fn refused_statement(
    alloc: Global,
    operation: &Operation<'_>,
    refusal: Refusal,
    outcome: Outcome,
    context: &mut Context,
) -> Option<Statement> {
    let command = outcome.refused;
    let place = outcome.place;
    match command {
        Some(command) => {
            context.text = command;
            Some(Statement::Command)
        }
        None => path_statement(note_of(alloc, operation, refusal, place)),
    }
}

/// Why a folder wasn't made of an image for an operation, with what that states, with the place of its fault, whose text is put into
/// `context`, or with what is known of the operation's path at its place. Takes memory, and tells of nothing more where it is refused.
pub fn stop_of_extracting(
    alloc: Global,
    operation: &Operation<'_>,
    fault: Fault,
    image: Image,
    place: Option<Place>,
    context: &mut Context,
) -> Stop
    ensures { result.fault ≡ fault }
{
    let size = image.size();
    let bytes = image.into_bytes();
    let statement = match fault {
        Fault::Mount(fault) => statement_of_bytes(alloc, size, fault, bytes, context),
        Fault::Refused(refusal) => path_statement(note_of(alloc, operation, refusal, place)),
        fault => statement_for(fault, Sight::of(size, &bytes), Sight::none()),
    };
    Stop {
        fault,
        statement,
        count: None,
        at: 0,
    }
}

/// What is known of bytes that are an image, behind a fault for which it doesn't mount.
fn statement_of_bytes(
    alloc: Global,
    size: u32,
    fault: MountFault,
    bytes: Vec<u8>,
    context: &mut Context,
) -> Option<Statement> {
    let seen = Sight::of(size, &bytes);
    match Image::new(bytes, size) {
        Ok(image) => {
            let statement = statement_of_mount(alloc, fault, &image, seen, context);
            note_device(alloc, size, fault, image, context);
            statement
        }
        Err(_) => None,
    }
}

/// Whether an image may be refused so for what a device left unfinished.
fn may_be_unfinished(fault: MountFault) -> bool {
    matches!(
        fault,
        MountFault::BlockTwice
            | MountFault::MissingDirectory
            | MountFault::Orphan
            | MountFault::UnfinishedMove
    )
}

/// Notes whether an image mounts that is refused for what a device may have left unfinished, if it is read as a device does. Takes memory,
/// and notes nothing if it is refused.
fn note_device(alloc: Global, size: u32, fault: MountFault, image: Image, context: &mut Context) {
    if context.by_device || !may_be_unfinished(fault) {
        return;
    }
    let Ok(bytes) = read_by_device(alloc, size, image.into_bytes()) else {
        return;
    };
    if let Ok(image) = Image::new(bytes, size) {
        context.mounts_by_device = mount(alloc, &image).is_ok();
    }
}

/// What is known of an image that doesn't mount: what its superblock states, behind a fault of its geometry or its version; else the first
/// place of the fault, or what is seen of the image. Takes memory.
pub(crate) fn statement_of_mount(
    alloc: Global,
    fault: MountFault,
    image: &Image,
    seen: Sight,
    context: &mut Context,
) -> Option<Statement> {
    match fault {
        MountFault::Geometry | MountFault::Version => superblock_statement(alloc, fault, image),
        _ => {
            let usual = statement_for(Fault::Mount(fault), seen, Sight::none());
            statement_at(alloc, image, fault, usual, context)
        }
    }
}

/// How many changes a journal has that are done, or undone, where an operation asks for several and there are fewer.
fn changes_statement(
    alloc: Global,
    operation: &Operation<'_>,
    fault: StepFault,
    journal: KeptJournal,
) -> Option<Statement> {
    let Operation::Change(Move::Undo { steps: 2.. } | Move::Redo { steps: 2.. }) = operation else {
        return None;
    };
    let bytes = journal.into_bytes(alloc)?;
    let journal = Journal::read(alloc, &bytes).ok()?;
    match fault {
        StepFault::NothingToUndo => Some(Statement::Changes(journal.done())),
        StepFault::NothingToRedo => Some(Statement::Changes(undone_in(&journal))),
        _ => None,
    }
}

/// How many changes of a journal are undone.
fn undone_in(journal: &Journal) -> usize {
    journal.patches().len().saturating_sub(journal.done())
}

/// What is known of a path, as it is told.
fn path_statement(note: Option<PathNote>) -> Option<Statement> {
    match note {
        Some(note) => Some(Statement::Path(note)),
        None => None,
    }
}

/// How many whole blocks there are.
pub(crate) fn blocks_in(size: u32, bytes: &[u8]) -> Option<usize> {
    bytes.len().checked_div(size as usize)
}
