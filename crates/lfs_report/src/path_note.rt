//! What is told of the path for which an operation is refused.

use crate::finding::Finding;
use crate::operation_paths::OperationPaths;
use lfs_command::{Command, Refusal, names_of};
use lfs_fs::Limits;
use lfs_history::Move;
use lfs_request::{Operation, Place};
use std::alloc::Global;

/// A prefix of an operation's path, by the length of its text.
#[derive(Clone, Copy)]
pub struct Prefix {
    /// Whether it is of the path that something is moved to.
    pub is_of_target: bool,
    /// How many bytes of the path's text.
    pub len: usize,
}

/// What is told of a prefix of an operation's path.
#[derive(Clone, Copy)]
pub struct PathNote {
    /// The prefix.
    pub prefix: Prefix,
    /// What is said of it.
    pub finding: Finding,
}

/// What is told of the path for which an operation is refused at a place, where the refusal is of a path. Takes memory.
pub(crate) fn note_of(
    alloc: Global,
    operation: &Operation<'_>,
    refusal: Refusal,
    place: Option<Place>,
) -> Option<PathNote> {
    let paths = OperationPaths::of(operation)?;
    match refusal {
        Refusal::BadPath => Some(PathNote {
            prefix: bad_prefix(alloc, paths)?,
            finding: Finding::NoPath,
        }),
        refusal => note_at(operation, paths, refusal, place?),
    }
}

/// What is told of it, where its texts are paths.
fn note_at(
    operation: &Operation<'_>,
    paths: OperationPaths<'_>,
    refusal: Refusal,
    place: Place,
) -> Option<PathNote> {
    let finding = present_as(paths, place, finding_of(operation, refusal, place.limits)?);
    Some(PathNote {
        prefix: prefix_of(paths, place, finding),
        finding,
    })
}

/// What a refusal says of a path.
fn finding_of(operation: &Operation<'_>, refusal: Refusal, limits: Limits) -> Option<Finding> {
    match refusal {
        Refusal::NotFound => Some(Finding::Missing),
        Refusal::Exists => Some(Finding::Present),
        Refusal::NotADirectory => Some(Finding::File),
        Refusal::IsADirectory => Some(Finding::Directory),
        Refusal::NotEmpty => Some(Finding::NotEmpty),
        Refusal::NameTooLong => Some(Finding::LongName(limits.name)),
        Refusal::FileTooLarge => Some(Finding::LongFile(limits.file)),
        Refusal::AttrTooLarge => Some(Finding::LongValue(limits.attribute)),
        Refusal::NoAttr => match operation {
            Operation::Change(
                Move::Do {
                    command: Command::RmAttr { kind, .. },
                    ..
                },
            ) => Some(Finding::NoAttribute(*kind)),
            _ => None,
        },
        Refusal::IntoItself => Some(Finding::IntoItself),
        Refusal::IsRoot => Some(Finding::Root),
        Refusal::EntryTooLarge => Some(Finding::LargeEntry),
        Refusal::NoSpace { .. } | Refusal::Memory | Refusal::BadCount | Refusal::BadPath => None,
    }
}

/// What is said of what is there already: that it is a directory, where something else is to be moved in its place.
fn present_as(paths: OperationPaths<'_>, place: Place, finding: Finding) -> Finding {
    match (finding, paths.target) {
        (Finding::Present, Some(target)) if target != paths.path && place.is_directory => {
            Finding::PresentDirectory
        }
        (finding, _) => finding,
    }
}

/// The prefix of an operation's path that a finding is of.
fn prefix_of(paths: OperationPaths<'_>, place: Place, finding: Finding) -> Prefix {
    match finding {
        Finding::Missing => paths.prefix(place.is_of_target, place.names.saturating_add(1)),
        Finding::File => paths.prefix(place.is_of_target, place.names),
        Finding::Root if paths.path.len() > 1 => paths.last(),
        Finding::Present | Finding::PresentDirectory | Finding::LongName(_) | Finding::LargeEntry =>
            paths.last(),
        _ => paths.first(),
    }
}

/// The text of an operation that is no path: the first one, where it isn't one.
fn bad_prefix(alloc: Global, paths: OperationPaths<'_>) -> Option<Prefix> {
    match names_of(alloc, paths.path) {
        Ok(_) => Some(paths.last()),
        Err(Refusal::BadPath) => Some(paths.first()),
        Err(_) => None,
    }
}
