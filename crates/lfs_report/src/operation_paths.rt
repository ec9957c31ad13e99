//! The paths of an operation.

use crate::path_note::Prefix;
use lfs_history::Move;
use lfs_request::{Operation, Query};

/// The name of the other image that an operation reads, where it reads one.
pub(crate) fn other_of<'a>(operation: &Operation<'a>) -> Option<&'a str> {
    match operation {
        Operation::Ask {
            query: Query::Diff { other, .. },
            ..
        } => Some(*other),
        Operation::Repack { source, .. } => Some(source.file),
        _ => None,
    }
}

/// The paths of an operation.
#[derive(Clone, Copy)]
pub struct OperationPaths<'a> {
    /// The path that it is about.
    pub path: &'a [u8],
    /// The one that what is there is moved to.
    pub target: Option<&'a [u8]>,
}

impl<'a> OperationPaths<'a> {
    /// The paths of an operation, where it has any.
    pub(crate) fn of(operation: &Operation<'a>) -> Option<OperationPaths<'a>> {
        match operation {
            Operation::Ask {
                query: Query::Cat { path } | Query::Ls { path, .. },
                ..
            }
            | Operation::Extract { path, .. } => Some(OperationPaths {
                path: *path,
                target: None,
            }),
            Operation::Change(Move::Do { command, .. }) => Some(OperationPaths {
                path: *command.path()?,
                target: command.target().copied(),
            }),
            _ => None,
        }
    }

    /// The text of a prefix.
    pub(crate) fn text(self, prefix: Prefix) -> &'a [u8] {
        let path = match self.target {
            Some(target) if prefix.is_of_target => target,
            _ => self.path,
        };
        path.get(..prefix.len).unwrap_or(path)
    }

    /// The prefix of so many names of the first path, or of the one that something is moved to.
    pub(crate) fn prefix(self, is_of_target: bool, names: usize) -> Prefix {
        let prefix = if is_of_target {
            self.last()
        } else {
            self.first()
        };
        Prefix {
            is_of_target: prefix.is_of_target,
            len: prefix_len(self.text(prefix), names),
        }
    }

    /// The whole of the first path.
    pub(crate) fn first(self) -> Prefix {
        Prefix {
            is_of_target: false,
            len: self.path.len(),
        }
    }

    /// The whole of the path that something is moved to, or of the only one.
    pub(crate) fn last(self) -> Prefix {
        match self.target {
            Some(target) => Prefix {
                is_of_target: true,
                len: target.len(),
            },
            None => self.first(),
        }
    }
}

/// How many bytes of a path's text so many of its names take, with the slashes before them; the whole where it has no more.
fn prefix_len(text: &[u8], names: usize) -> usize {
    let mut left = names;
    for (at, byte) in text.iter().enumerate() {
        if *byte == b'/' {
            if left == 0 {
                return at;
            }
            left -= 1;
        }
    }
    text.len()
}
