//! Directories without an entry.

ghost use Rattle.std.specs.Prelude.{◌≡◌, ◌==◌, length};
ghost use Rattle.std.specs.List.{list_all};
ghost use Rattle.lfs_fs.specs.Directory.{entries};
ghost use Rattle.lfs_command.specs.Verdict.{is_bare};

use crate::thread_edit::directory_of;
use lfs_fs::{Outline, OutlineDirectory, OutlinePart};

/// Whether a part has no entry.
fn has_none(part: &OutlinePart) -> bool
    ensures { result ≡ (length part.now.entries == 0) }
{
    part.entries.is_empty()
}

/// Whether no part has an entry.
fn have_none(parts: &[OutlinePart]) -> bool
    ensures { result ≡ list_all (λ p. length p.entries == 0) parts.now }
{
    parts.iter().all(has_none)
}

/// Whether a directory has no entry.
fn is_empty(directory: &OutlineDirectory) -> bool
    ensures { result ≡ (length (entries directory.now) == 0) }
{
    has_none(&directory.parts.first) && have_none(&directory.parts.more)
}

/// Whether the directory that a pair leads to has no entry; so it is where no pair is, or none leads anywhere.
pub(crate) fn is_bare(outline: &Outline, pair: Option<(u32, u32)>) -> bool
    ensures { result ≡ is_bare outline.now pair }
{
    let Some(pair) = pair else {
        return true;
    };
    match directory_of(&outline.directories, pair) {
        Some(at) => is_empty(&outline.directories[at]),
        None => true,
    }
}
