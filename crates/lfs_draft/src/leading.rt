//! Which part of an outline has the entry that a command is about.

ghost use Rattle.std.specs.Prelude.{◌≡◌, find, map};
ghost use Rattle.std.specs.Option.{option_map};
ghost use Rattle.lfs_fs.specs.Directory.{entries, parts};
ghost use Rattle.lfs_fs.specs.Sound.{IsSound, Rise};
ghost use Rattle.lfs_command.specs.AskedFor.{named_command};
ghost use Rattle.lfs_command.specs.DirectoryEdit.{has_name};
ghost use Rattle.lfs_command.specs.Leading.{leading_pair, pair_in};

use crate::directory_edit::has_name;
use crate::last_names::{comes_last, last_part};
use crate::parent::parent_of;
use lfs_command::Named;
use lfs_fs::{Outline, OutlineDirectory, OutlinePart, directory_at, names_are_ordered};

/// The first of these parts that has an entry of a name.
fn part_among<'a>(parts: &'a [OutlinePart], name: &[u8]) -> Option<&'a OutlinePart>
    ensures { option_map (λ p. p.now) result ≡ find (has_name name.now) parts.now }
{
    parts.iter().find(|part| has_name(part, name))
}

/// The first part of a directory that has an entry of a name. Takes no time to speak of where the name is in the last part, or new behind
/// all others.
fn part_in<'a>(directory: &'a OutlineDirectory, name: &[u8]) -> Option<&'a OutlinePart>
    requires { Rise (entries directory.now) }
    ensures { option_map (λ p. p.now) result ≡ find (has_name name.now) (parts directory.now) }
{
    names_are_ordered();
    if comes_last(directory, name) {
        return None;
    }
    let last = last_part(directory);
    if has_name(last, name) {
        return Some(last);
    }
    if has_name(&directory.parts.first, name) {
        Some(&directory.parts.first)
    } else {
        part_among(&directory.parts.more, name)
    }
}

/// The pair of the part of a directory that has an entry of a name.
fn pair_in(directory: &OutlineDirectory, name: &[u8]) -> Option<(u32, u32)>
    requires { Rise (entries directory.now) }
    ensures { result ≡ pair_in name.now directory.now }
{
    let part = part_in(directory, name)?;
    Some(part.pair)
}

/// The pair of the part that has the entry at a command's path; none where nothing is there.
pub fn leading_pair(outline: &Outline, command: &Named<'_>) -> Option<(u32, u32)>
    requires { IsSound outline.now }
    ensures { result ≡ leading_pair outline.now (named_command command.now) }
{
    let path = command.path()?;
    let parent = parent_of(outline, path).ok()?;
    let directory = directory_at(&outline.directories, parent.pair)?;
    pair_in(directory, parent.name)
}
