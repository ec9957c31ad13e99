//! Outlines without marks of a command.

ghost use Rattle.std.specs.Prelude.{◌≡◌, ◌++◌, drop, map, take};
ghost use Rattle.lfs_command.specs.Clean.{clean, cleaned};
ghost use Rattle.lfs_command.specs.DirectoryEdit.{each_part};
ghost use Rattle.lfs_cut.specs.Front.{IsCleanFrom};

use lfs_fs::{Outline, OutlineDirectory, OutlinePart};

/// Takes the mark off a part.
fn clean_part(part: &mut OutlinePart)
    ensures { part.new ≡ cleaned part.old }
{
    part.dirty = false;
}

/// Takes the marks off parts.
fn clean_parts(parts: &mut Vec<OutlinePart>)
    ensures { parts.new.items ≡ map cleaned parts.old.items }
{
    for part in parts.iter_mut() {
        clean_part(part);
    }
}

/// Takes the marks off the parts of a directory.
fn clean_directory(directory: &mut OutlineDirectory)
    ensures { directory.new ≡ each_part cleaned directory.old }
{
    clean_part(&mut directory.parts.first);
    clean_parts(&mut directory.parts.more);
}

/// Takes the marks off the parts of so many directories in front.
fn clean_directories(directories: &mut Vec<OutlineDirectory>, front: usize)
    ensures { directories.new.items ≡ map (each_part cleaned) (take front directories.old.items) ++ drop front directories.old.items }
{
    let end = front.min(directories.len());
    'each: for at in 0..end {
        clean_directory(&mut directories[at]);
    }
}

/// Takes the marks off the parts of an outline, once they are written.
pub fn clean(outline: &mut Outline, front: usize)
    requires { IsCleanFrom front outline.old.directories }
    ensures { outline.new ≡ clean outline.old }
{
    clean_directories(&mut outline.directories, front);
}
