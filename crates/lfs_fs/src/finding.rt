//! What stands at a path of an outline, found from the root down.

ghost use Rattle.std.specs.Prelude.{◌≡◌, Some, find, map};
ghost use Rattle.std.specs.Option.{option_map};
ghost use Rattle.lfs_fs.specs.Graph.{entry_within};
ghost use Rattle.lfs_fs.specs.Entry.{target};
ghost use Rattle.lfs_fs.specs.Directory.{begins_at};
ghost use Rattle.lfs_fs.specs.Tree.{entry_in, entry_at};
ghost use Rattle.lfs_fs.specs.Seen.{seen};

use crate::found::Found;
use crate::outline::Outline;
use crate::outline_directory::OutlineDirectory;
use crate::outline_entry::OutlineEntry;
use crate::path::Path;

/// The first directory that begins at a pair, the lesser block first.
pub fn directory_at<'a>(
    directories: &'a [OutlineDirectory],
    pair: (u32, u32),
) -> Option<&'a OutlineDirectory>
    ensures { option_map (λ d. d.now) result ≡ find (begins_at pair) directories.now }
{
    directories
        .iter()
        .find(|directory| directory.begins_at(pair))
}

/// The entry under a name in the directory of a pair, the lesser block first.
pub fn entry_in<'a>(
    directories: &'a [OutlineDirectory],
    pair: (u32, u32),
    name: &[u8],
) -> Option<&'a OutlineEntry>
    ensures { option_map (λ e. e.now) result ≡ entry_in directories.now pair name.now }
{
    directory_at(directories, pair)?.named(name)
}

/// The entry under a name, below what stands somewhere.
fn below<'a>(outline: &'a Outline, here: &Found<'_>, name: &[u8]) -> Option<&'a OutlineEntry>
    ensures { option_map (λ e. e.now) result ≡ entry_within target (entry_in outline.now.directories) name.now (Some (seen outline.now here.now)) }
{
    let pair = here.target()?;
    entry_in(&outline.directories, pair, name)
}

/// What stands at the path of these names.
fn found_at<'a>(outline: &'a Outline, names: &[Vec<u8>]) -> Option<Found<'a>>
    ensures { option_map (seen outline.now) result ≡ entry_at outline.now (map (λ n. n.items) names.now) }
{
    let mut here = Found::Root;
    for name in names {
        here = Found::Entry(below(outline, &here, name)?);
    }
    Some(here)
}

impl Outline {
    ghost use Rattle.std.specs.Prelude.{◌≡◌};
    ghost use Rattle.std.specs.Option.{option_map};
    ghost use Rattle.lfs_fs.specs.Tree.{entry_at};
    ghost use Rattle.lfs_fs.specs.Seen.{seen};

    /// What stands at a path.
    pub fn find(&self, path: &Path) -> Option<Found<'_>>
        ensures { option_map (seen self.now) result ≡ entry_at self.now path.now }
    {
        found_at(self, path.names())
    }
}
