//! Where a path leads in an outline.

ghost use Rattle.std.specs.Prelude.{◌≡◌, ◌≤◌, None, Some, Option, count_by, drop, find, length, map, IfOk, IfErr, OnOk};
ghost use Rattle.std.specs.Option.{option_and_then};
ghost use Rattle.lfs_meta.specs.Body.{Pair};
ghost use Rattle.lfs_fs.specs.Directory.{begins_at};
ghost use Rattle.lfs_fs.specs.Entry.{target};
ghost use Rattle.lfs_fs.specs.Pair.{root};
ghost use Rattle.lfs_fs.specs.Tree.{entry_in};
ghost use Rattle.lfs_command.specs.declared.refusal.Refusal.{Refusal as Refused};
ghost use Rattle.lfs_draft.specs.Editable.{BeginOnce, NamesRise};
ghost use Rattle.lfs_law.specs.PairWalk.{pair_at};
ghost use Rattle.lfs_law.specs.WalkRefusal.{refuses_at, walk_all};

use crate::last_names::entry_in;
use crate::thread_edit::directory_of;
use lfs_command::Refusal;
use lfs_fs::{OutlineDirectory, ROOT};

/// Where a walk is: at the directory of a pair, which is sought from a place of the thread on first.
#[derive(Clone, Copy)]
struct Stop {
    pair: (u32, u32),
    from: usize,
}

/// A place from which on the one directory that begins at a pair is the first that is looked at, if there is one. It is sought from `from`
/// on first, and then before: in the thread a new directory stands right after its parent.
fn place_from(directories: &[OutlineDirectory], from: usize, pair: (u32, u32)) -> usize
    requires { count_by (begins_at pair) directories.now ≤ 1 }
    ensures within { result ≤ length directories.now }
    ensures found { find (begins_at pair) (drop result directories.now) ≡ find (begins_at pair) directories.now }
{
    let (before, others) = directories.split_at(from.min(directories.len()));
    match directory_of(others, pair) {
        Some(at) => before.len() + at,
        None => directory_of(before, pair).unwrap_or(0),
    }
}

/// The directory under a name in the one where a walk is: `NotFound` where nothing is there, `NotADirectory` where a file is.
fn step(directories: &[OutlineDirectory], here: Stop, name: &[u8]) -> Result<Stop, Refusal>
    requires rise { NamesRise directories.now }
    requires once { BeginOnce directories.now }
    ensures there { IfOk result (λ next. option_and_then target (entry_in directories.now here.pair name.now) ≡ Some next.pair) }
    ensures refused { IfErr result (λ r. (rest : Pair → Option Refused) → refuses_at rest (entry_in directories.now here.pair name.now) ≡ Some r) }
{
    let from = place_from(directories, here.from, here.pair);
    let Some(entry) = entry_in(&directories[from..], here.pair, name) else {
        return Err(Refusal::NotFound);
    };
    let Some(pair) = entry.target() else {
        return Err(Refusal::NotADirectory);
    };
    Ok(Stop { pair, from })
}

/// The directory at a path, by its pair: `NotFound` where nothing is at a front of the path or at the path itself,
/// `NotADirectory` where a file is. Takes time that is linear in the path and the directories if each directory of the path stands in the
/// thread after the one before.
pub(crate) fn walk(directories: &[OutlineDirectory], names: &[&[u8]]) -> Result<(u32, u32), Refusal>
    requires rise { NamesRise directories.now }
    requires once { BeginOnce directories.now }
    ensures there { IfOk result (λ k. pair_at directories.now root (map (λ n. n.now) names.now) ≡ Some k) }
    ensures unrefused { OnOk result (walk_all directories.now root (map (λ n. n.now) names.now) ≡ None) }
    ensures refused { IfErr result (λ r. walk_all directories.now root (map (λ n. n.now) names.now) ≡ Some r) }
{
    let mut here = Stop {
        pair: ROOT,
        from: 0,
    };
    'each: for name in names {
        here = step(directories, here, name)?;
    }
    Ok(here.pair)
}
