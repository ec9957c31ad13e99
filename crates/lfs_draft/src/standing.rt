//! What stands at a path of an outline.

ghost use Rattle.std.specs.Prelude.{◌≡◌, None, Some, map, IfOk, IfErr, OnOk};
ghost use Rattle.std.specs.Option.{option_map};
ghost use Rattle.lfs_fs.specs.Sound.{IsSound};
ghost use Rattle.lfs_fs.specs.Tree.{entry_at, tree};
ghost use Rattle.lfs_command.specs.Equation.{attributes_of};
ghost use Rattle.lfs_law.specs.ParentChecks.{entry_checks, parent_checks, there_checks};
ghost use Rattle.lfs_command.specs.Verdict.{first_refusal, last_length};

use crate::last_names::entry_in;
use crate::parent::parent_of;
use lfs_command::{Refusal, last_of};
use lfs_fs::{Outline, OutlineEntry};
use lfs_meta::Attribute;

/// The entry at a path, if there is one: `IsRoot` where the path is the root's, else what the walk to its last name is refused
/// for.
pub(crate) fn entry_at<'a>(
    outline: &'a Outline,
    names: &[&[u8]],
) -> Result<Option<&'a OutlineEntry>, Refusal>
    requires { IsSound outline.now }
    ensures at { IfOk result (λ entry. option_map (λ e. e.now) entry ≡ entry_at outline.now (map (λ n. n.now) names.now)) }
    ensures unrefused { OnOk result (first_refusal (parent_checks outline.now (map (λ n. n.now) names.now)) ≡ None) }
    ensures refused { IfErr result (λ r. first_refusal (parent_checks outline.now (map (λ n. n.now) names.now)) ≡ Some r) }
{
    let parent = parent_of(outline, names)?;
    Ok(entry_in(&outline.directories, parent.pair, parent.name))
}

/// The entry that is at a path: refused as `entry_at` is, else `NotFound` where there is none.
pub fn entry_there<'a>(outline: &'a Outline, names: &[&[u8]]) -> Result<&'a OutlineEntry, Refusal>
    requires { IsSound outline.now }
    ensures there { IfOk result (λ entry. entry_at outline.now (map (λ n. n.now) names.now) ≡ Some entry.now) }
    ensures unrefused { OnOk result (first_refusal (entry_checks outline.now (map (λ n. n.now) names.now)) ≡ None) }
    ensures refused { IfErr result (λ r. first_refusal (entry_checks outline.now (map (λ n. n.now) names.now)) ≡ Some r) }
{
    let Some(entry) = entry_at(outline, names)? else {
        return Err(Refusal::NotFound);
    };
    Ok(entry)
}

/// The attributes of what is at a path, which may be the root: what the walk there is refused for, else `NotFound` where
/// nothing is there.
pub(crate) fn attributes_at<'a>(
    outline: &'a Outline,
    names: &[&[u8]],
) -> Result<&'a [Attribute], Refusal>
    requires { IsSound outline.now }
    ensures there { IfOk result (λ attributes. option_map attributes_of (tree outline.now (map (λ n. n.now) names.now)) ≡ Some attributes.now) }
    ensures unrefused { OnOk result (first_refusal (there_checks outline.now (map (λ n. n.now) names.now)) ≡ None) }
    ensures refused { IfErr result (λ r. first_refusal (there_checks outline.now (map (λ n. n.now) names.now)) ≡ Some r) }
{
    if names.is_empty() {
        return Ok(&outline.attributes);
    }
    let entry = entry_there(outline, names)?;
    Ok(&entry.attributes)
}

/// The length of a path's last name; the root has none, which counts as nothing.
pub(crate) fn last_length(names: &[&[u8]]) -> usize
    ensures { result ≡ last_length (map (λ n. n.now) names.now) }
{
    match last_of(names) {
        Some(name) => name.len(),
        None => 0,
    }
}
