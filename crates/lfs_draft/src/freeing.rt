//! Which blocks a command gives back.

ghost use Rattle.std.specs.Prelude.{◌≡◌, ◌+◌, ℕ, None, [], ◌∷◌, if◌then◌else◌, map, sum_by, IfOk, OnOk};
ghost use Rattle.std.specs.List.{filter};
ghost use Rattle.std.specs.Option.{option_map, unwrap_or};
ghost use Rattle.lfs_fs.specs.Entry.{target};
ghost use Rattle.lfs_fs.specs.OutlineHeld.{outline_body_held};
ghost use Rattle.lfs_fs.specs.Sound.{IsSound};
ghost use Rattle.lfs_fs.specs.Tree.{entry_at};
ghost use Rattle.lfs_fs.specs.Uses.{body_uses, directory_uses, entry_uses, pair_uses, part_uses, times};
ghost use Rattle.lfs_command.specs.AskedFor.{named_command};
ghost use Rattle.lfs_command.specs.Command.{Rm};
ghost use Rattle.lfs_command.specs.DirectoryEdit.{has_only};
ghost use Rattle.lfs_command.specs.Freed.{content_uses, emptied_among, emptied_uses, folder_uses, freed_uses, target_uses};
ghost use Rattle.lfs_command.specs.Verdict.{first_refusal};
ghost use Rattle.lfs_draft.specs.Editable.{IsEditable};
ghost use Rattle.lfs_draft.specs.Freeing.{ListsMore};
ghost use Rattle.lfs_law.specs.ParentChecks.{parent_checks};

use crate::directory_edit::has_only;
use crate::editing::parent;
use crate::last_names::entry_in;
use lfs_command::{Command, Named};
use lfs_fs::{Outline, OutlineBody, OutlineDirectory, OutlineEntry, OutlinePart, directory_at};
use std::alloc::{AllocError, Global};

/// Lists the blocks of a chain.
fn list_body(blocks: &mut Vec<u32>, body: &OutlineBody) -> Result<(), AllocError>
    ensures { OnOk result (ListsMore blocks.old.items blocks.new.items (λ b. body_uses b (outline_body_held body.now))) }
{
    match body {
        OutlineBody::Chain { blocks: chain, .. } => blocks.extend_from_slice(chain),
        OutlineBody::Inline(_) | OutlineBody::Directory(_, _) => Ok(()),
    }
}

/// Lists the blocks of an entry's chain.
fn list_entry(blocks: &mut Vec<u32>, entry: &OutlineEntry) -> Result<(), AllocError>
    ensures { OnOk result (ListsMore blocks.old.items blocks.new.items (λ b. entry_uses b entry.now)) }
{
    list_body(blocks, &entry.body)
}

/// Lists the blocks of a pair.
fn list_pair(blocks: &mut Vec<u32>, pair: (u32, u32)) -> Result<(), AllocError>
    ensures { OnOk result (ListsMore blocks.old.items blocks.new.items (λ b. times b (pair.0 ∷ pair.1 ∷ []))) }
{
    blocks.push(pair.0)?;
    blocks.push(pair.1)?;
    Ok(())
}

/// Lists the blocks of the chains of entries.
fn list_entries(blocks: &mut Vec<u32>, entries: &[OutlineEntry]) -> Result<(), AllocError>
    ensures { OnOk result (ListsMore blocks.old.items blocks.new.items (λ b. sum_by (entry_uses b) entries.now)) }
{
    'each: for entry in entries {
        list_entry(blocks, entry)?;
    }
    Ok(())
}

/// Lists the blocks of a part: its pair, and those of its entries.
fn list_part(blocks: &mut Vec<u32>, part: &OutlinePart) -> Result<(), AllocError>
    ensures { OnOk result (ListsMore blocks.old.items blocks.new.items (λ b. part_uses b part.now)) }
{
    list_pair(blocks, part.pair)?;
    list_entries(blocks, &part.entries)?;
    Ok(())
}

/// Lists the blocks of parts.
fn list_parts(blocks: &mut Vec<u32>, parts: &[OutlinePart]) -> Result<(), AllocError>
    ensures { OnOk result (ListsMore blocks.old.items blocks.new.items (λ b. sum_by (part_uses b) parts.now)) }
{
    'each: for part in parts {
        list_part(blocks, part)?;
    }
    Ok(())
}

/// Lists the blocks of a directory.
fn list_directory(blocks: &mut Vec<u32>, directory: &OutlineDirectory) -> Result<(), AllocError>
    ensures { OnOk result (ListsMore blocks.old.items blocks.new.items (λ b. directory_uses b directory.now)) }
{
    list_part(blocks, &directory.parts.first)?;
    list_parts(blocks, &directory.parts.more)?;
    Ok(())
}

/// Lists the blocks of the directory that an entry leads to, if it leads to one.
fn list_target(
    blocks: &mut Vec<u32>,
    outline: &Outline,
    entry: &OutlineEntry,
) -> Result<(), AllocError>
    ensures { OnOk result (ListsMore blocks.old.items blocks.new.items (λ b. unwrap_or (option_map (λ k. folder_uses outline.now k b) (target entry.now)) 0)) }
{
    let Some(pair) = entry.target() else {
        return Ok(());
    };
    let Some(directory) = directory_at(&outline.directories, pair) else {
        return Ok(());
    };
    list_directory(blocks, directory)?;
    Ok(())
}

/// The entry at a path, if there is one.
fn entry_at<'a>(outline: &'a Outline, path: &[&[u8]]) -> Option<&'a OutlineEntry>
    requires unrefused { first_refusal (parent_checks outline.now (map (λ n. n.now) path.now)) ≡ None }
    requires sound { IsSound outline.now }
    ensures { option_map (λ e. e.now) result ≡ entry_at outline.now (map (λ n. n.now) path.now) }
{
    let parent = parent(outline, path);
    entry_in(&outline.directories, parent.pair, parent.name)
}

/// Lists the blocks of the file at a path, if there is one.
fn list_replaced(blocks: &mut Vec<u32>, outline: &Outline, path: &[&[u8]]) -> Result<(), AllocError>
    requires unrefused { first_refusal (parent_checks outline.now (map (λ n. n.now) path.now)) ≡ None }
    requires sound { IsSound outline.now }
    ensures { OnOk result (ListsMore blocks.old.items blocks.new.items (λ b. content_uses outline.now (map (λ n. n.now) path.now) b)) }
{
    let Some(entry) = entry_at(outline, path) else {
        return Ok(());
    };
    list_entry(blocks, entry)?;
    Ok(())
}

/// Lists the blocks of the file or the directory at a path, if there is one.
fn list_removed(blocks: &mut Vec<u32>, outline: &Outline, path: &[&[u8]]) -> Result<(), AllocError>
    requires unrefused { first_refusal (parent_checks outline.now (map (λ n. n.now) path.now)) ≡ None }
    requires sound { IsSound outline.now }
    ensures { OnOk result (ListsMore blocks.old.items blocks.new.items (λ b. content_uses outline.now (map (λ n. n.now) path.now) b + target_uses outline.now (map (λ n. n.now) path.now) b)) }
{
    let Some(entry) = entry_at(outline, path) else {
        return Ok(());
    };
    list_entry(blocks, entry)?;
    list_target(blocks, outline, entry)?;
    Ok(())
}

/// Lists the blocks of a part that has an entry of a name, and nothing else.
fn list_if_emptied(blocks: &mut Vec<u32>, part: &OutlinePart, name: &[u8]) -> Result<(), AllocError>
    ensures { OnOk result (ListsMore blocks.old.items blocks.new.items (λ b. if has_only name.now part.now then pair_uses b part.now else 0)) }
{
    if has_only(part, name) {
        list_pair(blocks, part.pair)?;
    }
    Ok(())
}

/// Lists the blocks of the parts that have an entry of a name, and nothing else.
fn list_emptied(blocks: &mut Vec<u32>, parts: &[OutlinePart], name: &[u8]) -> Result<(), AllocError>
    ensures { OnOk result (ListsMore blocks.old.items blocks.new.items (λ b. sum_by (pair_uses b) (filter (has_only name.now) parts.now))) }
{
    'each: for part in parts {
        list_if_emptied(blocks, part, name)?;
    }
    Ok(())
}

/// Lists the blocks of the parts that leave the directory of a pair when the entry of a name is taken out of it.
fn list_emptied_among(
    blocks: &mut Vec<u32>,
    outline: &Outline,
    pair: (u32, u32),
    name: &[u8],
) -> Result<(), AllocError>
    ensures { OnOk result (ListsMore blocks.old.items blocks.new.items (λ b. sum_by (pair_uses b) (emptied_among outline.now.directories pair name.now))) }
{
    let Some(directory) = directory_at(&outline.directories, pair) else {
        return Ok(());
    };
    list_emptied(blocks, &directory.parts.more, name)?;
    Ok(())
}

/// Lists the blocks of the parts that leave their directory with the entry at a path.
fn list_left(blocks: &mut Vec<u32>, outline: &Outline, path: &[&[u8]]) -> Result<(), AllocError>
    requires unrefused { first_refusal (parent_checks outline.now (map (λ n. n.now) path.now)) ≡ None }
    requires sound { IsSound outline.now }
    ensures { OnOk result (ListsMore blocks.old.items blocks.new.items (λ b. emptied_uses outline.now (map (λ n. n.now) path.now) b)) }
{
    let parent = parent(outline, path);
    list_emptied_among(blocks, outline, parent.pair, parent.name)?;
    Ok(())
}

/// Lists the blocks that `rm` of a path gives back.
fn list_rm(blocks: &mut Vec<u32>, outline: &Outline, path: &[&[u8]]) -> Result<(), AllocError>
    requires unrefused { first_refusal (parent_checks outline.now (map (λ n. n.now) path.now)) ≡ None }
    requires sound { IsSound outline.now }
    ensures { OnOk result (ListsMore blocks.old.items blocks.new.items (λ b. freed_uses outline.now (Rm (map (λ n. n.now) path.now)) b)) }
{
    list_removed(blocks, outline, path)?;
    list_left(blocks, outline, path)?;
    Ok(())
}

/// Lists the blocks that a command gives back.
fn list_freed(
    blocks: &mut Vec<u32>,
    outline: &Outline,
    command: &Named<'_>,
) -> Result<(), AllocError>
    requires { IsEditable outline.now (named_command command.now) }
    ensures { OnOk result (ListsMore blocks.old.items blocks.new.items (λ b. freed_uses outline.now (named_command command.now) b)) }
{
    match command {
        Command::Put { path, .. } => list_replaced(blocks, outline, path),
        Command::Rm { path } => list_rm(blocks, outline, path),
        Command::Mv { from, .. } => list_left(blocks, outline, from),
        _ => Ok(()),
    }
}

/// The blocks that a command gives back: those of the contents that it removes or replaces, of a directory that it removes, and of the
/// part that it empties.
pub fn freed_blocks(
    alloc: Global,
    outline: &Outline,
    command: &Named<'_>,
) -> Result<Vec<u32>, AllocError>
    requires { IsEditable outline.now (named_command command.now) }
    ensures { IfOk result (λ blocks. (b : ℕ) → times b blocks.items ≡ freed_uses outline.now (named_command command.now) b) }
{
    let mut blocks = Vec::new(alloc);
    list_freed(&mut blocks, outline, command)?;
    Ok(blocks)
}
