//! What a command makes of an outline.

ghost use Rattle.std.specs.Prelude.{◌≡◌, ◌<◌, ◌^◌, None, Some, length, map, IfOk, OnOk};
ghost use Rattle.lfs_meta.specs.Fits.{BodyFits};
ghost use Rattle.lfs_fs.specs.AsStored.{stored_body};
ghost use Rattle.lfs_fs.specs.OutlineHeld.{outline_body_held};
ghost use Rattle.lfs_fs.specs.Outlined.{outlined_body};
ghost use Rattle.lfs_fs.specs.Sound.{IsSound};
ghost use Rattle.lfs_fs.specs.Tree.{entry_at, entry_in};
ghost use Rattle.lfs_fs.specs.Volume.{Volume};
ghost use Rattle.lfs_command.specs.AskedFor.{named_command};
ghost use Rattle.lfs_command.specs.Command.{Grow, Mkdir, Mv, Put, Rm, RmAttr, SetAttr};
ghost use Rattle.lfs_draft.specs.Editable.{IsEditable};
ghost use Rattle.lfs_law.specs.EditedOutline.{edited_outline};
ghost use Rattle.lfs_command.specs.Parent.{parent_of};
ghost use Rattle.lfs_law.specs.ParentChecks.{parent_checks};
ghost use Rattle.lfs_command.specs.Supplies.{new_body, nothing};
ghost use Rattle.lfs_command.specs.Verdict.{first_refusal, last_length};

use crate::entry_change::EntryChange;
use crate::parent::{Parent, parent_of};
use crate::supplies::Supplies;
use crate::thread_changes::{make_directory, move_entry, put_file, remove, target_of};
use crate::thread_edit::{change, touch_first};
use lfs_command::{Command, Named, inline_limit};
use lfs_fs::{Outline, OutlineBody};
use lfs_meta::{remove_attribute, set_attribute};
use std::alloc::{AllocError, Global};

/// Where the last name of a path belongs to.
pub(crate) fn parent<'a>(outline: &Outline, path: &[&'a [u8]]) -> Parent<'a>
    requires unrefused { first_refusal (parent_checks outline.now (map (λ n. n.now) path.now)) ≡ None }
    requires sound { IsSound outline.now }
    ensures parent { parent_of outline.now (map (λ n. n.now) path.now) ≡ Some (result.pair, result.name.now) }
    ensures entry { entry_at outline.now (map (λ n. n.now) path.now) ≡ entry_in outline.now.directories result.pair result.name.now }
    ensures len { last_length (map (λ n. n.now) path.now) ≡ length result.name.now }
{
    match parent_of(outline, path) {
        Ok(parent) => parent,
        Err(_) => unreachable!(),
    }
}

/// Makes a directory of the pair of some supplies.
fn mkdir(
    alloc: Global,
    outline: &mut Outline,
    path: &[&[u8]],
    supplies: Supplies,
) -> Result<(), AllocError>
    requires { IsEditable outline.old (Mkdir (map (λ n. n.now) path.now)) }
    ensures { OnOk result (outline.new ≡ edited_outline outline.old (Mkdir (map (λ n. n.now) path.now)) supplies) }
{
    let parent = parent(outline, path);
    make_directory(alloc, &mut outline.directories, parent, supplies.pair)?;
    Ok(())
}

/// Where a file's contents are put: into its entry, if they are no longer than the bound and the limit, otherwise into the blocks of some
/// supplies.
fn new_body(
    alloc: Global,
    size: u32,
    bytes: &[u8],
    most: u32,
    supplies: Supplies,
) -> Result<OutlineBody, AllocError>
    requires { length bytes.now < 2 ^ 32 }
    ensures fits { IfOk result (λ body. BodyFits (stored_body (outline_body_held body))) }
    ensures body { IfOk result (λ body. (v : Volume) → v.size ≡ size → outline_body_held body ≡ outlined_body (new_body v supplies bytes.now most)) }
{
    if bytes.len() <= inline_limit(size, most) as usize {
        return Ok(OutlineBody::Inline(Vec::from_slice(alloc, bytes)?));
    }
    prove!(supplies.blocks.last().copied().unwrap_or(0) <= u32::MAX);
    Ok(OutlineBody::Chain {
        blocks: supplies.blocks,
        size: bytes.len() as u32,
    })
}

/// Puts a file's contents, into the blocks of some supplies where they don't stand in its entry.
fn put(
    alloc: Global,
    outline: &mut Outline,
    path: &[&[u8]],
    bytes: &[u8],
    most: u32,
    supplies: Supplies,
) -> Result<(), AllocError>
    requires { IsEditable outline.old (Put (map (λ n. n.now) path.now) bytes.now most) }
    ensures { OnOk result (outline.new ≡ edited_outline outline.old (Put (map (λ n. n.now) path.now) bytes.now most) supplies) }
{
    let parent = parent(outline, path);
    let body = new_body(alloc, outline.size, bytes, most, supplies)?;
    put_file(alloc, &mut outline.directories, parent, body)?;
    Ok(())
}

/// Removes a file or a directory without entries.
fn rm(outline: &mut Outline, path: &[&[u8]])
    requires { IsEditable outline.old (Rm (map (λ n. n.now) path.now)) }
    ensures { outline.new ≡ edited_outline outline.old (Rm (map (λ n. n.now) path.now)) nothing }
{
    let parent = parent(outline, path);
    let leads_to = target_of(&outline.directories, parent);
    remove(&mut outline.directories, parent, leads_to);
}

/// Moves what is at a path.
fn mv(alloc: Global, outline: &mut Outline, from: &[&[u8]], to: &[&[u8]]) -> Result<(), AllocError>
    requires { IsEditable outline.old (Mv (map (λ n. n.now) from.now) (map (λ n. n.now) to.now)) }
    ensures { OnOk result (outline.new ≡ edited_outline outline.old (Mv (map (λ n. n.now) from.now) (map (λ n. n.now) to.now)) nothing) }
{
    let source = parent(outline, from);
    let target = parent(outline, to);
    move_entry(alloc, &mut outline.directories, source, target)?;
    Ok(())
}

/// Sets an attribute.
fn set_attr(
    alloc: Global,
    outline: &mut Outline,
    path: &[&[u8]],
    kind: u8,
    value: &[u8],
) -> Result<(), AllocError>
    requires { IsEditable outline.old (SetAttr (map (λ n. n.now) path.now) kind value.now) }
    ensures { OnOk result (outline.new ≡ edited_outline outline.old (SetAttr (map (λ n. n.now) path.now) kind value.now) nothing) }
{
    if path.is_empty() {
        set_attribute(&mut outline.attributes, alloc, kind, value)?;
        touch_first(&mut outline.directories);
        return Ok(());
    }
    let parent = parent(outline, path);
    let change_of = EntryChange::SetAttribute { kind, value };
    change(
        alloc,
        &mut outline.directories,
        parent.pair,
        parent.name,
        change_of,
    )?;
    Ok(())
}

/// Removes an attribute.
fn rm_attr(alloc: Global, outline: &mut Outline, path: &[&[u8]], kind: u8) -> Result<(), AllocError>
    requires { IsEditable outline.old (RmAttr (map (λ n. n.now) path.now) kind) }
    ensures { OnOk result (outline.new ≡ edited_outline outline.old (RmAttr (map (λ n. n.now) path.now) kind) nothing) }
{
    if path.is_empty() {
        remove_attribute(&mut outline.attributes, kind);
        touch_first(&mut outline.directories);
        return Ok(());
    }
    let parent = parent(outline, path);
    let change_of = EntryChange::RemoveAttribute { kind };
    change(
        alloc,
        &mut outline.directories,
        parent.pair,
        parent.name,
        change_of,
    )?;
    Ok(())
}

/// Gives the image so many blocks.
fn grow(outline: &mut Outline, count: u32)
    ensures { outline.new ≡ edited_outline outline.old (Grow count) nothing }
{
    outline.count = count;
    touch_first(&mut outline.directories);
}

/// What a command makes of an outline with these supplies. Where memory is wanting, the outline is of no use.
pub fn edit(
    alloc: Global,
    outline: &mut Outline,
    command: &Named<'_>,
    supplies: Supplies,
) -> Result<(), AllocError>
    requires { IsEditable outline.old (named_command command.now) }
    ensures { OnOk result (outline.new ≡ edited_outline outline.old (named_command command.now) supplies) }
{
    match command {
        Command::Mkdir { path } => mkdir(alloc, outline, path, supplies),
        Command::Put { path, bytes, most } => { put(alloc, outline, path, bytes, *most, supplies) }
        Command::Rm { path } => {
            rm(outline, path);
            Ok(())
        }
        Command::Mv { from, to } => mv(alloc, outline, from, to),
        Command::SetAttr { path, kind, value } => { set_attr(alloc, outline, path, *kind, value) }
        Command::RmAttr { path, kind } => rm_attr(alloc, outline, path, *kind),
        Command::Grow { count } => {
            grow(outline, *count);
            Ok(())
        }
    }
}
