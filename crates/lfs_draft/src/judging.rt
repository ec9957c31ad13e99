//! Whether a command is refused on an outline, the room that it takes aside.

ghost use Rattle.std.specs.Prelude.{◌≡◌, ◌==◌, ℕ, None, Some, map, IfErr, OnOk};
ghost use Rattle.std.specs.List.{list_any};
ghost use Rattle.std.specs.Option.{option_map};
ghost use Rattle.lfs_fs.specs.Sound.{IsSound};
ghost use Rattle.lfs_fs.specs.Tree.{node};
ghost use Rattle.lfs_command.specs.AskedFor.{named_command};
ghost use Rattle.lfs_command.specs.Command.{Grow, Mkdir, Mv, Put, Rm, RmAttr, SetAttr};
ghost use Rattle.lfs_command.specs.Verdict.{checks, first_refusal, is_directory, lies_below};

use crate::bare::is_bare;
use crate::standing::{attributes_at, entry_at, entry_there, last_length};
use lfs_block::geometry_ok;
use lfs_command::{Command, Named, Refusal};
use lfs_fs::{Outline, OutlineEntry};
use lfs_meta::Attribute;

/// Whether something may be made at a path: `IsRoot` where it is the root's, else what the walk to it is refused for, else
/// `Exists` where something is there, else `NameTooLong` where its last name is longer than the limit.
fn judge_new(outline: &Outline, path: &[&[u8]]) -> Result<(), Refusal>
    requires { IsSound outline.now }
    ensures unrefused { OnOk result (first_refusal (checks outline.now (Mkdir (map (λ n. n.now) path.now))) ≡ None) }
    ensures refused { IfErr result (λ r. first_refusal (checks outline.now (Mkdir (map (λ n. n.now) path.now))) ≡ Some r) }
{
    let entry = entry_at(outline, path)?;
    if entry.is_some() {
        return Err(Refusal::Exists);
    }
    if last_length(path) > outline.limits.name as usize {
        return Err(Refusal::NameTooLong);
    }
    Ok(())
}

/// Whether a directory is what stands somewhere.
fn is_directory(entry: Option<&OutlineEntry>) -> bool
    ensures { result ≡ is_directory (option_map node (option_map (λ e. e.now) entry.entry)) }
{
    entry.is_some_and(|entry| entry.target().is_some())
}

/// Whether contents may be put at a path: `IsRoot` where it is the root's, else what the walk to it is refused for, else
/// `IsADirectory` where a directory is there, else `NameTooLong` where nothing is there and its last name is longer than the
/// limit, else `FileTooLarge` where the contents are longer than the limit.
fn judge_put(outline: &Outline, path: &[&[u8]], bytes: &[u8]) -> Result<(), Refusal>
    requires { IsSound outline.now }
    ensures unrefused { OnOk result ((most : ℕ) → first_refusal (checks outline.now (Put (map (λ n. n.now) path.now) bytes.now most)) ≡ None) }
    ensures refused { IfErr result (λ r. (most : ℕ) → first_refusal (checks outline.now (Put (map (λ n. n.now) path.now) bytes.now most)) ≡ Some r) }
{
    let entry = entry_at(outline, path)?;
    if is_directory(entry) {
        return Err(Refusal::IsADirectory);
    }
    if entry.is_none() && last_length(path) > outline.limits.name as usize {
        return Err(Refusal::NameTooLong);
    }
    if bytes.len() > outline.limits.file as usize {
        return Err(Refusal::FileTooLarge);
    }
    Ok(())
}

/// Whether what is at a path may be removed: `IsRoot` where that is the root, else what the walk to it is refused for, else
/// `NotFound` where nothing is there, else `NotEmpty` where it is a directory that has an entry.
fn judge_rm(outline: &Outline, path: &[&[u8]]) -> Result<(), Refusal>
    requires { IsSound outline.now }
    ensures unrefused { OnOk result (first_refusal (checks outline.now (Rm (map (λ n. n.now) path.now))) ≡ None) }
    ensures refused { IfErr result (λ r. first_refusal (checks outline.now (Rm (map (λ n. n.now) path.now))) ≡ Some r) }
{
    let entry = entry_there(outline, path)?;
    if !is_bare(outline, entry.target()) {
        return Err(Refusal::NotEmpty);
    }
    Ok(())
}

/// Whether an attribute of what is at a path may be set: what the walk there is refused for, else `NotFound` where nothing is
/// there, else `AttrTooLarge` where the value is longer than the limit.
fn judge_set_attr(outline: &Outline, path: &[&[u8]], value: &[u8]) -> Result<(), Refusal>
    requires { IsSound outline.now }
    ensures unrefused { OnOk result ((kind : ℕ) → first_refusal (checks outline.now (SetAttr (map (λ n. n.now) path.now) kind value.now)) ≡ None) }
    ensures refused { IfErr result (λ r. (kind : ℕ) → first_refusal (checks outline.now (SetAttr (map (λ n. n.now) path.now) kind value.now)) ≡ Some r) }
{
    attributes_at(outline, path)?;
    if value.len() > outline.limits.attribute as usize {
        return Err(Refusal::AttrTooLarge);
    }
    Ok(())
}

/// Whether one of some attributes has a kind.
fn has_kind(attributes: &[Attribute], kind: u8) -> bool
    ensures { result ≡ list_any (λ a. a.0 == kind) attributes.now }
{
    attributes.iter().any(|attribute| attribute.kind == kind)
}

/// Whether an attribute of what is at a path may be removed: what the walk there is refused for, else `NotFound` where nothing
/// is there, else `NoAttr` where it has none of the kind.
fn judge_rm_attr(outline: &Outline, path: &[&[u8]], kind: u8) -> Result<(), Refusal>
    requires { IsSound outline.now }
    ensures unrefused { OnOk result (first_refusal (checks outline.now (RmAttr (map (λ n. n.now) path.now) kind)) ≡ None) }
    ensures refused { IfErr result (λ r. first_refusal (checks outline.now (RmAttr (map (λ n. n.now) path.now) kind)) ≡ Some r) }
{
    let attributes = attributes_at(outline, path)?;
    if !has_kind(attributes, kind) {
        return Err(Refusal::NoAttr);
    }
    Ok(())
}

/// Whether a path lies strictly below another.
fn lies_below(from: &[&[u8]], to: &[&[u8]]) -> bool
    ensures { result ≡ lies_below (map (λ n. n.now) from.now) (map (λ n. n.now) to.now) }
{
    to.len() > from.len() && to.starts_with(from)
}

/// Whether what is at a path may be moved to another: `IsRoot` where either is the root's, else what the walk to the first is
/// refused for, else `NotFound` where nothing is there, else `IntoItself` where the second lies strictly below the first, else
/// as `judge_new` has it of the second.
fn judge_mv(outline: &Outline, from: &[&[u8]], to: &[&[u8]]) -> Result<(), Refusal>
    requires { IsSound outline.now }
    ensures unrefused { OnOk result (first_refusal (checks outline.now (Mv (map (λ n. n.now) from.now) (map (λ n. n.now) to.now))) ≡ None) }
    ensures refused { IfErr result (λ r. first_refusal (checks outline.now (Mv (map (λ n. n.now) from.now) (map (λ n. n.now) to.now))) ≡ Some r) }
{
    if from.is_empty() || to.is_empty() {
        return Err(Refusal::IsRoot);
    }
    entry_there(outline, from)?;
    if lies_below(from, to) {
        return Err(Refusal::IntoItself);
    }
    judge_new(outline, to)?;
    Ok(())
}

/// Whether the image may be lengthened to so many blocks: `BadCount` where it has as many, or an image of its block size can't have
/// them.
fn judge_grow(outline: &Outline, count: u32) -> Result<(), Refusal>
    ensures unrefused { OnOk result (first_refusal (checks outline.now (Grow count)) ≡ None) }
    ensures refused { IfErr result (λ r. first_refusal (checks outline.now (Grow count)) ≡ Some r) }
{
    if outline.count < count && geometry_ok(outline.size, count) {
        Ok(())
    } else {
        Err(Refusal::BadCount)
    }
}

/// Whether a command is refused on an outline, by the first of its checks that refuses; the room that it takes isn't looked at.
pub fn judge(outline: &Outline, command: &Named<'_>) -> Result<(), Refusal>
    requires { IsSound outline.now }
    ensures unrefused { OnOk result (first_refusal (checks outline.now (named_command command.now)) ≡ None) }
    ensures refused { IfErr result (λ r. first_refusal (checks outline.now (named_command command.now)) ≡ Some r) }
{
    match command {
        Command::Mkdir { path } => judge_new(outline, path)?,
        Command::Put { path, bytes, .. } => judge_put(outline, path, bytes)?,
        Command::Rm { path } => judge_rm(outline, path)?,
        Command::Mv { from, to } => judge_mv(outline, from, to)?,
        Command::SetAttr { path, value, .. } => judge_set_attr(outline, path, value)?,
        Command::RmAttr { path, kind } => judge_rm_attr(outline, path, *kind)?,
        Command::Grow { count } => judge_grow(outline, *count)?,
    }
    Ok(())
}
