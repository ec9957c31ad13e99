//! The line of an image in numbers.

ghost use Rattle.std.specs.Prelude.{◌≡◌, ◌++◌, ◌*◌, IfOk, OnOk, codes, string_bytes};
ghost use Rattle.json.specs.Json.{string};
ghost use Rattle.lfs_json.specs.Line.{line_of};
ghost use Rattle.lfs_json.specs.Object.{integer};
ghost use Rattle.lfs_json.specs.Written.{Adds, member_tokens, members_tokens};
ghost use Rattle.lfs_json.specs.Summary.{block_members, inline_member, limit_members, tree_members, version_word};
ghost use Rattle.lfs_json.specs.Summary.{json_of_limits, json_of_summary};

use crate::line::{begin_line, end_line};
use crate::members::{add_number, add_text};
use json::Writer;
use lfs_fs::Limits;
use std::alloc::{AllocError, Global};

/// An image in numbers.
#[derive(Clone, Copy)]
pub struct Summary {
    /// The size of a block, in bytes.
    pub block: u32,
    /// How many blocks it has.
    pub count: u32,
    /// How many of them are free.
    pub free: u32,
    /// How many directories, the root among them.
    pub directories: usize,
    /// How many files.
    pub files: usize,
    /// The disk version, with its major number in the upper half.
    pub version: u32,
    /// Its limits.
    pub limits: Limits,
    /// The length of the longest file that stands in its entry, in bytes; 0 if none does.
    pub inline_longest: usize,
}

/// Adds a number of four bytes under a name.
fn add_count(line: &mut Writer, name: &str, count: u32) -> Result<(), AllocError>
    ensures { OnOk result (Adds line.old line.new (member_tokens (name.now, integer count))) }
{
    add_number(line, name, u64::from(count))
}

/// How many bytes are free.
fn free_bytes(summary: &Summary) -> u64
    ensures { result ≡ summary.now.free * summary.now.block }
{
    u64::from(summary.free) * u64::from(summary.block)
}

/// A disk version in digits.
fn version_word(alloc: Global, version: u32) -> Result<String, AllocError>
    ensures { IfOk result (λ word. string_bytes word ≡ version_word version) }
{
    let major = version / 65_536;
    let minor = version % 65_536;
    format!(in alloc; "{major}.{minor}")
}

/// Adds an image's blocks.
fn add_blocks(line: &mut Writer, summary: &Summary) -> Result<(), AllocError>
    ensures { OnOk result (Adds line.old line.new (members_tokens (block_members summary.now))) }
{
    add_count(line, "block", summary.block)?;
    add_count(line, "count", summary.count)?;
    add_count(line, "free", summary.free)?;
    add_number(line, "free_bytes", free_bytes(summary))?;
    Ok(())
}

/// Adds what an image holds.
fn add_tree(line: &mut Writer, summary: &Summary) -> Result<(), AllocError>
    ensures { OnOk result (Adds line.old line.new (members_tokens (tree_members summary.now))) }
{
    add_number(line, "directories", summary.directories as u64)?;
    add_number(line, "files", summary.files as u64)
}

/// Adds the disk version.
fn add_version(alloc: Global, line: &mut Writer, version: u32) -> Result<(), AllocError>
    ensures { OnOk result (Adds line.old line.new (member_tokens (codes "version", string (version_word version)))) }
{
    let word = version_word(alloc, version)?;
    add_text(line, "version", word.as_str())
}

/// Adds limits.
fn add_limits(line: &mut Writer, limits: Limits) -> Result<(), AllocError>
    ensures { OnOk result (Adds line.old line.new (members_tokens (limit_members limits))) }
{
    add_count(line, "name_max", limits.name)?;
    add_count(line, "file_max", limits.file)?;
    add_count(line, "attr_max", limits.attribute)?;
    Ok(())
}

/// Adds the length of the longest file that stands in its entry.
fn add_inline(line: &mut Writer, summary: &Summary) -> Result<(), AllocError>
    ensures { OnOk result (Adds line.old line.new (member_tokens (inline_member summary.now))) }
{
    add_number(line, "inline_longest", summary.inline_longest as u64)
}

/// Adds the line of an image in numbers: an object with `block`, `count`, `free`, `free_bytes`, `directories`, `files`, `version`,
/// `name_max`, `file_max`, `attr_max` and `inline_longest`.
pub fn append_json_summary(
    alloc: Global,
    text: &mut Vec<u8>,
    summary: &Summary,
) -> Result<(), AllocError>
    ensures { OnOk result (text.new.items ≡ text.old.items ++ line_of (json_of_summary summary.now)) }
{
    let mut line = begin_line(alloc, text)?;
    add_blocks(&mut line, summary)?;
    add_tree(&mut line, summary)?;
    add_version(alloc, &mut line, summary.version)?;
    add_limits(&mut line, summary.limits)?;
    add_inline(&mut line, summary)?;
    end_line(text, line)?;
    Ok(())
}

/// Adds the line of an image's limits, where another one has others: an object with `change`, which is `limits`, `name_max`, `file_max`
/// and `attr_max`.
pub fn append_json_limits(
    alloc: Global,
    text: &mut Vec<u8>,
    limits: Limits,
) -> Result<(), AllocError>
    ensures { OnOk result (text.new.items ≡ text.old.items ++ line_of (json_of_limits limits)) }
{
    let mut line = begin_line(alloc, text)?;
    add_text(&mut line, "change", "limits")?;
    add_limits(&mut line, limits)?;
    end_line(text, line)?;
    Ok(())
}
