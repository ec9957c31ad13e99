//! The operations that the words of a command say.

ghost use Rattle.std.specs.Prelude.{◌≡◌, ◌<◌, ◌⊎◌, ℕ, IfErr, IfOk, Some, codes, false, true};
ghost use Rattle.clap.specs.Words.{Text, found_of, rows_of};
ghost use Rattle.lfs_grammar.specs.Grammar.{NamesCommand, TakesNoImage, inline_max, is_change};
ghost use Rattle.lfs_history.specs.Taking.{MayKeep};
ghost use Rattle.lfs_request.specs.Operation.{IsOperationInRange};
ghost use Rattle.lfs_arguments.specs.Words.{HasContents, HasNumberIfSaid, IsCommand, IsCommandUsageError, IsKeepSaid, IsManner, IsMostSaid, IsOffsetUsageError};
ghost use Rattle.lfs_arguments.specs.Words.{IsOperation, IsQuery, IsSizeUsageError, IsView, is_command};
ghost use Rattle.lfs_arguments.specs.Words.{HasPathOrRoot, IsNoPast, IsNoTreeCommand, IsNoViewing, IsTreeChange, form_said, is_of_tree, is_other, is_question};
ghost use Rattle.lfs_arguments.specs.declared.usage_error.UsageError.TheVariants.{Memory, Unsaid};

use crate::counting::{count_of, extent_if_said, extent_of, limits_if_said, limits_of};
use crate::options::{bytes, number, number_if_said, said, text};
use crate::spelling::{attribute_of, kind_of};
use crate::usage_error::{FORMAT, GROW, PACK, UsageError};
use crate::viewing::view_of;
use clap::ArgMatches;
use lfs_command::Command;
use lfs_fs::{MOST_HELD, VERSION};
use lfs_history::{Move, Source, Terms};
use lfs_json::Form;
use lfs_request::{Manner, Operation, Query, SourceImage, TreeChange, View};
use std::alloc::Global;

/// The question that a command's words say, where another image has blocks of this size.
fn question_of<'a>(
    name: &str,
    options: &ArgMatches<'a>,
    other: u32,
) -> Result<Query<'a, &'a str>, UsageError<'a>>
    ensures some { IfOk result (λ query. IsQuery query name.now (rows_of (found_of options.now)) other) }
    ensures refused { IfErr result (λ usage_error. usage_error ≡ Unsaid) }
    ensures unsaid { IfErr result (λ usage_error. NamesCommand (Some (name.now, rows_of (found_of options.now))) → is_question name.now ≡ false) }
{
    match name {
        "check" => Ok(Query::Check {
            version: VERSION,
            most: most_if_said(options),
        }),
        "ls" => Ok(Query::Ls {
            path: path_or_root(options),
            digests: said(options, "sha256"),
        }),
        "blocks" => Ok(Query::Blocks {
            sums: said(options, "sum"),
        }),
        "cat" => Ok(Query::Cat {
            path: bytes(options, "path")?,
        }),
        "diff" => Ok(Query::Diff {
            other: text(options, "other")?,
            size: other,
            quiet: said(options, "quiet"),
        }),
        "log" => Ok(Query::Log),
        _ => Err(UsageError::Unsaid),
    }
}

/// The form of what is answered.
pub(crate) fn form_of(options: &ArgMatches<'_>) -> Form
    ensures { result ≡ form_said (rows_of (found_of options.now)) }
{
    if said(options, "json") {
        Form::Json
    } else {
        Form::Text
    }
}

/// Where the contents of a file that is put come from.
fn contents_of<'a>(options: &ArgMatches<'a>) -> Source<'a>
    ensures { HasContents (rows_of (found_of options.now)) result }
{
    match options.get_str("contents") {
        Some(file) => Source::File(file),
        None => Source::Input,
    }
}

/// The command that words say which says no attribute and no number.
fn tree_command_of<'a>(
    name: &str,
    options: &ArgMatches<'a>,
) -> Result<Command<&'a [u8], Source<'a>>, UsageError<'a>>
    ensures some { IfOk result (λ command. (block : ℕ) → IsCommand command name.now (rows_of (found_of options.now)) block) }
    ensures refused { IfErr result (λ usage_error. usage_error ≡ Unsaid) }
    ensures unsaid { IfErr result (λ usage_error. NamesCommand (Some (name.now, rows_of (found_of options.now))) → IsNoTreeCommand name.now) }
{
    match name {
        "mkdir" => Ok(Command::Mkdir {
            path: bytes(options, "path")?,
        }),
        "put" => Ok(Command::Put {
            path: bytes(options, "path")?,
            bytes: contents_of(options),
            most: most_of(options),
        }),
        "rm" => Ok(Command::Rm {
            path: bytes(options, "path")?,
        }),
        "mv" => Ok(Command::Mv {
            from: bytes(options, "from")?,
            to: bytes(options, "to")?,
        }),
        _ => Err(UsageError::Unsaid),
    }
}

/// The command that words say, on an image of this block size.
fn command_of<'a>(
    alloc: Global,
    name: &str,
    options: &ArgMatches<'a>,
    block: u32,
) -> Result<Command<&'a [u8], Source<'a>>, UsageError<'a>>
    requires { 0 < block }
    ensures some { IfOk result (λ command. IsCommand command name.now (rows_of (found_of options.now)) block) }
    ensures refused { IfErr result (λ usage_error. (usage_error ≡ Unsaid) ⊎ (usage_error ≡ Memory)
        ⊎ IsCommandUsageError usage_error name.now (rows_of (found_of options.now)) block) }
    ensures unsaid { IfErr result (λ usage_error. usage_error ≡ Unsaid → NamesCommand (Some (name.now, rows_of (found_of options.now)))
        → is_command name.now ≡ false) }
{
    match name {
        "setattr" => {
            let path = bytes(options, "path")?;
            let (kind, value) = attribute_of(alloc, options)?;
            Ok(Command::SetAttr {
                path,
                kind,
                value: Source::Said(value),
            })
        }
        "rmattr" => Ok(Command::RmAttr {
            path: bytes(options, "path")?,
            kind: kind_of("rmattr", options)?,
        }),
        "grow" => Ok(Command::Grow {
            count: count_of(options, block, GROW)?,
        }),
        _ => tree_command_of(name, options),
    }
}

/// Whether a command of this name changes an image.
fn is_change(name: &str) -> bool
    ensures { result ≡ is_change name.now }
{
    name == "mkdir"
        || name == "put"
        || name == "rm"
        || name == "mv"
        || name == "setattr"
        || name == "rmattr"
        || name == "grow"
        || name == "batch"
        || name == "sync"
}

/// Whether the words are of a command that changes a whole tree.
fn is_of_tree(name: &str, options: &ArgMatches<'_>) -> bool
    ensures { result ≡ is_of_tree name.now (rows_of (found_of options.now)) }
{
    name == "sync"
        || (name == "rm" && said(options, "recursive"))
        || ((name == "mkdir" || name == "put") && said(options, "parents"))
}

/// The path that words say, or that of the root where they say none.
fn path_or_root<'a>(options: &ArgMatches<'a>) -> &'a [u8]
    ensures { HasPathOrRoot (rows_of (found_of options.now)) result.now }
{
    match options.get_str("path") {
        Some(path) => path.as_bytes(),
        None => b"/",
    }
}

/// The length that is said of files that stand in their entries.
fn most_if_said(options: &ArgMatches<'_>) -> Option<u32>
    ensures { HasNumberIfSaid (rows_of (found_of options.now)) inline_max result }
{
    number_if_said(options, "inline-max")
}

/// The greatest length of a file that stands in its entry: by default the most that an entry holds.
fn most_of(options: &ArgMatches<'_>) -> u32
    ensures { IsMostSaid result (rows_of (found_of options.now)) }
{
    most_if_said(options).unwrap_or(MOST_HELD)
}

/// The change of a whole tree that words say.
fn tree_change_of<'a>(
    name: &str,
    options: &ArgMatches<'a>,
) -> Result<TreeChange<'a, Source<'a>, &'a str>, UsageError<'a>>
    requires { is_of_tree name.now (rows_of (found_of options.now)) ≡ true }
    ensures some { IfOk result (λ change. IsTreeChange change name.now (rows_of (found_of options.now))) }
    ensures refused { IfErr result (λ usage_error. usage_error ≡ Unsaid) }
    ensures unsaid { IfErr result (λ usage_error. NamesCommand (Some (name.now, rows_of (found_of options.now))) → ⊥) }
{
    match name {
        "rm" => Ok(TreeChange::Remove {
            path: bytes(options, "path")?,
        }),
        "mkdir" => Ok(TreeChange::Make {
            path: bytes(options, "path")?,
        }),
        "put" => Ok(TreeChange::Put {
            path: bytes(options, "path")?,
            bytes: contents_of(options),
            most: most_of(options),
        }),
        _ => Ok(TreeChange::Sync {
            path: path_or_root(options),
            rows: text(options, "dir")?,
            most: most_of(options),
        }),
    }
}

/// How many images of the past are kept behind a command; all of them for `None`.
fn keep_of(options: &ArgMatches<'_>) -> Option<u32>
    ensures kept { IsKeepSaid result (rows_of (found_of options.now)) }
    ensures within { (name : Text) → is_change name ≡ true → NamesCommand (Some (name, rows_of (found_of options.now))) → MayKeep result }
{
    number_if_said(options, "keep")
}

/// What the words of `repack` ask to be done, on an image of this block size; the one that it is made of has blocks of the second size.
fn repack_of<'a>(
    options: &ArgMatches<'a>,
    block: u32,
    other: u32,
) -> Result<Operation<'a>, UsageError<'a>>
    requires { 0 < block }
    ensures some { IfOk result (λ operation. IsOperation operation (codes "repack") (rows_of (found_of options.now)) block other) }
    ensures within { IfOk result (λ operation. NamesCommand (Some (codes "repack", rows_of (found_of options.now))) → IsOperationInRange operation) }
    ensures refused { IfErr result (λ usage_error. (usage_error ≡ Unsaid) ⊎ IsSizeUsageError usage_error (codes "repack") (rows_of (found_of options.now)) block
        ⊎ IsOffsetUsageError usage_error (rows_of (found_of options.now))) }
    ensures unsaid { IfErr result (λ usage_error. usage_error ≡ Unsaid → NamesCommand (Some (codes "repack", rows_of (found_of options.now))) → ⊥) }
{
    Ok(Operation::Repack {
        source: SourceImage {
            file: text(options, "source")?,
            size: other,
            manner: manner_of(options)?,
        },
        extent: extent_if_said(options, block)?,
        limits: limits_if_said(options),
        most: most_of(options),
    })
}

/// How the words say that an image is read.
fn manner_of<'a>(options: &ArgMatches<'a>) -> Result<Manner, UsageError<'a>>
    ensures some { IfOk result (λ manner. IsManner manner (rows_of (found_of options.now))) }
    ensures refused { IfErr result (λ usage_error. IsOffsetUsageError usage_error (rows_of (found_of options.now))) }
{
    Ok(Manner {
        takes_older: said(options, "older"),
        view: view_of(options)?,
    })
}

/// What a command's words ask to be read of an image that is looked at so; another image has blocks of this size.
fn viewing_operation_of<'a>(
    name: &str,
    options: &ArgMatches<'a>,
    other: u32,
    view: View,
) -> Result<Operation<'a>, UsageError<'a>>
    requires { IsView view (rows_of (found_of options.now)) }
    ensures some { IfOk result (λ operation. (block : ℕ) → IsOperation operation name.now (rows_of (found_of options.now)) block other) }
    ensures within { IfOk result IsOperationInRange }
    ensures refused { IfErr result (λ usage_error. usage_error ≡ Unsaid) }
    ensures unsaid { IfErr result (λ usage_error. NamesCommand (Some (name.now, rows_of (found_of options.now))) → IsNoViewing name.now) }
{
    match name {
        "extract" => Ok(Operation::Extract {
            dir: text(options, "dir")?,
            path: path_or_root(options),
            view,
        }),
        "salvage" => Ok(Operation::Salvage {
            dir: text(options, "dir")?,
            view,
        }),
        _ => Ok(Operation::Ask {
            query: question_of(name, options, other)?,
            form: form_of(options),
            view,
        }),
    }
}

/// The same, or what they ask to be done with the changes of the past, with an image that a device wrote, or by a script.
fn past_operation_of<'a>(
    name: &str,
    options: &ArgMatches<'a>,
    other: u32,
    view: View,
) -> Result<Operation<'a>, UsageError<'a>>
    requires { IsView view (rows_of (found_of options.now)) }
    ensures some { IfOk result (λ operation. (block : ℕ) → IsOperation operation name.now (rows_of (found_of options.now)) block other) }
    ensures within { IfOk result (λ operation. NamesCommand (Some (name.now, rows_of (found_of options.now))) → IsOperationInRange operation) }
    ensures refused { IfErr result (λ usage_error. usage_error ≡ Unsaid) }
    ensures unsaid { IfErr result (λ usage_error. NamesCommand (Some (name.now, rows_of (found_of options.now))) → IsNoPast name.now) }
{
    match name {
        "undo" => Ok(Operation::Change(Move::Undo {
            steps: number(options, "steps")?,
        })),
        "redo" => Ok(Operation::Change(Move::Redo {
            steps: number(options, "steps")?,
        })),
        "forget" => Ok(Operation::Forget),
        "adopt" => Ok(Operation::Adopt {
            form: form_of(options),
            replaces: said(options, "replace"),
        }),
        "batch" => Ok(Operation::Batch {
            file: options.get_str("script"),
            terms: Terms {
                keep: keep_of(options),
                most: most_of(options),
            },
            one: said(options, "one"),
        }),
        _ => viewing_operation_of(name, options, other, view),
    }
}

/// What a command's words ask to be done that is no command on an image's tree; another image has blocks of the second size.
fn other_operation_of<'a>(
    name: &str,
    options: &ArgMatches<'a>,
    block: u32,
    other: u32,
) -> Result<Operation<'a>, UsageError<'a>>
    requires { 0 < block }
    ensures some { IfOk result (λ operation. IsOperation operation name.now (rows_of (found_of options.now)) block other) }
    ensures within { IfOk result (λ operation. NamesCommand (Some (name.now, rows_of (found_of options.now))) → IsOperationInRange operation) }
    ensures refused { IfErr result (λ usage_error. (usage_error ≡ Unsaid) ⊎ IsSizeUsageError usage_error name.now (rows_of (found_of options.now)) block
        ⊎ IsOffsetUsageError usage_error (rows_of (found_of options.now))) }
    ensures unsaid { IfErr result (λ usage_error. usage_error ≡ Unsaid → NamesCommand (Some (name.now, rows_of (found_of options.now)))
        → is_other name.now ≡ true) }
{
    let view = view_of(options)?;
    match name {
        "format" => Ok(Operation::Format {
            count: count_of(options, block, FORMAT)?,
            limits: limits_of(options)?,
        }),
        "pack" => Ok(Operation::Pack {
            extent: extent_of(options, block, PACK)?,
            limits: limits_of(options)?,
            dir: text(options, "dir")?,
            most: most_of(options),
        }),
        "repack" => repack_of(options, block, other),
        _ => past_operation_of(name, options, other, view),
    }
}

/// What a command's words ask to be done, on an image of this block size; another image has blocks of the second one.
pub(crate) fn operation_of<'a>(
    alloc: Global,
    name: &str,
    options: &ArgMatches<'a>,
    block: u32,
    other: u32,
) -> Result<Operation<'a>, UsageError<'a>>
    requires { 0 < block }
    ensures some { IfOk result (λ operation. IsOperation operation name.now (rows_of (found_of options.now)) block other) }
    ensures within { IfOk result (λ operation. NamesCommand (Some (name.now, rows_of (found_of options.now))) → IsOperationInRange operation) }
    ensures refused { IfErr result (λ usage_error. (usage_error ≡ Unsaid) ⊎ (usage_error ≡ Memory) ⊎ IsCommandUsageError usage_error name.now (rows_of (found_of options.now)) block) }
    ensures unsaid { IfErr result (λ usage_error. usage_error ≡ Unsaid → NamesCommand (Some (name.now, rows_of (found_of options.now)))
        → TakesNoImage name.now) }
{
    if !is_change(name) || name == "batch" {
        return other_operation_of(name, options, block, other);
    }
    if is_of_tree(name, options) {
        return Ok(Operation::Tree {
            change: tree_change_of(name, options)?,
            keep: keep_of(options),
        });
    }
    let command = command_of(alloc, name, options, block)?;
    Ok(Operation::Change(Move::Do {
        command,
        keep: keep_of(options),
    }))
}
