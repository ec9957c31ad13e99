//! What a command line may say.

ghost use Rattle.std.specs.Prelude.{◌≡◌, IfOk, false, fold, map};
ghost use Rattle.clap.specs.Words.{app_of, with_subcommand};
ghost use Rattle.clap.specs.declared.builder.command.Command.TheViews.{out-Command as fields_of};
ghost use Rattle.lfs_grammar.specs.Grammar.{command, grammar, rule_at, shape_at};

use crate::argument::{Argument, clap_argument};
use clap::Command;
use std::alloc::{AllocError, Global};

/// The program's version.
const VERSION: &str = "0.2.0";

/// What the statuses mean, and the word that stands in front of a command.
const STATUSES: &str = "Status: 0 done; 1 the change is refused, images differ, or files in entries
are too long; 2 the command line is refused; 3 the image or its journal is
refused; 4 out of memory, or a file is not read or written.

With --json in front of the command all is told as JSON, an object a line.";

/// A command of the program.
struct CommandRow {
    name: &'static str,
    about: &'static str,
    /// How it is used, where one of several arguments has to be said.
    usage: Option<&'static str>,
    arguments: &'static [Argument],
}

/// How `format` is used.
pub const FORMAT_USAGE: &str = "lfsed format [OPTIONS] <--count <N>|--size <BYTES>> <IMAGE>";

/// How `pack` is used.
pub const PACK_USAGE: &str =
    "lfsed pack [OPTIONS] <--count <N>|--size <BYTES>|--least> <IMAGE> <DIR>";

/// How `repack` is used.
pub const REPACK_USAGE: &str = "lfsed repack [OPTIONS] <IMAGE> <SOURCE>";

/// How `grow` is used.
pub const GROW_USAGE: &str = "lfsed grow [OPTIONS] <IMAGE> <COUNT|--size <BYTES>>";

/// The program's commands, in the order of its help. Each but the last takes the block size and the image's file name.
static COMMANDS: [CommandRow; 26] = [
    CommandRow {
        name: "format",
        about: "Write a new image, in place of a file of this name",
        usage: Some(FORMAT_USAGE),
        arguments: &[
            Argument::NewBlock,
            Argument::Image,
            Argument::Count,
            Argument::Size,
            Argument::NameMax,
            Argument::FileMax,
            Argument::AttrMax,
            Argument::New,
        ],
    },
    CommandRow {
        name: "pack",
        about: "Write a new image with what is in a folder, in place of a file of this name",
        usage: Some(PACK_USAGE),
        arguments: &[
            Argument::NewBlock,
            Argument::Image,
            Argument::Dir,
            Argument::Count,
            Argument::Size,
            Argument::Least,
            Argument::InlineMax,
            Argument::NameMax,
            Argument::FileMax,
            Argument::AttrMax,
            Argument::New,
        ],
    },
    CommandRow {
        name: "repack",
        about: "Write a new image with all that another one holds, in place of a file of this name",
        usage: None,
        arguments: &[
            Argument::NewBlock,
            Argument::Image,
            Argument::Source,
            Argument::FromBlock,
            Argument::Count,
            Argument::Size,
            Argument::LeastOfSource,
            Argument::InlineMax,
            Argument::NameMaxOrSource,
            Argument::FileMaxOrSource,
            Argument::AttrMaxOrSource,
            Argument::New,
            Argument::Device,
            Argument::OffsetInSource,
            Argument::Older,
        ],
    },
    CommandRow {
        name: "find",
        about: "List where in a file images begin, with what they state and whether they mount",
        usage: None,
        arguments: &[Argument::Flash, Argument::Device, Argument::Json],
    },
    CommandRow {
        name: "extract",
        about: "Make a new folder with what is in an image; attributes are left behind",
        usage: None,
        arguments: &[
            Argument::Block,
            Argument::Image,
            Argument::NewDir,
            Argument::ExtractedPath,
            Argument::Device,
            Argument::Offset,
            Argument::Older,
        ],
    },
    CommandRow {
        name: "salvage",
        about: "Make a new folder with all that can still be read of an image, also of one that doesn't mount",
        usage: None,
        arguments: &[
            Argument::Block,
            Argument::Image,
            Argument::NewDir,
            Argument::Device,
            Argument::Offset,
            Argument::Older,
        ],
    },
    CommandRow {
        name: "check",
        about: "Judge an image; print its geometry, free blocks, directories and files",
        usage: None,
        arguments: &[
            Argument::Block,
            Argument::Image,
            Argument::InlineLonger,
            Argument::Json,
            Argument::Device,
            Argument::Offset,
            Argument::Older,
        ],
    },
    CommandRow {
        name: "ls",
        about: "List what stands at each path, with sizes and attributes",
        usage: None,
        arguments: &[
            Argument::Block,
            Argument::Image,
            Argument::ListedPath,
            Argument::Sha256,
            Argument::Json,
            Argument::Device,
            Argument::Offset,
            Argument::Older,
        ],
    },
    CommandRow {
        name: "blocks",
        about: "Print which blocks hold what, and which are free",
        usage: None,
        arguments: &[
            Argument::Block,
            Argument::Image,
            Argument::Sum,
            Argument::Json,
            Argument::Device,
            Argument::Offset,
            Argument::Older,
        ],
    },
    CommandRow {
        name: "cat",
        about: "Print the contents of a file",
        usage: None,
        arguments: &[
            Argument::Block,
            Argument::Image,
            Argument::Path,
            Argument::Device,
            Argument::Offset,
            Argument::Older,
        ],
    },
    CommandRow {
        name: "diff",
        about: "List what another image has otherwise, row by row, as ls prints it",
        usage: None,
        arguments: &[
            Argument::Block,
            Argument::Image,
            Argument::Other,
            Argument::Quiet,
            Argument::Json,
            Argument::Device,
            Argument::Offset,
            Argument::Older,
        ],
    },
    CommandRow {
        name: "log",
        about: "List the changes that the journal keeps, and what each of them changed",
        usage: None,
        arguments: &[
            Argument::Block,
            Argument::Image,
            Argument::Json,
            Argument::Older,
        ],
    },
    CommandRow {
        name: "mkdir",
        about: "Make a directory",
        usage: None,
        arguments: &[
            Argument::Block,
            Argument::Image,
            Argument::Path,
            Argument::Parents,
            Argument::Keep,
        ],
    },
    CommandRow {
        name: "put",
        about: "Put a file, in place of one of this path; its contents are read from standard input",
        usage: None,
        arguments: &[
            Argument::Block,
            Argument::Image,
            Argument::Path,
            Argument::Contents,
            Argument::Parents,
            Argument::InlineMax,
            Argument::Keep,
        ],
    },
    CommandRow {
        name: "rm",
        about: "Remove a file or an empty directory",
        usage: None,
        arguments: &[
            Argument::Block,
            Argument::Image,
            Argument::Path,
            Argument::Recursive,
            Argument::Keep,
        ],
    },
    CommandRow {
        name: "mv",
        about: "Move a file, or a directory with all that is below it",
        usage: None,
        arguments: &[
            Argument::Block,
            Argument::Image,
            Argument::From,
            Argument::To,
            Argument::Keep,
        ],
    },
    CommandRow {
        name: "setattr",
        about: "Set an attribute of a file or a directory",
        usage: None,
        arguments: &[
            Argument::Block,
            Argument::Image,
            Argument::Path,
            Argument::Kind,
            Argument::Value,
            Argument::Keep,
        ],
    },
    CommandRow {
        name: "rmattr",
        about: "Remove an attribute of a file or a directory",
        usage: None,
        arguments: &[
            Argument::Block,
            Argument::Image,
            Argument::Path,
            Argument::Kind,
            Argument::Keep,
        ],
    },
    CommandRow {
        name: "grow",
        about: "Lengthen an image by erased blocks; what it holds stays",
        usage: Some(GROW_USAGE),
        arguments: &[
            Argument::Block,
            Argument::Image,
            Argument::NewCount,
            Argument::Size,
            Argument::Keep,
        ],
    },
    CommandRow {
        name: "sync",
        about: "Make an image like a folder, as one change: what is equal stays as it is",
        usage: None,
        arguments: &[
            Argument::Block,
            Argument::Image,
            Argument::SyncedDir,
            Argument::SyncedPath,
            Argument::InlineMax,
            Argument::Keep,
        ],
    },
    CommandRow {
        name: "undo",
        about: "Take the latest change back, byte for byte",
        usage: None,
        arguments: &[
            Argument::Block,
            Argument::Image,
            Argument::Steps,
            Argument::Older,
        ],
    },
    CommandRow {
        name: "redo",
        about: "Make the latest change again that was taken back",
        usage: None,
        arguments: &[
            Argument::Block,
            Argument::Image,
            Argument::Steps,
            Argument::Older,
        ],
    },
    CommandRow {
        name: "forget",
        about: "Keep the image alone: its changes can no longer be taken back",
        usage: None,
        arguments: &[Argument::Block, Argument::Image, Argument::Older],
    },
    CommandRow {
        name: "adopt",
        about: "Take over an image that a device wrote, in place",
        usage: None,
        arguments: &[
            Argument::Block,
            Argument::Image,
            Argument::Replace,
            Argument::Json,
        ],
    },
    CommandRow {
        name: "batch",
        about: "Carry out the steps of a script, a line each: all of them or none",
        usage: None,
        arguments: &[
            Argument::Block,
            Argument::Image,
            Argument::Script,
            Argument::One,
            Argument::InlineMax,
            Argument::Keep,
        ],
    },
    CommandRow {
        name: "explain",
        about: "Say what faults mean, and what to do",
        usage: None,
        arguments: &[Argument::Faults, Argument::Json],
    },
];

/// A command as clap takes it.
fn clap_command<'a>(alloc: Global, row: &CommandRow) -> Result<Command<'a>, AllocError>
    ensures app { IfOk result (λ made. app_of made ≡ command row.now.name.now (map rule_at row.now.arguments.now)) }
    ensures local { IfOk result (λ made. (fields_of made).has_globals ≡ false) }
{
    let mut command = Command::new(alloc, row.name).about(row.about);
    if let Some(usage) = row.usage {
        command = command.override_usage(usage);
    }
    for argument in row.arguments {
        command = command.arg(clap_argument(alloc, *argument))?;
    }
    Ok(command)
}

/// The program with a command for each row.
fn with_commands<'a>(
    alloc: Global,
    mut program: Command<'a>,
    rows: &[CommandRow],
) -> Result<Command<'a>, AllocError>
    ensures { IfOk result (λ made. app_of made ≡ fold with_subcommand (app_of program.entry) (map shape_at rows.now)) }
{
    for row in rows {
        program = program.subcommand(clap_command(alloc, row)?)?;
    }
    Ok(program)
}

/// The program's command line: its commands, each with what it takes.
pub fn command_line<'a>(alloc: Global) -> Result<Command<'a>, AllocError>
    ensures grammar { IfOk result (λ made. app_of made ≡ grammar) }
{
    let program = Command::new(alloc, "lfsed")
        .bin_name("lfsed")?
        .version(VERSION)
        .about("Edit littlefs images of disk version 2.0")
        .after_help(STATUSES)
        .subcommand_required(true);
    with_commands(alloc, program, &COMMANDS)
}
