//! What a command takes on its command line.

ghost use Rattle.std.specs.Prelude.{◌≡◌, false};
ghost use Rattle.clap.specs.Words.{rule_of};
ghost use Rattle.lfs_grammar.specs.Grammar.{block_option, flag as flag_rule, number_within, row_rule, rule_at, spare_word};

use clap::builder::ValueParser;
use clap::{Arg, ArgAction};
use std::alloc::Global;

/// What a command takes on its command line.
#[derive(Clone, Copy)]
pub(crate) enum Argument {
    /// The block size of an image that is there.
    Block,
    /// The block size of an image that is made.
    NewBlock,
    /// The number of blocks.
    Count,
    /// The number of blocks that an image gets.
    NewCount,
    /// The size of the image, in place of the number of blocks.
    Size,
    /// That the image gets the least number of blocks.
    Least,
    /// The same of an image that is made of another one.
    LeastOfSource,
    /// The greatest length of a name.
    NameMax,
    /// The greatest length of a file.
    FileMax,
    /// The greatest length of an attribute.
    AttrMax,
    /// The greatest length of a name, that of another image where it isn't said.
    NameMaxOrSource,
    /// The greatest length of a file, that of another image where it isn't said.
    FileMaxOrSource,
    /// The greatest length of an attribute, that of another image where it isn't said.
    AttrMaxOrSource,
    /// That no file is replaced.
    New,
    /// That a journal that has changes is replaced.
    Replace,
    /// That it is printed how many blocks each path takes.
    Sum,
    /// That the steps of a script are one change.
    One,
    /// That only the status says whether two images differ.
    Quiet,
    /// That it is printed as JSON.
    Json,
    /// That the digests of contents are printed too.
    Sha256,
    /// That all goes that is below a directory too.
    Recursive,
    /// That parents are made that lack.
    Parents,
    /// That images are read as a device does.
    Device,
    /// Where in its file an image begins.
    Offset,
    /// The same of an image that another one is made of.
    OffsetInSource,
    /// That the state before commits of a later disk version is gone on with.
    Older,
    /// The greatest length of a file that stands in its entry.
    InlineMax,
    /// The length from which on files that stand in their entries are listed.
    InlineLonger,
    /// The number of images of the past that are kept.
    Keep,
    /// The number of changes that are taken back or made again.
    Steps,
    /// The image's file name.
    Image,
    /// The file name of an image that it is compared with.
    Other,
    /// The file name of an image that it is made of.
    Source,
    /// The block size of that one.
    FromBlock,
    /// The file in which images are looked for.
    Flash,
    /// The name of a folder that is read.
    Dir,
    /// The name of a folder that is made.
    NewDir,
    /// A path within the image.
    Path,
    /// The same, of a directory that becomes what a folder holds; the root where it isn't said.
    SyncedPath,
    /// The same, of what is listed.
    ListedPath,
    /// The same, of what a folder is made of.
    ExtractedPath,
    /// The name of a folder that an image is made like.
    SyncedDir,
    /// The name of the file that contents are read from.
    Contents,
    /// The name of the file that steps are read from.
    Script,
    /// The path of what is moved.
    From,
    /// The path that it gets.
    To,
    /// An attribute's kind.
    Kind,
    /// An attribute's value.
    Value,
    /// Numbers or names of faults.
    Faults,
}

/// How an argument is said. The name is what the help calls its value.
#[derive(Clone, Copy)]
enum Form {
    /// By a word that must be there.
    Word(&'static str),
    /// By a word that needn't be there.
    SpareWord(&'static str),
    /// By words that needn't be there, at most so many of them.
    SpareWords(&'static str, usize),
    /// By a word that needn't be there, a whole number from the first to the second.
    SpareNumber(&'static str, i64, i64),
    /// By an option of this long name, which needn't be there.
    Option(&'static str, &'static str),
    /// By an option that is named as the argument, with a text that stands where none is said.
    OptionOr(&'static str, &'static str),
    /// By an option that is named as the argument, a whole number from the first to the second.
    Number(&'static str, i64, i64),
    /// The same with a number that stands where none is said.
    NumberOr(&'static str, i64, i64, &'static str),
    /// By the option of the block size.
    Block,
    /// The same, a whole number from the first to the second.
    BlockNumber(i64, i64),
    /// By an option without a value, which is named as the argument.
    Flag,
    /// The same, which has a letter too.
    FlagOr(char),
}

/// What an argument takes, and what the help says of it.
struct ArgumentRow {
    id: &'static str,
    form: Form,
    help: &'static str,
}

/// The block size of an image that is there.
static BLOCK: ArgumentRow = ArgumentRow {
    id: "block",
    form: Form::Block,
    help: "Size of a block, a multiple of 16 from 256 to 65536, or auto",
};

/// The block size of an image that is made.
static NEW_BLOCK: ArgumentRow = ArgumentRow {
    id: "block",
    form: Form::BlockNumber(256, 65_536),
    help: "Size of a block, a multiple of 16 from 256 to 65536",
};

/// The number of blocks.
static COUNT: ArgumentRow = ArgumentRow {
    id: "count",
    form: Form::Number("N", 2, 65_536),
    help: "Number of blocks, from 2 to 65536; at most 67108864 bytes in all",
};

/// The number of blocks that an image gets.
static NEW_COUNT: ArgumentRow = ArgumentRow {
    id: "count",
    form: Form::SpareNumber("COUNT", 2, 65_536),
    help: "Number of blocks that it gets, more than it has; at most 65536, and 67108864 bytes in all",
};

/// The size of the image.
static SIZE: ArgumentRow = ArgumentRow {
    id: "size",
    form: Form::Option("BYTES", "size"),
    help: "Size of the image, in place of the number of blocks: 1048576, 0x100000, 1024k or 1M",
};

/// That the image gets the least number of blocks.
static LEAST: ArgumentRow = ArgumentRow {
    id: "least",
    form: Form::Flag,
    help: "Give it the least number of blocks that holds the folder",
};

/// The same of an image that is made of another one.
static LEAST_OF_SOURCE: ArgumentRow = ArgumentRow {
    id: "least",
    form: Form::Flag,
    help: "Give it the least number of blocks that holds all of it",
};

/// The greatest length of a name.
static NAME_MAX: ArgumentRow = ArgumentRow {
    id: "name-max",
    form: Form::NumberOr("N", 1, 1_022, "255"),
    help: "Greatest length of a name in bytes, from 1 to 1022",
};

/// The greatest length of a file.
static FILE_MAX: ArgumentRow = ArgumentRow {
    id: "file-max",
    form: Form::NumberOr("N", 1, 2_147_483_647, "2147483647"),
    help: "Greatest length of a file in bytes, from 1 to 2147483647",
};

/// The greatest length of an attribute.
static ATTR_MAX: ArgumentRow = ArgumentRow {
    id: "attr-max",
    form: Form::NumberOr("N", 1, 1_022, "1022"),
    help: "Greatest length of an attribute in bytes, from 1 to 1022",
};

/// The greatest length of a name, that of another image where it isn't said.
static NAME_MAX_OR_SOURCE: ArgumentRow = ArgumentRow {
    id: "name-max",
    form: Form::Number("N", 1, 1_022),
    help: "Greatest length of a name in bytes, from 1 to 1022; that of SOURCE where it is not said",
};

/// The greatest length of a file, that of another image where it isn't said.
static FILE_MAX_OR_SOURCE: ArgumentRow = ArgumentRow {
    id: "file-max",
    form: Form::Number("N", 1, 2_147_483_647),
    help: "Greatest length of a file in bytes, from 1 to 2147483647; that of SOURCE where it is not said",
};

/// The greatest length of an attribute, that of another image where it isn't said.
static ATTR_MAX_OR_SOURCE: ArgumentRow = ArgumentRow {
    id: "attr-max",
    form: Form::Number("N", 1, 1_022),
    help: "Greatest length of an attribute in bytes, from 1 to 1022; that of SOURCE where it is not said",
};

/// That no file is replaced.
static NEW: ArgumentRow = ArgumentRow {
    id: "new",
    form: Form::Flag,
    help: "Refuse to replace a file that is there",
};

/// That a journal that has changes is replaced.
static REPLACE: ArgumentRow = ArgumentRow {
    id: "replace",
    form: Form::Flag,
    help: "Replace a journal that has changes, which adopt refuses else",
};

/// That it is printed how many blocks each path takes.
static SUM: ArgumentRow = ArgumentRow {
    id: "sum",
    form: Form::Flag,
    help: "Print how many blocks each path takes, with all that is below it",
};

/// That the steps of a script are one change.
static ONE: ArgumentRow = ArgumentRow {
    id: "one",
    form: Form::Flag,
    help: "Make one change of all steps, which one undo takes back; undo, redo and forget are none of them",
};

/// That only the status says whether two images differ.
static QUIET: ArgumentRow = ArgumentRow {
    id: "quiet",
    form: Form::Flag,
    help: "Print nothing; the status says whether the images differ",
};

/// That the digests of contents are printed too.
static SHA256: ArgumentRow = ArgumentRow {
    id: "sha256",
    form: Form::Flag,
    help: "Print the SHA-256 of each file's contents too",
};

/// That it is printed as JSON.
static JSON: ArgumentRow = ArgumentRow {
    id: "json",
    form: Form::Flag,
    help: "Print an object of JSON a line",
};

/// That all goes that is below a directory too.
static RECURSIVE: ArgumentRow = ArgumentRow {
    id: "recursive",
    form: Form::FlagOr('r'),
    help: "Remove a directory with all that is below it, as one change",
};

/// That parents are made that lack.
static PARENTS: ArgumentRow = ArgumentRow {
    id: "parents",
    form: Form::FlagOr('p'),
    help: "Make the directories above it too where they lack, as one change",
};

/// That images are read as a device does.
static DEVICE: ArgumentRow = ArgumentRow {
    id: "device",
    form: Form::Flag,
    help: "Read the image as a device does: also disk version 2.1, and a superblock that was expanded",
};

/// Where in its file an image begins.
static OFFSET: ArgumentRow = ArgumentRow {
    id: "offset",
    form: Form::Option("BYTES", "offset"),
    help: "Place in the file at which the image begins: 1114112, 0x110000, 1088k or 1M",
};

/// The same of an image that another one is made of.
static OFFSET_IN_SOURCE: ArgumentRow = ArgumentRow {
    id: "offset",
    form: Form::Option("BYTES", "offset"),
    help: "Place in SOURCE at which the image begins: 1114112, 0x110000, 1088k or 1M",
};

/// That older states are gone on with.
static OLDER: ArgumentRow = ArgumentRow {
    id: "older",
    form: Form::Flag,
    help: "Go on with the state before commits of a later disk version, which are not read",
};

/// The greatest length of a file that stands in its entry.
static INLINE_MAX: ArgumentRow = ArgumentRow {
    id: "inline-max",
    form: Form::Number("N", 0, 2_147_483_647),
    help: "Greatest length in bytes of a file that stands in its entry; never more than 1022 or an eighth of a block",
};

/// The length from which on files that stand in their entries are listed.
static INLINE_LONGER: ArgumentRow = ArgumentRow {
    id: "inline-max",
    form: Form::Number("N", 0, 2_147_483_647),
    help: "List the files that stand in their entries and are longer than this, in bytes; status 1 if there are some",
};

/// The number of images that are kept.
static KEEP: ArgumentRow = ArgumentRow {
    id: "keep",
    form: Form::Number("K", 1, 1_000),
    help: "Number of the latest changes that are kept, from 1 to 1000; all where it is not said",
};

/// The number of changes that are taken back or made again.
static STEPS: ArgumentRow = ArgumentRow {
    id: "steps",
    form: Form::NumberOr("N", 1, 1_000, "1"),
    help: "Number of changes, from 1 to 1000: all of them, or none where there are fewer",
};

/// The image's file name.
static IMAGE: ArgumentRow = ArgumentRow {
    id: "image",
    form: Form::Word("IMAGE"),
    help: "File of the image",
};

/// The file name of an image that it is compared with.
static OTHER: ArgumentRow = ArgumentRow {
    id: "other",
    form: Form::Word("OTHER"),
    help: "File of the image that it is compared with",
};

/// The file name of an image that it is made of.
static SOURCE: ArgumentRow = ArgumentRow {
    id: "source",
    form: Form::Word("SOURCE"),
    help: "File of the image that it is made of; it may be IMAGE itself",
};

/// The block size of that one.
static FROM_BLOCK: ArgumentRow = ArgumentRow {
    id: "from-block",
    form: Form::OptionOr("BYTES", "auto"),
    help: "Size of a block of SOURCE, a multiple of 16 from 256 to 65536, or auto",
};

/// The file in which images are looked for.
static FLASH: ArgumentRow = ArgumentRow {
    id: "flash",
    form: Form::Word("FLASH"),
    help: "File that images are looked for in",
};

/// The name of a folder that is read.
static DIR: ArgumentRow = ArgumentRow {
    id: "dir",
    form: Form::Word("DIR"),
    help: "Folder, of whose files and folders the image is made",
};

/// The name of a folder that is made.
static NEW_DIR: ArgumentRow = ArgumentRow {
    id: "dir",
    form: Form::Word("DIR"),
    help: "Folder that is made; nothing may be there",
};

/// A path within the image.
static PATH: ArgumentRow = ArgumentRow {
    id: "path",
    form: Form::Word("PATH"),
    help: "Path of a file or a directory in the image, from / on",
};

/// A directory that becomes what a folder holds.
static SYNCED_PATH: ArgumentRow = ArgumentRow {
    id: "path",
    form: Form::SpareWord("PATH"),
    help: "Path in the image that is made like the folder, from / on; all of it where none is said",
};

/// What is listed.
static LISTED_PATH: ArgumentRow = ArgumentRow {
    id: "path",
    form: Form::SpareWord("PATH"),
    help: "Path in the image that is listed, from / on, with all below it; all of the image where none is said",
};

/// What a folder is made of.
static EXTRACTED_PATH: ArgumentRow = ArgumentRow {
    id: "path",
    form: Form::SpareWord("PATH"),
    help: "Path in the image that the folder is made of, from / on, with all below it; all of the image where none is said",
};

/// The name of a folder that an image is made like.
static SYNCED_DIR: ArgumentRow = ArgumentRow {
    id: "dir",
    form: Form::Word("DIR"),
    help: "Folder, whose files and folders the image gets",
};

/// The file that contents are read from.
static CONTENTS: ArgumentRow = ArgumentRow {
    id: "contents",
    form: Form::Option("FILE", "from"),
    help: "File that the contents are read from, in place of standard input",
};

/// The file that steps are read from.
static SCRIPT: ArgumentRow = ArgumentRow {
    id: "script",
    form: Form::SpareWord("FILE"),
    help: "File of the script, in place of standard input",
};

/// The path of what is moved.
static FROM: ArgumentRow = ArgumentRow {
    id: "from",
    form: Form::Word("FROM"),
    help: "Path of what is moved, from / on",
};

/// The path that it gets.
static TO: ArgumentRow = ArgumentRow {
    id: "to",
    form: Form::Word("TO"),
    help: "Path that it gets, from / on; nothing may be there",
};

/// An attribute's kind.
static KIND: ArgumentRow = ArgumentRow {
    id: "kind",
    form: Form::Word("KIND"),
    help: "Kind of the attribute, in two hexadecimal digits",
};

/// An attribute's value.
static VALUE: ArgumentRow = ArgumentRow {
    id: "hex",
    form: Form::Word("HEX"),
    help: "Value of the attribute, in two hexadecimal digits for each byte; may be empty",
};

/// Numbers or names of faults.
static FAULTS: ArgumentRow = ArgumentRow {
    id: "fault",
    form: Form::SpareWords("FAULT", 64),
    help: "Number or name of a fault, or both as they are told; all faults are listed where none is said",
};

/// What an argument takes.
fn row_of(argument: Argument) -> &'static ArgumentRow
    ensures { row_rule result.now ≡ rule_at argument }
{
    match argument {
        Argument::Block => &BLOCK,
        Argument::NewBlock => &NEW_BLOCK,
        Argument::Count => &COUNT,
        Argument::NewCount => &NEW_COUNT,
        Argument::Size => &SIZE,
        Argument::Least => &LEAST,
        Argument::LeastOfSource => &LEAST_OF_SOURCE,
        Argument::NameMax => &NAME_MAX,
        Argument::FileMax => &FILE_MAX,
        Argument::AttrMax => &ATTR_MAX,
        Argument::NameMaxOrSource => &NAME_MAX_OR_SOURCE,
        Argument::FileMaxOrSource => &FILE_MAX_OR_SOURCE,
        Argument::AttrMaxOrSource => &ATTR_MAX_OR_SOURCE,
        Argument::New => &NEW,
        Argument::Replace => &REPLACE,
        Argument::Sum => &SUM,
        Argument::One => &ONE,
        Argument::Quiet => &QUIET,
        Argument::Json => &JSON,
        Argument::Sha256 => &SHA256,
        Argument::Recursive => &RECURSIVE,
        Argument::Parents => &PARENTS,
        Argument::Device => &DEVICE,
        Argument::Offset => &OFFSET,
        Argument::OffsetInSource => &OFFSET_IN_SOURCE,
        Argument::Older => &OLDER,
        Argument::InlineMax => &INLINE_MAX,
        Argument::InlineLonger => &INLINE_LONGER,
        Argument::Keep => &KEEP,
        Argument::Steps => &STEPS,
        Argument::Image => &IMAGE,
        Argument::Other => &OTHER,
        Argument::Source => &SOURCE,
        Argument::FromBlock => &FROM_BLOCK,
        Argument::Flash => &FLASH,
        Argument::Dir => &DIR,
        Argument::NewDir => &NEW_DIR,
        Argument::Path => &PATH,
        Argument::SyncedPath => &SYNCED_PATH,
        Argument::ListedPath => &LISTED_PATH,
        Argument::ExtractedPath => &EXTRACTED_PATH,
        Argument::SyncedDir => &SYNCED_DIR,
        Argument::Contents => &CONTENTS,
        Argument::Script => &SCRIPT,
        Argument::From => &FROM,
        Argument::To => &TO,
        Argument::Kind => &KIND,
        Argument::Value => &VALUE,
        Argument::Faults => &FAULTS,
    }
}

/// An argument as clap takes it.
pub(crate) fn clap_argument<'a>(alloc: Global, argument: Argument) -> Arg<'a>
    ensures rule { rule_of result ≡ rule_at argument }
    ensures local { result.global ≡ false }
{
    formed(alloc, row_of(argument))
}

/// An argument in its form.
fn formed<'a>(alloc: Global, row: &ArgumentRow) -> Arg<'a>
    ensures rule { rule_of result ≡ row_rule row.now }
    ensures local { result.global ≡ false }
{
    match row.form {
        Form::Word(name) => named(alloc, row, name).required(true),
        Form::SpareWord(name) => named(alloc, row, name),
        Form::SpareWords(name, most) => named(alloc, row, name).num_args(1..=most),
        Form::SpareNumber(name, least, most) => {
            named(alloc, row, name).value_parser(ValueParser::Signed(least, most))
        }
        Form::Option(name, long) => named(alloc, row, name).long(long),
        Form::OptionOr(name, default) => {
            named(alloc, row, name).long(row.id).default_value(default)
        }
        Form::Number(name, least, most) => number(alloc, row, name, least, most),
        Form::NumberOr(name, least, most, default) => {
            number(alloc, row, name, least, most).default_value(default)
        }
        Form::Block => block(alloc, row),
        Form::BlockNumber(least, most) => {
            block(alloc, row).value_parser(ValueParser::Signed(least, most))
        }
        Form::Flag => flag(alloc, row),
        Form::FlagOr(letter) => flag(alloc, row).short(letter),
    }
}

/// A word that needn't be there.
fn named<'a>(alloc: Global, row: &ArgumentRow, name: &'a str) -> Arg<'a>
    ensures rule { rule_of result ≡ spare_word row.now.id.now }
    ensures local { result.global ≡ false }
{
    Arg::new(alloc, row.id).value_name(name).help(row.help)
}

/// An option that is a whole number from the first to the second, which needn't be there.
fn number<'a>(alloc: Global, row: &ArgumentRow, name: &'a str, least: i64, most: i64) -> Arg<'a>
    ensures rule { rule_of result ≡ number_within row.now.id.now least most }
    ensures local { result.global ≡ false }
{
    named(alloc, row, name)
        .long(row.id)
        .value_parser(ValueParser::Signed(least, most))
}

/// The block size.
fn block<'a>(alloc: Global, row: &ArgumentRow) -> Arg<'a>
    ensures rule { rule_of result ≡ block_option row.now.id.now }
    ensures local { result.global ≡ false }
{
    named(alloc, row, "BYTES")
        .short('b')
        .long("block")
        .default_value("4096")
}

/// An option without a value, which needn't be there.
fn flag<'a>(alloc: Global, row: &ArgumentRow) -> Arg<'a>
    ensures rule { rule_of result ≡ flag_rule row.now.id.now }
    ensures local { result.global ≡ false }
{
    Arg::new(alloc, row.id)
        .long(row.id)
        .action(ArgAction::SetTrue)
        .value_parser(ValueParser::Bool)
        .help(row.help)
}
