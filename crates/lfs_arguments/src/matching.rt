//! What the words of a command line ask for.

ghost use Rattle.std.specs.Prelude.{◌≡◌, ◌⊎◌, IfErr, IfOk, IfSome, IsNone, Some, codes};
ghost use Rattle.clap.specs.Words.{Text, found_of, rows_of, subcommand_rows_of};
ghost use Rattle.lfs_grammar.specs.Grammar.{NamesCommand, TakesNoImage};
ghost use Rattle.lfs_request.specs.Operation.{IsOperationInRange};
ghost use Rattle.lfs_arguments.specs.Words.{AsksFor, BeginsAt, Explains, IsMissaid, IsUsageError, IsRequest};
ghost use Rattle.lfs_arguments.specs.Words.{LooksIn, form_asked, NamesExplain, NamesFind, NamesNoImage, SaysAuto, SaysAutoImage, SaysAutoOther, SaysAutoSource};
ghost use Rattle.lfs_arguments.specs.declared.usage_error.UsageError.TheVariants.{Memory, Unsaid};

use crate::auto_file::AutoFile;
use crate::auto_sizes::AutoSizes;
use crate::counting::{block_of, other_block_of};
use crate::operations::{form_of, operation_of};
use crate::options::{said, text};
use crate::usage_error::UsageError;
use crate::viewing::place_said;
use clap::ArgMatches;
use lfs_json::Form;
use lfs_request::Request;
use std::alloc::Global;

/// The request that a command's words say, where `auto` stands for these block sizes.
fn request_of<'a>(
    alloc: Global,
    name: &str,
    options: &ArgMatches<'a>,
    stated: AutoSizes,
) -> Result<Request<'a>, UsageError<'a>>
    ensures some { IfOk result (λ request. IsRequest request name.now (rows_of (found_of options.now)) stated) }
    ensures within { IfOk result (λ request. NamesCommand (Some (name.now, rows_of (found_of options.now))) → IsOperationInRange request.operation) }
    ensures refused { IfErr result (λ usage_error. (usage_error ≡ Unsaid) ⊎ (usage_error ≡ Memory) ⊎ IsUsageError usage_error name.now (rows_of (found_of options.now)) stated) }
    ensures unsaid { IfErr result (λ usage_error. usage_error ≡ Unsaid → NamesCommand (Some (name.now, rows_of (found_of options.now)))
        → TakesNoImage name.now) }
{
    let size = block_of(options, stated.image)?;
    let other = other_block_of(options, stated.other)?;
    Ok(Request {
        operation: operation_of(alloc, name, options, size, other)?,
        size,
        is_new: said(options, "new"),
        takes_older: said(options, "older"),
        image: text(options, "image")?,
    })
}

/// The request that the words that were matched say, where `auto` stands for blocks of so many bytes. Where they name a command with
/// all that it takes, it keeps 1 to 1,000 images or all, and a new image gets limits that images may state. Else why they say none:
/// `Unsaid` only where they name no such command, or one that takes no image; `Memory` only that a growth of memory was refused.
pub fn request_said<'a>(
    alloc: Global,
    matches: &ArgMatches<'a>,
    stated: AutoSizes,
) -> Result<Request<'a>, UsageError<'a>>
    ensures some { IfOk result (λ request. AsksFor (subcommand_rows_of matches.now) stated request) }
    ensures within { IfOk result (λ request. NamesCommand (subcommand_rows_of matches.now) → IsOperationInRange request.operation) }
    ensures refused { IfErr result (λ usage_error. (usage_error ≡ Unsaid) ⊎ (usage_error ≡ Memory) ⊎ IsMissaid (subcommand_rows_of matches.now) stated usage_error) }
    ensures unsaid { IfErr result (λ usage_error. usage_error ≡ Unsaid → NamesCommand (subcommand_rows_of matches.now)
        → NamesNoImage (subcommand_rows_of matches.now)) }
{
    let Some((name, options)) = matches.subcommand() else {
        return Err(UsageError::Unsaid);
    };
    request_of(alloc, name, options, stated)
}

/// The numbers and names of the faults whose meaning is asked for, all faults for an inner `None`, where the words that were matched ask
/// for that.
pub fn faults_asked<'m, 'a>(matches: &'m ArgMatches<'a>) -> Option<Option<&'m [&'a str]>>
    ensures some { IfSome result (λ faults. Explains (subcommand_rows_of matches.now) faults) }
    ensures none { IsNone result → NamesExplain (subcommand_rows_of matches.now) → ⊥ }
{
    let (name, options) = matches.subcommand()?;
    if name == "explain" {
        Some(options.get_strs("fault"))
    } else {
        None
    }
}

/// The file in which images are looked for, where the words that were matched ask for that.
pub fn flash_asked<'a>(matches: &ArgMatches<'a>) -> Option<&'a str>
    ensures some { IfSome result (λ flash. LooksIn (subcommand_rows_of matches.now) flash.now) }
    ensures none { IsNone result → NamesCommand (subcommand_rows_of matches.now) → NamesFind (subcommand_rows_of matches.now) → ⊥ }
{
    let (name, options) = matches.subcommand()?;
    if name == "find" {
        options.get_str("flash")
    } else {
        None
    }
}

/// The form in which the command that was matched prints.
pub fn form_asked(matches: &ArgMatches<'_>) -> Form
    ensures { result ≡ form_asked (subcommand_rows_of matches.now) }
{
    match matches.subcommand() {
        Some((_, options)) => form_of(options),
        None => Form::Text,
    }
}

/// The file of the image that states its block size, where the words that were matched say `auto` for it.
pub fn auto_image<'a>(matches: &ArgMatches<'a>) -> Option<AutoFile<'a>>
    ensures some { IfSome result (SaysAutoImage (subcommand_rows_of matches.now)) }
    ensures none { IsNone result → (image : AutoFile) → SaysAutoImage (subcommand_rows_of matches.now) image → ⊥ }
{
    match auto_file(matches, "block", "image") {
        Some(name) => Some(AutoFile {
            name,
            place: begins_at(matches),
        }),
        None => None,
    }
}

/// The file of the image that it is compared with, or made of, where the words say `auto` for the block size of that one.
pub fn auto_other<'a>(matches: &ArgMatches<'a>) -> Option<AutoFile<'a>>
    ensures some { IfSome result (SaysAutoOther (subcommand_rows_of matches.now)) }
    ensures none { IsNone result → (other : AutoFile) → SaysAutoOther (subcommand_rows_of matches.now) other → ⊥ }
{
    match auto_file(matches, "block", "other") {
        Some(name) => Some(AutoFile { name, place: 0 }),
        None => auto_source(matches),
    }
}

/// The same of one that it is made of.
fn auto_source<'a>(matches: &ArgMatches<'a>) -> Option<AutoFile<'a>>
    ensures some { IfSome result (SaysAutoSource (subcommand_rows_of matches.now)) }
    ensures none { IsNone result → (source : AutoFile) → SaysAutoSource (subcommand_rows_of matches.now) source → ⊥ }
{
    match auto_file(matches, "from-block", "source") {
        Some(name) => Some(AutoFile {
            name,
            place: begins_at(matches),
        }),
        None => None,
    }
}

/// Where in its file the image begins that the words speak of, in bytes: at its beginning where they say no place.
fn begins_at(matches: &ArgMatches<'_>) -> u64
    ensures { BeginsAt (subcommand_rows_of matches.now) result }
{
    match matches.subcommand() {
        Some((_, options)) => place_said(options).unwrap_or(0),
        None => 0,
    }
}

/// The file that is named by an argument, where the words say `auto` for the block size by this option.
fn auto_file<'a>(matches: &ArgMatches<'a>, option: &str, id: &str) -> Option<&'a str>
    ensures some { IfSome result (λ file. SaysAuto option.now id.now (subcommand_rows_of matches.now) file.now) }
    ensures none { IsNone result → (file : Text) → SaysAuto option.now id.now (subcommand_rows_of matches.now) file → ⊥ }
{
    let (_, options) = matches.subcommand()?;
    if options.get_str(option)? == "auto" {
        options.get_str(id)
    } else {
        None
    }
}
