//! The program, over a host.

ghost use Rattle.std.specs.Prelude.{◌≡◌, ◌≢◌, IfOk, MatchOption, Some, map, string_bytes};
ghost use Rattle.clap.specs.Words.{HasKind, fault_of, kind_of, subcommand_rows_of};
ghost use Rattle.lfs_grammar.specs.Grammar.{IsTaken, NamesCommand, grammar};
ghost use Rattle.lfs_grammar.specs.Hyphens.{IsRead};
ghost use Rattle.lfs_host.specs.Scene.{KeepsAll};
ghost use Rattle.lfs_request.specs.Fault.{status_of};
ghost use Rattle.lfs_request.specs.declared.fault.Fault.TheVariants.{Refused};
ghost use Rattle.lfs_command.specs.declared.refusal.Refusal.TheVariants.{Memory as No_memory};
ghost use Rattle.lfs_open.specs.Stated.{IsStatedSize};
ghost use Rattle.lfs_arguments.specs.declared.usage_error.UsageError.TheVariants.{Memory};
ghost use Rattle.lfsed.specs.Words.{EndsError, EndsExplained, EndsFound, EndsLine, EndsUsedWrongly, EndsNamed, EndsPrinting, EndsWords, AreStated, ended_with};

use crate::explaining::{list, pages};
use crate::json_word::plain;
use crate::tips::told_of;
use crate::usage_line::UsageLine;
use clap::error::ErrorKind;
use clap::{ArgMatches, Error};
use lfs_arguments::{
    AutoFile, AutoSizes, UsageError, auto_image, auto_other, faults_asked, flash_asked, form_asked,
    request_said,
};
use lfs_command::Refusal;
use lfs_exchange::{MORE, print, report_of_image};
use lfs_grammar::{dashed, matched, names_files_plainly};
use lfs_host::Host;
use lfs_json::Form;
use lfs_open::{list_images, stated_size};
use lfs_report::report_digits;
use lfs_request::Fault;
use lfs_serve::served;
use lfs_system::OneLine;
use lfs_texts::explained;
use std::alloc::{AllocError, Global};
use std::convert::AsStr;

/// The status of a command line that is refused.
pub const USAGE: u8 = 2;

/// What a step without an image writes.
const OUTPUT: &str = "standard output";

/// Does what the words of a command line ask for, the program's name first among them, and answers the status that the
/// program ends with. `--json` may stand in front of the command. A fault is told on standard error.
pub fn cli<H: Host>(alloc: Global, host: &mut H, words: Vec<String>) -> u8
    ensures ended { EndsLine (map string_bytes words.items) (H.known host.old) (H.known host.new) result }
{
    let words = plain(words);
    match done(alloc, host, words.as_slice()) {
        Ok(status) => status,
        Err(fault) => report_of_image(host, OUTPUT, fault),
    }
}

/// Reads the words, and does what they ask for.
fn done<H: Host, W: AsStr>(alloc: Global, host: &mut H, words: &[W]) -> Result<u8, Fault>
    ensures ended { EndsWords (map W.text words.now) (H.known host.old) (H.known host.new) (ended_with result) }
{
    match matched(alloc, words) {
        Ok(matches) => carried(alloc, host, &matches),
        Err(error) if error.kind() == ErrorKind::OutOfMemory => {
            Err(Fault::Refused(Refusal::Memory))
        }
        Err(error) => done_dashed(alloc, host, words, error),
    }
}

/// Reads words that the grammar refuses with an error once more, with `--` before the first that begins with a hyphen and
/// is no option, and does what they ask for then.
fn done_dashed<H: Host, W: AsStr>(
    alloc: Global,
    host: &mut H,
    words: &[W],
    error: Error,
) -> Result<u8, Fault>
    requires { HasKind (fault_of grammar (map W.text words.now)) error × (kind_of error ≢ ErrorKind.OutOfMemory) }
    ensures ended { EndsWords (map W.text words.now) (H.known host.old) (H.known host.new) (ended_with result) }
{
    let dashed = dashed(alloc, words)?;
    match matched(alloc, dashed.as_slice()) {
        Ok(matches) if names_files_plainly(&matches) => carried(alloc, host, &matches),
        Err(again) if again.kind() == ErrorKind::OutOfMemory => {
            Err(Fault::Refused(Refusal::Memory))
        }
        _ => refused(alloc, host, words, error),
    }
}

/// Does what the command that was matched asks for.
fn carried<H: Host>(alloc: Global, host: &mut H, matches: &ArgMatches<'_>) -> Result<u8, Fault>
    requires { NamesCommand (subcommand_rows_of matches.now) }
    ensures ended { EndsNamed (subcommand_rows_of matches.now) (H.known host.old) (H.known host.new) (ended_with result) }
{
    let form = form_asked(matches);
    if let Some(faults) = faults_asked(matches) {
        return explain(alloc, host, form, faults);
    }
    if let Some(flash) = flash_asked(matches) {
        return Ok(find(alloc, host, form, flash));
    }
    let stated = stated_for(alloc, host, matches)?;
    match request_said(alloc, matches, stated) {
        Ok(request) => Ok(served(alloc, host, &request)),
        Err(usage_error) => used_wrongly(host, usage_error),
    }
}

/// Lists the images that stand in a file, and answers the status.
fn find<H: Host>(alloc: Global, host: &mut H, form: Form, flash: &str) -> u8
    ensures ended { EndsFound form flash.now (H.known host.old) (H.known host.new) result }
{
    match list_images(alloc, host, form, flash) {
        Ok(()) => 0,
        Err(fault) => report_of_image(host, flash, fault),
    }
}

/// Tells why the words of a command say no request, or answers that memory was wanting.
fn used_wrongly<H: Host>(host: &mut H, usage_error: UsageError<'_>) -> Result<u8, Fault>
    ensures memory { usage_error.entry ≡ Memory → (H.known host.new ≡ H.known host.old) × (ended_with result ≡ status_of (Some (Refused No_memory))) }
    ensures told { (usage_error.entry ≡ Memory → ⊥) → EndsUsedWrongly (H.known host.old) (H.known host.new) (ended_with result) }
{
    if let UsageError::Memory = usage_error {
        return Err(Fault::Refused(Refusal::Memory));
    }
    if let UsageError::Hex {
        command,
        reason,
        digits,
    } = usage_error
    {
        return Ok(report_digits(host, command, reason, digits));
    }
    report_usage(host, usage_error);
    Ok(USAGE)
}

/// Tells why the words of a command say no request. What names none of them has lines of its own.
fn report_usage<H: Host>(host: &mut H, usage_error: UsageError<'_>)
    ensures kept { H.known host.new ≡ H.known host.old }
{
    if let UsageError::NoCount(_) | UsageError::TwoCounts { .. } = usage_error {
        host.report(UsageLine {
            text: format_args!("error: {usage_error}{MORE}"),
        });
        return;
    }
    let said = OneLine { text: usage_error };
    host.report(UsageLine {
        text: format_args!("error: {said}{MORE}"),
    });
}

/// What the image states as its block size, and the one that it is compared with, or made of, where the words say `auto` for it.
fn stated_for<H: Host>(
    alloc: Global,
    host: &mut H,
    matches: &ArgMatches<'_>,
) -> Result<AutoSizes, AllocError>
    ensures stated { IfOk result (AreStated (subcommand_rows_of matches.now) (H.known host.old) (H.known host.new)) }
    ensures kept { KeepsAll (H.known host.old) (H.known host.new) }
{
    let image = size_in(alloc, host, auto_image(matches), 0)?;
    let other = size_in(alloc, host, auto_other(matches), image)?;
    Ok(AutoSizes { image, other })
}

/// What the image in a file states as its block size; this one if there is no file.
fn size_in<H: Host>(
    alloc: Global,
    host: &mut H,
    file: Option<AutoFile<'_>>,
    size: u32,
) -> Result<u32, AllocError>
    ensures stated { IfOk result (λ stated. MatchOption file.entry (stated ≡ size)
        (λ f. IsStatedSize (H.known host.old) (H.known host.new) f.name.now f.place stated)) }
    ensures kept { KeepsAll (H.known host.old) (H.known host.new) }
{
    match file {
        Some(file) => stated_size(alloc, host, file.name, file.place),
        None => Ok(size),
    }
}

/// Explains faults, each by a page; lists all of them if none is named. If one of the words isn't a fault, it is refused.
fn explain<H: Host>(
    alloc: Global,
    host: &mut H,
    form: Form,
    faults: Option<&[&str]>,
) -> Result<u8, Fault>
    ensures ended { EndsExplained (H.known host.old) (H.known host.new) (ended_with result) }
{
    let Some(faults) = faults else {
        return printed(host, list(alloc, form)?.as_str());
    };
    if let Some(fault) = faults.iter().find(|fault| explained(fault).is_none()) {
        let fault = OneLine { text: fault };
        host.report(UsageLine {
            text: format_args!(
                "error: invalid value '{fault}' for '[FAULT]...': no fault has this number or name{MORE}"
            ),
        });
        return Ok(USAGE);
    }
    printed(host, pages(alloc, form, faults)?.as_str())
}

/// Prints a text, and answers the status of a run that went well.
fn printed<H: Host>(host: &mut H, text: &str) -> Result<u8, Fault>
    ensures ended { EndsPrinting (H.known host.old) (H.known host.new) (ended_with result) }
{
    print(host, text)?;
    Ok(0)
}

/// Tells what is wrong with the words, or the help that they ask for.
fn refused<H: Host, W: AsStr>(
    alloc: Global,
    host: &mut H,
    words: &[W],
    error: Error,
) -> Result<u8, Fault>
    ensures ended { EndsError (kind_of error) (H.known host.old) (H.known host.new) (ended_with result) }
{
    if error.use_stderr() {
        match told_of(alloc, words, &error) {
            Ok(text) => host.report(UsageLine {
                text: text.as_str(),
            }),
            Err(_) => host.report(UsageLine { text: error }),
        }
        return Ok(USAGE);
    }
    printed(host, error.to_string(alloc)?.as_str())
}
