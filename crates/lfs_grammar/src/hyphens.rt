//! Words that begin with a hyphen and are no options.

ghost use Rattle.std.specs.Prelude.{◌≡◌, IfOk, map};
ghost use Rattle.clap.specs.Words.{first_of, found_of, rows_of, subcommand_rows_of};
ghost use Rattle.lfs_grammar.specs.Hyphens.{are_plain_names, dashed, is_plain_name, is_stray, is_tree_letter, names_change_option, names_files_plainly};
ghost use Rattle.lfs_grammar.specs.Hyphens.{names_answer_option, names_asking_option, names_file_option, names_joint_option, names_letter, names_put_option, names_tree_option};
ghost use Rattle.lfs_grammar.specs.Hyphens.{names_image_option, names_limit_option, names_long_option, names_new_option, names_option, names_past_option, names_view_option};

use clap::ArgMatches;
use std::alloc::{AllocError, Global};
use std::convert::AsStr;

/// Whether a word is an option by its long name.
fn names_long_option(word: &str) -> bool
    ensures { result ≡ names_long_option word.now }
{
    names_new_option(word)
        || names_limit_option(word)
        || names_change_option(word)
        || names_image_option(word)
}

/// Whether a word is an option of a new image, or of one that gets more blocks, by its long name.
fn names_new_option(word: &str) -> bool
    ensures { result ≡ names_new_option word.now }
{
    word.starts_with("--count")
        || word.starts_with("--size")
        || word.starts_with("--least")
        || word.starts_with("--new")
}

/// Whether a word is an option that is a limit, by its long name.
fn names_limit_option(word: &str) -> bool
    ensures { result ≡ names_limit_option word.now }
{
    word.starts_with("--name-max")
        || word.starts_with("--file-max")
        || word.starts_with("--attr-max")
}

/// Whether a word is an option of a change, by its long name.
fn names_change_option(word: &str) -> bool
    ensures { result ≡ names_change_option word.now }
{
    names_past_option(word) || names_put_option(word)
}

/// Whether a word is an option of commands that put files, or of several commands, by its long name.
fn names_put_option(word: &str) -> bool
    ensures { result ≡ names_put_option word.now }
{
    word.starts_with("--inline") || names_joint_option(word)
}

/// Whether a word is an option of several commands that are one change, by its long name.
fn names_joint_option(word: &str) -> bool
    ensures { result ≡ names_joint_option word.now }
{
    word.starts_with("--one") || names_tree_option(word)
}

/// Whether a word is an option of a change of a whole tree, by its long name.
fn names_tree_option(word: &str) -> bool
    ensures { result ≡ names_tree_option word.now }
{
    word.starts_with("--recursive") || word.starts_with("--parents")
}

/// Whether a word is an option of the changes of the past, by its long name.
fn names_past_option(word: &str) -> bool
    ensures { result ≡ names_past_option word.now }
{
    word.starts_with("--keep") || word.starts_with("--steps") || word.starts_with("--replace")
}

/// Whether a word is an option of an image or a file that is there, by its long name.
fn names_image_option(word: &str) -> bool
    ensures { result ≡ names_image_option word.now }
{
    names_file_option(word) || names_asking_option(word)
}

/// Whether a word is an option that says which file is read, and which state of it, by its long name.
fn names_file_option(word: &str) -> bool
    ensures { result ≡ names_file_option word.now }
{
    word.starts_with("--block") || word.starts_with("--older") || word.starts_with("--from")
}

/// Whether a word is an option of a question, by its long name.
fn names_asking_option(word: &str) -> bool
    ensures { result ≡ names_asking_option word.now }
{
    names_view_option(word) || names_answer_option(word)
}

/// Whether a word is an option that says how an image is looked at, by its long name.
fn names_view_option(word: &str) -> bool
    ensures { result ≡ names_view_option word.now }
{
    word.starts_with("--device") || word.starts_with("--offset")
}

/// Whether a word is an option that says how an answer is told, by its long name.
fn names_answer_option(word: &str) -> bool
    ensures { result ≡ names_answer_option word.now }
{
    word.starts_with("--sum")
        || word.starts_with("--quiet")
        || word.starts_with("--json")
        || word.starts_with("--sha256")
}

/// Whether a word is an option, or asks for help.
fn names_option(word: &str) -> bool
    ensures { result ≡ names_option word.now }
{
    names_letter(word) || names_long_option(word) || word == "-h" || word == "--help"
}

/// Whether a word is an option by its letter, behind which the block size may stand.
fn names_letter(word: &str) -> bool
    ensures { result ≡ names_letter word.now }
{
    word.starts_with("-b") || is_tree_letter(word)
}

/// Whether a word is an option of a change of a whole tree, by its letter.
fn is_tree_letter(word: &str) -> bool
    ensures { result ≡ is_tree_letter word.now }
{
    word == "-r" || word == "-p"
}

/// Whether a word begins with a hyphen, and is no option.
fn is_stray(word: &str) -> bool
    ensures { result ≡ is_stray word.now }
{
    word.starts_with("-") && !names_option(word)
}

/// The words with `--` before the first of them that begins with a hyphen and is no option: that word and those behind
/// it are no options then.
pub fn dashed<'a, W: AsStr>(alloc: Global, words: &'a [W]) -> Result<Vec<&'a str>, AllocError>
    ensures { IfOk result (λ read. map (λ word. word.now) read.items ≡ dashed (map W.text words.now)) }
{
    let mut read = Vec::new(alloc);
    let mut is_dashed = false;
    for word in words {
        let text = word.as_str();
        if !is_dashed && is_stray(text) {
            is_dashed = true;
            read.push("--")?;
        }
        read.push(text)?;
    }
    Ok(read)
}

/// Whether an option's text begins with no hyphen, where it has one.
fn is_plain(options: &ArgMatches<'_>, id: &str) -> bool
    ensures { result ≡ is_plain_name (first_of id.now (rows_of (found_of options.now))) }
{
    match options.get_str(id) {
        Some(name) => !name.starts_with("-"),
        None => true,
    }
}

/// Whether neither a folder's name, that of another image, nor that of a file of contents, of steps or of images begins with a hyphen.
fn are_plain(options: &ArgMatches<'_>) -> bool
    ensures { result ≡ are_plain_names (rows_of (found_of options.now)) }
{
    is_plain(options, "dir")
        && is_plain(options, "other")
        && is_plain(options, "source")
        && is_plain(options, "flash")
        && is_plain(options, "contents")
        && is_plain(options, "script")
}

/// Whether no file or folder of the host is named by a word that begins with a hyphen.
pub fn names_files_plainly(matches: &ArgMatches<'_>) -> bool
    ensures { result ≡ names_files_plainly (subcommand_rows_of matches.now) }
{
    match matches.subcommand() {
        Some((_, options)) => is_plain(options, "image") && are_plain(options),
        None => true,
    }
}
