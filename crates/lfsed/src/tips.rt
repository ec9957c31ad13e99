//! What is told of words that the grammar refuses.

use clap::Error;
use lfs_grammar::matched;
use lfs_system::{OneLine, has_control};
use std::alloc::{AllocError, Global};
use std::convert::AsStr;

/// How the text begins of an error that a word is too many.
const UNEXPECTED: &str = "error: unexpected argument '";

/// What is told where a word stands behind the path of `put`.
const CONTENTS: &str =
    "  tip: the contents are read from standard input, or from a file with '--from FILE'\n\n";

/// The text of an error, without tips that lead to another command's option or put `--` before a word: no option is the path of
/// anything. Where a word stands behind the path of `put`, it says where contents come from. Takes memory.
fn retold(alloc: Global, error: &Error) -> Result<String, AllocError> {
    let text = error.to_string(alloc)?;
    let text = text.as_str();
    let is_of_contents = names_contents(text);
    let mut told = String::new(alloc);
    let mut is_blank = false;
    for line in text.lines() {
        if is_misleading(line) || (is_blank && line.is_empty()) {
            continue;
        }
        if is_of_contents && line.starts_with("Usage:") {
            told.push_str(CONTENTS)?;
        }
        told.push_str(line)?;
        told.push_str("\n")?;
        is_blank = line.is_empty();
    }
    Ok(told)
}

/// Whether a line is a tip that leads to another command's option, or puts `--` before a word.
fn is_misleading(line: &str) -> bool {
    line.starts_with("  tip: '") || line.starts_with("  tip: to pass '")
}

/// Whether an error says that a word stands behind the path of `put` that begins with no hyphen.
fn names_contents(text: &str) -> bool {
    let Some(word) = text.strip_prefix(UNEXPECTED) else {
        return false;
    };
    !word.starts_with("-") && text.contains("\n\nUsage: lfsed put ")
}

/// Words with their control characters shown by bytes.
fn shown_words<W: AsStr>(alloc: Global, words: &[W]) -> Result<Vec<String>, AllocError> {
    let mut shown = Vec::new(alloc);
    for word in words {
        let text = word.as_str();
        shown.push(format!(in alloc; "{}", OneLine { text })?)?;
    }
    Ok(shown)
}

/// Whether one of these words has a control character.
fn have_control<W: AsStr>(words: &[W]) -> bool {
    for word in words {
        if has_control(word.as_str()) {
            return true;
        }
    }
    false
}

/// The text of the error with which words are refused. If they have control characters, it is that of words which show these. Takes memory.
pub fn told_of<W: AsStr>(alloc: Global, words: &[W], error: &Error) -> Result<String, AllocError> {
    if !have_control(words) {
        return retold(alloc, error);
    }
    let shown = shown_words(alloc, words)?;
    match matched(alloc, shown.as_slice()) {
        Ok(_) => format!(in alloc; "{}\n", OneLine { text: error }),
        Err(error) => retold(alloc, &error),
    }
}
