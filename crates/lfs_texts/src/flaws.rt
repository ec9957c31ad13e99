//! What is wrong in lines.

ghost use Rattle.std.specs.Prelude.{◌≡◌, ◌<◌, ◌⊎◌, IfErr, IfOk, true};
ghost use Rattle.lfs_texts.specs.Flaws.{flaw_of, is_escape, is_of_counting, mark_or_word, place_behind, space_at, spelling_flaw, stray_mark, word_column, words_flaw};
ghost use Rattle.lfs_texts.specs.Words.{words_of};

use crate::digits::byte_of;
use crate::flaw::Flaw;
use crate::line_fault::LineFault;
use crate::reason::Reason;
use crate::words::words_of;
use crate::wrong_word::{WrongWord, wrong_among};
use std::alloc::{AllocError, Global};

/// Whether what stands behind a backslash says a byte.
fn is_escape(behind: &[u8]) -> bool
    ensures { result ≡ is_escape behind.now }
{
    match behind {
        [mark, high, low, ..] => *mark == b'x' && byte_of(&[*high, *low]).is_some(),
        _ => false,
    }
}

/// What a space is where a word ought to begin.
fn space_at(column: usize) -> Reason
    ensures { result ≡ space_at column }
{
    if column == 1 {
        Reason::SpaceInFront
    } else {
        Reason::TwoSpaces
    }
}

/// What is wrong in a line whose bytes are no words.
fn spelling_flaw(line: &[u8]) -> Flaw
    ensures { result ≡ spelling_flaw 1 true line.now }
{
    let mut column = 1;
    let mut begins = true;
    let mut left = line;
    while let Some((first, rest)) = left.split_first() {
        if *first == b' ' && begins {
            return Flaw {
                reason: space_at(column),
                column,
            };
        }
        if *first == b'\\' && !is_escape(rest) {
            return Flaw {
                reason: Reason::BadEscape,
                column,
            };
        }
        begins = *first == b' ';
        column += 1;
        left = rest;
    }
    Flaw {
        reason: Reason::SpaceBehind,
        column: column - 1,
    }
}

/// The first tab of a line, or quote at which a word begins.
fn stray_mark(line: &[u8]) -> Option<Flaw>
    ensures { result ≡ stray_mark 1 true line.now }
{
    let mut column = 1;
    let mut begins = true;
    let mut left = line;
    while let Some((first, rest)) = left.split_first() {
        if *first == b'\t' {
            return Some(Flaw {
                reason: Reason::Tab,
                column,
            });
        }
        if begins && (*first == b'"' || *first == b'\'') {
            return Some(Flaw {
                reason: Reason::Quote,
                column,
            });
        }
        begins = *first == b' ';
        column += 1;
        left = rest;
    }
    None
}

/// How many words stand before a word behind this byte, where so many do from the byte on.
fn place_behind(byte: u8, place: usize) -> usize
    requires { 0 < place }
    ensures { result ≡ place_behind byte place }
{
    if byte == b' ' { place - 1 } else { place }
}

/// The column at which the word of a place begins; the one behind the line where it has fewer words.
fn word_column(line: &[u8], place: usize) -> usize
    ensures { result ≡ word_column 1 place line.now }
{
    let mut column = 1;
    let mut place = place;
    let mut left = line;
    while let Some((first, rest)) = left.split_first() {
        if place == 0 {
            return column;
        }
        place = place_behind(*first, place);
        column += 1;
        left = rest;
    }
    column
}

/// Whether the words are counted for a reason.
fn is_of_counting(reason: Reason) -> bool
    ensures { result ≡ is_of_counting reason }
{
    matches!(
        reason,
        Reason::UnknownVerb | Reason::TooFewWords(_) | Reason::TooManyWords(_)
    )
}

/// What is wrong in a line of words that say no step.
fn words_flaw(line: &[u8], word: WrongWord) -> Flaw
    ensures { result ≡ words_flaw line.now word }
{
    let mark = if is_of_counting(word.reason) {
        stray_mark(line)
    } else {
        None
    };
    match mark {
        Some(mark) => mark,
        None => Flaw {
            reason: word.reason,
            column: word_column(line, word.place),
        },
    }
}

/// What is wrong in a line that says no step. A fault says only that a growth of memory was refused.
pub(crate) fn flaw_of(alloc: Global, line: &[u8]) -> Result<Flaw, AllocError>
    ensures { IfOk result (λ flaw. flaw ≡ flaw_of line.now (words_of line.now)) }
{
    match words_of(alloc, line) {
        Ok(words) => Ok(words_flaw(line, wrong_among(&words))),
        Err(LineFault::Memory) => Err(AllocError),
        Err(_) => Ok(spelling_flaw(line)),
    }
}
