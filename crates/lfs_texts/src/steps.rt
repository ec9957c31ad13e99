//! The step that words say.

ghost use Rattle.std.specs.Prelude.{◌≡◌, ◌↔◌, ◌∷◌, [], ℕ, IfErr, IfOk, IsTrue, map};
ghost use Rattle.lfs_history.specs.declared.terms.Terms.{Terms};
ghost use Rattle.lfs_texts.specs.Steps.{IsBounded, IsFault, IsOnTerms, Says, SaysCommand};

use crate::digits::{byte_of, bytes_of};
use crate::line_fault::LineFault;
use crate::number::number_of;
use lfs_command::Command;
use lfs_history::{Move, Source, Terms};
use std::alloc::Global;
use std::str::from_utf8;

/// Whether a word is this one.
fn is_word(word: &[u8], other: &str) -> bool
    ensures { IsTrue result ↔ (word.now ≡ other.now) }
{
    word == other.as_bytes()
}

/// The step that a verb alone says.
fn verb_alone<'a>(verb: &[u8]) -> Result<Move<'a, Source<'a>>, LineFault>
    ensures says { IfOk result (λ step. Says (verb.now ∷ []) step) }
    ensures terms { IfOk result (λ step. (terms : Terms) → IsOnTerms terms step) }
    ensures refused { IfErr result (λ fault. IsFault (verb.now ∷ []) fault) }
{
    if is_word(verb, "undo") {
        Ok(Move::Undo { steps: 1 })
    } else if is_word(verb, "redo") {
        Ok(Move::Redo { steps: 1 })
    } else if is_word(verb, "forget") {
        Ok(Move::Forget)
    } else {
        Err(LineFault::BadLine)
    }
}

/// The command that a verb says with one word behind it.
fn with_one<'a>(verb: &[u8], first: &'a [u8]) -> Result<Command<&'a [u8], Source<'a>>, LineFault>
    ensures says { IfOk result (λ command. SaysCommand (verb.now ∷ first.now ∷ []) command) }
    ensures bound { IfOk result (λ command. (most : ℕ) → IsBounded most command) }
    ensures refused { IfErr result (λ fault. IsFault (verb.now ∷ first.now ∷ []) fault) }
{
    if is_word(verb, "mkdir") {
        Ok(Command::Mkdir { path: first })
    } else if is_word(verb, "rm") {
        Ok(Command::Rm { path: first })
    } else if is_word(verb, "grow") {
        match number_of(first) {
            Some(count) => Ok(Command::Grow { count }),
            None => Err(LineFault::BadLine),
        }
    } else {
        Err(LineFault::BadLine)
    }
}

/// The command that a verb says with two words after it; a file that is put stands in its entry if it has at most
/// `most` bytes.
fn with_two<'a>(
    alloc: Global,
    verb: &[u8],
    first: &'a [u8],
    second: &'a [u8],
    most: u32,
) -> Result<Command<&'a [u8], Source<'a>>, LineFault>
    ensures says { IfOk result (λ command. SaysCommand (verb.now ∷ first.now ∷ second.now ∷ []) command) }
    ensures bound { IfOk result (IsBounded most) }
    ensures refused { IfErr result (λ fault. IsFault (verb.now ∷ first.now ∷ second.now ∷ []) fault) }
{
    if is_word(verb, "put") {
        match from_utf8(second) {
            Ok(file) => Ok(Command::Put {
                path: first,
                bytes: Source::File(file),
                most,
            }),
            Err(_) => Err(LineFault::BadLine),
        }
    } else if is_word(verb, "mv") {
        Ok(Command::Mv {
            from: first,
            to: second,
        })
    } else if is_word(verb, "setattr") {
        match byte_of(second) {
            Some(kind) => Ok(Command::SetAttr {
                path: first,
                kind,
                value: Source::Said(Vec::new(alloc)),
            }),
            None => Err(LineFault::BadHex),
        }
    } else if is_word(verb, "rmattr") {
        match byte_of(second) {
            Some(kind) => Ok(Command::RmAttr { path: first, kind }),
            None => Err(LineFault::BadHex),
        }
    } else {
        Err(LineFault::BadLine)
    }
}

/// The command that a verb says with three words behind it.
fn with_three<'a>(
    alloc: Global,
    verb: &[u8],
    first: &'a [u8],
    second: &[u8],
    third: &[u8],
) -> Result<Command<&'a [u8], Source<'a>>, LineFault>
    ensures says { IfOk result (λ command. SaysCommand (verb.now ∷ first.now ∷ second.now ∷ third.now ∷ []) command) }
    ensures bound { IfOk result (λ command. (most : ℕ) → IsBounded most command) }
    ensures refused { IfErr result (λ fault. IsFault (verb.now ∷ first.now ∷ second.now ∷ third.now ∷ []) fault) }
{
    if !is_word(verb, "setattr") {
        return Err(LineFault::BadLine);
    }
    let Some(kind) = byte_of(second) else {
        return Err(LineFault::BadHex);
    };
    match bytes_of(alloc, third)? {
        Some(value) => Ok(Command::SetAttr {
            path: first,
            kind,
            value: Source::Said(value),
        }),
        None => Err(LineFault::BadHex),
    }
}

/// The step that words say, a command on these terms. A fault where they say none: `BadHex` where only
/// the digits of an attribute's kind or value spell nothing, `BadLine` otherwise; `Memory` says only that a growth was refused.
pub(crate) fn step_said<'a>(
    alloc: Global,
    words: &'a [Vec<u8>],
    terms: Terms,
) -> Result<Move<'a, Source<'a>>, LineFault>
    ensures says { IfOk result (λ step. Says (map (λ w. w.items) words.now) step) }
    ensures terms { IfOk result (IsOnTerms terms) }
    ensures refused { IfErr result (λ fault. IsFault (map (λ w. w.items) words.now) fault) }
{
    let command = match words {
        [] => return Err(LineFault::BadLine),
        [verb] => return verb_alone(verb),
        [verb, first] => with_one(verb, first)?,
        [verb, first, second] => with_two(alloc, verb, first, second, terms.most)?,
        [verb, first, second, third] => with_three(alloc, verb, first, second, third)?,
        [_, _, _, _, _, ..] => return Err(LineFault::BadLine),
    };
    Ok(Move::Do {
        command,
        keep: terms.keep,
    })
}
