//! What is wrong with the words of a line.

ghost use Rattle.std.specs.Prelude.{◌≡◌, ◌<◌, ◌^◌, length, map};
ghost use Rattle.lfs_texts.specs.Flaws.{has_bad_kind, wrong_among, wrong_for};

use crate::digits::byte_of;
use crate::reason::Reason;
use crate::verb::{Verb, verb_of};

/// A word that is wrong, and what is.
#[derive(Clone, Copy)]
pub(crate) struct WrongWord {
    /// What is wrong.
    pub reason: Reason,
    /// Which word it is, the verb being 0.
    pub place: usize,
}

/// Whether the third of some words isn't two hexadecimal digits.
fn has_bad_kind(words: &[Vec<u8>]) -> bool
    ensures { result ≡ has_bad_kind (map (λ w. w.items) words.now) }
{
    match words {
        [_, _, kind, ..] => byte_of(kind).is_none(),
        _ => false,
    }
}

/// The word that is wrong where a verb has as many words as it takes.
fn wrong_for(verb: Verb, is_bad_kind: bool) -> WrongWord
    ensures { result ≡ wrong_for verb is_bad_kind }
{
    let (reason, place) = match verb {
        Verb::Grow => (Reason::BadNumber, 1),
        Verb::Put => (Reason::BadFile, 2),
        Verb::SetAttr if !is_bad_kind => (Reason::BadValue, 3),
        _ => (Reason::BadKind, 2),
    };
    WrongWord { reason, place }
}

/// The word that is wrong among words that say no step.
pub(crate) fn wrong_among(words: &[Vec<u8>]) -> WrongWord
    requires { length words.now < 2 ^ 63 }
    ensures { result ≡ wrong_among (map (λ w. w.items) words.now) }
{
    let Some((first, behind)) = words.split_first() else {
        return WrongWord {
            reason: Reason::UnknownVerb,
            place: 0,
        };
    };
    let Some(verb) = verb_of(first) else {
        return WrongWord {
            reason: Reason::UnknownVerb,
            place: 0,
        };
    };
    let count = behind.len();
    if count < verb.least() {
        WrongWord {
            reason: Reason::TooFewWords(verb),
            place: count + 1,
        }
    } else if count > verb.most() {
        WrongWord {
            reason: Reason::TooManyWords(verb),
            place: verb.most() + 1,
        }
    } else {
        wrong_for(verb, has_bad_kind(words))
    }
}
