//! The bytes that a word stands for.

ghost use Rattle.std.specs.Prelude.{◌≡◌, ◌<◌, ◌+◌, ◌⊎◌, ◌∷◌, [], IfErr, IfNone, IfOk, IfSome, length};
ghost use Rattle.std.specs.Fmt.{option_append};
ghost use Rattle.lfs_texts.specs.Words.{word_bytes, some_word};
ghost use Rattle.lfs_texts.specs.declared.line_fault.LineFault.TheVariants.{BadLine, Memory};

use crate::digits::byte_of;
use crate::line_fault::LineFault;
use std::alloc::Global;

/// The byte that stands first in a word, and what is behind it. `None` where a backslash stands first that says no byte.
fn first_of<'a>(first: u8, rest: &'a [u8]) -> Option<(u8, &'a [u8])>
    ensures byte { IfSome result (λ taken. word_bytes (first ∷ rest.now) ≡ option_append (Some (taken.0 ∷ [])) (word_bytes taken.1.now)) }
    ensures shorter { IfSome result (λ taken. length taken.1.now < length rest.now + 1) }
    ensures none { IfNone result (word_bytes (first ∷ rest.now) ≡ None) }
{
    if first != b'\\' {
        return Some((first, rest));
    }
    match rest {
        [mark, high, low, behind @ ..] if *mark == b'x' => {
            let byte = byte_of(&[*high, *low])?;
            Some((byte, behind))
        }
        _ => None,
    }
}

/// The bytes that a word stands for. `BadLine` where it is empty, or a backslash in it says no byte; `Memory` says only
/// that a growth was refused.
pub(crate) fn word_of(alloc: Global, text: &[u8]) -> Result<Vec<u8>, LineFault>
    ensures word { IfOk result (λ word. some_word text.now ≡ Some word.items) }
    ensures refused { IfErr result (λ fault. (fault ≡ Memory) ⊎ ((fault ≡ BadLine) × (some_word text.now ≡ None))) }
{
    if text.is_empty() {
        return Err(LineFault::BadLine);
    }
    let mut word = Vec::new(alloc);
    let mut left = text;
    while let Some((first, rest)) = left.split_first() {
        let Some((byte, behind)) = first_of(*first, rest) else {
            return Err(LineFault::BadLine);
        };
        word.push(byte)?;
        left = behind;
    }
    Ok(word)
}
