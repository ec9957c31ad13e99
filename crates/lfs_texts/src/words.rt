//! The words of a line.

ghost use Rattle.std.specs.Prelude.{◌≡◌, ◌⊎◌, IfErr, IfOk, map};
ghost use Rattle.lfs_texts.specs.Words.{words_of};
ghost use Rattle.lfs_texts.specs.declared.line_fault.LineFault.TheVariants.{BadLine, Memory};

use crate::escapes::word_of;
use crate::line_fault::LineFault;
use bstr::ByteSlice;
use std::alloc::Global;

/// The words of a line, as the bytes that they stand for. `BadLine` where there are none; `Memory` says only that a growth
/// was refused.
pub(crate) fn words_of(alloc: Global, line: &[u8]) -> Result<Vec<Vec<u8>>, LineFault>
    ensures words { IfOk result (λ words. words_of line.now ≡ Some (map (λ w. w.items) words.items)) }
    ensures refused { IfErr result (λ fault. (fault ≡ Memory) ⊎ ((fault ≡ BadLine) × (words_of line.now ≡ None))) }
{
    let mut words = Vec::new(alloc);
    for piece in line.split_str(b" ") {
        words.push(word_of(alloc, piece)?)?;
    }
    Ok(words)
}
