//! Scripts, their lines taken apart into words.

ghost use Rattle.std.specs.Prelude.{◌≡◌, IfErr, OnErr, OnOk, false};
ghost use Rattle.std.specs.Option.{option_map};
ghost use Rattle.lfs_texts.specs.Flaws.{known_flaw};
ghost use Rattle.lfs_texts.specs.Lines.{IsLineFault, is_passed_over};
ghost use Rattle.lfs_texts.specs.Script.{SplitsLine, numbered_line};

use crate::flaws::flaw_of;
use crate::line_fault::LineFault;
use crate::line_words::LineWords;
use crate::lines::is_passed_over;
use crate::script_fault::ScriptFault;
use crate::words::words_of;
use bstr::ByteSlice;
use std::alloc::Global;
use std::marker::Model;

/// A script, its lines taken apart into words. Its meaning is its text.
#[derive(Drop)]
pub struct Script<'a> {
    /// The text.
    text: &'a [u8],
    /// The lines that aren't passed over, up to the first whose bytes are no words.
    pub(crate) lines: Vec<LineWords<'a>>,
    /// That line, and what is wrong in it.
    pub(crate) fault: Option<ScriptFault>,
}

impl<'a> Model for Script<'a> {
    ghost use Rattle.std.specs.Prelude.{ℕ, List};
    ghost use Rattle.lfs_texts.specs.Script.{AreSplit};

    ghost Value = { List ℕ };

    ghost view = { λ s. s.text.now };

    ghost invariant = { λ s. AreSplit s.text.now s.lines.items s.fault };
}

/// Puts a line of this number with its words behind the rest, if it isn't passed over.
fn take_line<'a>(
    alloc: Global,
    number: usize,
    line: &'a [u8],
    lines: &mut Vec<LineWords<'a>>,
) -> Result<(), LineFault>
    ensures taken { OnOk result (SplitsLine (number, line.now) lines.old.items lines.new.items) }
    ensures asks { IfErr result (λ _. is_passed_over line.now ≡ false) }
    ensures refused { IfErr result (λ fault. IsLineFault line.now fault) }
    ensures unchanged { OnErr result (lines.new.items ≡ lines.old.items) }
{
    if is_passed_over(line) {
        return Ok(());
    }
    let words = words_of(alloc, line)?;
    lines.push(LineWords {
        number,
        line,
        words,
    })?;
    Ok(())
}

/// Where a line of this number says no step, and what is wrong in it. `Memory` too where a growth was refused.
pub(crate) fn fault_at(alloc: Global, number: usize, line: &[u8], fault: LineFault) -> ScriptFault
    requires { IsLineFault line.now fault }
    ensures number { result.number ≡ number }
    ensures refused { IsLineFault line.now result.fault }
    ensures flaw { result.flaw ≡ known_flaw line.now result.fault }
{
    if fault == LineFault::Memory {
        return ScriptFault {
            number,
            fault,
            flaw: None,
        };
    }
    match flaw_of(alloc, line) {
        Ok(flaw) => ScriptFault {
            number,
            fault,
            flaw: Some(flaw),
        },
        Err(_) => ScriptFault {
            number,
            fault: LineFault::Memory,
            flaw: None,
        },
    }
}

/// A text as a script. Takes memory, for the words of its lines; that it was refused is told where the steps are asked for.
pub fn script_of<'a>(alloc: Global, text: &'a [u8]) -> Script<'a>
    ensures { result ≡ text.now }
{
    let mut lines = Vec::new(alloc);
    let mut number = 0;
    for line in text.lines() {
        number += 1;
        if let Err(fault) = take_line(alloc, number, line, &mut lines) {
            let fault = Some(fault_at(alloc, number, line, fault));
            return Script { text, lines, fault };
        }
    }
    Script {
        text,
        lines,
        fault: None,
    }
}

/// The line of a text that has this number, from 1 on, without what ends it; `None` where there is none.
pub fn line_at<'a>(text: &'a [u8], number: usize) -> Option<&'a [u8]>
    ensures { option_map (λ line. line.now) result ≡ numbered_line text.now number }
{
    if number == 0 {
        None
    } else {
        text.lines().nth(number - 1)
    }
}
