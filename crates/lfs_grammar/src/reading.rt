//! How the words of a command line are read.

ghost use Rattle.std.specs.Prelude.{IfErr, IfOk, map};
ghost use Rattle.clap.specs.Words.{HasKind, fault_of};
ghost use Rattle.lfs_grammar.specs.Grammar.{IsMatched, grammar};

use crate::grammar::command_line;
use clap::{ArgMatches, Error};
use std::alloc::Global;
use std::convert::AsStr;

/// What the grammar of the command line matches of the words, the program's name first among them.
pub fn matched<'a, W: AsStr>(alloc: Global, words: &'a [W]) -> Result<ArgMatches<'a>, Error>
    ensures taken { IfOk result (λ matches. IsMatched (map W.text words.now) matches) }
    ensures refused { IfErr result (λ error. HasKind (fault_of grammar (map W.text words.now)) error) }
{
    command_line(alloc)?.try_get_matches_from(words)
}
