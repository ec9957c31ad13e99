//! Why the words of a command say no request.

use lfs_grammar::{FORMAT_USAGE, GROW_USAGE, PACK_USAGE, REPACK_USAGE};
use lfs_texts::{NO_BYTES, Reason, SizeFault};
use std::alloc::AllocError;
use std::fmt;

/// How a command says the number of blocks that an image gets.
#[derive(Clone, Copy)]
pub struct Ways {
    /// The argument that is the number, as a help text shows it.
    pub count: &'static str,
    /// All ways.
    pub all: &'static str,
    /// How the command is used.
    pub usage: &'static str,
}

/// How `format` says it.
pub(crate) const FORMAT: Ways = Ways {
    count: "--count <N>",
    all: "<--count <N>|--size <BYTES>>",
    usage: FORMAT_USAGE,
};

/// How `pack` says it.
pub(crate) const PACK: Ways = Ways {
    count: "--count <N>",
    all: "<--count <N>|--size <BYTES>|--least>",
    usage: PACK_USAGE,
};

/// How `repack` says it, where it does.
pub(crate) const REPACK: Ways = Ways {
    count: "--count <N>",
    all: "<--count <N>|--size <BYTES>|--least>",
    usage: REPACK_USAGE,
};

/// How `grow` says it.
pub(crate) const GROW: Ways = Ways {
    count: "[COUNT]",
    all: "<COUNT|--size <BYTES>>",
    usage: GROW_USAGE,
};

/// Why the words of a command say no request.
#[derive(Clone, Copy)]
pub enum UsageError<'a> {
    /// A command is named that takes other words, or one of its words isn't there. The grammar takes no such words.
    Unsaid,
    /// The text of an option is no size of a block.
    Block {
        /// The option's name.
        option: &'static str,
        /// The text.
        text: &'a str,
    },
    /// No number of blocks is said in any way.
    NoCount(Ways),
    /// It is said in two ways.
    TwoCounts {
        /// How it may be said.
        ways: Ways,
        /// The one way, as a help text shows it.
        one: &'static str,
        /// The other.
        other: &'static str,
    },
    /// The text of `--size` is no size of an image.
    Size {
        /// The text.
        text: &'a str,
        /// What is wrong with it.
        fault: SizeFault,
    },
    /// The text of `--offset` is no number of bytes.
    Offset {
        /// The text.
        text: &'a str,
    },
    /// The digits of an attribute's kind or value spell nothing.
    Hex {
        /// The command's name.
        command: &'static str,
        /// What is wrong with them.
        reason: Reason,
        /// The digits.
        digits: &'a str,
    },
    /// A growth of memory was refused.
    Memory,
}

impl From<AllocError> for UsageError<'_> {
    ghost use Rattle.std.specs.Prelude.{◌≡◌};
    ghost use Rattle.lfs_arguments.specs.declared.usage_error.UsageError.TheVariants.{Memory};

    ghost from_gives = { λ error usage_error. usage_error ≡ Memory };

    fn from(_error: AllocError) -> Self {
        UsageError::Memory
    }
}

impl<'a> fmt::Display for UsageError<'a> {
    fn fmt<W: fmt::Write>(&self, f: &mut fmt::Formatter<W>) -> fmt::Result {
        match *self {
            UsageError::Unsaid => f.write_str("the command or one of its arguments is missing"),
            UsageError::Block { option, text } => show_block(f, option, text),
            UsageError::NoCount(ways) => write!(
                f,
                "the following required arguments were not provided:\n  {}\n\nUsage: {}",
                ways.all, ways.usage
            ),
            UsageError::TwoCounts { ways, one, other } => write!(
                f,
                "the argument '{one}' cannot be used with '{other}'\n\nUsage: {}",
                ways.usage
            ),
            UsageError::Size { text, fault } => {
                write!(f, "invalid value '{text}' for '--size <BYTES>': {fault}")
            }
            UsageError::Offset { text } => {
                write!(
                    f,
                    "invalid value '{text}' for '--offset <BYTES>': {NO_BYTES}"
                )
            }
            UsageError::Hex { reason, digits, .. } => write!(f, "{reason}: {digits}"),
            UsageError::Memory => f.write_str("memory is wanting"),
        }
    }
}

/// Says why an option's text is no size of a block.
fn show_block<W: fmt::Write>(f: &mut fmt::Formatter<W>, option: &str, text: &str) -> fmt::Result {
    match text.parse::<i64>() {
        Ok(size) => write!(
            f,
            "invalid value '{text}' for '--{option} <BYTES>': {size} is not in 256..=65536"
        ),
        Err(error) => write!(
            f,
            "invalid value '{text}' for '--{option} <BYTES>': {error}"
        ),
    }
}
