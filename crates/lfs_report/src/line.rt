//! Lines that are told on standard error.

ghost use Rattle.std.specs.Prelude.{◌≡◌};

use crate::finding::Finding;
use lfs_host::{Host, Told};
use lfs_survey::Shown;
use lfs_texts::Reason;
use std::fmt;

/// A piece of a line.
#[derive(Clone, Copy)]
pub enum Piece<'a> {
    /// Words.
    Text(&'a str),
    /// Bytes of a path or of a word.
    Bytes(&'a [u8]),
    /// A number.
    Number(usize),
    /// A disk version, with its major number in the upper half.
    Version(u32),
    /// What is said of a path.
    Finding(Finding),
    /// What is wrong with a word.
    Reason(Reason),
}

impl fmt::Display for Piece<'_> {
    fn fmt<W: fmt::Write>(&self, f: &mut fmt::Formatter<W>) -> fmt::Result {
        match *self {
            Piece::Text(text) => f.write_str(text),
            Piece::Bytes(bytes) => Shown { bytes }.fmt(f),
            Piece::Number(number) => number.fmt(f),
            Piece::Version(version) => write!(f, "{}.{}", version >> 16, version & 0xffff),
            Piece::Finding(finding) => finding.fmt(f),
            Piece::Reason(reason) => reason.fmt(f),
        }
    }
}

/// Pieces, one behind the other.
#[derive(Clone, Copy)]
struct Pieces<'b, 'c> {
    pieces: &'b [Piece<'c>],
}

impl fmt::Display for Pieces<'_, '_> {
    fn fmt<W: fmt::Write>(&self, f: &mut fmt::Formatter<W>) -> fmt::Result {
        for piece in self.pieces {
            piece.fmt(f)?;
        }
        Ok(())
    }
}

/// Tells a line on standard error: what it is of, and these pieces.
pub(crate) fn report_pieces<H: Host>(host: &mut H, name: &str, pieces: &[Piece<'_>])
    ensures kept { H.known host.new ≡ H.known host.old }
{
    host.report(Told {
        of: name,
        text: Pieces { pieces },
    });
}

/// Tells a line of words alone.
pub(crate) fn report_words<H: Host>(host: &mut H, name: &str, words: &str)
    ensures kept { H.known host.new ≡ H.known host.old }
{
    report_pieces(host, name, &[Piece::Text(words)]);
}

/// Tells a line with a disk version, and words in front of it and behind it.
pub(crate) fn report_with_version<'a, H: Host>(
    host: &mut H,
    name: &str,
    front: &'a str,
    version: u32,
    behind: &'a str,
)
    ensures kept { H.known host.new ≡ H.known host.old }
{
    report_pieces(
        host,
        name,
        &[
            Piece::Text(front),
            Piece::Version(version),
            Piece::Text(behind),
        ],
    );
}

/// Tells a line with a number of blocks of a size, and words in front of them and behind them.
pub(crate) fn report_with_blocks<'a, H: Host>(
    host: &mut H,
    name: &str,
    front: &'a str,
    blocks: (usize, u32),
    behind: &'a str,
)
    ensures kept { H.known host.new ≡ H.known host.old }
{
    report_pieces(
        host,
        name,
        &[
            Piece::Text(front),
            Piece::Number(blocks.0),
            Piece::Text(" blocks of "),
            Piece::Number(blocks.1 as usize),
            Piece::Text(behind),
        ],
    );
}
