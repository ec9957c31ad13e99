//! A part of an outline with the tail behind it.

use lfs_fs::OutlinePart;
use lfs_meta::Tail;
use std::marker::Model;

/// A part of an outline with the tail behind it, as the thread goes through it. Its meaning is the two together.
///
/// Source: SPEC.md, "0x6xx tail".
#[derive(Drop)]
pub struct OutlineLink<'a> {
    /// The part.
    pub part: &'a OutlinePart,
    /// The tail behind it.
    pub tail: Tail,
}

impl<'a> Model for OutlineLink<'a> {
    ghost use Rattle.lfs_fs.specs.Thread.{Link};

    ghost Value = { Link };

    ghost view = { λ link. record { part = link.part.now; tail = link.tail } };
}
