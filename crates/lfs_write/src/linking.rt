//! The links of an outline, as its thread goes through them.

ghost use Rattle.std.specs.Prelude.{◌≡◌, ◌++◌, IfOk, OnOk};
ghost use Rattle.lfs_fs.specs.Thread.{hard_to, links, links_of, soft_to};

use crate::outline_link::OutlineLink;
use lfs_fs::{Outline, OutlineDirectory, OutlinePart};
use lfs_meta::Tail;
use std::alloc::{AllocError, Global};

/// The tail to another part of the same directory.
fn hard_to(part: &OutlinePart) -> Tail
    ensures { result ≡ hard_to part.now.pair }
{
    Tail::Hard(part.pair.0, part.pair.1)
}

/// The tail to the first part of another directory.
fn soft_to(part: &OutlinePart) -> Tail
    ensures { result ≡ soft_to part.now.pair }
{
    Tail::Soft(part.pair.0, part.pair.1)
}

/// Adds the links of a directory, the last of which has a tail: a part goes on with a hard tail to the next one.
fn push_links<'a>(
    links: &mut Vec<OutlineLink<'a>>,
    directory: &'a OutlineDirectory,
    tail: Tail,
) -> Result<(), AllocError>
    ensures { OnOk result (links.new.items ≡ links.old.items ++ links_of directory.now.first directory.now.more tail) }
{
    let mut part = &directory.parts.first;
    'each: for next in &directory.parts.more {
        let to_next = hard_to(next);
        links.push(OutlineLink {
            part,
            tail: to_next,
        })?;
        part = next;
    }
    links.push(OutlineLink { part, tail })?;
    Ok(())
}

/// The links of an outline, in the order of its thread: a part goes on with a hard tail to the next one of its directory, the last of a
/// directory with a soft one to the next directory, and the last of all with none.
///
/// Source: SPEC.md, "0x6xx tail".
pub fn outline_links<'a>(
    alloc: Global,
    outline: &'a Outline,
) -> Result<Vec<OutlineLink<'a>>, AllocError>
    ensures { IfOk result (λ all. all.items ≡ links outline.now.directories) }
{
    let mut all = Vec::new(alloc);
    let Some((first, more)) = outline.directories.split_first() else {
        return Ok(all);
    };
    let mut directory = first;
    'each: for next in more {
        let to_next = soft_to(&next.parts.first);
        push_links(&mut all, directory, to_next)?;
        directory = next;
    }
    push_links(&mut all, directory, Tail::End)?;
    Ok(all)
}
