//! The pairs that entries name.

ghost use Rattle.std.specs.Prelude.{◌≡◌, ◌++◌, IfOk, OnOk, flat_map, option_to_list};
ghost use Rattle.lfs_meta.specs.BodyHeld.{body_held};
ghost use Rattle.lfs_fs.specs.Pair.{unordered};
ghost use Rattle.lfs_settle.specs.InStep.{pair_named, pairs_named, same_blocks};

use lfs_meta::{Body, Entry, Part};
use std::alloc::{AllocError, Global};

/// A pair as a set: the lesser block first.
pub(crate) fn unordered(pair: (u32, u32)) -> (u32, u32)
    ensures { result ≡ unordered pair }
{
    if pair.0 <= pair.1 {
        pair
    } else {
        (pair.1, pair.0)
    }
}

/// Whether two pairs have the same blocks, in either order.
pub(crate) fn same_blocks(one: (u32, u32), other: (u32, u32)) -> bool
    ensures { result ≡ same_blocks one other }
{
    let (first, second) = unordered(one);
    let (other_first, other_second) = unordered(other);
    first == other_first && second == other_second
}

/// The pair that a struct names, if it is a directory's.
fn pair_named(body: &Body) -> Option<(u32, u32)>
    ensures { result ≡ pair_named (body_held body.now) }
{
    match body {
        Body::Directory(first, second) => Some((*first, *second)),
        _ => None,
    }
}

/// Puts a pair, if there is one, after others. Takes memory.
fn push_pair(named: &mut Vec<(u32, u32)>, pair: Option<(u32, u32)>) -> Result<(), AllocError>
    ensures { OnOk result (named.new.items ≡ named.old.items ++ option_to_list pair) }
{
    if let Some(pair) = pair {
        named.push(pair)?;
    }
    Ok(())
}

/// Puts the pairs that entries name after others. Takes memory.
fn push_named(named: &mut Vec<(u32, u32)>, entries: &[Entry]) -> Result<(), AllocError>
    ensures { OnOk result (named.new.items ≡ named.old.items ++ flat_map (λ e. option_to_list (pair_named e.body)) entries.now) }
{
    for entry in entries {
        push_pair(named, pair_named(&entry.body))?;
    }
    Ok(())
}

/// The pairs that the entries of parts name, in their order. Takes memory.
pub(crate) fn pairs_named(alloc: Global, parts: &[Part]) -> Result<Vec<(u32, u32)>, AllocError>
    ensures { IfOk result (λ named. named.items ≡ pairs_named parts.now) }
{
    let mut named = Vec::new(alloc);
    for part in parts {
        push_named(&mut named, &part.entries)?;
    }
    Ok(named)
}
