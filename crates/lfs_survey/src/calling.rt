//! The pairs that what is found leads to.

ghost use Rattle.std.specs.Prelude.{◌≡◌, ◌++◌, OnOk};
ghost use Rattle.lfs_meta.specs.BodyHeld.{body_held};
ghost use Rattle.lfs_survey.specs.Calls.{body_calls, entries_call, found_calls, tail_calls};

use crate::call::Call;
use crate::found::Found;
use crate::way::Way;
use lfs_meta::{Body, Entry, Tail};
use std::alloc::AllocError;

/// Adds the pair of an entry that is a directory.
fn call_body(calls: &mut Vec<Call>, way: Way, body: &Body) -> Result<(), AllocError>
    ensures { OnOk result (calls.new.items ≡ calls.old.items ++ body_calls way (body_held body.now)) }
{
    if let Body::Directory(first, second) = body {
        calls.push(Call {
            way,
            pair: (*first, *second),
        })?;
    }
    Ok(())
}

/// Adds the pairs of the entries that are directories, of what is found at a call.
fn call_entries(calls: &mut Vec<Call>, from: usize, entries: &[Entry]) -> Result<(), AllocError>
    ensures { OnOk result (calls.new.items ≡ calls.old.items ++ entries_call from 0 entries.now) }
{
    'each: for (index, entry) in entries.iter().enumerate() {
        call_body(calls, Way::Entry { from, index }, &entry.body)?;
    }
    Ok(())
}

/// Adds the pair with which the directory of what is found at a call goes on.
fn call_tail(calls: &mut Vec<Call>, from: usize, tail: Tail) -> Result<(), AllocError>
    ensures { OnOk result (calls.new.items ≡ calls.old.items ++ tail_calls from tail) }
{
    if let Tail::Hard(first, second) = tail {
        calls.push(Call {
            way: Way::Next { from },
            pair: (first, second),
        })?;
    }
    Ok(())
}

/// Adds the pairs that what is found at a call leads to.
pub(crate) fn call_all(calls: &mut Vec<Call>, from: usize, found: &Found) -> Result<(), AllocError>
    ensures { OnOk result (calls.new.items ≡ calls.old.items ++ found_calls from found.now) }
{
    let Found::Part(part) = found else {
        return Ok(());
    };
    call_entries(calls, from, &part.entries)?;
    call_tail(calls, from, part.tail)
}
