//! The lines of runs of blocks.

ghost use Rattle.std.specs.Prelude.{◌≡◌, ◌<◌, ◌+◌, ◌++◌, None, OnOk, decimal, false, flat_map, length, nat_eq, not, slice_index_or};
ghost use Rattle.std.specs.Result.{result_err};
ghost use Rattle.lfs_listing.specs.BlockMap.{run_word, runs_from};
ghost use Rattle.lfs_listing.specs.Runs.{run_goes_on};
ghost use Rattle.lfs_listing.specs.Unsent.{SendsListing, blames_sink};
ghost use Rattle.lfs_listing.specs.Using.{part_line, part_of_user, run_line};

use crate::buffer::{send_if_full, send_rest};
use crate::row_parts::RowParts;
use crate::unsent::Unsent;
use itoa::Buffer;
use lfs_json::{Form, append_json_run};
use lfs_sink::Sink;
use std::alloc::{AllocError, Global};

/// Adds a number.
pub(crate) fn append_number(text: &mut Vec<u8>, number: usize) -> Result<(), AllocError>
    ensures { OnOk result (text.new.items ≡ text.old.items ++ decimal number) }
{
    text.extend_from_slice(Buffer::new().format(number).as_bytes())
}

/// Adds the numbers of a run's first and last block, one where they are the same.
fn append_run(text: &mut Vec<u8>, first: usize, last: usize) -> Result<(), AllocError>
    ensures { OnOk result (text.new.items ≡ text.old.items ++ run_word first last) }
{
    append_number(text, first)?;
    if first == last {
        return Ok(());
    }
    text.extend_from_slice(b"-")?;
    append_number(text, last)
}

/// Adds the line of a run, by what is said of its user.
fn append_line(
    form: Form,
    text: &mut Vec<u8>,
    first: usize,
    last: usize,
    part: &[u8],
) -> Result<(), AllocError>
    ensures { OnOk result (text.new.items ≡ text.old.items ++ part_line form first last part.now) }
{
    match form {
        Form::Text => {
            append_run(text, first, last)?;
            text.extend_from_slice(part)
        }
        Form::Json => {
            text.extend_from_slice(part)?;
            append_json_run(text, first, last)
        }
    }
}

/// Whether the next block has the same user.
fn goes_on(users: &[Option<usize>], block: usize) -> bool
    requires { block < length users.now }
    ensures { result ≡ run_goes_on users.now block }
{
    match users.get(block + 1) {
        Some(next) => *next == users[block],
        None => false,
    }
}

/// Sends a line for each run of blocks of one user.
pub(crate) fn send_runs<S: Sink>(
    alloc: Global,
    form: Form,
    users: &[Option<usize>],
    parts: &RowParts,
    out: &mut S,
) -> Result<(), Unsent>
    requires { S.failed out.old ≡ false }
    ensures sent { SendsListing (result_err result) (S.sent out.old) (S.sent out.new)
        (flat_map (run_line form (part_of_user form parts.now)) (runs_from 0 users.now)) }
    ensures failed { S.failed out.new ≡ blames_sink (result_err result) }
    ensures kept { S.kept out.new ≡ S.kept out.old }
{
    let mut text = Vec::new(alloc);
    let mut first = 0;
    for (block, &user) in users.iter().enumerate() {
        if goes_on(users, block) {
            continue;
        }
        append_line(form, &mut text, first, block, parts.of_user(form, user))?;
        send_if_full(&mut text, out)?;
        first = block + 1;
    }
    send_rest(&mut text, out)
}
