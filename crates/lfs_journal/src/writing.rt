//! Journals as they are written.

ghost use Rattle.std.specs.Prelude.{◌≡◌, ◌<◌, ◌^◌, ◌++◌, length, flat_map, false, not, All, IfSome, codes};
ghost use Rattle.std.specs.Int.{w32, to_le_bytes};
ghost use Rattle.lfs_sink.specs.Send.{Sends};
ghost use Rattle.lfs_journal.specs.Book.{IsBookOf, book_of, change_bytes, patch_bytes, journal_bytes};

use crate::reading::{LETTERS, VERSION};
use byteorder::{ByteOrder, LittleEndian};
use lfs_block::{Patch, Record};
use lfs_sink::{MemorySink, Sink, send};
use std::alloc::Global;

/// Sends the change of one block.
fn send_record<S: Sink>(out: &mut S, change: &Record) -> bool
    requires { S.failed out.old ≡ false }
    ensures sent { Sends result (S.sent out.old) (S.sent out.new) (change_bytes change.now) }
    ensures failed { S.failed out.new ≡ not result }
    ensures kept { S.kept out.new ≡ S.kept out.old }
{
    if !send(out, &change.number.to_le_bytes()) {
        return false;
    }
    if !send(out, &change.old) {
        return false;
    }
    send(out, &change.new)
}

/// Sends the changes of one block each.
fn send_records<S: Sink>(out: &mut S, records: &[Record]) -> bool
    requires { S.failed out.old ≡ false }
    ensures sent { Sends result (S.sent out.old) (S.sent out.new) (flat_map change_bytes records.now) }
    ensures failed { S.failed out.new ≡ not result }
    ensures kept { S.kept out.new ≡ S.kept out.old }
{
    for record in records {
        if !send_record(out, record) {
            return false;
        }
    }
    true
}

/// What stands before a change's blocks: their number, and how many blocks the image has before the change and after it.
fn patch_head(patch: &Patch) -> [u8; 12]
    requires { length patch.now.changes < 2 ^ 32 }
    ensures { result ≡ to_le_bytes w32 (length patch.now.changes) ++ to_le_bytes w32 patch.now.before ++ to_le_bytes w32 patch.now.after }
{
    let words = [patch.records().len() as u32, patch.before(), patch.after()];
    let mut bytes = [0; 12];
    LittleEndian::write_u32_into(&words, &mut bytes);
    bytes
}

/// Sends a change: what stands before its blocks, then each of them.
fn send_patch<S: Sink>(out: &mut S, patch: &Patch) -> bool
    requires few { length patch.now.changes < 2 ^ 32 }
    requires works { S.failed out.old ≡ false }
    ensures sent { Sends result (S.sent out.old) (S.sent out.new) (patch_bytes patch.now) }
    ensures failed { S.failed out.new ≡ not result }
    ensures kept { S.kept out.new ≡ S.kept out.old }
{
    send(out, &patch_head(patch)) && send_records(out, patch.records())
}

/// Sends changes.
fn send_patches<S: Sink>(out: &mut S, patches: &[Patch]) -> bool
    requires few { All (λ p. length p.changes < 2 ^ 32) patches.now }
    requires works { S.failed out.old ≡ false }
    ensures sent { Sends result (S.sent out.old) (S.sent out.new) (flat_map patch_bytes patches.now) }
    ensures failed { S.failed out.new ≡ not result }
    ensures kept { S.kept out.new ≡ S.kept out.old }
{
    for patch in patches {
        if !send_patch(out, patch) {
            return false;
        }
    }
    true
}

/// What stands before the changes: the letters and the version, the block size and the number of blocks, how many changes are done and
/// how many are undone.
fn head(size: u32, count: u32, done: u32, undone: u32) -> [u8; 24]
    ensures { result ≡ codes "lfsj" ++ to_le_bytes w32 2 ++ to_le_bytes w32 size ++ to_le_bytes w32 count ++ to_le_bytes w32 done
        ++ to_le_bytes w32 undone }
{
    let words = [LETTERS, VERSION, size, count, done, undone];
    let mut bytes = [0; 24];
    LittleEndian::write_u32_into(&words, &mut bytes);
    bytes
}

/// Sends a journal's bytes: of its changes, the first `done` are done. The number of blocks of each fits a word.
fn send_few<S: Sink>(out: &mut S, size: u32, count: u32, patches: &[Patch], done: usize) -> bool
    requires book { IsBookOf size count patches.now done }
    requires few { All (λ p. length p.changes < 2 ^ 32) patches.now }
    requires works { S.failed out.old ≡ false }
    ensures sent { Sends result (S.sent out.old) (S.sent out.new) (journal_bytes (book_of size count patches.now done)) }
    ensures failed { S.failed out.new ≡ not result }
    ensures kept { S.kept out.new ≡ S.kept out.old }
{
    let undone = patches.len() - done;
    send(out, &head(size, count, done as u32, undone as u32)) && send_patches(out, patches)
}

/// Sends the bytes of the journal of an image of `count` blocks of `size` bytes, in version 2: of its changes, the first `done` are
/// done, and the others undone, in the order in which they are made again. They go out as they stand in the changes, and aren't gathered
/// before.
pub(crate) fn send_journal<S: Sink>(
    out: &mut S,
    size: u32,
    count: u32,
    patches: &[Patch],
    done: usize,
) -> bool
    requires book { IsBookOf size count patches.now done }
    requires works { S.failed out.old ≡ false }
    ensures sent { Sends result (S.sent out.old) (S.sent out.new) (journal_bytes (book_of size count patches.now done)) }
    ensures failed { S.failed out.new ≡ not result }
    ensures kept { S.kept out.new ≡ S.kept out.old }
{
    send_few(out, size, count, patches, done)
}

/// The bytes of the journal that `send_journal` sends. `None` where memory is refused.
pub fn write_journal(
    alloc: Global,
    size: u32,
    count: u32,
    patches: &[Patch],
    done: usize,
) -> Option<Vec<u8>>
    requires { IsBookOf size count patches.now done }
    ensures { IfSome result (λ bytes. bytes.items ≡ journal_bytes (book_of size count patches.now done)) }
{
    let mut out = MemorySink::new(alloc);
    if send_journal(&mut out, size, count, patches, done) {
        Some(out.bytes)
    } else {
        None
    }
}
