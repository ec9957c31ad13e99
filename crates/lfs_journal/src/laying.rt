//! Changes that are laid over others.

ghost use Rattle.std.specs.Prelude.{◌≡◌, ◌+◌, ◌<◌, ◌≤◌, vec_capacity, vec_len};
ghost use Rattle.lfs_block.specs.Change.{IsRising};
ghost use Rattle.lfs_journal.specs.Joined.{joined, laid, laid_over};

use lfs_block::Record;

/// Takes a later change of its block into a change: the block holds after both what it holds after the later one.
fn join(record: &mut Record, later: Record)
    ensures { record.exit.now ≡ joined record.entry.now later }
{
    record.new = later.new;
}

/// Lays a change over others, whose numbers rise: it goes into the one of its block, or to its place where there is none.
fn lay(records: &mut Vec<Record>, change: Record)
    requires rising { IsRising records.old.items }
    requires room { vec_len records.old < vec_capacity records.old }
    ensures laid { records.new.items ≡ laid records.old.items change }
    ensures len { vec_len records.new ≤ vec_len records.old + 1 }
    ensures capacity { vec_capacity records.old ≤ vec_capacity records.new }
{
    let at = records.partition_point(|record| record.number < change.number);
    if at < records.len() && records[at].number == change.number {
        join(&mut records[at], change);
        return;
    }
    let put = records.insert(at, change);
    prove!(put.is_ok());
}

/// Lays changes over others, whose numbers rise, one after another.
pub(crate) fn lay_over(records: &mut Vec<Record>, changes: Vec<Record>)
    requires rising { IsRising records.old.items }
    requires room { vec_len records.old + vec_len changes ≤ vec_capacity records.old }
    ensures { records.new.items ≡ laid_over records.old.items changes.items }
{
    for change in changes {
        lay(records, change);
    }
}
