//! The lines of rows, with the digests of files' contents.

ghost use Rattle.std.specs.Prelude.{◌≡◌, ◌++◌, OnOk, map};
ghost use Rattle.lfs_fs.specs.Listed.{path_after, row_after};
ghost use Rattle.lfs_listing.specs.Below.{lines_at, names};
ghost use Rattle.lfs_listing.specs.Comparing.{IsReadable};
ghost use Rattle.lfs_listing.specs.Digests.{digest_line, digested_as, digested_text, with_digest};

use crate::below::is_below;
use crate::digests::{DIGEST, digest_of};
use crate::digits::append_all_digits;
use crate::lines::append_lines;
use crate::paths::follow_row;
use lfs_block::Blocks;
use lfs_fs::Row;
use lfs_json::{Form, append_json_digested_row};
use std::alloc::{AllocError, Global};

/// Adds the line of a digest.
fn append_digest(text: &mut Vec<u8>, digest: &[u8]) -> Result<(), AllocError>
    ensures { OnOk result (text.new.items ≡ text.old.items ++ digest_line digest.now) }
{
    text.extend_from_slice(b"# ")?;
    append_all_digits(text, digest)?;
    text.extend_from_slice(b"\n")
}

/// Adds the lines of a row at a path with a digest, in a form.
fn append_with_digest(
    alloc: Global,
    form: Form,
    text: &mut Vec<u8>,
    path: &[&[u8]],
    row: &Row<'_>,
    digest: &[u8],
) -> Result<(), AllocError>
    ensures { OnOk result (text.new.items
        ≡ text.old.items ++ with_digest form digest.now (record { path = map (λ n. n.now) path.now; entry = row.now.entry })) }
{
    match form {
        Form::Text => {
            append_lines(alloc, Form::Text, text, path, row)?;
            append_digest(text, digest)
        }
        Form::Json => append_json_digested_row(alloc, text, path, row, digest),
    }
}

/// Adds the lines of a row at a path, in a form, with the digest where it has one.
fn append_digested(
    alloc: Global,
    form: Form,
    text: &mut Vec<u8>,
    path: &[&[u8]],
    row: &Row<'_>,
    digest: Option<[u8; DIGEST]>,
) -> Result<(), AllocError>
    ensures { OnOk result (text.new.items
        ≡ text.old.items ++ digested_as form digest (record { path = map (λ n. n.now) path.now; entry = row.now.entry })) }
{
    match digest {
        None => append_lines(alloc, form, text, path, row),
        Some(digest) => append_with_digest(alloc, form, text, path, row, &digest),
    }
}

/// Does what `append_row` does, with the digest of what the row holds.
pub(crate) fn append_digested_row<'a, A: Blocks>(
    alloc: Global,
    form: Form,
    disk: &A,
    text: &mut Vec<u8>,
    path: &mut Vec<&'a [u8]>,
    at: &[&[u8]],
    row: &Row<'a>,
) -> Result<(), AllocError>
    requires { IsReadable (A.disk disk.now) row.now.entry.body }
    ensures lines { OnOk result (text.new.items ≡ text.old.items
        ++ lines_at (digested_text form (A.disk disk.now)) (names at.now) (row_after (map (λ n. n.now) path.old.items) row.now)) }
    ensures path { OnOk result (map (λ n. n.now) path.new.items
        ≡ path_after (map (λ n. n.now) path.old.items) row.now.depth row.now.entry.name) }
{
    follow_row(path, row)?;
    if !is_below(path, at) {
        return Ok(());
    }
    append_digested(alloc, form, text, path, row, digest_of(disk, row))
}
