//! What is said of the users of blocks, kept until their lines go out.

ghost use Rattle.std.specs.Prelude.{◌≡◌, ◌++◌, None, OnOk, Some, map};
ghost use Rattle.lfs_listing.specs.BlockMap.{user_words};
ghost use Rattle.lfs_listing.specs.Listing.{shown_byte};
ghost use Rattle.lfs_listing.specs.Using.{row_part, user_part};

use crate::paths::append_path;
use lfs_fs::{Row, RowBody};
use lfs_json::{FREE_FRONT, Form, append_json_user};
use std::alloc::{AllocError, Global};
use std::marker::Model;

/// Where a text stands in another one.
#[derive(Clone, Copy)]
struct Span {
    start: usize,
    end: usize,
}

/// Adds the end of the line of a row at a path: what it is, and the path.
pub(crate) fn append_user(
    text: &mut Vec<u8>,
    path: &[&[u8]],
    row: &Row<'_>,
) -> Result<(), AllocError>
    ensures { OnOk result (text.new.items ≡ text.old.items
        ++ user_words shown_byte (Some (record { path = map (λ n. n.now) path.now; entry = row.now.entry }))) }
{
    text.extend_from_slice(if row.is_dir() { b" d " } else { b" f " })?;
    append_path(text, path)?;
    text.extend_from_slice(b"\n")
}

/// Adds what is said of a row at a path: the end of its line, or the front of its object.
fn append_user_part(
    alloc: Global,
    form: Form,
    text: &mut Vec<u8>,
    path: &[&[u8]],
    row: &Row<'_>,
) -> Result<(), AllocError>
    ensures { OnOk result (text.new.items ≡ text.old.items
        ++ user_part form (Some (record { path = map (λ n. n.now) path.now; entry = row.now.entry }))) }
{
    match form {
        Form::Text => append_user(text, path, row),
        Form::Json => append_json_user(alloc, text, path, row),
    }
}

/// The same, but of a file in its entry, which has no line.
fn append_part(
    alloc: Global,
    form: Form,
    text: &mut Vec<u8>,
    path: &[&[u8]],
    row: &Row<'_>,
) -> Result<(), AllocError>
    ensures { OnOk result (text.new.items ≡ text.old.items
        ++ row_part form (record { path = map (λ n. n.now) path.now; entry = row.now.entry })) }
{
    match row.body {
        RowBody::Inline(_) => Ok(()),
        RowBody::Chain { .. } | RowBody::Directory(..) => append_user_part(
            alloc, form, text, path, row,
        ),
    }
}

/// The end of a line of free blocks.
pub(crate) const FREE_END: &[u8] = b" -\n";

/// What is said of free blocks.
fn free_part(form: Form) -> &'static [u8]
    ensures { result.now ≡ user_part form None }
{
    match form {
        Form::Text => FREE_END,
        Form::Json => FREE_FRONT,
    }
}

/// What is said of rows, in one buffer; of a file in its entry, which has no line, it is nothing. Its meaning is their list.
#[derive(Drop)]
pub(crate) struct RowParts {
    text: Vec<u8>,
    spans: Vec<Span>,
}

impl Model for RowParts {
    ghost use Rattle.std.specs.Prelude.{ℕ, ◌≤◌, ◌-◌, List, All, drop, length, map, take};

    ghost Value = { List (List ℕ) };

    ghost view = { λ e. map (λ s. drop s.start (take s.end e.text.items)) e.spans.items };

    ghost invariant = { λ e. All (λ s. (s.start ≤ s.end) × (s.end ≤ length e.text.items)) e.spans.items };
}

impl RowParts {
    ghost use Rattle.std.specs.Prelude.{◌≡◌, ◌<◌, ◌^◌, ◌++◌, [], ◌∷◌, IfOk, length, map};
    ghost use Rattle.lfs_listing.specs.Using.{part_of_user, row_part};

    /// None.
    pub(crate) fn new(alloc: Global) -> RowParts
        ensures { result ≡ [] }
    {
        RowParts {
            text: Vec::new(alloc),
            spans: Vec::new(alloc),
        }
    }

    /// Their number.
    pub(crate) fn len(&self) -> usize
        ensures { result ≡ length self.now }
    {
        self.spans.len()
    }

    /// These, and that of a row at a path.
    pub(crate) fn with_row(
        self,
        alloc: Global,
        form: Form,
        path: &[&[u8]],
        row: &Row<'_>,
    ) -> Result<RowParts, AllocError>
        ensures { IfOk result (λ parts. parts
            ≡ self ++ row_part form (record { path = map (λ n. n.now) path.now; entry = row.now.entry }) ∷ []) }
    {
        let RowParts {
            mut text,
            mut spans,
        } = self;
        let start = text.len();
        append_part(alloc, form, &mut text, path, row)?;
        spans.push(Span {
            start,
            end: text.len(),
        })?;
        Ok(RowParts { text, spans })
    }

    /// That of a user: the row of this number, or free blocks.
    pub(crate) fn of_user(&self, form: Form, user: Option<usize>) -> &[u8]
        ensures { result.now ≡ part_of_user form self.now user }
    {
        let Some(number) = user else {
            return free_part(form);
        };
        match self.spans.get(number) {
            Some(span) => &self.text[span.start..span.end],
            None => &[],
        }
    }
}
