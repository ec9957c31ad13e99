//! Rows that are left, of which the first is at hand.

ghost use Rattle.std.specs.Prelude.{◌≡◌, IfOk, map};
ghost use Rattle.lfs_fs.specs.Listed.{rows_after};
ghost use Rattle.lfs_listing.specs.Ahead.{rows_ahead};

use crate::mark::Mark;
use crate::marking::{append_marked, append_rewritten};
use crate::order::order_of;
use crate::paths::follow_row;
use lfs_fs::{Row, Rows};
use lfs_json::Form;
use std::alloc::{AllocError, Global};
use std::cmp::Ordering;
use std::marker::Model;

/// The next row, with the path turned into its own; none where no row is left.
fn next_row<'a>(
    rows: &mut Rows<'a>,
    path: &mut Vec<&'a [u8]>,
) -> Result<Option<Row<'a>>, AllocError>
    ensures { IfOk result (λ row. rows_ahead (map (λ n. n.now) path.new.items) row rows.new
        ≡ rows_after (map (λ n. n.now) path.old.items) rows.old) }
{
    let Some(row) = rows.next() else {
        return Ok(None);
    };
    follow_row(path, &row)?;
    Ok(Some(row))
}

/// The rows of an image that are left, of which the first is at hand with its path. Its meaning is their list.
#[derive(Drop)]
pub(crate) struct Ahead<'a> {
    path: Vec<&'a [u8]>,
    row: Option<Row<'a>>,
    later: Rows<'a>,
}

impl<'a> Model for Ahead<'a> {
    ghost use Rattle.std.specs.Prelude.{List, map};
    ghost use Rattle.lfs_fs.specs.Row.{Row};
    ghost use Rattle.lfs_listing.specs.Ahead.{rows_ahead};

    ghost Value = { List Row };

    ghost view = { λ a. rows_ahead (map (λ n. n.now) a.path.items) a.row a.later };
}

impl<'a> Ahead<'a> {
    ghost use Rattle.std.specs.Prelude.{◌≡◌, ◌++◌, ◌==◌, IfOk, OnOk, drop, false, length};
    ghost use Rattle.std.specs.Option.{option_map};
    ghost use Rattle.lfs_fs.specs.Listed.{rows_listed};
    ghost use Rattle.lfs_listing.specs.Ahead.{first_row_entry, first_marked, first_rewritten};
    ghost use Rattle.lfs_listing.specs.Order.{rows_order};

    /// All rows.
    pub(crate) fn new(alloc: Global, rows: Rows<'a>) -> Result<Ahead<'a>, AllocError>
        ensures { IfOk result (λ ahead. ahead ≡ rows_listed rows.entry) }
    {
        let mut path = Vec::new(alloc);
        let mut later = rows;
        let row = next_row(&mut later, &mut path)?;
        Ok(Ahead { path, row, later })
    }

    /// Whether none is left.
    pub(crate) fn is_empty(&self) -> bool
        ensures { result ≡ (length self.now == 0) }
    {
        self.row.is_none()
    }

    /// The first one.
    pub(crate) fn first(&self) -> Option<&Row<'a>>
        ensures { option_map (λ r. r.now.entry) result ≡ first_row_entry self.now }
    {
        self.row.as_ref()
    }

    /// Whose first row comes before that of the other.
    pub(crate) fn order(&self, other: &Ahead<'_>) -> Ordering
        ensures { result ≡ rows_order self.now other.now }
    {
        match (&self.row, &other.row) {
            (None, _) => Ordering::Greater,
            (Some(_), None) => Ordering::Less,
            (Some(_), Some(_)) => order_of(&self.path, &other.path),
        }
    }

    /// Adds what is said of the first one, which only one image has.
    pub(crate) fn append_first(
        &self,
        alloc: Global,
        form: Form,
        text: &mut Vec<u8>,
        mark: Mark,
    ) -> Result<(), AllocError>
        ensures { OnOk result (text.new.items ≡ text.old.items ++ first_marked form mark self.now) }
    {
        match &self.row {
            Some(row) => append_marked(alloc, form, text, mark, &self.path, row),
            None => Ok(()),
        }
    }

    /// Adds what is said of the first one where only its contents differ.
    pub(crate) fn append_contents(
        &self,
        alloc: Global,
        form: Form,
        text: &mut Vec<u8>,
    ) -> Result<(), AllocError>
        ensures { OnOk result (text.new.items ≡ text.old.items ++ first_rewritten form self.now) }
    {
        match &self.row {
            Some(row) => append_rewritten(alloc, form, text, &self.path, row),
            None => Ok(()),
        }
    }

    /// Leaves the first one behind.
    pub(crate) fn advance(&mut self) -> Result<(), AllocError>
        requires { (length self.old == 0) ≡ false }
        ensures { OnOk result (self.new ≡ drop 1 self.old) }
    {
        self.row = next_row(&mut self.later, &mut self.path)?;
        Ok(())
    }
}
