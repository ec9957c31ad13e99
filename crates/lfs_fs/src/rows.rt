//! The rows of an image's tree, one after another.

ghost use Rattle.std.specs.Prelude.{◌≡◌, Some, IsSome};
ghost use Rattle.lfs_fs.specs.Tree.{top};
ghost use Rattle.std.specs.Iterator.{YieldsFirst, item_count};
ghost use Rattle.lfs_fs.specs.Placed.{entry_placed, listed_at};

use crate::outline::Outline;
use crate::place::Place;
use crate::placing::entry_in_directories;
use crate::row::Row;
use crate::row_body::RowBody;
use crate::thread_reading::ROOT;
use std::marker::Model;

/// The rows of an outline in the order of their paths, the root's first. It stands for the list of those that are left.
#[derive(Drop)]
pub struct Rows<'a> {
    outline: &'a Outline,
    order: &'a [Place],
}

impl<'a> Model for Rows<'a> {
    ghost use Rattle.std.specs.Prelude.{List, map};
    ghost use Rattle.lfs_fs.specs.Listed.{Listed};
    ghost use Rattle.lfs_fs.specs.Placed.{ArePlaces, listed_at};

    ghost Value = { List Listed };

    ghost view = { λ rows. map (listed_at rows.outline.now) rows.order.now };

    ghost invariant = { λ rows. ArePlaces rows.outline.now rows.order.now };
}

/// The root's row.
fn root_row(outline: &Outline) -> Row<'_>
    ensures { result ≡ record { depth = 0; entry = top outline.now } }
{
    let (first, second) = ROOT;
    Row {
        depth: 0,
        name: &[],
        body: RowBody::Directory(first, second),
        attributes: &outline.attributes,
    }
}

/// The row of a place.
fn row_at<'a>(outline: &'a Outline, place: Place) -> Option<Row<'a>>
    requires { IsSome (entry_placed outline.now place) }
    ensures { result ≡ Some (listed_at outline.now place) }
{
    if place.depth == 0 {
        return Some(root_row(outline));
    }
    let entry = entry_in_directories(&outline.directories, place)?;
    Some(entry.row(usize::from(place.depth)))
}

impl<'a> Rows<'a> {
    ghost use Rattle.std.specs.Prelude.{◌≡◌, map};
    ghost use Rattle.lfs_fs.specs.Placed.{ArePlaces, listed_at};

    /// The rows of places.
    pub(crate) fn new(outline: &'a Outline, order: &'a [Place]) -> Rows<'a>
        requires { ArePlaces outline.now order.now }
        ensures { result ≡ map (listed_at outline.now) order.now }
    {
        Rows { outline, order }
    }
}

impl<'a> Iterator for Rows<'a> {
    ghost use Rattle.std.specs.Iterator.{YieldsFirst, item_count};

    type Item = Row<'a>;

    ghost next_gives = { YieldsFirst (λ left. left) };

    ghost remaining = { item_count (λ left. left) };

    fn next(&mut self) -> Option<Row<'a>> {
        let Some((&place, later)) = self.order.split_first() else {
            return None;
        };
        self.order = later;
        row_at(self.outline, place)
    }
}
