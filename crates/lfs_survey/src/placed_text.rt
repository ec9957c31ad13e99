//! Pairs, directories and entries of what is found, as they are told.

ghost use Rattle.std.specs.Prelude.{◌≡◌};
ghost use Rattle.lfs_survey.specs.Told.{pair_at};

use crate::all_places::call_at;
use crate::blocks_text::BlocksText;
use crate::entry_place::EntryPlace;
use crate::path_text::PathText;
use crate::place::Place;
use crate::survey::Survey;
use std::alloc::{AllocError, Global};
use std::fmt;

/// A directory or an entry, as it is told: its path, and in front of that where its area begins, unless that is the root's.
#[derive(Drop)]
pub struct PlacedPath<'a> {
    /// The pair at which the area begins.
    start: Option<BlocksText>,
    /// The path from there on.
    path: PathText<'a>,
}

impl<'a> PlacedPath<'a> {
    /// The directory of a pair. Takes memory, as the next one does.
    pub fn of_pair(
        alloc: Global,
        survey: &'a Survey,
        place: Place,
    ) -> Result<PlacedPath<'a>, AllocError> {
        let path = PathText::of_pair(alloc, survey, place)?;
        let start = start_of(survey, place.area);
        Ok(PlacedPath { start, path })
    }

    /// An entry.
    pub fn of_entry(
        alloc: Global,
        survey: &'a Survey,
        place: EntryPlace,
    ) -> Result<PlacedPath<'a>, AllocError> {
        let path = PathText::of_entry(alloc, survey, place)?;
        let start = start_of(survey, place.at.area);
        Ok(PlacedPath { start, path })
    }
}

impl fmt::Display for PlacedPath<'_> {
    fn fmt<W: fmt::Write>(&self, f: &mut fmt::Formatter<W>) -> fmt::Result {
        if let Some(start) = self.start {
            write!(f, "{start}: ")?;
        }
        self.path.fmt(f)
    }
}

/// A pair, as it is told: its blocks, and the path of its directory where it is below the root.
#[derive(Drop)]
pub(crate) struct PairText<'a> {
    /// The blocks.
    blocks: BlocksText,
    /// The path.
    path: Option<PathText<'a>>,
}

impl<'a> PairText<'a> {
    /// The pair at a place. Takes memory.
    pub(crate) fn of(
        alloc: Global,
        survey: &'a Survey,
        place: Place,
    ) -> Result<PairText<'a>, AllocError> {
        let blocks = blocks_at(survey, place);
        if place.area > 0 {
            return Ok(PairText { blocks, path: None });
        }
        let path = PathText::of_pair(alloc, survey, place)?;
        Ok(PairText {
            blocks,
            path: Some(path),
        })
    }
}

impl fmt::Display for PairText<'_> {
    fn fmt<W: fmt::Write>(&self, f: &mut fmt::Formatter<W>) -> fmt::Result {
        self.blocks.fmt(f)?;
        match &self.path {
            Some(path) => write!(f, " ({path})"),
            None => Ok(()),
        }
    }
}

/// The blocks of the pair at a place; those of the root if there is none.
pub fn blocks_at(survey: &Survey, place: Place) -> BlocksText
    ensures { result.pair ≡ pair_at survey.now.areas.items place }
{
    match call_at(survey, place) {
        Some(call) => BlocksText { pair: call.pair },
        None => BlocksText { pair: (0, 1) },
    }
}

/// Where an area begins that isn't the root's.
fn start_of(survey: &Survey, area: usize) -> Option<BlocksText> {
    if area == 0 {
        return None;
    }
    Some(blocks_at(survey, Place { area, call: 0 }))
}
