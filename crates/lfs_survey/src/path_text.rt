//! Paths of what is found, as they are told.

use crate::all_places::{call_at, entry_at};
use crate::entry_place::EntryPlace;
use crate::place::Place;
use crate::shown::Shown;
use crate::survey::Survey;
use crate::way::Way;
use lfs_meta::Kind;
use std::alloc::{AllocError, Global};
use std::fmt;

/// A path from where an area begins, as it is told.
#[derive(Drop)]
pub(crate) struct PathText<'a> {
    /// What is found.
    survey: &'a Survey,
    /// The entries along the path.
    steps: Vec<EntryPlace>,
}

impl<'a> PathText<'a> {
    /// The path of the directory of a pair. Takes memory, as the next one does.
    pub(crate) fn of_pair(
        alloc: Global,
        survey: &'a Survey,
        place: Place,
    ) -> Result<PathText<'a>, AllocError> {
        let steps = steps_to(alloc, survey, place)?;
        Ok(PathText { survey, steps })
    }

    /// The path of an entry; that of a superblock is its directory's.
    pub(crate) fn of_entry(
        alloc: Global,
        survey: &'a Survey,
        place: EntryPlace,
    ) -> Result<PathText<'a>, AllocError> {
        let mut steps = steps_to(alloc, survey, place.at)?;
        if !is_superblock(survey, place) {
            steps.push(place)?;
        }
        Ok(PathText { survey, steps })
    }
}

impl fmt::Display for PathText<'_> {
    fn fmt<W: fmt::Write>(&self, f: &mut fmt::Formatter<W>) -> fmt::Result {
        if self.steps.is_empty() {
            return f.write_str("/");
        }
        for step in self.steps.iter() {
            let name = name_of(self.survey, *step);
            write!(f, "/{name}")?;
        }
        Ok(())
    }
}

/// The name of an entry, as it is told.
pub(crate) fn name_of(survey: &Survey, place: EntryPlace) -> Shown<'_> {
    match entry_at(survey, place) {
        Some(entry) => Shown { bytes: &entry.name },
        None => Shown { bytes: &[] },
    }
}

/// Whether an entry is a superblock.
fn is_superblock(survey: &Survey, place: EntryPlace) -> bool {
    match entry_at(survey, place) {
        Some(entry) => entry.kind == Kind::Super,
        None => false,
    }
}

/// How many pairs were looked at in an area.
fn calls_in(survey: &Survey, area: usize) -> usize {
    match survey.areas.get(area) {
        Some(area) => area.calls.len(),
        None => 0,
    }
}

/// The entries that lead to a pair from the beginning of its area on.
fn steps_to(alloc: Global, survey: &Survey, place: Place) -> Result<Vec<EntryPlace>, AllocError> {
    let area = place.area;
    let mut steps = Vec::new(alloc);
    let mut at = place;
    for _ in 0..calls_in(survey, area) {
        let Some(call) = call_at(survey, at) else {
            break;
        };
        match call.way {
            Way::Start => break,
            Way::Next { from } => at = Place { area, call: from },
            Way::Entry { from, index } => {
                at = Place { area, call: from };
                steps.push(EntryPlace { at, entry: index })?;
            }
        }
    }
    steps.reverse();
    Ok(steps)
}
