//! What is told of what is saved of an image.

use crate::file_losses::{add_lost_entries, add_other_files};
use crate::lost::lost_word;
use crate::pair_losses::{add_lost_area, add_lost_pairs, add_other_pairs};
use crate::salvage::Salvage;
use crate::saved::Saved;
use lfs_block::{Blocks, Image};
use lfs_survey::{Lines, Owners, Survey, older_lines, older_places};
use std::alloc::{AllocError, Global};

/// What is told of what is saved of an image, whose file's own bytes these are: a line for each pair and each entry that is lost, one for
/// each pair of which an older state is saved, then one for each that is saved under another path, and for each area to which no path leads,
/// where it is saved. Of each kind at most a hundred, and how many more there are. Takes memory.
pub fn salvage_lines(
    alloc: Global,
    image: &Image,
    saved: Saved,
) -> Result<Vec<String>, AllocError> {
    let Saved { areas, salvage } = saved;
    let survey = Survey {
        areas,
        looked: Vec::new(alloc),
    };
    let mut lines = losses(alloc, image, &survey, &salvage)?;
    let older = older_places(alloc, true, image, &survey)?;
    let mut older = older_lines(alloc, &survey, &older)?;
    lines.append(&mut older)?;
    let mut more = others(alloc, &survey, &salvage)?;
    lines.append(&mut more)?;
    Ok(lines)
}

/// What is lost.
fn losses(
    alloc: Global,
    image: &Image,
    survey: &Survey,
    salvage: &Salvage,
) -> Result<Vec<String>, AllocError> {
    let owners = Owners::of(alloc, survey, image.count())?;
    let mut lines = Lines::new(alloc);
    for (area, here) in survey.areas.iter().enumerate() {
        let calls = here.calls.len();
        add_lost_pairs(
            alloc,
            survey,
            &salvage.uses,
            &owners,
            area,
            calls,
            &mut lines,
        )?;
    }
    add_lost_entries(alloc, image, survey, salvage, &mut lines)?;
    lines.ended(alloc, "are lost")
}

/// What is saved under another path.
fn others(alloc: Global, survey: &Survey, salvage: &Salvage) -> Result<Vec<String>, AllocError> {
    let mut lines = Lines::new(alloc);
    for (area, here) in survey.areas.iter().enumerate() {
        let calls = here.calls.len();
        add_other_pairs(alloc, survey, &salvage.uses, area, calls, &mut lines)?;
    }
    add_other_files(alloc, survey, salvage, &mut lines)?;
    add_lost_areas(alloc, survey, &mut lines)?;
    lines.ended(alloc, "are saved elsewhere")
}

/// Adds a line for each area to which no path leads.
fn add_lost_areas(alloc: Global, survey: &Survey, lines: &mut Lines) -> Result<(), AllocError> {
    let Some(root) = survey.areas.first() else {
        return Ok(());
    };
    let word = lost_word(alloc, &root.found)?;
    for area in 1..survey.areas.len() {
        add_lost_area(alloc, survey, word.as_str(), area, lines)?;
    }
    Ok(())
}
