//! Surveying all of an image.

ghost use Rattle.std.specs.Prelude.{◌≡◌, ◌++◌, [], ◌∷◌, length, IfOk, OnOk};
ghost use Rattle.lfs_survey.specs.Survey.{AddsAreas, IsSurvey, area_tails, found_tail};

use crate::area::Area;
use crate::found::Found;
use crate::looking::is_open;
use crate::survey::Survey;
use crate::surveying::survey_from;
use lfs_block::Blocks;
use lfs_fs::ROOT;
use lfs_meta::Tail;
use std::alloc::{AllocError, Global};

/// Adds the pair to which the thread goes on behind what is found, to another directory.
fn push_tail(tails: &mut Vec<(u32, u32)>, found: &Found) -> Result<(), AllocError>
    ensures { OnOk result (tails.new.items ≡ tails.old.items ++ found_tail found.now) }
{
    let Found::Part(part) = found else {
        return Ok(());
    };
    if let Tail::Soft(first, second) = part.tail {
        tails.push((first, second))?;
    }
    Ok(())
}

/// The pairs to which the thread goes on behind an area, to other directories.
pub(crate) fn tails_of(alloc: Global, area: &Area) -> Result<Vec<(u32, u32)>, AllocError>
    ensures { IfOk result (λ tails. tails.items ≡ area_tails area.now) }
{
    let mut tails = Vec::new(alloc);
    'each: for found in &area.found {
        push_tail(&mut tails, found)?;
    }
    Ok(tails)
}

/// Adds an area for a pair, if it is open.
fn add_area<B: Blocks>(
    alloc: Global,
    blocks: &B,
    looked: &mut [bool],
    areas: &mut Vec<Area>,
    start: (u32, u32),
) -> Result<(), AllocError>
    requires len { length looked.old ≡ (B.disk blocks.now).count }
    ensures { OnOk result (AddsAreas (B.disk blocks.now) looked.old looked.new areas.old.items areas.new.items (start ∷ [])) }
{
    if is_open(looked, start) {
        let area = survey_from(alloc, blocks, looked, start)?;
        areas.push(area)?;
    }
    Ok(())
}

/// Adds an area for each of these pairs that is open when it is come to.
pub(crate) fn add_areas<B: Blocks>(
    alloc: Global,
    blocks: &B,
    looked: &mut [bool],
    areas: &mut Vec<Area>,
    starts: &[(u32, u32)],
) -> Result<(), AllocError>
    requires len { length looked.old ≡ (B.disk blocks.now).count }
    ensures { OnOk result (AddsAreas (B.disk blocks.now) looked.old looked.new areas.old.items areas.new.items starts.now) }
{
    'each: for start in starts {
        add_area(alloc, blocks, looked, areas, *start)?;
    }
    Ok(())
}

/// All that is found of an image, which needn't mount: what the root leads to, and then what each pair leads to at which the thread goes
/// on behind what is found, where it is open. Takes memory.
pub fn survey_all<B: Blocks>(alloc: Global, blocks: &B) -> Result<Survey, AllocError>
    ensures { IfOk result (IsSurvey (B.disk blocks.now)) }
{
    let mut looked = vec![in alloc; false; blocks.count() as usize]?;
    let mut areas = Vec::new(alloc);
    let table = looked.as_mut_slice();
    areas.push(survey_from(alloc, blocks, table, ROOT)?)?;
    let mut next = 0;
    'areas: while next < areas.len() {
        let tails = tails_of(alloc, &areas[next])?;
        add_areas(alloc, blocks, table, &mut areas, &tails)?;
        next += 1;
    }
    Ok(Survey { areas, looked })
}
