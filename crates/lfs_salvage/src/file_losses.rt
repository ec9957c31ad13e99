//! What is told of entries that aren't saved where they are named.

use crate::block_use::BlockUse;
use crate::losses::is_file_lost;
use crate::parent::Parent;
use crate::salvage::Salvage;
use crate::unsaved::{Unsaved, Why};
use lfs_block::{Image, MountFault};
use lfs_survey::{EntryPlace, Lines, Place, PlacedPath, Survey, chain_at, chain_line_at, chain_of};
use std::alloc::{AllocError, Global};

/// Adds a line for each entry that is lost.
pub(crate) fn add_lost_entries(
    alloc: Global,
    image: &Image,
    survey: &Survey,
    salvage: &Salvage,
    lines: &mut Lines,
) -> Result<(), AllocError> {
    for unsaved in salvage.unsaved.iter() {
        let Unsaved { parent, why } = *unsaved;
        if is_file_lost(why) && lines.takes_one() {
            let place = place_of(parent);
            lines.add(entry_loss(alloc, image, survey, &salvage.uses, place, why)?)?;
        }
    }
    Ok(())
}

/// What is told of an entry that isn't saved for this.
fn entry_loss(
    alloc: Global,
    image: &Image,
    survey: &Survey,
    uses: &[BlockUse],
    place: EntryPlace,
    why: Why,
) -> Result<Option<String>, AllocError> {
    match why {
        Why::Fault(fault) => file_loss(alloc, image, survey, uses, place, fault),
        Why::Name => name_loss(alloc, survey, place),
        Why::Elsewhere(_) => Ok(None),
    }
}

/// What is told of an entry for which the host can't have a name.
fn name_loss(
    alloc: Global,
    survey: &Survey,
    place: EntryPlace,
) -> Result<Option<String>, AllocError> {
    let path = PlacedPath::of_entry(alloc, survey, place)?;
    Ok(Some(format!(in alloc; "{path}: the host refuses each name for it")?))
}

/// Adds a line for each file that is saved under another path.
pub(crate) fn add_other_files(
    alloc: Global,
    survey: &Survey,
    salvage: &Salvage,
    lines: &mut Lines,
) -> Result<(), AllocError> {
    for unsaved in salvage.unsaved.iter() {
        if let Unsaved {
            parent,
            why: Why::Elsewhere(other),
        } = *unsaved
        {
            if lines.takes_one() {
                lines.add(other_file(alloc, survey, salvage, parent, other)?)?;
            }
        }
    }
    Ok(())
}

/// Where an entry is.
fn place_of(parent: Parent) -> EntryPlace {
    let at = Place {
        area: parent.area,
        call: parent.call,
    };
    EntryPlace {
        at,
        entry: parent.entry,
    }
}

/// What is told of a file that isn't saved for a fault.
fn file_loss(
    alloc: Global,
    image: &Image,
    survey: &Survey,
    uses: &[BlockUse],
    place: EntryPlace,
    fault: MountFault,
) -> Result<Option<String>, AllocError> {
    if fault == MountFault::BadSkipList {
        return chain_line_at(alloc, image, survey, place);
    }
    let Some((head, _)) = chain_of(survey, place) else {
        return Ok(None);
    };
    let chain = chain_at(alloc, image, survey, place)?;
    let block = first_used(uses, &chain, head);
    let path = PlacedPath::of_entry(alloc, survey, place)?;
    Ok(Some(format!(in alloc; "{path}: block {block} is in use already")?))
}

/// The first of these blocks that is in use, or the last block of the file.
fn first_used(uses: &[BlockUse], chain: &[u32], head: u32) -> u32 {
    for block in chain {
        match uses.get(*block as usize) {
            None | Some(BlockUse::Free) => {}
            Some(_) => return *block,
        }
    }
    head
}

/// What is told of a file that is saved under another path, or would be if the host could have a name for that.
fn other_file(
    alloc: Global,
    survey: &Survey,
    salvage: &Salvage,
    parent: Parent,
    other: Parent,
) -> Result<Option<String>, AllocError> {
    let path = PlacedPath::of_entry(alloc, survey, place_of(parent))?;
    let place = PlacedPath::of_entry(alloc, survey, place_of(other))?;
    if is_nameless(salvage, other) {
        return Ok(Some(format!(in alloc;
            "{path}: is the same file as {place}, which isn't saved"
        )?));
    }
    Ok(Some(format!(in alloc; "{path}: is saved as {place}")?))
}

/// Whether the host can't have a name for the entry that stands here.
fn is_nameless(salvage: &Salvage, parent: Parent) -> bool {
    salvage.unsaved.iter().any(|unsaved| unsaved.parent == parent && unsaved.why == Why::Name)
}
