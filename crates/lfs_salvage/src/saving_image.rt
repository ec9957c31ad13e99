//! Saving all that can still be read of an image.

ghost use Rattle.std.specs.Prelude.{◌≡◌, List, IfErr, IfOk, OnOk, if◌then◌else◌, length, slice_set, true};
ghost use Rattle.lfs_extract.specs.declared.extract_fault.ExtractFault.TheVariants.{CannotWrite};
ghost use Rattle.lfs_host.specs.Scene.{KeepsFiles};
ghost use Rattle.lfs_salvage.specs.AllMade.{marked_used};
ghost use Rattle.lfs_salvage.specs.Below.{HasRefusedBelow, IsNameBelow, MakesBelow};
ghost use Rattle.lfs_salvage.specs.Fate.{is_free};
ghost use Rattle.lfs_salvage.specs.Lost.{front_behind_root};
ghost use Rattle.lfs_salvage.specs.Saved.{AreLeft, SavesAll, StopsSaving, survey_front, survey_made, survey_unsaved, survey_uses};
ghost use Rattle.lfs_salvage.specs.CallWords.{CallWords};
ghost use Rattle.lfs_salvage.specs.Saving.{SavesBut};

use crate::block_use::BlockUse;
use crate::front::Front;
use crate::lost::{has_start, lost_folder};
use crate::salvage::Salvage;
use crate::saved::Saved;
use crate::saving::save_area;
use crate::saving_lost::save_all_lost;
use lfs_block::Blocks;
use lfs_extract::ExtractFault;
use lfs_host::NewFolder;
use lfs_survey::{Area, Found, Survey, has_unread, lone_areas, survey_all};
use std::alloc::{AllocError, Global};

/// Which folders lack behind the root's area.
fn front_behind_root(found: &[Found]) -> Front
    ensures { result ≡ front_behind_root found.now }
{
    if has_start(found) {
        Front::Lost
    } else {
        Front::Both
    }
}

/// Saves the areas of a survey: the root's in the folder of the image, and each other one in a folder of its own. Which folders lack behind
/// them is put into `front`.
fn save_survey<B: Blocks, F: NewFolder>(
    alloc: Global,
    disk: &B,
    areas: &[Area],
    dir: &str,
    lost: &str,
    front: &mut Front,
    salvage: &mut Salvage,
    folder: &mut F,
) -> Result<(), ExtractFault>
    requires { IsNameBelow dir.now lost.now }
    ensures made { (words : List (List CallWords)) × SavesBut result (F.known folder.old).made (F.known folder.new).made
        (survey_made (B.disk disk.now) dir.now lost.now words salvage.old.uses.items areas.now) salvage.old.unsaved.items
        salvage.new.unsaved.items (survey_unsaved (B.disk disk.now) words salvage.old.uses.items areas.now) }
    ensures uses { OnOk result (salvage.new.uses.items ≡ survey_uses (B.disk disk.now) salvage.old.uses.items areas.now) }
    ensures front { OnOk result (front.new ≡ survey_front areas.now) }
    ensures below { MakesBelow dir.now (F.known folder.old).made (F.known folder.new).made }
    ensures blamed { IfErr result (λ fault. fault ≡ CannotWrite → HasRefusedBelow (F.known folder.new) dir.now) }
    ensures kept { KeepsFiles (F.known folder.old) (F.known folder.new) }
{
    *front = Front::Both;
    let Some((root, later)) = areas.split_first() else {
        return Ok(());
    };
    save_area(alloc, disk, root, 0, dir, salvage, folder)?;
    *front = front_behind_root(&root.found);
    save_all_lost(alloc, disk, later, 1, dir, lost, front, salvage, folder)
}

/// Marks a block, where it is in use.
fn mark_block(looked: &mut [bool], block: usize, as_use: BlockUse)
    ensures value { looked.new ≡ (if is_free as_use then looked.old else slice_set looked.old block true) }
    ensures len { length looked.new ≡ length looked.old }
{
    if !as_use.is_free() && block < looked.len() {
        looked[block] = true;
    }
}

/// Marks the blocks that are in use.
#[tactic(auto, using(crate::proofs::LostLemmas::marked_more))]
fn mark_used(looked: &mut [bool], uses: &[BlockUse])
    ensures value { looked.new ≡ marked_used looked.old 0 uses.now }
    ensures len { length looked.new ≡ length looked.old }
{
    'each: for (block, as_use) in uses.iter().enumerate() {
        mark_block(looked, block, *as_use);
    }
}

/// What is found of blocks by themselves, behind a survey whose files are saved, where a pair of it wasn't read for what its blocks hold.
fn find_left<C: Blocks>(
    alloc: Global,
    parts: &C,
    survey: &mut Survey,
    uses: &[BlockUse],
) -> Result<Vec<Area>, AllocError>
    requires len { length survey.old.looked.items ≡ (C.disk parts.now).count }
    ensures left { IfOk result (λ lone. AreLeft (C.disk parts.now) survey.old uses.now lone.items) }
    ensures areas { survey.new.areas ≡ survey.old.areas }
{
    if !has_unread(survey) {
        return Ok(Vec::new(alloc));
    }
    let table = survey.looked.as_mut_slice();
    mark_used(table, uses);
    lone_areas(alloc, parts, table)
}

/// Saves all that can still be read of an image, which needn't mount, in a new folder `dir` of a host. The tree of its root goes there.
/// What is found where the thread goes on and no entry leads goes below a folder `lost+found` in it, into a folder of its first block's
/// number. Where a pair of them isn't read for what its blocks hold, blocks by themselves are looked at too, and what they hold is saved
/// there. Each block is saved once, so that no more is made than the image has. Pairs are read in `parts`, and the blocks of files in
/// `disk`. Nothing is made where no part is found.
///
/// `CannotWrite` where the host refuses to make a folder or a file, but for the name of an entry, or to write to one: then all before it is
/// made, and a file that was begun may be left with a beginning of its contents. `Memory` says only that a growth was refused, and some of what is first is made.
pub fn save_image<B: Blocks, C: Blocks, F: NewFolder>(
    alloc: Global,
    disk: &B,
    parts: &C,
    dir: &str,
    folder: &mut F,
) -> Result<Saved, ExtractFault>
    ensures saved { IfOk result
        (SavesAll (B.disk disk.now) (C.disk parts.now) dir.now (F.known folder.old).made (F.known folder.new).made) }
    ensures stopped { IfErr result
        (StopsSaving (B.disk disk.now) (C.disk parts.now) dir.now (F.known folder.old).made (F.known folder.new).made) }
    ensures below { MakesBelow dir.now (F.known folder.old).made (F.known folder.new).made }
    ensures blamed { IfErr result (λ fault. fault ≡ CannotWrite → HasRefusedBelow (F.known folder.new) dir.now) }
    ensures kept { KeepsFiles (F.known folder.old) (F.known folder.new) }
{
    let mut survey = survey_all(alloc, parts)?;
    let mut salvage = Salvage::new(alloc, disk.count(), &survey.areas)?;
    let lost = lost_folder(alloc, dir, &survey.areas)?;
    let lost = lost.as_str();
    let mut front = Front::Both;
    save_survey(
        alloc,
        disk,
        &survey.areas,
        dir,
        lost,
        &mut front,
        &mut salvage,
        folder,
    )?;
    let mut lone = find_left(alloc, parts, &mut survey, &salvage.uses)?;
    let first = survey.areas.len();
    salvage.mark_areas(first, &lone);
    save_all_lost(
        alloc,
        disk,
        &lone,
        first,
        dir,
        lost,
        &mut front,
        &mut salvage,
        folder,
    )?;
    let mut areas = survey.areas;
    areas.append(&mut lone)?;
    Ok(Saved { areas, salvage })
}
