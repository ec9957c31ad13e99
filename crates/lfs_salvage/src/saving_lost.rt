//! Saving what no path leads to.

ghost use Rattle.std.specs.Prelude.{◌≡◌, ◌+◌, ◌<◌, ◌^◌, List, IfErr, OnOk, length};
ghost use Rattle.lfs_extract.specs.declared.extract_fault.ExtractFault.TheVariants.{CannotWrite};
ghost use Rattle.lfs_host.specs.Scene.{KeepsFiles};
ghost use Rattle.lfs_salvage.specs.AllMade.{all_lost_made, all_lost_unsaved, all_lost_uses, front_behind_all, lost_made, lost_unsaved, lost_uses};
ghost use Rattle.lfs_salvage.specs.Below.{HasRefusedBelow, IsNameBelow, MakesBelow};
ghost use Rattle.lfs_salvage.specs.Lost.{front_behind, front_made};
ghost use Rattle.lfs_salvage.specs.CallWords.{CallWords};
ghost use Rattle.lfs_salvage.specs.Saving.{Saves, SavesBut};

use crate::front::Front;
use crate::lost::{area_folder, has_start};
use crate::salvage::Salvage;
use crate::saving::save_area;
use lfs_block::Blocks;
use lfs_extract::ExtractFault;
use lfs_host::NewFolder;
use lfs_survey::Area;
use std::alloc::Global;

/// Makes the folders that lack.
fn make_front<F: NewFolder>(
    front: Front,
    dir: &str,
    lost: &str,
    folder: &mut F,
) -> Result<(), ExtractFault>
    requires { IsNameBelow dir.now lost.now }
    ensures made { Saves result (F.known folder.old).made (F.known folder.new).made (front_made dir.now lost.now front) }
    ensures below { MakesBelow dir.now (F.known folder.old).made (F.known folder.new).made }
    ensures blamed { IfErr result (λ fault. fault ≡ CannotWrite → HasRefusedBelow (F.known folder.new) dir.now) }
    ensures kept { KeepsFiles (F.known folder.old) (F.known folder.new) }
{
    match front {
        Front::Both => {
            folder.make_folder(dir)?;
            folder.make_folder(lost)?;
        }
        Front::Lost => folder.make_folder(lost)?,
        Front::There => {}
    }
    Ok(())
}

/// Saves an area of this number to which no path leads, in a folder of its own; nothing where no part is found at its beginning.
fn save_lost<B: Blocks, F: NewFolder>(
    alloc: Global,
    disk: &B,
    area: &Area,
    number: usize,
    dir: &str,
    lost: &str,
    front: &mut Front,
    salvage: &mut Salvage,
    folder: &mut F,
) -> Result<(), ExtractFault>
    requires { IsNameBelow dir.now lost.now }
    ensures made { (words : List CallWords) × SavesBut result (F.known folder.old).made (F.known folder.new).made
        (lost_made (B.disk disk.now) dir.now lost.now front.old number words salvage.old.uses.items area.now) salvage.old.unsaved.items
        salvage.new.unsaved.items (lost_unsaved (B.disk disk.now) number words salvage.old.uses.items area.now) }
    ensures uses { OnOk result (salvage.new.uses.items ≡ lost_uses (B.disk disk.now) number salvage.old.uses.items area.now) }
    ensures front { OnOk result (front.new ≡ front_behind front.old area.now) }
    ensures below { MakesBelow dir.now (F.known folder.old).made (F.known folder.new).made }
    ensures blamed { IfErr result (λ fault. fault ≡ CannotWrite → HasRefusedBelow (F.known folder.new) dir.now) }
    ensures kept { KeepsFiles (F.known folder.old) (F.known folder.new) }
{
    if !has_start(&area.found) {
        return Ok(());
    }
    let base = area_folder(alloc, lost, area)?;
    make_front(*front, dir, lost, folder)?;
    *front = Front::There;
    save_area(alloc, disk, area, number, base.as_str(), salvage, folder)
}

/// Saves areas to which no path leads, of which the first has this number, each in a folder of its own.
pub(crate) fn save_all_lost<B: Blocks, F: NewFolder>(
    alloc: Global,
    disk: &B,
    areas: &[Area],
    first: usize,
    dir: &str,
    lost: &str,
    front: &mut Front,
    salvage: &mut Salvage,
    folder: &mut F,
) -> Result<(), ExtractFault>
    requires lost { IsNameBelow dir.now lost.now }
    requires few { first + length areas.now < 2 ^ 64 }
    ensures made { (words : List (List CallWords)) × SavesBut result (F.known folder.old).made (F.known folder.new).made
        (all_lost_made (B.disk disk.now) dir.now lost.now front.old first words salvage.old.uses.items areas.now) salvage.old.unsaved.items
        salvage.new.unsaved.items (all_lost_unsaved (B.disk disk.now) first words salvage.old.uses.items areas.now) }
    ensures uses { OnOk result (salvage.new.uses.items ≡ all_lost_uses (B.disk disk.now) first salvage.old.uses.items areas.now) }
    ensures front { OnOk result (front.new ≡ front_behind_all front.old areas.now) }
    ensures below { MakesBelow dir.now (F.known folder.old).made (F.known folder.new).made }
    ensures blamed { IfErr result (λ fault. fault ≡ CannotWrite → HasRefusedBelow (F.known folder.new) dir.now) }
    ensures kept { KeepsFiles (F.known folder.old) (F.known folder.new) }
{
    'each: for (number, area) in areas.iter().enumerate() {
        save_lost(
            alloc,
            disk,
            area,
            first + number,
            dir,
            lost,
            front,
            salvage,
            folder,
        )?;
    }
    Ok(())
}
