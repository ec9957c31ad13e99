//! Saving what is found of an area.

ghost use Rattle.std.specs.Prelude.{◌≡◌, ℕ, List, All, IfErr, IfOk, OnOk, map, string_bytes};
ghost use Rattle.lfs_extract.specs.declared.extract_fault.ExtractFault.TheVariants.{CannotWrite};
ghost use Rattle.lfs_host.specs.Scene.{KeepsFiles};
ghost use Rattle.lfs_salvage.specs.AreaMade.{area_made, area_unsaved, area_uses, call_made, call_unsaved, folder_of, found_uses};
ghost use Rattle.lfs_salvage.specs.Below.{HasRefusedBelow, IsNameBelow, MakesBelow};
ghost use Rattle.lfs_salvage.specs.CallWords.{CallWords};
ghost use Rattle.lfs_salvage.specs.Saving.{SavesBut};

use crate::call_folder::CallFolder;
use crate::folders::{name_of, push_folder, start_folder, way_at, way_parent};
use crate::salvage::Salvage;
use crate::saving_entries::save_entries;
use lfs_block::Blocks;
use lfs_extract::ExtractFault;
use lfs_host::NewFolder;
use lfs_survey::{Area, Found};
use std::alloc::Global;

/// Saves what is found at a call of an area, in the call's folder, which is made where a directory begins, and says its name. It is kept of
/// what the host can't have a name for.
fn save_found<B: Blocks, F: NewFolder>(
    alloc: Global,
    disk: &B,
    area: &Area,
    number: usize,
    call: usize,
    found: &Found,
    base: &str,
    folders: &[String],
    salvage: &mut Salvage,
    folder: &mut F,
) -> Result<String, ExtractFault>
    ensures made { (words : CallWords)
        × IfOk result (λ name. string_bytes name
        ≡ folder_of base.now area.now (map (λ f. string_bytes f) folders.now) words.folder call found.now)
        × SavesBut result (F.known folder.old).made (F.known folder.new).made
        (call_made (B.disk disk.now) base.now area.now number call (map (λ f. string_bytes f) folders.now) words salvage.old.uses.items found.now)
        salvage.old.unsaved.items salvage.new.unsaved.items
        (call_unsaved (B.disk disk.now) area.now number call words salvage.old.uses.items found.now) }
    ensures uses { OnOk result (salvage.new.uses.items ≡ found_uses (B.disk disk.now) salvage.old.uses.items number call found.now) }
    ensures named { (top : List ℕ) → IsNameBelow top base.now → All (λ f. IsNameBelow top (string_bytes f)) folders.now
        → IfOk result (λ name. IsNameBelow top (string_bytes name)) }
    ensures below { (top : List ℕ) → IsNameBelow top base.now → All (λ f. IsNameBelow top (string_bytes f)) folders.now
        → MakesBelow top (F.known folder.old).made (F.known folder.new).made }
    ensures blamed { (top : List ℕ) → IsNameBelow top base.now → All (λ f. IsNameBelow top (string_bytes f)) folders.now
        → IfErr result (λ fault. fault ≡ CannotWrite → HasRefusedBelow (F.known folder.new) top) }
    ensures kept { KeepsFiles (F.known folder.old) (F.known folder.new) }
{
    let part = match found {
        Found::Part(part) => part,
        Found::Refused(_) => return name_of(alloc, base),
    };
    let way = way_at(&area.calls, call);
    let here = start_folder(alloc, base, &area.found, folders, way, folder)?;
    let CallFolder { name, is_nameless } = here;
    salvage.keep_nameless(way_parent(number, way), is_nameless)?;
    save_entries(
        alloc,
        disk,
        &part.entries,
        number,
        call,
        part.pair.0,
        name.as_str(),
        salvage,
        folder,
    )?;
    Ok(name)
}

/// Saves what is found of an area of this number, in a new folder `base` of a host: call by call a folder, unless the directory of the call
/// that it comes from goes on there, and in it a file of each entry whose file is saved, without its attributes. Nothing is made of a pair
/// that isn't read. A name goes under the host's word for it: the name, or where a host can't have it its bytes as a listing shows them.
/// If the host can't have that either, `~BLOCK.INDEX` follows it, the first block of the entry's part and its number there, and then that
/// alone is tried. What is in a directory for which it can have no name goes to the folder above. So nothing is made outside the folder. Of
/// the entries that aren't saved `salvage` keeps why.
///
/// `CannotWrite` where the host refuses to make a folder or a file, but for its name, or to write to one: then all before it is made, and a
/// file that was begun may be left with a beginning of its contents. `Memory` says only that a growth was refused, and some of what is first is made.
/// With either, what `salvage` says is of no use.
pub(crate) fn save_area<B: Blocks, F: NewFolder>(
    alloc: Global,
    disk: &B,
    area: &Area,
    number: usize,
    base: &str,
    salvage: &mut Salvage,
    folder: &mut F,
) -> Result<(), ExtractFault>
    ensures made { (words : List CallWords) × SavesBut result (F.known folder.old).made (F.known folder.new).made
        (area_made (B.disk disk.now) base.now number words salvage.old.uses.items area.now) salvage.old.unsaved.items
        salvage.new.unsaved.items (area_unsaved (B.disk disk.now) number words salvage.old.uses.items area.now) }
    ensures uses { OnOk result (salvage.new.uses.items ≡ area_uses (B.disk disk.now) number salvage.old.uses.items area.now) }
    ensures below { MakesBelow base.now (F.known folder.old).made (F.known folder.new).made }
    ensures blamed { IfErr result (λ fault. fault ≡ CannotWrite → HasRefusedBelow (F.known folder.new) base.now) }
    ensures kept { KeepsFiles (F.known folder.old) (F.known folder.new) }
{
    let mut folders = Vec::new(alloc);
    'each: for (call, found) in area.found.iter().enumerate() {
        let name = save_found(
            alloc, disk, area, number, call, found, base, &folders, salvage, folder,
        )?;
        push_folder(&mut folders, name)?;
    }
    Ok(())
}
