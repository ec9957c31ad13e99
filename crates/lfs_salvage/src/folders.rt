//! The folders of calls.

ghost use Rattle.std.specs.Prelude.{◌≡◌, ◌++◌, [], ◌∷◌, ℕ, List, All, IfErr, IfOk, Option, OnOk, false, map, slice_index_or, string_bytes};
ghost use Rattle.lfs_extract.specs.declared.extract_fault.ExtractFault.TheVariants.{CannotWrite, Memory};
ghost use Rattle.lfs_host.specs.NewFolder.{FolderMade};
ghost use Rattle.lfs_host.specs.Scene.{KeepsFiles};
ghost use Rattle.lfs_salvage.specs.AreaMade.{folder_made, is_folder_nameless, way_parent};
ghost use Rattle.lfs_salvage.specs.Below.{HasRefusedBelow, IsNameBelow, MakesBelow};
ghost use Rattle.lfs_salvage.specs.Folder.{block_of_found, folder_at, folder_in, name_at, way_at};
ghost use Rattle.lfs_salvage.specs.Saving.{Saves};
ghost use Rattle.lfs_salvage.specs.declared.wording.Wording.{Wording};
ghost use Rattle.lfs_survey.specs.declared.way.Way.TheVariants.{Entry};

use crate::call_folder::CallFolder;
use crate::entry_name::EntryName;
use crate::naming::make_first;
use crate::parent::Parent;
use crate::thing::Thing;
use lfs_extract::ExtractFault;
use lfs_host::NewFolder;
use lfs_survey::{Call, Found, Way};
use std::alloc::{AllocError, Global};

/// The name of an entry of what is found at a call; none where there is no such entry.
fn name_at(found: &[Found], from: usize, index: usize) -> &[u8]
    ensures { result.now ≡ name_at found.now from index }
{
    let Some(Found::Part(part)) = found.get(from) else {
        return &[];
    };
    match part.entries.get(index) {
        Some(entry) => &entry.name,
        None => &[],
    }
}

/// The first block of the part that is found at a call; none where none is.
fn block_at(found: &[Found], from: usize) -> u32
    ensures { result ≡ block_of_found found.now from }
{
    match found.get(from) {
        Some(Found::Part(part)) => part.pair.0,
        _ => 0,
    }
}

/// How the call of this number is come to; it is begun with where there is no such call.
pub(crate) fn way_at(calls: &[Call], call: usize) -> Way
    ensures { result ≡ way_at calls.now call }
{
    match calls.get(call) {
        Some(here) => here.way,
        None => Way::Start,
    }
}

/// A folder's name, as its own text.
pub(crate) fn name_of(alloc: Global, folder: &str) -> Result<String, ExtractFault>
    ensures value { IfOk result (λ name. string_bytes name ≡ folder.now) }
    ensures stopped { IfErr result (λ fault. fault ≡ Memory) }
{
    let name = String::from_str(alloc, folder)?;
    Ok(name)
}

/// Where the entry of a directory stands that begins at a call of an area which is come to this way.
pub(crate) fn way_parent(area: usize, way: Way) -> Parent
    ensures { result ≡ way_parent area way }
{
    match way {
        Way::Start => Parent {
            area,
            call: 0,
            entry: 0,
        },
        Way::Entry { from, index } => Parent {
            area,
            call: from,
            entry: index,
        },
        Way::Next { from } => Parent {
            area,
            call: from,
            entry: 0,
        },
    }
}

/// Another folder of the host as that of a call.
fn same_folder(alloc: Global, name: &str) -> Result<CallFolder, ExtractFault>
    ensures value { IfOk result (λ here. (string_bytes here.name ≡ name.now) × (here.is_nameless ≡ false)) }
    ensures stopped { IfErr result (λ fault. fault ≡ Memory) }
{
    let name = name_of(alloc, name)?;
    Ok(CallFolder {
        name,
        is_nameless: false,
    })
}

/// Makes the folder of an area, and says its name.
fn make_base<F: NewFolder>(
    alloc: Global,
    base: &str,
    folder: &mut F,
) -> Result<CallFolder, ExtractFault>
    ensures value { IfOk result (λ here. (string_bytes here.name ≡ base.now) × (here.is_nameless ≡ false)) }
    ensures made { Saves result (F.known folder.old).made (F.known folder.new).made (FolderMade base.now ∷ []) }
    ensures below { (top : List ℕ) → IsNameBelow top base.now → MakesBelow top (F.known folder.old).made (F.known folder.new).made }
    ensures blamed { (top : List ℕ) → IsNameBelow top base.now → IfErr result (λ fault. fault ≡ CannotWrite → HasRefusedBelow (F.known folder.new) top) }
    ensures kept { KeepsFiles (F.known folder.old) (F.known folder.new) }
{
    let here = same_folder(alloc, base)?;
    folder.make_folder(base)?;
    Ok(here)
}

/// Makes the folder of a directory in another one, under a word for its entry's name, and says its name: that of the other one if the host
/// can have none.
fn make_directory<F: NewFolder>(
    alloc: Global,
    above: &str,
    found: &[Found],
    from: usize,
    index: usize,
    folder: &mut F,
) -> Result<CallFolder, ExtractFault>
    ensures made { (word : Option Wording)
        × IfOk result (λ here. (string_bytes here.name ≡ folder_in above.now found.now from index word)
        × (here.is_nameless ≡ is_folder_nameless (Entry from index) word))
        × Saves result (F.known folder.old).made (F.known folder.new).made
        (folder_made (Entry from index) word (folder_in above.now found.now from index word)) }
    ensures named { (top : List ℕ) → IsNameBelow top above.now → IfOk result (λ here. IsNameBelow top (string_bytes here.name)) }
    ensures below { (top : List ℕ) → IsNameBelow top above.now → MakesBelow top (F.known folder.old).made (F.known folder.new).made }
    ensures blamed { (top : List ℕ) → IsNameBelow top above.now → IfErr result (λ fault. fault ≡ CannotWrite → HasRefusedBelow (F.known folder.new) top) }
    ensures kept { KeepsFiles (F.known folder.old) (F.known folder.new) }
{
    let other = name_of(alloc, above)?;
    let named = entry_at(found, from, index);
    match make_first(alloc, Thing::Folder, above, named, folder)? {
        Some(name) => Ok(CallFolder {
            name,
            is_nameless: false,
        }),
        None => Ok(CallFolder {
            name: other,
            is_nameless: true,
        }),
    }
}

/// The folder of this number, or another one where there are fewer.
fn folder_or<'a>(folders: &'a [String], from: usize, base: &'a str) -> &'a str
    ensures value { result.now ≡ slice_index_or (map (λ f. string_bytes f) folders.now) from base.now }
    ensures below { (top : List ℕ) → IsNameBelow top base.now → All (λ f. IsNameBelow top (string_bytes f)) folders.now → IsNameBelow top result.now }
{
    match folders.get(from) {
        Some(folder) => folder.as_str(),
        None => base,
    }
}

/// The name of an entry of what is found at a call, and where it stands.
fn entry_at(found: &[Found], from: usize, index: usize) -> EntryName<'_>
    ensures name { result.name.now ≡ name_at found.now from index }
    ensures block { result.block ≡ block_of_found found.now from }
    ensures index { result.index ≡ index }
{
    EntryName {
        name: name_at(found, from, index),
        block: block_at(found, from),
        index,
    }
}

/// The folder of a call that is come to this way, which is made where a directory begins, if the host can have a name for it.
pub(crate) fn start_folder<F: NewFolder>(
    alloc: Global,
    base: &str,
    found: &[Found],
    folders: &[String],
    way: Way,
    folder: &mut F,
) -> Result<CallFolder, ExtractFault>
    ensures made { (word : Option Wording)
        × IfOk result (λ here. (string_bytes here.name ≡ folder_at base.now found.now (map (λ f. string_bytes f) folders.now) word way)
        × (here.is_nameless ≡ is_folder_nameless way word))
        × Saves result (F.known folder.old).made (F.known folder.new).made
        (folder_made way word (folder_at base.now found.now (map (λ f. string_bytes f) folders.now) word way)) }
    ensures named { (top : List ℕ) → IsNameBelow top base.now → All (λ f. IsNameBelow top (string_bytes f)) folders.now
        → IfOk result (λ here. IsNameBelow top (string_bytes here.name)) }
    ensures below { (top : List ℕ) → IsNameBelow top base.now → All (λ f. IsNameBelow top (string_bytes f)) folders.now
        → MakesBelow top (F.known folder.old).made (F.known folder.new).made }
    ensures blamed { (top : List ℕ) → IsNameBelow top base.now → All (λ f. IsNameBelow top (string_bytes f)) folders.now
        → IfErr result (λ fault. fault ≡ CannotWrite → HasRefusedBelow (F.known folder.new) top) }
    ensures kept { KeepsFiles (F.known folder.old) (F.known folder.new) }
{
    match way {
        Way::Start => make_base(alloc, base, folder),
        Way::Entry { from, index } => make_directory(
            alloc,
            folder_or(folders, from, base),
            found,
            from,
            index,
            folder,
        ),
        Way::Next { from } => same_folder(alloc, folder_or(folders, from, base)),
    }
}

/// Puts a folder behind others.
pub(crate) fn push_folder(folders: &mut Vec<String>, folder: String) -> Result<(), AllocError>
    ensures { OnOk result (folders.new.items ≡ folders.old.items ++ folder ∷ []) }
{
    folders.push(folder)?;
    Ok(())
}
