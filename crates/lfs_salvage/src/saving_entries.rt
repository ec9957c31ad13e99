//! Saving the entries of a part that is found.

ghost use Rattle.std.specs.Prelude.{◌≡◌, ℕ, List, IfErr, IfOk, IfSome, Option, OnOk, Some, option_map};
ghost use Rattle.lfs_block.specs.Disk.{Disk};
ghost use Rattle.lfs_extract.specs.Making.{held_bytes};
ghost use Rattle.lfs_extract.specs.declared.extract_fault.ExtractFault.TheVariants.{CannotWrite};
ghost use Rattle.lfs_fs.specs.RowHeld.{row_body_held};
ghost use Rattle.lfs_fs.specs.RowShown.{HasBlocks};
ghost use Rattle.lfs_host.specs.Scene.{KeepsFiles};
ghost use Rattle.lfs_meta.specs.BodyHeld.{body_held};
ghost use Rattle.lfs_salvage.specs.AreaMade.{entries_made, entries_unsaved, entries_uses, entry_made, entry_unsaved, file_made, is_nameless, uses_by_entry};
ghost use Rattle.lfs_salvage.specs.Below.{HasRefusedBelow, IsNameBelow, MakesBelow};
ghost use Rattle.lfs_salvage.specs.Fate.{HasFileBlocks, saved_bytes};
ghost use Rattle.lfs_salvage.specs.FateHeld.{fate_held};
ghost use Rattle.lfs_salvage.specs.Saving.{Saves, SavesBut};
ghost use Rattle.lfs_salvage.specs.Word.{word_in};
ghost use Rattle.lfs_salvage.specs.declared.wording.Wording.{Wording};

use crate::entry_name::EntryName;
use crate::file_body::FileBody;
use crate::naming::make_first;
use crate::parent::Parent;
use crate::reading::file_of;
use crate::salvage::Salvage;
use crate::thing::Thing;
use lfs_block::Blocks;
use lfs_extract::{ExtractFault, write_file};
use lfs_fs::RowBody;
use lfs_host::NewFolder;
use lfs_meta::{Body, Entry};
use std::alloc::Global;

/// Where the bytes of a file are that is saved; none where none is.
fn saved_body<'a>(stored: &'a Body, body: &'a FileBody) -> Option<RowBody<'a>>
    ensures bytes { (d : Disk) → option_map (λ row. held_bytes d (row_body_held row)) result ≡ saved_bytes d (body_held stored.now) (fate_held body.now) }
    ensures there { (d : Disk) → HasFileBlocks d (fate_held body.now) → IfSome result (λ row. HasBlocks d (row_body_held row)) }
{
    match body {
        FileBody::Inline => match stored {
            Body::Inline(bytes) => Some(RowBody::Inline(bytes)),
            Body::Chain { .. } => None,
            Body::Directory(..) => None,
        },
        FileBody::Chain { blocks, size, .. } => Some(RowBody::Chain {
            blocks,
            size: *size,
        }),
        FileBody::Elsewhere(_) => None,
        FileBody::Passed => None,
        FileBody::Lost(_) => None,
    }
}

/// Makes a file with a body's contents, under a word for the name of an entry in a folder, and says whether the host can have none.
fn make_named<B: Blocks, F: NewFolder>(
    alloc: Global,
    disk: &B,
    body: &RowBody<'_>,
    named: EntryName<'_>,
    above: &str,
    folder: &mut F,
) -> Result<bool, ExtractFault>
    requires blocks { HasBlocks (B.disk disk.now) (row_body_held body.now) }
    ensures made { (word : Option Wording)
        × Saves result (F.known folder.old).made (F.known folder.new).made
        (file_made (option_map (word_in above.now named.entry.block named.entry.index named.entry.name.now) word)
        (Some (held_bytes (B.disk disk.now) (row_body_held body.now))))
        × IfOk result (λ nameless. nameless ≡ is_nameless word (Some (held_bytes (B.disk disk.now) (row_body_held body.now)))) }
    ensures below { (top : List ℕ) → IsNameBelow top above.now → MakesBelow top (F.known folder.old).made (F.known folder.new).made }
    ensures blamed { (top : List ℕ) → IsNameBelow top above.now → IfErr result (λ fault. fault ≡ CannotWrite → HasRefusedBelow (F.known folder.new) top) }
    ensures kept { KeepsFiles (F.known folder.old) (F.known folder.new) }
{
    let Some(name) = make_first(alloc, Thing::File, above, named, folder)? else {
        return Ok(true);
    };
    write_file(disk, body, name.as_str(), folder)?;
    Ok(false)
}

/// Makes the file of an entry of the part that begins at this block, where it is saved, and says whether the host can have no name for it.
fn make_entry<B: Blocks, F: NewFolder>(
    alloc: Global,
    disk: &B,
    entry: &Entry,
    body: &FileBody,
    block: u32,
    index: usize,
    above: &str,
    folder: &mut F,
) -> Result<bool, ExtractFault>
    requires { HasFileBlocks (B.disk disk.now) (fate_held body.now) }
    ensures made { (word : Option Wording)
        × Saves result (F.known folder.old).made (F.known folder.new).made
        (file_made (option_map (word_in above.now block index entry.now.name) word)
        (saved_bytes (B.disk disk.now) entry.now.body (fate_held body.now)))
        × IfOk result (λ nameless. nameless ≡ is_nameless word (saved_bytes (B.disk disk.now) entry.now.body (fate_held body.now))) }
    ensures below { (top : List ℕ) → IsNameBelow top above.now → MakesBelow top (F.known folder.old).made (F.known folder.new).made }
    ensures blamed { (top : List ℕ) → IsNameBelow top above.now → IfErr result (λ fault. fault ≡ CannotWrite → HasRefusedBelow (F.known folder.new) top) }
    ensures kept { KeepsFiles (F.known folder.old) (F.known folder.new) }
{
    let Some(row) = saved_body(&entry.body, body) else {
        return Ok(false);
    };
    let name = EntryName {
        name: &entry.name,
        block,
        index,
    };
    make_named(alloc, disk, &row, name, above, folder)
}

/// Saves an entry that stands here, in the part that begins at this block, in a folder: its file is made there, or it is kept why it isn't.
fn save_entry<B: Blocks, F: NewFolder>(
    alloc: Global,
    disk: &B,
    entry: &Entry,
    parent: Parent,
    block: u32,
    above: &str,
    salvage: &mut Salvage,
    folder: &mut F,
) -> Result<(), ExtractFault>
    ensures made { (word : Option Wording) × SavesBut result (F.known folder.old).made (F.known folder.new).made
        (entry_made (B.disk disk.now) above.now block parent.entry word salvage.old.uses.items entry.now) salvage.old.unsaved.items
        salvage.new.unsaved.items (entry_unsaved (B.disk disk.now) parent word salvage.old.uses.items entry.now) }
    ensures uses { OnOk result (salvage.new.uses.items ≡ uses_by_entry (B.disk disk.now) salvage.old.uses.items parent entry.now) }
    ensures below { (top : List ℕ) → IsNameBelow top above.now → MakesBelow top (F.known folder.old).made (F.known folder.new).made }
    ensures blamed { (top : List ℕ) → IsNameBelow top above.now → IfErr result (λ fault. fault ≡ CannotWrite → HasRefusedBelow (F.known folder.new) top) }
    ensures kept { KeepsFiles (F.known folder.old) (F.known folder.new) }
{
    let body = file_of(alloc, disk, &salvage.uses, entry)?;
    salvage.keep_unsaved(parent, &body)?;
    let is_nameless = make_entry(
        alloc,
        disk,
        entry,
        &body,
        block,
        parent.entry,
        above,
        folder,
    )?;
    salvage.keep_nameless(parent, is_nameless)?;
    salvage.settle(parent, &body);
    Ok(())
}

/// Saves the entries of the part that is found at a call of an area and begins at this block, in a folder.
pub(crate) fn save_entries<B: Blocks, F: NewFolder>(
    alloc: Global,
    disk: &B,
    entries: &[Entry],
    area: usize,
    call: usize,
    block: u32,
    above: &str,
    salvage: &mut Salvage,
    folder: &mut F,
) -> Result<(), ExtractFault>
    ensures made { (words : List (Option Wording)) × SavesBut result (F.known folder.old).made (F.known folder.new).made
        (entries_made (B.disk disk.now) above.now words block salvage.old.uses.items area call 0 entries.now) salvage.old.unsaved.items
        salvage.new.unsaved.items (entries_unsaved (B.disk disk.now) words salvage.old.uses.items area call 0 entries.now) }
    ensures uses { OnOk result (salvage.new.uses.items ≡ entries_uses (B.disk disk.now) salvage.old.uses.items area call 0 entries.now) }
    ensures below { (top : List ℕ) → IsNameBelow top above.now → MakesBelow top (F.known folder.old).made (F.known folder.new).made }
    ensures blamed { (top : List ℕ) → IsNameBelow top above.now → IfErr result (λ fault. fault ≡ CannotWrite → HasRefusedBelow (F.known folder.new) top) }
    ensures kept { KeepsFiles (F.known folder.old) (F.known folder.new) }
{
    'each: for (index, entry) in entries.iter().enumerate() {
        let parent = Parent {
            area,
            call,
            entry: index,
        };
        save_entry(alloc, disk, entry, parent, block, above, salvage, folder)?;
    }
    Ok(())
}
