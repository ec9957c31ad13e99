//! The links of an outline that are set, written as changes of an image.

ghost use Rattle.std.specs.Prelude.{◌≡◌, ◌<◌, [], ◌∷◌, false, true, replicate, length, IfOk, OnOk};
ghost use Rattle.std.specs.List.{AllByRecursion};
ghost use Rattle.lfs_block.specs.Change.{IsRising};
ghost use Rattle.lfs_pair.specs.Appending.{IsPairRewritten};
ghost use Rattle.lfs_pair.specs.DifferenceSeen.{forced_seen};
ghost use Rattle.lfs_pair.specs.Writing.{IsRewritten, stored_part};
ghost use Rattle.lfs_fs.specs.Sound.{AreAttributes};
ghost use Rattle.lfs_fs.specs.Thread.{links};
ghost use Rattle.lfs_fs.specs.Uses.{times};
ghost use Rattle.lfs_law.specs.PairWritten.{AddsChange, CanBeAdded, FitsPair, IsLinkStored, IsPairsBlock, link_to};
ghost use Rattle.lfs_command.specs.PairChanged.{is_cut_by};
ghost use Rattle.lfs_command.specs.PartWritten.{change_at};
ghost use Rattle.lfs_law.specs.PlansHold.{is_unmarked};
ghost use Rattle.lfs_law.specs.SuperblockBytes.{volume_bytes};
ghost use Rattle.lfs_law.specs.WrittenLinks.{AddsLink, AddsPart, AreWritten, CanBeMade, CanBeWritten, ChangesLinks, FillsFirst, IsFreeFor, IsPairWritten, changed_blocks, number_in};

use crate::linking::outline_links;
use crate::storing::stored_entries;
use crate::writing::{add, change_of};
use lfs_block::{Blocks, Record, put_blocks_stand};
use lfs_fs::{Outline, OutlinePart};
use lfs_meta::{Part, Tail};
use lfs_pair::{Forced, change_pair, first_block, rewrite};
use std::alloc::{AllocError, Global};

/// Puts the change of a block of an image among others, which rise by number.
fn add_change<B: Blocks>(
    alloc: Global,
    image: &B,
    number: u32,
    new: Vec<u8>,
    changes: &mut Vec<Record>,
) -> Result<(), AllocError>
    requires within { number < (B.disk image.now).count }
    requires len { length new.items ≡ (B.disk image.now).size }
    requires rising { IsRising changes.old.items }
    requires made { AllByRecursion (CanBeMade (B.disk image.now)) changes.old.items }
    requires free { times number (changed_blocks changes.old.items) ≡ 0 }
    ensures { OnOk result (AddsChange (B.disk image.now) (change_at (B.disk image.now) number new.items) changes.old.items changes.new.items) }
{
    let _size = image.size();
    let change = change_of(alloc, image, number, new)?;
    add(changes, change)?;
    Ok(())
}

/// The block of a pair that isn't live, rewritten with a part, and its number.
fn rewritten<B: Blocks>(alloc: Global, image: &B, part: &Part) -> Result<(u32, Vec<u8>), AllocError>
    requires { FitsPair (B.disk image.now) part.now }
    ensures { IfOk result (λ new. IsRewritten (B.disk image.now) part.now.0 part.now.1 new.0 new.1.items) }
{
    rewrite(
        alloc,
        image,
        part.pair,
        &part.entries,
        part.tail,
        part.delta,
    )
}

/// The block of a pair that a commit is appended to, or else that is rewritten, so that the pair holds a part, and its number.
fn changed<B: Blocks>(
    alloc: Global,
    image: &B,
    part: &Part,
    forced: Forced<'_>,
) -> Result<(u32, Vec<u8>), AllocError>
    requires { FitsPair (B.disk image.now) part.now }
    ensures { IfOk result (λ new. IsPairRewritten (B.disk image.now) part.now.0 (forced_seen forced.entry) part.now.1 new.0 new.1.items) }
{
    change_pair(
        alloc,
        image,
        part.pair,
        &part.entries,
        part.tail,
        part.delta,
        forced,
    )
}

/// The block that carries a pair to a part, and its number: where the part was cut, the one that isn't live, rewritten; else the live one
/// with a commit appended, where there is room for it, or the other one rewritten.
fn pair_block<B: Blocks>(
    alloc: Global,
    image: &B,
    part: &Part,
    is_cut: bool,
    forced: Forced<'_>,
) -> Result<(u32, Vec<u8>), AllocError>
    requires { FitsPair (B.disk image.now) part.now }
    ensures { IfOk result (λ new. IsPairsBlock (B.disk image.now) is_cut (forced_seen forced.entry) part.now new.0 new.1.items) }
{
    if is_cut {
        rewritten(alloc, image, part)
    } else {
        changed(alloc, image, part, forced)
    }
}

/// Puts the change that makes a pair hold a part among others: of one of its blocks.
fn change_part<B: Blocks>(
    alloc: Global,
    image: &B,
    part: &Part,
    is_cut: bool,
    forced: Forced<'_>,
    changes: &mut Vec<Record>,
) -> Result<(), AllocError>
    requires fits { FitsPair (B.disk image.now) part.now }
    requires free { IsFreeFor (B.disk image.now) part.now.0 changes.old.items }
    ensures adds { OnOk result (AddsPart (B.disk image.now) part.now.0 (number_in changes.new.items part.now.0 ∷ []) part.now.1
        changes.old.items changes.new.items) }
    ensures changed { OnOk result (IsPairWritten (B.disk image.now) is_cut (forced_seen forced.entry) part.now.0 changes.new.items) }
{
    put_blocks_stand();
    let _size = image.size();
    let (number, new) = pair_block(alloc, image, part, is_cut, forced)?;
    add_change(alloc, image, number, new, changes)?;
    Ok(())
}

/// Puts the changes that make a new pair hold a part among others: of both its blocks, of which the first one has the part and the second
/// one is erased. The part's delta is zero then.
fn fill_pair<B: Blocks>(
    alloc: Global,
    image: &B,
    part: &Part,
    changes: &mut Vec<Record>,
) -> Result<(), AllocError>
    requires fits { FitsPair (B.disk image.now) part.now }
    requires free { IsFreeFor (B.disk image.now) part.now.0 changes.old.items }
    ensures adds { OnOk result (AddsPart (B.disk image.now) part.now.0 (part.now.0.0 ∷ part.now.0.1 ∷ [])
        (stored_part part.now.1.entries part.now.1.tail (replicate 12 0)) changes.old.items changes.new.items) }
    ensures filled { OnOk result (FillsFirst (B.disk image.now) changes.new.items part.now.0) }
{
    let size = image.size();
    let Some(block) = first_block(alloc, size, &part.entries, part.tail) else {
        return Err(AllocError);
    };
    let erased = vec![in alloc; 0xff; size as usize]?;
    add_change(alloc, image, part.pair.0, block, changes)?;
    add_change(alloc, image, part.pair.1, erased, changes)?;
    Ok(())
}

/// A link as its part is stored.
fn stored_link(
    alloc: Global,
    outline: &Outline,
    part: &OutlinePart,
    tail: Tail,
) -> Result<Part, AllocError>
    requires { AreAttributes outline.now.limits.attribute outline.now.attributes }
    ensures { IfOk result (λ stored. IsLinkStored (volume_bytes outline.now) outline.now.attributes (link_to part.now tail) stored) }
{
    let entries = stored_entries(alloc, outline, part)?;
    Ok(Part {
        pair: part.pair,
        entries,
        tail,
        delta: part.delta.to_bytes(),
    })
}

/// Whether a table doesn't mark the first block of a pair.
fn is_unmarked(used: &[bool], pair: (u32, u32)) -> bool
    ensures { result ≡ is_unmarked used.now pair }
{
    !used.get(pair.0 as usize).copied().unwrap_or(false)
}

/// Whether a part was cut: its directory goes on behind it in a pair whose first block a table doesn't mark.
fn is_cut(used: &[bool], tail: Tail) -> bool
    ensures { result ≡ is_cut_by (is_unmarked used.now) tail }
{
    match tail {
        Tail::Hard(first, second) => is_unmarked(used, (first, second)),
        Tail::End | Tail::Soft(..) => false,
    }
}

/// Puts the changes that make a part's pair hold it among others: of one block of a pair that the table marks, of both blocks of
/// another one.
fn write_part<B: Blocks>(
    alloc: Global,
    image: &B,
    outline: &Outline,
    used: &[bool],
    forced: Forced<'_>,
    part: &OutlinePart,
    tail: Tail,
    changes: &mut Vec<Record>,
) -> Result<(), AllocError>
    requires rise { AreAttributes outline.now.limits.attribute outline.now.attributes }
    requires may { CanBeWritten (B.disk image.now) (volume_bytes outline.now) outline.now.attributes (link_to part.now tail) }
    requires fresh { is_unmarked used.now part.now.pair ≡ true → part.now.delta ≡ 0 }
    requires free { IsFreeFor (B.disk image.now) part.now.pair changes.old.items }
    ensures adds { OnOk result (AddsLink (B.disk image.now) (volume_bytes outline.now) outline.now.attributes (is_unmarked used.now) (link_to part.now tail)
        changes.old.items changes.new.items) }
    ensures changed { OnOk result (is_unmarked used.now part.now.pair ≡ false
        → IsPairWritten (B.disk image.now) (is_cut_by (is_unmarked used.now) tail) (forced_seen forced.entry) part.now.pair changes.new.items) }
{
    let stored = stored_link(alloc, outline, part, tail)?;
    if is_unmarked(used, part.pair) {
        fill_pair(alloc, image, &stored, changes)?;
    } else {
        let is_cut = is_cut(used, tail);
        change_part(alloc, image, &stored, is_cut, forced, changes)?;
    }
    Ok(())
}

/// Writes a link, where its part is set; else it costs a look at that mark.
fn write_link<B: Blocks>(
    alloc: Global,
    image: &B,
    outline: &Outline,
    used: &[bool],
    forced: Forced<'_>,
    part: &OutlinePart,
    tail: Tail,
    changes: &mut Vec<Record>,
) -> Result<(), AllocError>
    requires rise { AreAttributes outline.now.limits.attribute outline.now.attributes }
    requires can { CanBeAdded (B.disk image.now) (volume_bytes outline.now) outline.now.attributes (is_unmarked used.now)
        changes.old.items (link_to part.now tail ∷ []) }
    ensures written { OnOk result (AreWritten (B.disk image.now) (volume_bytes outline.now) outline.now.attributes (is_unmarked used.now)
        changes.old.items (link_to part.now tail ∷ []) changes.new.items) }
    ensures changed { OnOk result (ChangesLinks (B.disk image.now) (is_unmarked used.now) (forced_seen forced.entry)
        (link_to part.now tail ∷ []) changes.new.items) }
{
    if part.dirty {
        write_part(alloc, image, outline, used, forced, part, tail, changes)?;
    }
    Ok(())
}

/// The changes that write the links of an outline whose parts are set, beside those in `base`: a part goes on with a hard tail to the next
/// one of its directory, the last of a directory with a soft one to the next directory, and the last of all with none. A pair whose first
/// block the table marks takes one change: of its live block, to which a commit is appended, where there is room for it, and else of the
/// other one, which is rewritten; a part that was cut is rewritten. Another pair takes two.
pub fn write_links<B: Blocks>(
    alloc: Global,
    image: &B,
    outline: &Outline,
    used: &[bool],
    forced: Forced<'_>,
    base: Vec<Record>,
) -> Result<Vec<Record>, AllocError>
    requires rise { AreAttributes outline.now.limits.attribute outline.now.attributes }
    requires can { CanBeAdded (B.disk image.now) (volume_bytes outline.now) outline.now.attributes (is_unmarked used.now) base.items (links outline.now.directories) }
    ensures written { IfOk result (λ changes. AreWritten (B.disk image.now) (volume_bytes outline.now) outline.now.attributes (is_unmarked used.now)
        base.items (links outline.now.directories) changes.items) }
    ensures changed { IfOk result (λ changes. ChangesLinks (B.disk image.now) (is_unmarked used.now) (forced_seen forced.entry)
        (links outline.now.directories) changes.items) }
{
    let all = outline_links(alloc, outline)?;
    let mut changes = base;
    for link in &all {
        write_link(
            alloc,
            image,
            outline,
            used,
            forced,
            link.part,
            link.tail,
            &mut changes,
        )?;
    }
    Ok(changes)
}
