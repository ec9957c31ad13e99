//! Laws of volumes and images: each function does nothing but call laws, and its contract is the law.

ghost use Rattle.std.specs.Prelude.{ℕ};
ghost use Rattle.lfs_meta.specs.Entry.{StoredEntry};
ghost use Rattle.lfs_meta.specs.RunLaws.{RunsAreGreedy, RunsBehindFirst, RunsFollowWeights, RunsJoin, SomeRun};
ghost use Rattle.lfs_fs.specs.Alike.{PairsAreOfParts, SameReadingsHoldTheSame, StoredLinksStay, SuperblockIsOfTheRoot};
ghost use Rattle.lfs_fs.specs.Entry.{Entry};
ghost use Rattle.lfs_fs.specs.Front.{FrontsBeginEachOther};
ghost use Rattle.lfs_fs.specs.Holds.{VolumesAreOne};
ghost use Rattle.lfs_fs.specs.LoneSuperblock.{LoneSuperblockMounts};
ghost use Rattle.lfs_fs.specs.Mounted.{MountsAreOne};
ghost use Rattle.lfs_fs.specs.Mounts.{MountedHaveNoCause, TreesAreOne, WithoutCauseMount};
ghost use Rattle.lfs_fs.specs.NameOrder.{NamesAreOrdered};
ghost use Rattle.lfs_fs.specs.Path.{TextsSpellOnePath};
ghost use Rattle.lfs_fs.specs.Row.{PathsAreOrdered, RowsAreUnique};
ghost use Rattle.lfs_fs.specs.RowShown.{RowsShowTheTree};
ghost use Rattle.lfs_fs.specs.SoundOutlines.{OutlinesAreSound};
ghost use Rattle.lfs_fs.specs.Stored.{HeldAreHeldByLinks, HeldByLinksAreHeld};
ghost use Rattle.lfs_fs.specs.StoredWeight.{EntriesWeighAsStored, RunsResolve, SuperblocksWeighAsStored};
ghost use Rattle.lfs_fs.specs.Thread.{PiecesOfLinks};

use lfs_file::{blocks_of_chains_differ, contents_have_their_length, files_have_one_chain};
use lfs_meta::{
    held_parts_are_complete, names_are_decided, pairs_without_a_part_have_a_cause,
    unread_pairs_hold_no_part,
};

/// A law: the directories that a thread makes are those that it was written for.
pub fn links_make_their_directories()
    ensures { PiecesOfLinks }
{}

/// A law: an image that holds a volume along its thread holds each link of it, and a sound volume each link of which it
/// holds it holds along its thread.
pub fn both_sides_hold()
    ensures links { HeldAreHeldByLinks }
    ensures thread { HeldByLinksAreHeld }
{}

/// A law: images that are read alike at the pairs of a volume's parts hold the same volume, and those are the pairs of the
/// thread.
pub fn same_readings_hold_the_same()
    ensures same { SameReadingsHoldTheSame }
    ensures pairs { PairsAreOfParts }
{}

/// A law: a link is stored still where its pair and the chains of its files are read as before, and elsewhere than at the
/// root's pair whatever the superblock is.
pub fn stored_links_stay()
    ensures alike { StoredLinksStay }
    ensures elsewhere { SuperblockIsOfTheRoot }
{}

/// A law: an image holds one volume, mounts to one tree, and has one right answer of `mount`.
pub fn images_mount_to_one_tree()
    ensures volume { VolumesAreOne }
    ensures tree { TreesAreOne }
    ensures mounted { MountsAreOne }
{}

/// A law: an image that mounts has none of the causes for which an image does not mount.
pub fn mounted_images_have_no_cause()
    ensures { MountedHaveNoCause }
{
    unread_pairs_hold_no_part();
    files_have_one_chain();
    contents_have_their_length();
}

/// A law: an image that has none of the causes for which an image does not mount, mounts.
pub fn images_without_cause_mount()
    ensures { WithoutCauseMount }
{
    pairs_without_a_part_have_a_cause();
    held_parts_are_complete();
    names_are_decided();
    files_have_one_chain();
    blocks_of_chains_differ();
    contents_have_their_length();
}

/// A law: an image whose root's first pair holds a superblock alone, with a version, a geometry and limits that are
/// edited and attributes within them, mounts to the root alone.
pub fn lone_superblocks_mount()
    ensures { LoneSuperblockMounts }
{}

/// A law: the outline of a sound volume is sound.
pub fn outlines_are_sound()
    ensures { OutlinesAreSound }
{}

/// A law: of two fronts of one image, one begins the other.
pub fn fronts_begin_each_other()
    ensures { FrontsBeginEachOther }
{}

/// A law: names are in a strict total order.
pub fn names_are_ordered()
    ensures { NamesAreOrdered }
{}

/// A law: a text spells one path at most.
pub fn texts_spell_one_path()
    ensures { TextsSpellOnePath }
{}

/// A law: one list has the rows of a map from paths.
pub fn rows_are_unique()
    ensures { RowsAreUnique }
{}

/// A law: paths are in a strict total order.
pub fn paths_are_ordered()
    ensures { PathsAreOrdered }
{}

/// A law: the rows of a mounted image show what its tree has at their paths; the contents of a file in a chain are those of the
/// row's blocks, which are the image's.
pub fn rows_show_the_tree()
    ensures { RowsShowTheTree }
{
    files_have_one_chain();
    contents_have_their_length();
    blocks_of_chains_differ();
}

/// A law: an entry weighs what the stored one does that stands for it, and the superblock entry what the root's attributes
/// say, so that stored entries are cut into runs where what they stand for is.
pub fn entries_weigh_as_stored()
    ensures entries { EntriesWeighAsStored }
    ensures superblocks { SuperblocksWeighAsStored }
    ensures runs { RunsResolve }
{}

/// A law: entries are cut into runs of which each takes as many as it can, and an entry in front of them into those that
/// begin with its weight. However they begin, the runs join to the entries, and the weights alone decide where they are
/// cut.
pub fn entries_are_cut_greedily()
    ensures greedy { RunsAreGreedy Entry }
    ensures behind { RunsBehindFirst Entry }
    ensures some { SomeRun Entry }
    ensures joined { RunsJoin Entry }
    ensures weights { RunsFollowWeights Entry ℕ }
    ensures stored { RunsFollowWeights StoredEntry Entry }
{}
