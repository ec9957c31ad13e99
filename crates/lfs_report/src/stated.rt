//! What an image states of itself, where it is refused.

use crate::finding::Finding;
use crate::path_note::PathNote;
use byteorder::{ByteOrder, LittleEndian};
use lfs_block::{ImageFault, MountFault};
use lfs_fs::VERSION;
use lfs_lower::{
    StatedVersion, Superblock, begins_with, size_of, superblock_words, unread_version,
};
use lfs_request::{Fault, OtherFault};
use lfs_texts::Flaw;

/// What is seen of bytes that are read as an image, whatever they are.
#[derive(Clone, Copy)]
pub struct Sight {
    /// The size of a block, in bytes.
    pub size: u32,
    /// How many bytes there are.
    pub len: usize,
    /// What their superblock states, or else what their first block does, where it begins as one with a superblock does.
    pub stated: Option<Superblock>,
    /// The disk version that is stated where version 2.0 reads no commit.
    pub unread: Option<StatedVersion>,
}

impl Sight {
    /// What is seen of no bytes.
    pub fn none() -> Sight {
        Sight {
            size: 0,
            len: 0,
            stated: None,
            unread: None,
        }
    }

    /// What is seen of bytes, as of blocks of `size` bytes.
    pub fn of(size: u32, bytes: &[u8]) -> Sight {
        Sight {
            size,
            len: bytes.len(),
            stated: stated_in(size, bytes),
            unread: unread_version(bytes, size),
        }
    }
}

/// Where an image states a geometry or a disk version, and which of the two is told.
#[derive(Clone, Copy)]
pub enum StatedPlace {
    /// The geometry that the superblock states.
    Superblock,
    /// The disk version that the superblock states.
    SuperblockVersion,
    /// The geometry that stands in the first block, which isn't read as a superblock.
    FirstBlock,
    /// The disk version that stands there, which is a later one.
    Version,
}

/// What is told behind a fault.
#[derive(Clone, Copy)]
pub enum Statement {
    /// What an image states somewhere.
    Stated(StatedPlace, Superblock),
    /// The disk version that a block states of which version 2.0 reads no commit.
    Unread(StatedVersion),
    /// The disk version of a later commit, for which the image is refused.
    Later(u32),
    /// A device may have expanded its superblock.
    Expanded,
    /// How many bytes there are, which are no whole blocks of this size.
    Length(usize, u32),
    /// What is known of the path for which a step is refused.
    Path(PathNote),
    /// The first place of the fault in the image; what is told of it is kept beside.
    Place,
    /// What is known of the row for which a folder, or another image, isn't packed; the text of its path is kept beside.
    Row(Finding),
    /// The number of the line of a script that is refused, and what is wrong in it where it says no step; its text is kept beside.
    Line(usize, Option<Flaw>),
    /// The command that is refused of those that a change of a tree is; its text is kept beside.
    Command,
    /// How many blocks are needed for what is packed; no image of this block size holds it for `None`.
    Need(Option<u32>),
    /// How many changes are done, or undone, fewer than are asked for.
    Changes(usize),
    /// The journal is another image's.
    OtherJournal,
    /// What was to become the image is the one that the journal leads to.
    NewImage,
}

/// What is told of an image behind a fault; `other` is what is seen of the other one that is read.
pub(crate) fn statement_for(fault: Fault, image: Sight, other: Sight) -> Option<Statement> {
    match fault {
        Fault::Image(fault) => statement_of_bytes(fault, image),
        Fault::Mount(fault) => statement_of_image(fault, image),
        Fault::Other(OtherFault::Image(fault)) => statement_of_bytes(fault, other),
        Fault::Other(OtherFault::Mount(fault)) => statement_of_image(fault, other),
        Fault::JournalMismatch => Some(Statement::OtherJournal),
        _ => None,
    }
}

/// What is told where bytes are no image.
fn statement_of_bytes(fault: ImageFault, seen: Sight) -> Option<Statement> {
    match (fault, seen.stated) {
        (_, Some(stated)) => Some(Statement::Stated(StatedPlace::FirstBlock, stated)),
        (ImageFault::ImageLength, None) => Some(Statement::Length(seen.len, seen.size)),
        (ImageFault::BadGeometry, None) => None,
    }
}

/// What is told where an image doesn't mount.
fn statement_of_image(fault: MountFault, seen: Sight) -> Option<Statement> {
    if let (MountFault::NoValidCommit, Some(version)) = (fault, seen.unread) {
        return Some(Statement::Unread(version));
    }
    if may_be_expanded(fault, seen) {
        return Some(Statement::Expanded);
    }
    let stated = seen.stated?;
    Some(Statement::Stated(place_of(fault, stated)?, stated))
}

/// Whether an image may be refused since a device has expanded its superblock: none is found, or one with blocks of this size.
fn may_be_expanded(fault: MountFault, seen: Sight) -> bool {
    match (fault, seen.stated) {
        (MountFault::SuperblockElsewhere, _) => true,
        (MountFault::NoSuperblock, None) => true,
        (MountFault::NoSuperblock, Some(stated)) => stated.size == seen.size,
        _ => false,
    }
}

/// Which of what the first block states is told, and as what; nothing where a fault has another cause.
fn place_of(fault: MountFault, stated: Superblock) -> Option<StatedPlace> {
    match fault {
        MountFault::Geometry => Some(StatedPlace::Superblock),
        MountFault::Version => Some(StatedPlace::SuperblockVersion),
        MountFault::NoValidCommit if stated.version != VERSION => Some(StatedPlace::Version),
        MountFault::NoValidCommit | MountFault::NoSuperblock => Some(StatedPlace::FirstBlock),
        _ => None,
    }
}

/// What the superblock of an image states: in blocks of `size` bytes, or else of the size that it has; where its commits state nothing,
/// what stands at the front of block 0.
fn stated_in(size: u32, image: &[u8]) -> Option<Superblock> {
    match begins_with(size, image) {
        Some(stated) => Some(stated),
        None => by_size(image).or(stated_in_front(image)),
    }
}

/// What the superblock of an image states, whatever the size of its blocks is.
fn by_size(image: &[u8]) -> Option<Superblock> {
    begins_with(size_of(image)?, image)
}

/// What stands at the front of block 0, where it begins as a superblock does.
fn stated_in_front(image: &[u8]) -> Option<Superblock> {
    stated_of(superblock_words(image)?)
}

/// What the first words of a superblock's struct state; nothing where there are too few.
pub(crate) fn stated_of(words: &[u8]) -> Option<Superblock> {
    let words = words.get(..12)?;
    Some(Superblock {
        version: LittleEndian::read_u32(&words[..4]),
        size: LittleEndian::read_u32(&words[4..8]),
        count: LittleEndian::read_u32(&words[8..12]),
    })
}
