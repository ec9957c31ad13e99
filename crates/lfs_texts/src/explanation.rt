//! What the faults mean, and what to do.

ghost use Rattle.std.specs.Prelude.{◌≡◌, Contains, IfSome, IsNone, map};
ghost use Rattle.std.specs.Bool.{Decides};
ghost use Rattle.lfs_texts.specs.Explanations.{Fault, SaysFault, IsWordOf, fault_of, faults};

/// What a fault means, and what to do.
#[derive(Clone, Copy)]
pub struct Explanation {
    /// The fault's number.
    pub number: u8,
    /// Its name.
    pub name: &'static str,
    /// What it means and what to do.
    pub text: &'static str,
}

/// The faults in the order of their numbers. docs/FAULTS.md has the same table.
const EXPLANATIONS: [Explanation; 51] = [
    Explanation {
        number: 1,
        name: "ImageLength",
        text: "The file's length is no multiple of the block size, or the file is longer than any image. \
         Give the block size that the image was made with (`--block`), and check that the file was \
         copied as a whole. Where more stands in the file than an image, `find` lists where images \
         begin, and `--offset` reads one there.",
    },
    Explanation {
        number: 2,
        name: "BadGeometry",
        text: "The block size, the number of blocks or the length is out of its limit. A block has a multiple of \
         16 bytes, from 256 to 65536, an image 2 to 65536 blocks and at most 67108864 bytes. At the end \
         of a file, or past it, `--offset` finds no blocks.",
    },
    Explanation {
        number: 3,
        name: "NoValidCommit",
        text: "Neither block of a pair that the thread names holds a commit whose checksum is right. The \
         image is damaged, or `--block` isn't its block size, or it begins at another place of the \
         file, which `find` lists, or a later littlefs wrote it: the second line says what its first \
         block states of that. `--device` reads an image of disk version 2.1, and `adopt` takes it \
         over; 10 says what keeps a device at version 2.0.",
    },
    Explanation {
        number: 4,
        name: "UnknownTag",
        text: "A commit has a tag of a type that disk version 2.0 doesn't have. The image was written \
         by a later version, or is damaged; 10 says what keeps a device at disk version 2.0.",
    },
    Explanation {
        number: 5,
        name: "BadTag",
        text: "A tag names an entry that isn't there, or has a length that its type doesn't take. The image \
         is damaged.",
    },
    Explanation {
        number: 6,
        name: "IncompleteEntry",
        text: "An entry has no name, or nothing that says where its contents are. The image is damaged.",
    },
    Explanation {
        number: 7,
        name: "BadName",
        text: "The name of a file or a directory is empty, `.` or `..`, or has a slash in it. \
         Rename it with what wrote the image.",
    },
    Explanation {
        number: 8,
        name: "BadSkipList",
        text: "A file's blocks don't hang together as its size wants. The file is damaged; what wrote the \
         image may still remove it.",
    },
    Explanation {
        number: 9,
        name: "NoSuperblock",
        text: "The first entry of blocks 0 and 1 is no superblock. The file is no littlefs image, or \
         `--block` isn't its block size, or a device that ran long has expanded its superblock. \
         `--device` reads such an image, and `adopt` leaves it a single superblock.",
    },
    Explanation {
        number: 10,
        name: "Version",
        text: "The image is of another disk version than 2.0, or a device has changed it with one, as the \
         second line says. `--device` reads version 2.1, and `adopt` takes the image over in place; \
         `--older` reads the state before such a change. Since 2.6 littlefs writes disk version 2.1, \
         also into an image of 2.0. It keeps 2.0 where it is built with LFS_MULTIVERSION and \
         `lfs_config.disk_version` is 0x00020000: build the device so, and write the image again.",
    },
    Explanation {
        number: 11,
        name: "Geometry",
        text: "The superblock states another block size or number of blocks than the image has. The second \
         line says which: give that block size (`--block`), or the whole file. Where something stands \
         behind the image, `--offset 0` reads it without that, and `repack --offset 0` makes a file of \
         it alone.",
    },
    Explanation {
        number: 12,
        name: "Limits",
        text: "One of the superblock's limits, on names, files or attributes, is out of its range. The \
         image is damaged, or was made for a littlefs with other limits.",
    },
    Explanation {
        number: 13,
        name: "OrderFault",
        text: "The names of a directory don't stand in their order. The image is damaged, or was written by \
         something that orders them otherwise.",
    },
    Explanation {
        number: 14,
        name: "BlockRange",
        text: "A pair of blocks that is named lies past the image's end. The image is damaged or cut off.",
    },
    Explanation {
        number: 15,
        name: "BlockTwice",
        text: "Two things use one block, or two names lead to one directory. If a device was stopped while \
         it moved a directory, `--device` reads the image, and `adopt` ends the move. Otherwise a \
         change of one thing destroys the other: `salvage` saves what it can, and a new image is made \
         of that.",
    },
    Explanation {
        number: 16,
        name: "MissingDirectory",
        text: "An entry leads to a pair of blocks at which no directory begins. The image is damaged.",
    },
    Explanation {
        number: 17,
        name: "Orphan",
        text: "No path leads to a directory: a device was stopped while it made, removed or moved one, or \
         moved one below itself, which littlefs allows. `--device` reads the image without it, and \
         `adopt` drops it; `salvage` saves it before. If the image is refused with `--device` too, it \
         is damaged.",
    },
    Explanation {
        number: 18,
        name: "UnfinishedMove",
        text: "A device was stopped while it moved something. `--device` reads that at its new place alone, \
         and `adopt` ends the move. If it is refused with `--device` too, it is damaged.",
    },
    Explanation {
        number: 19,
        name: "SuperblockElsewhere",
        text: "A superblock stands after the first one: a device whose root is changed very often makes \
         such a chain, unless `lfs_config.block_cycles` is -1. `--device` reads it, and `adopt` \
         leaves the image a single superblock. If it is refused with `--device` too, it is damaged, \
         or the attributes of `/` leave no room: read its files with littlefs, and `pack` them.",
    },
    Explanation {
        number: 20,
        name: "BadSize",
        text: "A name, a file or an attribute is larger than the superblock's limits allow. The image is \
         damaged, or its limits were changed.",
    },
    Explanation {
        number: 21,
        name: "UnknownState",
        text: "The image's global state says something that disk version 2.0 doesn't know. It was written \
         by a later version, or is damaged.",
    },
    Explanation {
        number: 22,
        name: "DamagedCommit",
        text: "The image mounts, but a commit with a wrong checksum stands after the last one of a pair, so \
         an older state of that pair is read. A line names each such pair. What `salvage` made holds \
         the older state: compare it with a backup, or with what the device shows.",
    },
    Explanation {
        number: 30,
        name: "NotFound",
        text: "Nothing is at the path, or one of the directories on the way isn't there. Look at the \
         spelling; a path begins with `/`.",
    },
    Explanation {
        number: 31,
        name: "Exists",
        text: "Something is at the path already. Remove it first, or take another path.",
    },
    Explanation {
        number: 32,
        name: "NotADirectory",
        text: "A file stands at the path, or on the way, where a directory is wanted.",
    },
    Explanation {
        number: 33,
        name: "IsADirectory",
        text: "A directory is at the path, where a file is put or printed.",
    },
    Explanation {
        number: 34,
        name: "NotEmpty",
        text: "The directory has an entry still. Remove what is in it first.",
    },
    Explanation {
        number: 35,
        name: "BadPath",
        text: "The text is no path. A path is `/` before each name, and `/` alone for the root; a name \
         isn't empty, `.` or `..`.",
    },
    Explanation {
        number: 36,
        name: "NameTooLong",
        text: "The new name is longer than the image's limit, which is 255 bytes where `format` or `pack` \
         wasn't given another by `--name-max`.",
    },
    Explanation {
        number: 37,
        name: "FileTooLarge",
        text: "The contents are longer than the image's limit, which is 2147483647 bytes where `format` or \
         `pack` wasn't given another by `--file-max`.",
    },
    Explanation {
        number: 38,
        name: "AttrTooLarge",
        text: "The value is longer than the image's limit, which is 1022 bytes where `format` or `pack` \
         wasn't given another by `--attr-max`.",
    },
    Explanation {
        number: 39,
        name: "NoAttr",
        text: "There is no attribute of that kind to be removed.",
    },
    Explanation {
        number: 40,
        name: "IntoItself",
        text: "A directory can't be moved to a place below itself.",
    },
    Explanation {
        number: 41,
        name: "IsRoot",
        text: "The root can't be made, put, moved or removed.",
    },
    Explanation {
        number: 42,
        name: "EntryTooLarge",
        text: "An entry with its attributes takes more than a block has room for. Take smaller attributes, \
         or an image of larger blocks.",
    },
    Explanation {
        number: 43,
        name: "NoSpace",
        text: "The change needs more new blocks than are free; both numbers are said, and of a folder or an \
         image that is packed a second line says how many blocks it needs in all. `blocks --sum` \
         says what the paths of an image take. Remove something, lengthen the image with `grow`, or pack \
         into an image of more blocks.",
    },
    Explanation {
        number: 44,
        name: "Memory",
        text: "A growth of memory was refused. No image and no journal was changed; of a folder that is \
         being made the first entries may be there. Give the program more memory.",
    },
    Explanation {
        number: 46,
        name: "BadCount",
        text: "The image has as many blocks or more, or an image of its block size can't have so many. `check` says how \
         many it has; an image has at most 65536 blocks and 67108864 bytes.",
    },
    Explanation {
        number: 50,
        name: "JournalFormat",
        text: "The bytes are no journal of this program. `forget` makes a new one, without changes.",
    },
    Explanation {
        number: 51,
        name: "JournalMismatch",
        text: "The journal isn't that of this image: another program changed the image, or a run was \
         stopped between the two files. Where a second line names the image that the journal \
         leads to, rename it to this one's name, and both fit again. Else `forget` keeps the \
         image and makes a new journal, without changes.",
    },
    Explanation {
        number: 52,
        name: "JournalImage",
        text: "The journal leads to an image that doesn't mount. `forget` keeps the image and makes a new \
         journal, without changes.",
    },
    Explanation {
        number: 53,
        name: "NothingToUndo",
        text: "Fewer changes are done than are to be taken back: none, or fewer than `--steps` says. Nothing was \
         taken back; `log` shows those that are done.",
    },
    Explanation {
        number: 54,
        name: "NothingToRedo",
        text: "Fewer changes are undone than are to be made again: none since the last one that was made, or fewer \
         than `--steps` says. Nothing was made again; `log` shows those that are undone.",
    },
    Explanation {
        number: 55,
        name: "JournalFull",
        text: "As many changes were made as a journal keeps, 1000. `forget` drops them all; with `--keep` a command \
         keeps the latest alone.",
    },
    Explanation {
        number: 56,
        name: "JournalHasChanges",
        text: "The journal has changes, and none of them leads to the image as the device left it: `adopt` \
         begins a new journal. `--replace` drops them.",
    },
    Explanation {
        number: 60,
        name: "CannotRead",
        text: "A file, a folder or standard input can't be read. The second line says which, and what the \
         system said.",
    },
    Explanation {
        number: 61,
        name: "CannotWrite",
        text: "A file, or standard output, can't be written, or another run is changing the image. The \
         second line says which, and what the system said. The image is as it was. Where the next run says 51, \
         its journal was written already: `forget` makes one that fits.",
    },
    Explanation {
        number: 62,
        name: "HostEntry",
        text: "Something in the folder that is packed is neither a regular file nor a folder, and the \
         second line says which: put what is meant in its place, or take it away. Or something is \
         under the name of the folder that is to be made, which the second line says: give \
         another name.",
    },
    Explanation {
        number: 63,
        name: "HostName",
        text: "A name in the folder that is packed isn't UTF-8, and the second line says in which folder; or a name in \
         the image isn't UTF-8 or holds a zero byte, so that no file of the host is given it. Give it another name. \
         `salvage` saves what gets one of three names, and ends so only if something in an image that mounts gets \
         none.",
    },
    Explanation {
        number: 64,
        name: "BadHex",
        text: "A kind isn't two hexadecimal digits, or a value isn't two for each byte. The second line says which.",
    },
    Explanation {
        number: 65,
        name: "BadLine",
        text: "A line of a script says no step. The second line says which one, at which of its bytes, from 1 on, \
         and what is wrong there. The steps are `mkdir PATH`, `put PATH FILE`, `rm PATH`, `mv FROM TO`, \
         `setattr PATH KIND HEX`, `rmattr PATH KIND`, `grow COUNT`, `undo`, `redo` and `forget`, with one space \
         between words. In a word `\\x` and two hexadecimal digits stand for a byte, and each byte but a \
         backslash for itself. Of one change (`--one`) `undo`, `redo` and `forget` are no part. No step was taken.",
    },
];

impl Explanation {
    /// Whether a word is the fault's number, in decimal digits, or its name in any case.
    fn is_word(&self, word: &str) -> bool
        ensures { Decides result (IsWordOf word.now (fault_of self.now)) }
    {
        match word.parse::<u8>() {
            Ok(number) => self.number == number,
            Err(_) => self.name.eq_ignore_ascii_case(word),
        }
    }

    /// Whether a text says the fault: by its number, by its name in any case, or by both with a space between.
    fn is_said(&self, text: &str) -> bool
        ensures { Decides result (SaysFault text.now (fault_of self.now)) }
    {
        match text.split_once(' ') {
            Some((word, name)) => self.is_word(word) && self.name.eq_ignore_ascii_case(name),
            None => self.is_word(text),
        }
    }
}

/// What a fault means that is said by its number, in decimal digits, by its name in any case, or by both with a space between, as it is
/// told; nothing where no fault is said so.
pub fn explained(text: &str) -> Option<&'static Explanation>
    ensures said { IfSome result (λ known. Contains faults (fault_of known.now) × SaysFault text.now (fault_of known.now)) }
    ensures none { IsNone result → (fault : Fault) → Contains faults fault → ¬ SaysFault text.now fault }
{
    'each: for known in explanations() {
        if known.is_said(text) {
            return Some(known);
        }
    }
    None
}

/// All faults, in the order of their numbers.
pub fn explanations() -> &'static [Explanation]
    ensures { map fault_of result.now ≡ faults }
{
    &EXPLANATIONS
}

/// What stands in a text before a mark; all of it where the mark isn't there.
fn before<'a>(text: &'a str, mark: &str) -> &'a str {
    match text.split_once(mark) {
        Some((front, _)) => front,
        None => text,
    }
}

impl Explanation {
    /// The first thing that is said of the fault, without a stop behind it.
    pub fn gist(self) -> &'static str {
        let first = before(before(before(self.text, ". "), "; "), ": ");
        first.strip_suffix(".").unwrap_or(first)
    }
}
