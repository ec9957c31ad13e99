//! What is said of a path.

use std::fmt;

/// What is said of a path.
#[derive(Clone, Copy)]
pub enum Finding {
    /// Nothing is there.
    Missing,
    /// Something is there.
    Present,
    /// A directory is there, in whose place something is to be moved.
    PresentDirectory,
    /// It is a file, and more names stand behind it.
    File,
    /// It is a directory.
    Directory,
    /// It is a directory with an entry.
    NotEmpty,
    /// It is no path.
    NoPath,
    /// Its last name has more bytes than this.
    LongName(u32),
    /// Its contents have more bytes than this.
    LongFile(u32),
    /// Its attribute has more bytes than this.
    LongValue(u32),
    /// It has no attribute of this kind.
    NoAttribute(u8),
    /// It is to be moved below itself.
    IntoItself,
    /// It is the root.
    Root,
    /// Its entry takes more than a block has room for.
    LargeEntry,
}

impl Finding {
    /// What is said, or what of it stands in front of a number.
    fn words(self) -> &'static str {
        match self {
            Finding::Missing => "nothing is there",
            Finding::Present => "something is there",
            Finding::File => "is a file",
            Finding::Directory | Finding::PresentDirectory => "is a directory",
            Finding::NotEmpty => "is not empty",
            Finding::NoPath => "is no path",
            Finding::LongName(_) => "its name is longer than ",
            Finding::LongFile(_) => "its contents are longer than ",
            Finding::LongValue(_) => "its attribute is longer than ",
            Finding::NoAttribute(_) => "has no attribute of kind ",
            Finding::IntoItself => "is to be moved below itself",
            Finding::Root => "is the root",
            Finding::LargeEntry => "takes more than a block has room for",
        }
    }
}

impl fmt::Display for Finding {
    fn fmt<W: fmt::Write>(&self, f: &mut fmt::Formatter<W>) -> fmt::Result {
        f.write_str(self.words())?;
        match *self {
            Finding::LongName(most) | Finding::LongFile(most) | Finding::LongValue(most) => {
                write!(f, "{most} bytes")
            }
            Finding::NoAttribute(kind) => write!(f, "{kind:02x}"),
            _ => Ok(()),
        }
    }
}
