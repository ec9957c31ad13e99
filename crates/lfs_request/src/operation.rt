//! What is asked for on an image.

use crate::extent::Extent;
use crate::query::Query;
use crate::said_limits::SaidLimits;
use crate::source_image::SourceImage;
use crate::tree_change::TreeChange;
use crate::view::View;
use lfs_fs::Limits;
use lfs_history::{Move, Source, Terms};
use lfs_json::Form;

/// What is asked for on an image, by the names of what is to be read for it.
#[derive(Drop)]
pub enum Operation<'a> {
    /// A new image of this many blocks with these limits.
    Format {
        /// The number of blocks.
        count: u32,
        /// The greatest lengths of a name, a file and an attribute.
        limits: Limits,
    },
    /// A new image with what is below a folder of the host.
    Pack {
        /// How many blocks it gets.
        extent: Extent,
        /// The greatest lengths of a name, a file and an attribute.
        limits: Limits,
        /// The folder's name.
        dir: &'a str,
        /// The greatest length of a file that stands in its entry.
        most: u32,
    },
    /// A new image with all that another one holds.
    Repack {
        /// The other image.
        source: SourceImage<'a>,
        /// How many blocks the new one gets; as many as the bytes of the other fill for `None`.
        extent: Option<Extent>,
        /// The greatest lengths of a name, a file and an attribute, as far as they are said; else those of the other image.
        limits: SaidLimits,
        /// The greatest length of a file that stands in its entry.
        most: u32,
    },
    /// A new folder of the host, with what stands in the image at the path of a directory and below it.
    Extract {
        /// The folder's name.
        dir: &'a str,
        /// The path's text.
        path: &'a [u8],
        /// How the image is looked at.
        view: View,
    },
    /// A new folder of the host, with all that can still be read of the image, which needn't mount.
    Salvage {
        /// The folder's name.
        dir: &'a str,
        /// How the image is looked at.
        view: View,
    },
    /// What is asked of the image.
    Ask {
        /// The question; another image is there by the name of its file.
        query: Query<'a, &'a str>,
        /// The form of what is answered, but for the contents of a file.
        form: Form,
        /// How the image is looked at; another image is all of its file, and read as a device does where this one is.
        view: View,
    },
    /// The image alone, and no change that led to it or was taken back.
    Forget,
    /// The image as a device left it, taken over.
    Adopt {
        /// The form in which the blocks are answered that change.
        form: Form,
        /// Whether a journal with changes is replaced, which is refused else.
        replaces: bool,
    },
    /// A step on the image's history.
    Change(Move<'a, Source<'a>>),
    /// A change of a whole tree, by several commands that are one change.
    Tree {
        /// The change; a folder of the host is there by its name.
        change: TreeChange<'a, Source<'a>, &'a str>,
        /// How many images of the past are kept behind it, 1 to 1,000; all of them for `None`.
        keep: Option<u32>,
    },
    /// The steps of a script, one after another: all of them or none.
    Batch {
        /// The name of the script's file; standard input where there is none.
        file: Option<&'a str>,
        /// On what terms its commands are carried out.
        terms: Terms,
        /// Whether they are one change, in which there are commands alone.
        one: bool,
    },
}
