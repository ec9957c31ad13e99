//! Commands, as they are asked for and as they are carried out.

/// A change of an image, over paths as texts or as names (`P`) and over contents and values, which may have to be read first (`B`).
#[derive(Clone, Copy, Drop)]
pub enum Command<P, B> {
    /// Makes a directory.
    Mkdir {
        /// The path.
        path: P,
    },
    /// Puts a file's contents: a new file, or other contents of one that is there, which keeps its attributes.
    Put {
        /// The path.
        path: P,
        /// The contents.
        bytes: B,
        /// The greatest length with which they stand in the file's entry, which `most_inline` limits too; longer contents get blocks.
        most: u32,
    },
    /// Removes a file or an empty directory.
    Rm {
        /// The path.
        path: P,
    },
    /// Moves what is at a path, with all that is below it.
    Mv {
        /// Its path.
        from: P,
        /// The path that it gets.
        to: P,
    },
    /// Sets an attribute of what is at a path.
    SetAttr {
        /// The path.
        path: P,
        /// The attribute's kind.
        kind: u8,
        /// The attribute's value.
        value: B,
    },
    /// Removes an attribute of what is at a path.
    RmAttr {
        /// The path.
        path: P,
        /// The attribute's kind.
        kind: u8,
    },
    /// Lengthens the image by erased blocks.
    Grow {
        /// How many blocks the image then has.
        count: u32,
    },
}

/// A command as it is asked for, its paths as texts.
pub type Asked<'a> = Command<&'a [u8], &'a [u8]>;

/// A command as it is carried out, its paths as the names from the root on.
pub type Named<'a> = Command<Vec<&'a [u8]>, &'a [u8]>;

impl<P, B> Command<P, B> {
    ghost use Rattle.std.specs.Prelude.{◌≡◌};
    ghost use Rattle.std.specs.Option.{option_map};
    ghost use Rattle.lfs_command.specs.AskedFor.{making_said, path_said, target_said};

    /// The command that makes a file of these contents, which stand in its entry if they are no longer than `most`, or a directory if there
    /// are none.
    pub fn making(path: P, bytes: Option<B>, most: u32) -> Command<P, B>
        ensures { result ≡ making_said path bytes most }
    {
        match bytes {
            Some(bytes) => Command::Put { path, bytes, most },
            None => Command::Mkdir { path },
        }
    }

    /// The path that it is about; of a move the one that is left.
    pub fn path(&self) -> Option<&P>
        ensures { option_map (λ path. path.now) result ≡ path_said self.now }
    {
        match self {
            Command::Mkdir { path }
            | Command::Put { path, .. }
            | Command::Rm { path }
            | Command::SetAttr { path, .. }
            | Command::RmAttr { path, .. } => Some(path),
            Command::Mv { from, .. } => Some(from),
            Command::Grow { .. } => None,
        }
    }

    /// The path that a move leads to.
    pub fn target(&self) -> Option<&P>
        ensures { option_map (λ path. path.now) result ≡ target_said self.now }
    {
        match self {
            Command::Mv { to, .. } => Some(to),
            _ => None,
        }
    }
}
