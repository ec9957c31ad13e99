//! On what terms a script's commands are carried out.

/// On what terms a script's commands are carried out.
#[derive(Clone, Copy)]
pub struct Terms {
    /// How many images of the past are kept once a command is done, 1 to 1,000; all of them for `None`.
    pub keep: Option<u32>,
    /// The greatest length with which a file that is put stands in its entry; `most_inline` of lfs_command is a limit too.
    pub most: u32,
}
