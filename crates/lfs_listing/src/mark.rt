//! Which of two images has a row.

ghost use Rattle.std.specs.Prelude.{◌≡◌};
ghost use Rattle.lfs_listing.specs.Difference.{mark_text, mark_word};

/// Which of two images has a row.
#[derive(Clone, Copy)]
pub(crate) enum Mark {
    /// The first one.
    Removed,
    /// The second one.
    Added,
}

impl Mark {
    /// What stands in front of its lines.
    pub(crate) fn text(self) -> &'static [u8]
        ensures { result.now ≡ mark_text self }
    {
        match self {
            Mark::Removed => b"- ",
            Mark::Added => b"+ ",
        }
    }

    /// What its object says.
    pub(crate) fn word(self) -> &'static str
        ensures { result.now ≡ mark_word self }
    {
        match self {
            Mark::Removed => "removed",
            Mark::Added => "added",
        }
    }
}
