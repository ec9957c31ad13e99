//! Which folders lack in front of what no path leads to.

/// Which folders lack in front of what no path leads to.
#[derive(Clone, Copy, Debug, PartialEq, Eq)]
pub(crate) enum Front {
    /// That of the image and that for what no path leads to.
    Both,
    /// That for what no path leads to.
    Lost,
    /// Neither: they are there.
    There,
}
