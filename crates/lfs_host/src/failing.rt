//! Which call of a host fails.

ghost use Rattle.std.specs.Prelude.{◌≡◌};
ghost use Rattle.lfs_host.specs.Failing.{behind_next, fails_next};

/// Which of the calls that write or rename a file fails.
#[derive(Clone, Copy, PartialEq, Eq)]
pub enum Failing {
    /// None of them.
    Never,
    /// The one behind so many others, and none behind it.
    Behind(usize),
}

impl Failing {
    /// Counts a call, and says whether it is the one that fails.
    pub fn fails(&mut self) -> bool
        ensures fails { result ≡ fails_next self.old }
        ensures counted { self.new ≡ behind_next self.old }
    {
        let Failing::Behind(others) = *self else {
            return false;
        };
        if others == 0 {
            *self = Failing::Never;
            return true;
        }
        *self = Failing::Behind(others - 1);
        false
    }
}
