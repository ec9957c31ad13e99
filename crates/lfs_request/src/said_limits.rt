//! Limits of a new image, as far as they are said.

use lfs_fs::Limits;

/// The greatest lengths of a name, a file and an attribute, in bytes, as far as they are said.
#[derive(Clone, Copy)]
pub struct SaidLimits {
    /// Of a name.
    pub name: Option<u32>,
    /// Of a file.
    pub file: Option<u32>,
    /// Of an attribute.
    pub attribute: Option<u32>,
}

impl SaidLimits {
    ghost use Rattle.std.specs.Prelude.{◌≡◌};
    ghost use Rattle.lfs_fs.specs.Superblock.{IsLimits};
    ghost use Rattle.lfs_request.specs.SaidLimits.{AreSaidInRange, limits_or};

    /// Those that are said, and these in the place of the others.
    pub fn or(self, limits: Limits) -> Limits
        ensures limits { result ≡ limits_or self limits }
        ensures range { AreSaidInRange self → IsLimits limits → IsLimits result }
    {
        Limits {
            name: self.name.unwrap_or(limits.name),
            file: self.file.unwrap_or(limits.file),
            attribute: self.attribute.unwrap_or(limits.attribute),
        }
    }
}
