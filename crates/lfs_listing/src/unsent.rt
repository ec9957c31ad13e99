//! Why a listing does not go out.

use std::alloc::AllocError;

/// Why a listing does not go out whole.
#[derive(Clone, Copy, Debug, PartialEq, Eq)]
pub enum Unsent {
    /// A growth of memory was refused.
    Memory,
    /// The sink failed.
    CannotWrite,
}

impl From<AllocError> for Unsent {
    ghost use Rattle.std.specs.Prelude.{◌≡◌};
    ghost use Rattle.lfs_listing.specs.declared.unsent.Unsent.TheVariants.{Memory};

    ghost from_gives = { λ error unsent. unsent ≡ Memory };

    fn from(_error: AllocError) -> Unsent {
        Unsent::Memory
    }
}
