//! Why a line asks for no step.

use std::alloc::{AllocError, AllocFailed};

/// Why a line of a script asks for no step.
#[derive(Clone, Copy, Debug, PartialEq, Eq)]
pub enum LineFault {
    /// A growth of memory was refused.
    Memory,
    /// The kind of an attribute isn't two hexadecimal digits, or its value isn't two of them a byte.
    BadHex,
    /// The line says no step.
    BadLine,
}

impl From<AllocError> for LineFault {
    ghost use Rattle.std.specs.Prelude.{◌≡◌};
    ghost use Rattle.lfs_texts.specs.declared.line_fault.LineFault.TheVariants.{Memory};

    ghost from_gives = { λ error fault. fault ≡ Memory };

    fn from(_error: AllocError) -> LineFault {
        LineFault::Memory
    }
}

impl<T: Drop> From<AllocFailed<T>> for LineFault {
    ghost use Rattle.std.specs.Prelude.{◌≡◌};
    ghost use Rattle.lfs_texts.specs.declared.line_fault.LineFault.TheVariants.{Memory};

    ghost from_gives = { λ failed fault. fault ≡ Memory };

    fn from(_failed: AllocFailed<T>) -> LineFault {
        LineFault::Memory
    }
}
