//! Why a host doesn't make something under a name.

use crate::host_fault::HostFault;

/// Why a host doesn't make a folder, or doesn't begin a file, under a name.
#[derive(Clone, Copy, Debug, PartialEq, Eq)]
pub enum MakeFault {
    /// It can't have the name: something has it already, it is too long, or the host has no such names.
    Name,
    /// It refuses something else.
    Other,
}

impl From<HostFault> for MakeFault {
    ghost use Rattle.std.specs.Prelude.{◌≡◌};
    ghost use Rattle.lfs_host.specs.declared.make_fault.MakeFault.TheVariants.{Other};

    ghost from_gives = { λ refused fault. fault ≡ Other };

    fn from(_refused: HostFault) -> MakeFault {
        MakeFault::Other
    }
}

impl From<MakeFault> for HostFault {
    fn from(_fault: MakeFault) -> HostFault {
        HostFault
    }
}
