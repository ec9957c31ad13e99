//! The names of faults.

ghost use Rattle.std.specs.Prelude.{◌≡◌};
ghost use Rattle.lfs_open.specs.FaultName.{image_fault_name, mount_fault_name};

use lfs_block::{ImageFault, MountFault};

/// The name of a fault for which bytes are no image.
pub(crate) fn image_fault_name(fault: ImageFault) -> &'static str
    ensures { result.now ≡ image_fault_name fault }
{
    match fault {
        ImageFault::ImageLength => "ImageLength",
        ImageFault::BadGeometry => "BadGeometry",
    }
}

/// The name of a fault for which an image does not mount.
pub(crate) fn mount_fault_name(fault: MountFault) -> &'static str
    ensures { result.now ≡ mount_fault_name fault }
{
    match fault {
        MountFault::NoValidCommit => "NoValidCommit",
        MountFault::UnknownTag => "UnknownTag",
        MountFault::BadTag => "BadTag",
        MountFault::IncompleteEntry => "IncompleteEntry",
        MountFault::BadName => "BadName",
        MountFault::BadSkipList => "BadSkipList",
        MountFault::NoSuperblock => "NoSuperblock",
        MountFault::Version => "Version",
        MountFault::Geometry => "Geometry",
        MountFault::Limits => "Limits",
        MountFault::OrderFault => "OrderFault",
        MountFault::BlockRange => "BlockRange",
        MountFault::BlockTwice => "BlockTwice",
        MountFault::MissingDirectory => "MissingDirectory",
        MountFault::Orphan => "Orphan",
        MountFault::UnfinishedMove => "UnfinishedMove",
        MountFault::SuperblockElsewhere => "SuperblockElsewhere",
        MountFault::BadSize => "BadSize",
        MountFault::UnknownState => "UnknownState",
        MountFault::Memory => "Memory",
    }
}
