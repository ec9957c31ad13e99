//! Files in memory.

ghost use Rattle.std.specs.Prelude.{◌≡◌, ◌∷◌, [], None, OnOk, OnErr};
ghost use Rattle.lfs_host.specs.Files.{HasRenamed, HasWritten, StaysBut};
ghost use Rattle.lfs_host.specs.MemoryFiles.{files_of};

use crate::host_fault::HostFault;
use lfs_sink::{MemorySink, Text};
use std::alloc::{AllocError, Global};
use std::collections::BTreeMap;

/// The bytes of files, by their names.
pub type MemoryFiles = BTreeMap<String, Vec<u8>>;

/// Makes or replaces a file. Where memory is refused all stays.
pub(crate) fn put(
    alloc: Global,
    files: &mut MemoryFiles,
    name: &str,
    bytes: &[u8],
) -> Result<(), AllocError>
    ensures written { OnOk result (HasWritten name.now bytes.now (files_of files.old) (files_of files.new)) }
    ensures kept { OnErr result (files_of files.new ≡ files_of files.old) }
{
    let key = String::from_str(alloc, name)?;
    let bytes = Vec::from_slice(alloc, bytes)?;
    files.insert(key, bytes)?;
    Ok(())
}

/// Makes or replaces a file of a text. Where memory is refused all stays.
pub(crate) fn put_text<T: Text>(
    alloc: Global,
    files: &mut MemoryFiles,
    name: &str,
    text: &T,
) -> Result<(), AllocError>
    ensures written { OnOk result (HasWritten name.now (T.bytes text.now) (files_of files.old) (files_of files.new)) }
    ensures kept { OnErr result (files_of files.new ≡ files_of files.old) }
{
    let mut out = MemorySink::new(alloc);
    if !text.send_to(&mut out) {
        return Err(AllocError);
    }
    put(alloc, files, name, &out.bytes)
}

/// Takes a file away, where it is there.
pub(crate) fn take(files: &mut MemoryFiles, name: &str)
    ensures taken { files_of files.new name.now ≡ None }
    ensures kept { StaysBut (name.now ∷ []) (files_of files.old) (files_of files.new) }
{
    files.remove(name);
}

/// Gives a file another name, in place of what has it. Refused where it is not there, or has that name.
pub(crate) fn move_file(
    alloc: Global,
    files: &mut MemoryFiles,
    from: &str,
    to: &str,
) -> Result<(), HostFault>
    ensures moved { OnOk result (HasRenamed from.now to.now (files_of files.old) (files_of files.new)) }
    ensures kept { OnErr result (files_of files.new ≡ files_of files.old) }
{
    if from == to {
        return Err(HostFault);
    }
    let bytes = match files.get(from) {
        Some(bytes) => Vec::from_slice(alloc, bytes.as_slice()).map_err(|_| HostFault)?,
        None => return Err(HostFault),
    };
    put(alloc, files, to, bytes.as_slice()).map_err(|_| HostFault)?;
    take(files, from);
    Ok(())
}
