//! Requests that ask.

ghost use Rattle.std.specs.Prelude.{◌≡◌};
ghost use Rattle.lfs_host.specs.MemoryFiles.{files_of};
ghost use Rattle.lfs_serve_tests.specs.Asking.{OnlyAsks};

use lfs_host::MemoryHost;
use lfs_request::Request;
use lfs_serve::served;
use std::alloc::Global;

/// Asks something of an image in memory, and answers the status. However it ends, no file changes: a law of requests on
/// files that are known. Takes memory.
pub fn ask_in_memory(alloc: Global, host: &mut MemoryHost, request: &Request<'_>) -> u8
    requires { OnlyAsks request.now.operation }
    ensures kept { files_of host.new.files ≡ files_of host.old.files }
{
    served(alloc, host, request)
}
