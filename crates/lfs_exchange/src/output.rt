//! Standard output as a sink.

ghost use Rattle.std.specs.Prelude.{◌≡◌, false, true};

use lfs_host::{Host, HostFault};
use lfs_sink::Sink;

/// A host's standard output as a sink: what went out is what the host printed. No write changes which host it is, its files, what is
/// left on its standard input, what was made, which names are claimed, and that it has failed only if the host has refused to print.
#[derive(Drop)]
pub struct Output<'a, H> {
    host: &'a mut H,
    has_failed: bool,
}

impl<'a, H: Host> Output<'a, H> {
    /// The standard output of a host, which has not failed.
    pub fn new(host: &'a mut H) -> Output<'a, H>
        ensures sent { ⟦<Output<'a, H> as Sink>⟧.sent result ≡ (H.known host.old).printed }
        ensures failed { ⟦<Output<'a, H> as Sink>⟧.failed result ≡ false }
        ensures kept { ⟦<Output<'a, H> as Sink>⟧.kept result ≡ (
          host.entry.ghost_name,
          (H.known host.old).files,
          (H.known host.old).typed,
          (H.known host.old).made,
          (H.known host.old).claimed,
          true,
        ) }
    {
        Output {
            host,
            has_failed: false,
        }
    }
}

impl<H: Host> Sink for Output<'_, H> {
    ghost use Rattle.std.specs.Prelude.{ℕ, Bool, List, Option};
    ghost use base.Fml.{GName};
    ghost use Rattle.lfs_host.specs.Files.{Files};
    ghost use Rattle.lfs_host.specs.NewFolder.{Made};
    ghost use Rattle.lfs_host.specs.HostCall.{Printing};
    ghost use Rattle.lfs_host.specs.Scene.{is_blamed};

    ghost sent = { λ output. (H.known output.host.now).printed };

    ghost failed = { λ output. output.has_failed };

    ghost Kept = { GName × Option Files × Option (List ℕ) × Option (List Made) × Option (List (List ℕ)) × Bool };

    ghost kept = { λ output. (
      output.host.ghost_name,
      (H.known output.host.now).files,
      (H.known output.host.now).typed,
      (H.known output.host.now).made,
      (H.known output.host.now).claimed,
      is_blamed output.has_failed (H.known output.host.now).refused Printing,
    ) };

    fn write(&mut self, bytes: &[u8]) -> Option<usize> {
        let count = self.host.print(bytes);
        self.has_failed = count.is_none();
        count
    }
}
