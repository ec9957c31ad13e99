//! The file that is being made, as a sink.

ghost use Rattle.std.specs.Prelude.{◌≡◌, false, true};
ghost use Rattle.lfs_host.specs.NewFolder.{bytes_filled, made_before};

use lfs_host::NewFolder;
use lfs_sink::Sink;

/// The file that a host is making, as a sink: what went out is what was written to the file. No write changes which host it is, what
/// was made before, files, standard input and what was printed, and that it has failed only if the host has refused to write.
#[derive(Drop)]
pub(crate) struct FileSink<'a, F> {
    folder: &'a mut F,
    has_failed: bool,
}

impl<'a, F: NewFolder> FileSink<'a, F> {
    /// The file that a host is making, which has not failed.
    pub(crate) fn new(folder: &'a mut F) -> FileSink<'a, F>
        ensures sent { ⟦<FileSink<'a, F> as Sink>⟧.sent result ≡ bytes_filled (F.known folder.old).made }
        ensures failed { ⟦<FileSink<'a, F> as Sink>⟧.failed result ≡ false }
        ensures kept { ⟦<FileSink<'a, F> as Sink>⟧.kept result ≡ (
          folder.entry.ghost_name,
          made_before (F.known folder.old).made,
          (F.known folder.old).files,
          (F.known folder.old).typed,
          (F.known folder.old).printed,
          true,
        ) }
    {
        FileSink {
            folder,
            has_failed: false,
        }
    }
}

impl<F: NewFolder> Sink for FileSink<'_, F> {
    ghost use Rattle.std.specs.Prelude.{ℕ, Bool, List, Option};
    ghost use base.Fml.{GName};
    ghost use Rattle.lfs_host.specs.Files.{Files};
    ghost use Rattle.lfs_host.specs.HostCall.{FillingFile};
    ghost use Rattle.lfs_host.specs.NewFolder.{Made, bytes_filled, made_before};
    ghost use Rattle.lfs_host.specs.Scene.{is_blamed};

    ghost sent = { λ sink. bytes_filled (F.known sink.folder.now).made };

    ghost failed = { λ sink. sink.has_failed };

    ghost Kept = { GName × Option (List Made) × Option Files × Option (List ℕ) × Option (List ℕ) × Bool };

    ghost kept = { λ sink. (
      sink.folder.ghost_name,
      made_before (F.known sink.folder.now).made,
      (F.known sink.folder.now).files,
      (F.known sink.folder.now).typed,
      (F.known sink.folder.now).printed,
      is_blamed sink.has_failed (F.known sink.folder.now).refused FillingFile,
    ) };

    fn write(&mut self, bytes: &[u8]) -> Option<usize> {
        let count = self.folder.fill(bytes);
        self.has_failed = count.is_none();
        count
    }
}
