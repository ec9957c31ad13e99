//! What the lines of a script put, of which each file is read once.

ghost use Rattle.std.specs.Prelude.{◌≡◌, ◌<◌, ℕ, List, [], IfErr, IfOk, IfSome, IsNone, OnErr, OnOk, Option, length, slice_index_or};
ghost use Rattle.std.specs.List.{AllZip};
ghost use Rattle.lfs_exchange.specs.Handing.{IsUnread, IsUnreadBy};
ghost use Rattle.lfs_fs.specs.Limits.{most_file};
ghost use Rattle.lfs_host.specs.Files.{Files, ReadsFile};
ghost use Rattle.lfs_host.specs.HostCall.{ReadingContents};
ghost use Rattle.lfs_host.specs.Scene.{KeepsAll};
ghost use Rattle.lfs_open.specs.LineContents.{AreFilesRead, Lengthens, StandsAt, content_at};
ghost use Rattle.lfs_open.specs.LineMoves.{HandsContents, HandsLine};

use lfs_command::Command;
use lfs_exchange::read_contents;
use lfs_history::{Move, Source};
use lfs_host::Host;
use lfs_report::{Stop, stop_at};
use lfs_request::Fault;
use lfs_texts::ScriptLine;
use std::alloc::{AllocError, Global};
use std::collections::BTreeMap;
use std::marker::Model;

// ---- contents by lines

/// What the lines of a script put. The contents of a file that several lines put stand in memory once.
#[derive(Drop)]
pub struct LineContents {
    /// What was read: first nothing, for lines that put no file, then each file.
    read: Vec<Vec<u8>>,
    /// For each line, where its contents stand there.
    places: Vec<usize>,
}

impl Model for LineContents {
    ghost use Rattle.std.specs.Prelude.{ℕ, List, All, ◌<◌, length};
    ghost use Rattle.lfs_open.specs.LineContents.{contents_by};

    ghost Value = { List (List ℕ) };

    ghost view = { λ c. contents_by c.read.items c.places.items };

    ghost invariant = { λ c. All (λ k. k < length c.read.items) c.places.items };
}

impl LineContents {
    ghost use Rattle.std.specs.Prelude.{◌≡◌, ◌<◌, [], length, slice_index_or};

    /// What a line puts, by its place among the lines.
    pub fn of_line(&self, at: usize) -> &[u8]
        requires { at < length self.now }
        ensures { result.now ≡ slice_index_or self.now at [] }
    {
        &self.read[self.places[at]]
    }
}

// ---- files that are read

/// The files that were read, and where the contents of each stand.
#[derive(Drop)]
struct FilesRead<'a> {
    /// What was read: first nothing, then each file.
    read: Vec<Vec<u8>>,
    /// Where the contents of each file stand, by its name.
    places: BTreeMap<&'a str, usize>,
}

impl<'a> FilesRead<'a> {
    /// No file yet.
    fn none(alloc: Global) -> Result<FilesRead<'a>, AllocError>
        ensures { IfOk result (λ known. (files : Option Files) → AreFilesRead files known) }
    {
        let mut read = Vec::new(alloc);
        read.push(Vec::new(alloc))?;
        Ok(FilesRead {
            read,
            places: BTreeMap::new(alloc),
        })
    }

    /// Where the contents of a file stand, if it was read.
    fn find(&self, file: &str) -> Option<usize>
        ensures { IfSome result (λ k. (files : Option Files) → AreFilesRead files self.now → StandsAt files self.now.read.items file.now k) }
    {
        self.places.get(file).copied()
    }

    /// Adds a file with its contents; answers where they stand.
    fn add(&mut self, file: &'a str, contents: Vec<u8>) -> Result<usize, AllocError>
        ensures there { IfOk result (λ k. (files : Option Files) → ReadsFile files file.now most_file contents.items
            → StandsAt files self.new.read.items file.now k) }
        ensures known { OnOk result ((files : Option Files) → ReadsFile files file.now most_file contents.items
            → AreFilesRead files self.old → AreFilesRead files self.new) }
        ensures more { OnOk result (Lengthens self.old.read.items self.new.read.items) }
    {
        let place = self.read.len();
        self.read.push(contents)?;
        self.places.insert(file, place)?;
        Ok(place)
    }
}

/// The file of the host that a line puts, if it puts one.
fn file_of<'a>(line: &ScriptLine<'a>) -> Option<&'a str>
    ensures some { IfSome result (λ file. (files : Option Files) (contents : List ℕ) → ReadsFile files file.now most_file contents
        → HandsContents line.now.step files contents) }
    ensures none { IsNone result → (files : Option Files) → HandsContents line.now.step files [] }
{
    let Move::Do {
        command: Command::Put {
            bytes: Source::File(file),
            ..
        },
        ..
    } = &line.step
    else {
        return None;
    };
    Some(file)
}

/// Reads a file of the host, unless it was read; answers where its contents stand.
fn place_of<'a, H: Host>(
    alloc: Global,
    host: &mut H,
    file: &'a str,
    known: &mut FilesRead<'a>,
) -> Result<usize, Fault>
    requires { AreFilesRead (H.known host.old).files known.old }
    ensures there { IfOk result (λ k. StandsAt (H.known host.old).files known.new.read.items file.now k) }
    ensures known { OnOk result (AreFilesRead (H.known host.old).files known.new) }
    ensures more { OnOk result (Lengthens known.old.read.items known.new.read.items) }
    ensures refused { IfErr result (IsUnreadBy (ReadingContents file.now) (H.known host.new)) }
    ensures kept { KeepsAll (H.known host.old) (H.known host.new) }
{
    if let Some(place) = known.find(file) {
        return Ok(place);
    }
    let contents = read_contents(alloc, host, file)?;
    Ok(known.add(file, contents)?)
}

/// Where the contents stand that a line puts, whose file is read unless it was.
fn place_put<'a, H: Host>(
    alloc: Global,
    host: &mut H,
    line: &ScriptLine<'a>,
    known: &mut FilesRead<'a>,
) -> Result<usize, Stop>
    requires { AreFilesRead (H.known host.old).files known.old }
    ensures there { IfOk result (λ k. k < length known.new.read.items) }
    ensures hands { IfOk result (λ k. HandsContents line.now.step (H.known host.old).files (content_at known.new.read.items k)) }
    ensures known { OnOk result (AreFilesRead (H.known host.old).files known.new) }
    ensures more { OnOk result (Lengthens known.old.read.items known.new.read.items) }
    ensures refused { IfErr result (λ stop. IsUnread (H.known host.new) stop.fault) }
    ensures kept { KeepsAll (H.known host.old) (H.known host.new) }
{
    let Some(file) = file_of(line) else {
        return Ok(0);
    };
    match place_of(alloc, host, file, known) {
        Ok(place) => Ok(place),
        Err(fault) => Err(stop_at(line.number, fault, None)),
    }
}

/// What lines put. The files are read in turn, each once. Takes memory.
pub fn read_lines<H: Host>(
    alloc: Global,
    host: &mut H,
    lines: &[ScriptLine<'_>],
) -> Result<LineContents, Stop>
    ensures read { IfOk result (λ read. AllZip (HandsLine (H.known host.old).files) lines.now read) }
    ensures refused { IfErr result (λ stop. IsUnread (H.known host.new) stop.fault) }
    ensures kept { KeepsAll (H.known host.old) (H.known host.new) }
{
    let mut known = FilesRead::none(alloc)?;
    let mut places = Vec::new(alloc);
    'each: for line in lines {
        let place = place_put(alloc, host, line, &mut known)?;
        places.push(place)?;
    }
    let FilesRead { read, .. } = known;
    Ok(LineContents { read, places })
}
