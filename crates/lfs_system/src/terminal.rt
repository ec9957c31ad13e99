//! The system as a host.

use crate::files::{
    locked, must_be_new, name_anew, opened, opened_contents, replace, settle, stays, sync_folder,
    written,
};
use crate::folders::{is_below, is_other};
use crate::open_folders::OpenFolders;
use crate::plain::Plain;
use crate::standard::{Closed, is_closed};
use lfs_block::MAX_IMAGE_LENGTH;
use lfs_host::{
    Folders, Host, HostFault, HostKind, Known, ListFault, Lock, MakeFault, NewFolder, ReadFault,
    Told,
};
use lfs_sink::{Out, Sink, Text, write_later, write_rest};
use std::alloc::{AllocError, Global};
use std::fmt::Display;
use std::fs::{self, File};
use std::io::{self, ErrorKind, IsTerminal, Printer, Read, Seek, SeekFrom};

/// What the system refused.
#[derive(Clone, Copy)]
enum Subject {
    /// The image's file, or to give it another name.
    Image,
    /// The journal's, or to give it another name.
    Journal,
    /// Something in a folder, or the folder.
    Entry,
    /// A file that is being made in a new folder.
    Making,
    /// To read standard input.
    Input,
    /// To print.
    Output,
}

/// The system's files, standard output and standard error.
#[derive(Drop)]
pub struct Terminal<'a> {
    rt: &'a HostRuntime,
    /// Whether what is reported on standard error is told in JSON.
    in_json: bool,
    /// What stands in the place of a standard file that is closed.
    closed: Closed,
    out: Out<Printer<'a, HostRuntime>>,
    /// The image's file, whose lock this run holds.
    image: Option<File>,
    /// The file of an image that was read last. While it is open, no other file has its number.
    read: Option<File>,
    /// The first new file, whose lock this run holds: as long as it is there, no other run makes new files of the same image.
    new_file: Option<File>,
    /// Whether a new image is written, and has no place yet.
    image_waits: bool,
    /// The folders on the way to what is read or made in one.
    folders: OpenFolders,
    /// The file that is being made in a new folder.
    making: Option<File>,
    /// What waits to be written to it.
    waiting: Vec<u8>,
    /// What the system said when it refused something last.
    said: Option<io::Error>,
    /// What that was about.
    subject: Subject,
    /// The name of what is in a folder, where it was that.
    entry: String,
}

impl<'a> Terminal<'a> {
    /// The host that the runtime stands for, on whose standard error all is told in JSON or as it is. No file of the program is open yet.
    pub fn new(rt: &'a HostRuntime, in_json: bool) -> Terminal<'a> {
        Terminal {
            rt,
            in_json,
            closed: Closed::new(rt),
            out: Out::new(io::writer(rt)),
            image: None,
            read: None,
            new_file: None,
            image_waits: false,
            folders: OpenFolders::new(rt.alloc()),
            making: None,
            waiting: Vec::new(rt.alloc()),
            said: None,
            subject: Subject::Image,
            entry: String::new(rt.alloc()),
        }
    }

    /// Keeps what was refused of something in a folder.
    fn note_entry(&mut self, name: &str, error: io::Error) -> Result<(), AllocError> {
        self.entry = name.to_string(self.rt.alloc())?;
        self.subject = Subject::Entry;
        self.said = Some(error);
        Ok(())
    }

    /// What was refused of something in a new folder, which is kept, with its name where there is memory for it.
    fn refused_entry(&mut self, name: &str, error: io::Error) -> HostFault {
        self.subject = Subject::Making;
        if let Ok(entry) = name.to_string(self.rt.alloc()) {
            self.entry = entry;
            self.subject = Subject::Entry;
        }
        self.refused(error)
    }

    /// What an error of making something in a new folder means, which is kept, with its name where there is memory for it.
    fn make_fault(&mut self, name: &str, error: io::Error) -> MakeFault {
        let fault = if is_of_name(&error) {
            MakeFault::Name
        } else {
            MakeFault::Other
        };
        let _ = self.refused_entry(name, error);
        fault
    }

    /// What an error of reading something in a folder means, which is kept.
    fn entry_fault(&mut self, name: &str, error: io::Error) -> ReadFault {
        if error.kind() == ErrorKind::OutOfMemory {
            return ReadFault::Memory;
        }
        match self.note_entry(name, error) {
            Ok(()) => ReadFault::CannotRead,
            Err(_) => ReadFault::Memory,
        }
    }

    /// What an error of reading means, which is kept.
    fn read_fault(&mut self, error: io::Error) -> ReadFault {
        if error.kind() == ErrorKind::OutOfMemory {
            return ReadFault::Memory;
        }
        self.said = Some(error);
        ReadFault::CannotRead
    }

    /// Writes a text to standard error, in JSON by its alternate form, otherwise without control characters.
    fn write_report<D: Display + Drop>(&self, text: D) {
        let _ = if self.in_json {
            self.rt.eprint(format_args!("{text:#}"))
        } else {
            self.rt.eprint(Plain { text })
        };
    }

    /// Reports what the system said of something, where it said something.
    fn report_error<D: Display + Drop>(&self, name: D, said: Option<&io::Error>) {
        if let Some(error) = said {
            self.write_report(Told {
                of: name,
                text: error,
            });
        }
    }

    /// The bytes of a file in a folder, `most` of them and one more at most.
    fn entry_bytes(&mut self, alloc: Global, name: &str, most: u64) -> io::Result<Vec<u8>> {
        bytes_from(alloc, &mut self.folders.open(self.rt, name)?, 0, most)
    }

    /// What was refused, which is kept.
    fn refused(&mut self, error: io::Error) -> HostFault {
        self.said = Some(error);
        HostFault
    }
}

/// What a new file is to become: the image that it has the rights of, or that image's journal.
fn subject_of(name: &str, image: &str) -> Subject {
    match name.strip_prefix(image) {
        Some(".new") => Subject::Image,
        _ => Subject::Journal,
    }
}

/// The name of the file that a name leads to.
fn target_of(rt: &HostRuntime, alloc: Global, name: &str) -> io::Result<String> {
    match fs::symlink_metadata(rt, name) {
        Ok(found) if found.is_symlink() => Ok(fs::canonicalize(rt, name)?.into_string()),
        Ok(_) => Ok(name.to_string(alloc)?),
        Err(error) if error.kind() == ErrorKind::NotFound => Ok(name.to_string(alloc)?),
        Err(error) => Err(error),
    }
}

/// The bytes of a file that says how many it has, `most` of them and one more at most. Room for as many as it says is made at once, so that
/// they aren't moved as they come.
fn bytes_in(alloc: Global, file: &File, len: u64, most: u64) -> io::Result<Vec<u8>> {
    let mut bytes = Vec::with_capacity(alloc, len.min(most) as usize)?;
    file.take(most.saturating_add(1)).read_to_end(&mut bytes)?;
    Ok(bytes)
}

/// The bytes of a file from a place on, `most` of them and one more at most; none where the place is behind its end.
fn bytes_from(alloc: Global, file: &mut File, place: u64, most: u64) -> io::Result<Vec<u8>> {
    let len = file.metadata()?.len();
    let place = place.min(len);
    if place > 0 {
        file.seek(SeekFrom::Start(place))?;
    }
    bytes_in(alloc, file, len - place, most)
}

/// The bytes of the file that a name leads to, from a place on, `most` of them and one more at most, and the file.
fn read_bytes(
    rt: &HostRuntime,
    alloc: Global,
    name: &str,
    place: u64,
    most: u64,
) -> io::Result<(Vec<u8>, File)> {
    let mut file = opened(rt, name)?;
    let bytes = bytes_from(alloc, &mut file, place, most)?;
    Ok((bytes, file))
}

/// The bytes of a file whose contents are put, `most` of them and one more at most.
fn contents_of(rt: &HostRuntime, alloc: Global, name: &str, most: u64) -> io::Result<Vec<u8>> {
    let (file, len) = opened_contents(rt, name)?;
    bytes_in(alloc, &file, len, most)
}

/// Tells that standard input is read where somebody types there, who may not know it.
fn announce_typing(rt: &HostRuntime) {
    if rt.stdin().is_terminal() {
        let _ = rt.eprint("lfsed: reads from standard input, up to its end (Ctrl-D)\n");
    }
}

/// The bytes of standard input, `most` of them and one more at most.
fn input_of(rt: &HostRuntime, alloc: Global, most: u64) -> io::Result<Vec<u8>> {
    let mut bytes = Vec::new(alloc);
    rt.reader()
        .take(most.saturating_add(1))
        .read_to_end(&mut bytes)?;
    Ok(bytes)
}

/// Why a folder isn't listed.
fn list_fault(error: &io::Error) -> ListFault {
    match error.kind() {
        ErrorKind::OutOfMemory => ListFault::Memory,
        ErrorKind::InvalidFilename => ListFault::NotText,
        _ => ListFault::CannotRead,
    }
}

/// Linux's number for a name whose bytes a file system doesn't take.
const NO_SUCH_BYTES: i32 = 84;

/// Whether an error is one of a name: another one might be taken in its place.
fn is_of_name(error: &io::Error) -> bool {
    match error.kind() {
        ErrorKind::AlreadyExists | ErrorKind::InvalidFilename | ErrorKind::InvalidInput => true,
        _ => error.raw_os_error() == Some(NO_SUCH_BYTES),
    }
}

impl Known for Terminal<'_> {}

impl Folders for Terminal<'_> {
    fn kind(&mut self, name: &str) -> Result<HostKind, ReadFault> {
        match self.folders.kind(self.rt, name) {
            Ok(HostKind::Other) => match self.note_entry(name, is_other()) {
                Ok(()) => Ok(HostKind::Other),
                Err(_) => Err(ReadFault::Memory),
            },
            Ok(kind) => Ok(kind),
            Err(error) => Err(self.entry_fault(name, error)),
        }
    }

    fn list(&mut self, alloc: Global, name: &str) -> Result<Vec<String>, ListFault> {
        match self.folders.list(self.rt, alloc, name) {
            Ok(names) => Ok(names),
            Err(error) => {
                let fault = list_fault(&error);
                match self.note_entry(name, error) {
                    Ok(()) => Err(fault),
                    Err(_) => Err(ListFault::Memory),
                }
            }
        }
    }

    fn read_entry(&mut self, alloc: Global, name: &str, most: u64) -> Result<Vec<u8>, ReadFault> {
        self.entry_bytes(alloc, name, most)
            .map_err(|error| self.entry_fault(name, error))
    }
}

impl NewFolder for Terminal<'_> {
    fn make_folder(&mut self, name: &str) -> Result<(), MakeFault> {
        match self.folders.make(self.rt, name) {
            Ok(()) => {
                self.said = None;
                Ok(())
            }
            Err(error) => Err(self.make_fault(name, error)),
        }
    }

    fn begin_file(&mut self, name: &str) -> Result<(), MakeFault> {
        match self.folders.create(self.rt, name) {
            Ok(file) => {
                self.said = None;
                self.making = Some(file);
                self.waiting.clear();
                Ok(())
            }
            Err(error) => Err(self.make_fault(name, error)),
        }
    }

    fn fill(&mut self, bytes: &[u8]) -> Option<usize> {
        let Some(file) = &mut self.making else {
            return None;
        };
        match write_later(bytes, &mut self.waiting, file) {
            Ok(count) => Some(count),
            Err(error) => {
                self.subject = Subject::Making;
                self.said = Some(error);
                None
            }
        }
    }

    fn end_file(&mut self, name: &str) -> Result<(), HostFault> {
        let Some(mut file) = self.making.take() else {
            return Err(HostFault);
        };
        write_rest(&mut self.waiting, &mut file).map_err(|error| self.refused_entry(name, error))
    }
}

impl Host for Terminal<'_> {
    fn target(&mut self, alloc: Global, name: &str) -> Result<String, ReadFault> {
        target_of(self.rt, alloc, name).map_err(|error| self.read_fault(error))
    }

    fn lock(&mut self, name: &str) -> Result<Lock, HostFault> {
        let error = match locked(self.rt, name) {
            Ok(file) => {
                self.image = Some(file);
                return Ok(Lock::Held);
            }
            Err(error) => error,
        };
        let kind = error.kind();
        self.said = Some(error);
        match kind {
            ErrorKind::ResourceBusy => Ok(Lock::HeldByAnother),
            ErrorKind::NotFound => Ok(Lock::NoFile),
            _ => Err(HostFault),
        }
    }

    fn must_be_new(&mut self, name: &str) -> Result<(), HostFault> {
        must_be_new(self.rt, name).map_err(|error| self.refused(error))
    }

    fn is_below(&mut self, name: &str, folder: &str) -> bool {
        is_below(self.rt, name, folder).unwrap_or(false)
    }

    fn stays(&mut self, name: &str) -> bool {
        match &self.read {
            Some(file) => stays(self.rt, name, file).unwrap_or(true),
            None => true,
        }
    }

    fn read(
        &mut self,
        alloc: Global,
        name: &str,
        place: u64,
        most: u64,
    ) -> Result<Vec<u8>, ReadFault> {
        match read_bytes(self.rt, alloc, name, place, most) {
            Ok((bytes, file)) => {
                self.read = Some(file);
                Ok(bytes)
            }
            Err(error) => Err(self.read_fault(error)),
        }
    }

    fn find(&mut self, alloc: Global, name: &str, most: u64) -> Result<Vec<u8>, ReadFault> {
        match read_bytes(self.rt, alloc, name, 0, most) {
            Ok((bytes, _file)) => Ok(bytes),
            Err(error) if error.kind() == ErrorKind::NotFound => Ok(Vec::new(alloc)),
            Err(error) => {
                self.subject = Subject::Journal;
                Err(self.read_fault(error))
            }
        }
    }

    fn read_contents(
        &mut self,
        alloc: Global,
        name: &str,
        most: u64,
    ) -> Result<Vec<u8>, ReadFault> {
        contents_of(self.rt, alloc, name, most).map_err(|error| self.entry_fault(name, error))
    }

    fn input(&mut self, alloc: Global, most: u64) -> Result<Vec<u8>, ReadFault> {
        let read = if self.closed.is_input() {
            Err(is_closed())
        } else {
            announce_typing(self.rt);
            input_of(self.rt, alloc, most)
        };
        read.map_err(|error| {
            self.subject = Subject::Input;
            self.read_fault(error)
        })
    }

    fn write<T: Text>(&mut self, name: &str, text: &T, like: &str) -> Result<(), HostFault> {
        self.subject = subject_of(name, like);
        match written(self.rt, name, text, like) {
            Ok(file) => {
                self.image_waits = self.image_waits || matches!(self.subject, Subject::Image);
                self.new_file.get_or_insert(file);
                Ok(())
            }
            Err(error) => Err(self.refused(error)),
        }
    }

    fn rename(&mut self, from: &str, to: &str) -> Result<(), HostFault> {
        self.subject = Subject::Image;
        let renamed = match self.image {
            Some(_) => replace(self.rt, from, to),
            None => name_anew(self.rt, from, to),
        };
        renamed.map_err(|error| self.refused(error))?;
        sync_folder(self.rt, to);
        Ok(())
    }

    fn settle(&mut self, from: &str, to: &str) -> Result<(), HostFault> {
        self.subject = Subject::Journal;
        settle(self.rt, from, to).map_err(|error| self.refused(error))?;
        if !self.image_waits {
            sync_folder(self.rt, to);
        }
        Ok(())
    }

    fn remove(&mut self, name: &str) {
        let _ = fs::remove_file(self.rt, name);
    }

    fn print(&mut self, bytes: &[u8]) -> Option<usize> {
        if self.out.has_failed() {
            return None;
        }
        let count = self.out.write(bytes);
        if count.is_none() {
            self.subject = Subject::Output;
        }
        count
    }

    fn flush(&mut self) -> Result<(), HostFault> {
        if self.out.flush() {
            Ok(())
        } else {
            self.subject = Subject::Output;
            Err(HostFault)
        }
    }

    fn report<D: Display + Drop>(&mut self, text: D) {
        self.write_report(text);
    }

    fn report_refused(&mut self, image: &str) {
        match self.subject {
            Subject::Image => self.report_error(image, self.said.as_ref()),
            Subject::Journal => {
                let journal = format_args!("the journal of {image}");
                self.report_error(journal, self.said.as_ref());
            }
            Subject::Entry => self.report_error(self.entry.as_str(), self.said.as_ref()),
            Subject::Making => self.report_error("a file in the new folder", self.said.as_ref()),
            Subject::Input => self.report_error("standard input", self.said.as_ref()),
            Subject::Output => self.report_error("standard output", self.out.error()),
        }
    }
}
