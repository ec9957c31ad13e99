//! What a step is handed of a host.

ghost use Rattle.std.specs.Prelude.{◌≡◌, ◌⊎◌, IfErr, IfOk, OnOk, string_bytes, true};
ghost use Rattle.lfs_journal.specs.Book.{most_journal};
ghost use Rattle.lfs_request.specs.declared.fault.Fault.TheVariants.{CannotRead, CannotWrite, Other};
ghost use Rattle.lfs_request.specs.declared.other_fault.OtherFault.TheVariants as other;
ghost use Rattle.lfs_fs.specs.Limits.{most_file};
ghost use Rattle.lfs_host.specs.Files.{FindsFile, IsMissing, IsTarget, ReadsFile, ReadsFrom, ReadsInput};
ghost use Rattle.lfs_host.specs.HostCall.{Finding, ReadingContents, ReadingInput, Sparing};
ghost use Rattle.lfs_host.specs.Scene.{HasClaimed, HasRefused, IsCovered, KeepsAll, KeepsOutput, KeepsSeen, KeepsTally};
ghost use Rattle.lfs_exchange.specs.Handing.{HandsImage, HandsInput, HandsJournal, HandsQuestion, HandsSource, IsClaimed, IsHanded, IsNotAimed, IsNotLocked};
ghost use Rattle.lfs_exchange.specs.Handing.{IsChanging, IsNotTakenUp, IsOtherUnread, IsQueryUnread, IsUnreadBy, IsUnreadFor, input_call, source_call, LeavesInput, LeavesSource, fault_at, fault_of_reading, most_image};
ghost use Rattle.lfs_exchange.specs.declared.step_kind.StepKind.TheVariants.{Makes};
ghost use Rattle.lfs_exchange.specs.Storing.{journal_name};

use crate::names::journal_name;
use crate::step_kind::StepKind;
use lfs_block::MAX_IMAGE_LENGTH;
use lfs_command::{Command, Refusal};
use lfs_fs::MOST_FILE;
use lfs_history::{Move, Source};
use lfs_host::{Host, Lock, ReadFault};
use lfs_journal::MAX_JOURNAL_LENGTH;
use lfs_request::{Fault, OtherFault, Query};
use std::alloc::Global;

/// How often the files of an image are read again that other runs replace meanwhile.
const MOST_READINGS: u32 = 1_000;

/// An image's files, as a step is handed them.
#[derive(Drop)]
pub struct Handed {
    /// What the step is to them.
    pub kind: StepKind,
    /// The name of the file that the image's name leads to.
    pub target: String,
    /// The image's bytes.
    pub image: Vec<u8>,
    /// The journal's bytes.
    pub journal: Vec<u8>,
}

/// What a step of a kind is handed of the files of the image of this name, which is locked for this run where it is to be changed or
/// replaced: the image's file, from a place on, before its journal. Takes memory.
pub fn taken_up<H: Host>(
    alloc: Global,
    host: &mut H,
    kind: StepKind,
    place: u64,
    name: &str,
) -> Result<Handed, Fault>
    ensures kind { IfOk result (λ h. h.kind ≡ kind) }
    ensures target { IfOk result (λ h. IsTarget (H.known host.new).files name.now (string_bytes h.target)) }
    ensures claimed { IfOk result (λ h. IsClaimed h.kind (H.known host.new) (string_bytes h.target)) }
    ensures handed { IfOk result (λ h. IsHanded h.kind place name.now (H.known host.new) (record { image = h.image.items; journal = h.journal.items })) }
    ensures refused { IfErr result (IsNotTakenUp kind (H.known host.new) name.now) }
    ensures tally { IsChanging kind → KeepsTally (H.known host.old) (H.known host.new) }
    ensures kept { KeepsSeen (H.known host.old) (H.known host.new) }
{
    let target = aimed(alloc, host, kind, name)?;
    let (image, journal) = steady_files(alloc, host, kind, place, target.as_str())?;
    Ok(Handed {
        kind,
        target,
        image,
        journal,
    })
}

/// The bytes of an image's file, from a place on, and then of its journal. Of files that this run hasn't locked, both are read again as long
/// as another run replaces the image meanwhile, so that they are of one state.
fn steady_files<H: Host>(
    alloc: Global,
    host: &mut H,
    kind: StepKind,
    place: u64,
    name: &str,
) -> Result<(Vec<u8>, Vec<u8>), Fault>
    ensures image { IfOk result (λ read. HandsImage kind place (H.known host.old).files name.now read.0.items) }
    ensures journal { IfOk result (λ read. HandsJournal kind (H.known host.old).files name.now read.1.items) }
    ensures tally { HasClaimed (H.known host.old) name.now → KeepsTally (H.known host.old) (H.known host.new) }
    ensures refused { IfErr result (IsUnreadFor kind (H.known host.new) name.now) }
    ensures kept { KeepsAll (H.known host.old) (H.known host.new) }
{
    let mut read = read_files(alloc, host, kind, place, name)?;
    for _ in 0..MOST_READINGS {
        if !is_unlocked(kind) || host.stays(name) {
            return Ok(read);
        }
        read = read_files(alloc, host, kind, place, name)?;
    }
    Ok(read)
}

/// Whether two files are read for a step whose image this run doesn't lock.
fn is_unlocked(kind: StepKind) -> bool {
    matches!(kind, StepKind::Recounts)
}

/// The bytes of an image's file, from a place on, and then of its journal.
fn read_files<H: Host>(
    alloc: Global,
    host: &mut H,
    kind: StepKind,
    place: u64,
    name: &str,
) -> Result<(Vec<u8>, Vec<u8>), Fault>
    ensures image { IfOk result (λ read. HandsImage kind place (H.known host.old).files name.now read.0.items) }
    ensures journal { IfOk result (λ read. HandsJournal kind (H.known host.old).files name.now read.1.items) }
    ensures tally { HasClaimed (H.known host.old) name.now → KeepsTally (H.known host.old) (H.known host.new) }
    ensures refused { IfErr result (IsUnreadFor kind (H.known host.new) name.now) }
    ensures kept { KeepsAll (H.known host.old) (H.known host.new) }
{
    let image = read_image(alloc, host, kind, place, name)?;
    let journal = journal_of(alloc, host, kind, name)?;
    Ok((image, journal))
}

/// The file that a name leads to, locked for this run where it is to be changed or replaced.
fn aimed<H: Host>(alloc: Global, host: &mut H, kind: StepKind, name: &str) -> Result<String, Fault>
    ensures target { IfOk result (λ target. IsTarget (H.known host.old).files name.now (string_bytes target)) }
    ensures claimed { IfOk result (λ target. IsClaimed kind (H.known host.new) (string_bytes target)) }
    ensures refused { IfErr result (IsNotAimed kind (H.known host.new) name.now) }
    ensures tally { KeepsTally (H.known host.old) (H.known host.new) }
    ensures kept { KeepsSeen (H.known host.old) (H.known host.new) }
{
    let target = match host.target(alloc, name) {
        Ok(target) => target,
        Err(fault) => return Err(fault_at(kind, fault)),
    };
    match kind {
        StepKind::Asks | StepKind::Recounts => {}
        StepKind::Makes | StepKind::Changes | StepKind::Forgets | StepKind::Adopts => {
            lock(host, kind, target.as_str())?
        }
    }
    Ok(target)
}

/// Claims the name of an image's file for this run. One that is made need not be there.
fn lock<H: Host>(host: &mut H, kind: StepKind, name: &str) -> Result<(), Fault>
    ensures claimed { OnOk result (HasClaimed (H.known host.new) name.now) }
    ensures refused { IfErr result (IsNotLocked kind (H.known host.new) name.now) }
    ensures tally { KeepsTally (H.known host.old) (H.known host.new) }
    ensures kept { KeepsSeen (H.known host.old) (H.known host.new) }
{
    match host.lock(name) {
        Ok(Lock::Held) => Ok(()),
        Ok(Lock::NoFile) => must_be_there(kind),
        Ok(Lock::HeldByAnother) => Err(Fault::CannotWrite),
        Err(_) => Err(fault_at(kind, ReadFault::CannotRead)),
    }
}

/// Refuses an image that isn't there, unless it is made.
fn must_be_there(kind: StepKind) -> Result<(), Fault>
    ensures { IfErr result (λ fault. (fault ≡ CannotRead) × ¬ (kind ≡ Makes)) }
{
    match kind {
        StepKind::Makes => Ok(()),
        StepKind::Asks
        | StepKind::Recounts
        | StepKind::Changes
        | StepKind::Forgets
        | StepKind::Adopts => Err(Fault::CannotRead),
    }
}

/// Refuses a name under which something is, where an image is asked for that is new.
pub fn spare<H: Host>(host: &mut H, is_new: bool, name: &str) -> Result<(), Fault>
    ensures missing { OnOk result (is_new ≡ true → IsMissing (H.known host.old).files name.now) }
    ensures same { OnOk result (H.known host.new ≡ H.known host.old) }
    ensures refused { IfErr result (λ fault. (is_new ≡ true) × (fault ≡ CannotWrite) × HasRefused (H.known host.new) (Sparing name.now)) }
    ensures kept { KeepsAll (H.known host.old) (H.known host.new) }
{
    if is_new && host.must_be_new(name).is_err() {
        return Err(Fault::CannotWrite);
    }
    Ok(())
}

/// The bytes of an image's file from a place on, and one more than an image has where there are more; none where the image is made.
fn read_image<H: Host>(
    alloc: Global,
    host: &mut H,
    kind: StepKind,
    place: u64,
    name: &str,
) -> Result<Vec<u8>, Fault>
    ensures image { IfOk result (λ bytes. HandsImage kind place (H.known host.old).files name.now bytes.items) }
    ensures tally { HasClaimed (H.known host.old) name.now → KeepsTally (H.known host.old) (H.known host.new) }
    ensures refused { IfErr result (IsUnreadFor kind (H.known host.new) name.now) }
    ensures kept { KeepsAll (H.known host.old) (H.known host.new) }
{
    if let StepKind::Makes = kind {
        return Ok(Vec::new(alloc));
    }
    match host.read(alloc, name, place, MAX_IMAGE_LENGTH) {
        Ok(bytes) => Ok(bytes),
        Err(fault) => Err(fault_of_reading(fault)),
    }
}

/// The bytes of a journal's file, where the step reads one and it is there.
fn journal_of<H: Host>(
    alloc: Global,
    host: &mut H,
    kind: StepKind,
    name: &str,
) -> Result<Vec<u8>, Fault>
    ensures journal { IfOk result (λ bytes. HandsJournal kind (H.known host.old).files name.now bytes.items) }
    ensures tally { HasClaimed (H.known host.old) name.now → KeepsTally (H.known host.old) (H.known host.new) }
    ensures refused { IfErr result (IsUnreadFor kind (H.known host.new) name.now) }
    ensures kept { KeepsAll (H.known host.old) (H.known host.new) }
{
    match kind {
        StepKind::Changes | StepKind::Recounts | StepKind::Adopts => {
            find_journal(alloc, host, name)
        }
        _ => Ok(Vec::new(alloc)),
    }
}

/// The bytes of the journal of an image's file; none where there is no such journal.
fn find_journal<H: Host>(alloc: Global, host: &mut H, name: &str) -> Result<Vec<u8>, Fault>
    ensures journal { IfOk result (λ bytes. FindsFile (H.known host.old).files (journal_name name.now) most_journal bytes.items) }
    ensures tally { HasClaimed (H.known host.old) name.now → KeepsTally (H.known host.old) (H.known host.new) }
    ensures refused { IfErr result (IsUnreadBy (Finding (journal_name name.now)) (H.known host.new)) }
    ensures kept { KeepsAll (H.known host.old) (H.known host.new) }
{
    let journal = journal_name(alloc, name)?;
    match host.find(alloc, journal.as_str(), MAX_JOURNAL_LENGTH) {
        Ok(bytes) => Ok(bytes),
        Err(fault) => Err(fault_of_reading(fault)),
    }
}

/// What is read for a step on a history: the contents that it puts, of a file of the host or on standard input. Takes memory.
pub fn input_of<H: Host>(
    alloc: Global,
    host: &mut H,
    step: &Move<'_, Source<'_>>,
) -> Result<Vec<u8>, Fault>
    ensures input { IfOk result (λ input. HandsInput step.now (H.known host.old).files (H.known host.old).typed input.items) }
    ensures refused { IfErr result (IsUnreadBy (input_call step.now) (H.known host.new)) }
    ensures unread { LeavesInput step.now (H.known host.old) (H.known host.new) }
    ensures kept { KeepsOutput (H.known host.old) (H.known host.new) }
{
    let Move::Do {
        command: Command::Put { bytes, .. },
        ..
    } = step
    else {
        return Ok(Vec::new(alloc));
    };
    source_read(alloc, host, bytes)
}

/// What is read of a source of contents: a file of the host, or standard input; nothing of bytes that are said. Takes memory.
pub fn source_read<H: Host>(
    alloc: Global,
    host: &mut H,
    source: &Source<'_>,
) -> Result<Vec<u8>, Fault>
    ensures input { IfOk result (λ input. HandsSource source.now (H.known host.old).files (H.known host.old).typed input.items) }
    ensures refused { IfErr result (IsUnreadBy (source_call source.now) (H.known host.new)) }
    ensures unread { LeavesSource source.now (H.known host.old) (H.known host.new) }
    ensures kept { KeepsOutput (H.known host.old) (H.known host.new) }
{
    match source {
        Source::Input => read_input(alloc, host),
        Source::File(name) => read_contents(alloc, host, name),
        Source::Said(_) => Ok(Vec::new(alloc)),
    }
}

/// A query with its other image in hand, whose file is read. Takes memory.
pub fn question_of<'a, H: Host>(
    alloc: Global,
    host: &mut H,
    query: &Query<'a, &'a str>,
) -> Result<Query<'a, Vec<u8>>, Fault>
    ensures question { IfOk result (HandsQuestion (H.known host.old).files query.now) }
    ensures refused { IfErr result (IsQueryUnread query.now (H.known host.new)) }
    ensures kept { KeepsAll (H.known host.old) (H.known host.new) }
{
    match *query {
        Query::Check { version, most } => Ok(Query::Check { version, most }),
        Query::Ls { path, digests } => Ok(Query::Ls { path, digests }),
        Query::Blocks { sums } => Ok(Query::Blocks { sums }),
        Query::Cat { path } => Ok(Query::Cat { path }),
        Query::Diff { other, size, quiet } => Ok(Query::Diff {
            other: read_other(alloc, host, 0, other)?,
            size,
            quiet,
        }),
        Query::Log => Ok(Query::Log),
    }
}

/// The contents of a file of the host, as those of one that is put. Takes memory.
pub fn read_contents<H: Host>(alloc: Global, host: &mut H, name: &str) -> Result<Vec<u8>, Fault>
    ensures input { IfOk result (λ input. ReadsFile (H.known host.old).files name.now most_file input.items) }
    ensures refused { IfErr result (IsUnreadBy (ReadingContents name.now) (H.known host.new)) }
    ensures kept { KeepsAll (H.known host.old) (H.known host.new) }
{
    match host.read_contents(alloc, name, u64::from(MOST_FILE)) {
        Ok(bytes) => Ok(bytes),
        Err(fault) => Err(fault_of_reading(fault)),
    }
}

/// What is left on standard input, as the contents of a file that is put. Takes memory.
pub fn read_input<H: Host>(alloc: Global, host: &mut H) -> Result<Vec<u8>, Fault>
    ensures input { IfOk result (λ input. ReadsInput (H.known host.old).typed most_file input.items) }
    ensures refused { IfErr result (IsUnreadBy ReadingInput (H.known host.new)) }
    ensures kept { KeepsOutput (H.known host.old) (H.known host.new) }
{
    match host.input(alloc, u64::from(MOST_FILE)) {
        Ok(bytes) => Ok(bytes),
        Err(fault) => Err(fault_of_reading(fault)),
    }
}

/// The bytes of the file of an image that another is compared with, or made of, from a place on, and one more than an image has where
/// there are more. Takes memory.
pub fn read_other<H: Host>(
    alloc: Global,
    host: &mut H,
    place: u64,
    name: &str,
) -> Result<Vec<u8>, Fault>
    ensures bytes { IfOk result (λ bytes. ReadsFrom (H.known host.old).files name.now place most_image bytes.items) }
    ensures refused { IfErr result (IsOtherUnread (H.known host.new) name.now) }
    ensures tally { IsCovered (H.known host.old) name.now → KeepsTally (H.known host.old) (H.known host.new) }
    ensures kept { KeepsAll (H.known host.old) (H.known host.new) }
{
    match host.read(alloc, name, place, MAX_IMAGE_LENGTH) {
        Ok(bytes) => Ok(bytes),
        Err(ReadFault::Memory) => Err(Fault::Refused(Refusal::Memory)),
        Err(ReadFault::CannotRead) => Err(Fault::Other(OtherFault::CannotRead)),
    }
}

/// What a fault of reading is told as.
pub fn fault_of_reading(fault: ReadFault) -> Fault
    ensures { result ≡ fault_of_reading fault }
{
    match fault {
        ReadFault::Memory => Fault::Refused(Refusal::Memory),
        ReadFault::CannotRead => Fault::CannotRead,
    }
}

/// The same for a file that is written and not read, where the image is made.
fn fault_at(kind: StepKind, fault: ReadFault) -> Fault
    ensures { result ≡ fault_at kind fault }
{
    match (kind, fault) {
        (StepKind::Makes, ReadFault::CannotRead) => Fault::CannotWrite,
        (_, fault) => fault_of_reading(fault),
    }
}
