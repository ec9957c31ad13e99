//! What a step leaves in the files of an image and its journal.

ghost use Rattle.std.specs.Prelude.{◌≡◌, ◌⊎◌, IfErr, MatchResult, OnOk};
ghost use Rattle.lfs_request.specs.declared.fault.Fault.TheVariants.{CannotWrite};
ghost use Rattle.lfs_host.specs.Files.{OnKnown};
ghost use Rattle.lfs_host.specs.Scene.{HasClaimed, KeepsText};
ghost use Rattle.lfs_exchange.specs.Handing.{HasRefusedStore, IsClaimed, IsUnwrittenAt};
ghost use Rattle.lfs_exchange.specs.Printing.{HandsOn, HandsOnFirst};
ghost use Rattle.lfs_exchange.specs.Storing.{HasNew, HasPlaced, HasPlacedJournal, IsDisplaced, IsNames, LeavesBoth, LeavesFiles, LeavesJournal, SparesBoth, SparesEither, SparesFiles, SparesJournal};

use crate::names::{Names, names_of};
use crate::printing::flush;
use crate::step_kind::StepKind;
use lfs_host::Host;
use lfs_request::{Fault, KeptJournal, Outcome};
use std::alloc::Global;

/// Writes what a step leaves; an answer is handed on first. What memory it takes is taken before a file is changed.
pub fn stored<H: Host>(
    alloc: Global,
    host: &mut H,
    kind: StepKind,
    name: &str,
    outcome: &Outcome,
) -> Result<(), Fault>
    requires claimed { IsClaimed kind (H.known host.old) name.now }
    ensures files { MatchResult result
        (λ _. LeavesFiles kind (H.known host.old).files (H.known host.new).files name.now outcome.now)
        (λ fault. SparesFiles fault kind (H.known host.new) (H.known host.old).files (H.known host.new).files name.now outcome.now) }
    ensures flushed { OnOk result (HandsOn kind (H.known host.new)) }
    ensures first { OnOk result (HandsOnFirst H.known kind host.old host.new) }
    ensures refused { IfErr result (IsUnwrittenAt (H.known host.new) name.now) }
    ensures kept { KeepsText (H.known host.old) (H.known host.new) }
{
    match kind {
        StepKind::Asks | StepKind::Recounts => flush(host),
        StepKind::Forgets => {
            let names = names_of(alloc, name)?;
            put_journal(host, name, &names, &outcome.journal)
        }
        StepKind::Makes | StepKind::Changes => {
            let names = names_of(alloc, name)?;
            put_both(host, name, &names, outcome)
        }
        StepKind::Adopts => {
            let names = names_of(alloc, name)?;
            flush(host)?;
            put_both(host, name, &names, outcome)
        }
    }
}

/// Puts a new journal in the place of an image's, with the rights of the image.
fn put_journal<H: Host>(
    host: &mut H,
    name: &str,
    names: &Names,
    journal: &KeptJournal,
) -> Result<(), Fault>
    requires { IsNames names.now name.now }
    ensures files { MatchResult result
        (λ _. LeavesJournal (H.known host.old).files (H.known host.new).files name.now journal.now.items)
        (λ _. SparesJournal (H.known host.old).files (H.known host.new).files name.now) }
    ensures refused { IfErr result (λ fault. (fault ≡ CannotWrite) × HasRefusedStore (H.known host.new) name.now) }
    ensures kept { KeepsText (H.known host.old) (H.known host.new) }
{
    let new = names.new_journal.as_str();
    if host.write(new, journal, name).is_err() {
        return Err(Fault::CannotWrite);
    }
    if host.settle(new, names.journal.as_str()).is_err() {
        host.remove(new);
        return Err(Fault::CannotWrite);
    }
    Ok(())
}

/// Puts a new journal and a new image in the places of the old ones. Both are written before either gets its place, so
/// that a host without room leaves both as they were.
fn put_both<H: Host>(
    host: &mut H,
    name: &str,
    names: &Names,
    outcome: &Outcome,
) -> Result<(), Fault>
    requires names { IsNames names.now name.now }
    requires claimed { HasClaimed (H.known host.old) name.now }
    ensures files { MatchResult result
        (λ _. LeavesBoth (H.known host.old).files (H.known host.new).files name.now outcome.now)
        (λ _. SparesEither (H.known host.new) (H.known host.old).files (H.known host.new).files name.now outcome.now) }
    ensures refused { IfErr result (λ fault. (fault ≡ CannotWrite) × HasRefusedStore (H.known host.new) name.now) }
    ensures kept { KeepsText (H.known host.old) (H.known host.new) }
{
    prepared(host, name, names, outcome)?;
    placed(host, name, names)
}

/// Writes the new image and the new journal beside the old ones, with the rights of the image: the image first, which
/// keeps other runs from both names. Where that fails nothing is left of them.
fn prepared<H: Host>(
    host: &mut H,
    name: &str,
    names: &Names,
    outcome: &Outcome,
) -> Result<(), Fault>
    requires { IsNames names.now name.now }
    ensures files { MatchResult result
        (λ _. OnKnown (HasNew name.now outcome.now.image.items outcome.now.journal.items) (H.known host.old).files (H.known host.new).files)
        (λ _. SparesBoth (H.known host.old).files (H.known host.new).files name.now) }
    ensures refused { IfErr result (λ fault. (fault ≡ CannotWrite) × HasRefusedStore (H.known host.new) name.now) }
    ensures kept { KeepsText (H.known host.old) (H.known host.new) }
{
    let new_image = names.new_image.as_str();
    let new_journal = names.new_journal.as_str();
    if host.write(new_image, &outcome.image, name).is_err() {
        return Err(Fault::CannotWrite);
    }
    if host.write(new_journal, &outcome.journal, name).is_err() {
        host.remove(new_image);
        return Err(Fault::CannotWrite);
    }
    Ok(())
}

/// Gives the new journal and then the new image their places. Where that fails nothing is left of what has none.
fn placed<H: Host>(host: &mut H, name: &str, names: &Names) -> Result<(), Fault>
    requires names { IsNames names.now name.now }
    requires claimed { HasClaimed (H.known host.old) name.now }
    ensures files { MatchResult result
        (λ _. OnKnown (HasPlaced name.now) (H.known host.old).files (H.known host.new).files)
        (λ _. SparesBoth (H.known host.old).files (H.known host.new).files name.now
        ⊎ (IsDisplaced (H.known host.new) name.now × OnKnown (HasPlacedJournal name.now) (H.known host.old).files (H.known host.new).files)) }
    ensures refused { IfErr result (λ fault. (fault ≡ CannotWrite) × HasRefusedStore (H.known host.new) name.now) }
    ensures kept { KeepsText (H.known host.old) (H.known host.new) }
{
    let new_image = names.new_image.as_str();
    let new_journal = names.new_journal.as_str();
    if host.settle(new_journal, names.journal.as_str()).is_err() {
        host.remove(new_journal);
        host.remove(new_image);
        return Err(Fault::CannotWrite);
    }
    if host.rename(new_image, name).is_err() {
        host.remove(new_image);
        return Err(Fault::CannotWrite);
    }
    Ok(())
}
