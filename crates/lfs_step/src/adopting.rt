//! An image as a device left it, taken over.

ghost use Rattle.std.specs.Prelude.{◌≡◌, ◌&&◌, false, not, MatchResult, None, Some, if◌then◌else◌};
ghost use Rattle.std.specs.Result.{result_err};
ghost use Rattle.lfs_block.specs.Disk.{Disk};
ghost use Rattle.lfs_change.specs.Adopting.{IsAdoption, adopted_with};
ghost use Rattle.lfs_request.specs.Fault.{blames_output, status_of};
ghost use Rattle.lfs_request.specs.declared.fault.Fault.TheVariants.{JournalHasChanges};
ghost use Rattle.lfs_step.specs.Adopting.{RefusesImageTaken, SendsChanged, drops_changes, journal_left, journal_stays};
ghost use Rattle.lfs_step.specs.Outcome.{Answers, SendsText, given};
ghost use Rattle.lfs_step.specs.declared.step.Step.TheVariants.{Adopt};

use crate::changed_text::changed_text;
use crate::sending::sent_complete;
use lfs_adopt::put_drafted;
use lfs_block::{Blocks, Image};
use lfs_change::{Adoption, adopted};
use lfs_journal::Journal;
use lfs_json::Form;
use lfs_request::{Fault, Outcome};
use lfs_sink::{Sink, send};
use std::alloc::Global;

/// The length of a journal without changes.
const EMPTY_JOURNAL: usize = 24;

/// Takes bytes over that are an image with blocks of `size` bytes, and says in a form which blocks change. A journal with changes is
/// replaced only if that is asked for. With a fault image and journal are answered as they were handed in. Takes memory.
pub(crate) fn taken_over<S: Sink>(
    alloc: Global,
    form: Form,
    replaces: bool,
    size: u32,
    image: Vec<u8>,
    journal: Vec<u8>,
    out: &mut S,
) -> Outcome
    requires { S.failed out.old ≡ false }
    ensures answers { Answers (Adopt form replaces) (given size image.items journal.items) result }
    ensures sent { SendsText (Adopt form replaces) (given size image.items journal.items) result (S.sent out.old) (S.sent out.new) }
    ensures failed { S.failed out.new ≡ blames_output result.fault }
    ensures kept { S.kept out.new ≡ S.kept out.old }
    ensures status { result.status ≡ status_of result.fault }
{
    match Image::new(image, size) {
        Ok(image) => match told_adoption(alloc, form, replaces, &image, &journal, out) {
            Ok(adoption) => left_by(alloc, image, adoption, journal),
            Err(fault) => Outcome::new(image.into_bytes(), journal, Some(fault)),
        },
        Err((fault, image)) => Outcome::new(image, journal, Some(Fault::Image(fault))),
    }
}

/// An image taken over, with the text on the blocks that change sent.
fn told_adoption<S: Sink>(
    alloc: Global,
    form: Form,
    replaces: bool,
    image: &Image,
    journal: &[u8],
    out: &mut S,
) -> Result<Adoption, Fault>
    requires { S.failed out.old ≡ false }
    ensures adopted { MatchResult result
        (λ adoption. IsAdoption image.now.disk adoption × ((not replaces && drops_changes adoption.changed.items journal.now) ≡ false))
        (λ fault. RefusesImageTaken replaces image.now.disk journal.now fault) }
    ensures sent { MatchResult result
        (λ adoption. SendsChanged form image.now.disk (adopted_with image.now.disk adoption) None (S.sent out.old) (S.sent out.new))
        (λ fault. SendsChanged form image.now.disk image.now.disk (Some fault) (S.sent out.old) (S.sent out.new)) }
    ensures failed { S.failed out.new ≡ blames_output (result_err result) }
    ensures kept { S.kept out.new ≡ S.kept out.old }
{
    let adoption = adopted(alloc, image)?;
    may_replace(replaces, &adoption.changed, journal)?;
    let text = changed_text(alloc, form, &adoption.changed)?;
    sent_complete(send(out, &text))?;
    Ok(adoption)
}

/// Refuses to replace a journal with changes, unless that is asked for; if no block changes it stays.
fn may_replace(replaces: bool, changed: &[u32], journal: &[u8]) -> Result<(), Fault>
    ensures { result_err result ≡ (if not replaces && drops_changes changed.now journal.now then Some JournalHasChanges else None) }
{
    if !replaces && !changed.is_empty() && journal.len() > EMPTY_JOURNAL {
        return Err(Fault::JournalHasChanges);
    }
    Ok(())
}

/// Whether a journal that is there stays, since no block changes.
fn journal_stays(changed: &[u32], journal: &[u8]) -> bool
    ensures { result ≡ journal_stays changed.now journal.now }
{
    changed.is_empty() && !journal.is_empty()
}

/// What an image is left with that is taken over: the blocks that are written anew, and the journal that is there if no block changes, else
/// one without changes.
fn left_by(alloc: Global, image: Image, adoption: Adoption, journal: Vec<u8>) -> Outcome
    requires { IsAdoption image.disk adoption }
    ensures image { result.image.items ≡ (adopted_with image.disk adoption).bytes }
    ensures journal { result.journal.items ≡ journal_left adoption.changed.items (adopted_with image.disk adoption) journal.items }
    ensures fault { result.fault ≡ None }
    ensures status { result.status ≡ 0 }
{
    let Adoption { blocks, changed } = adoption;
    let mut image = image;
    put_drafted(&mut image, &blocks);
    if journal_stays(&changed, &journal) {
        return Outcome::new(image.into_bytes(), journal, None);
    }
    let empty = Journal::new(image.size(), image.count(), Vec::new(alloc), 0);
    Outcome::done(image.into_bytes(), empty)
}
