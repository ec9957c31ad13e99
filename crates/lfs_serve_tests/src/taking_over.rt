//! Images that are taken over.

use lfs_block::geometry_ok;
use lfs_command::Command;
use lfs_edit::format;
use lfs_history::Move;
use lfs_json::Form;
use lfs_sink::MemorySink;
use lfs_step::{Step, run};
use std::alloc::Global;

/// The length of a journal without changes.
const NO_CHANGE: usize = 24;

/// An image and its journal.
#[derive(Drop)]
struct Files {
    image: Vec<u8>,
    journal: Vec<u8>,
}

/// A new image of 8 blocks of 256 bytes, without a journal.
fn new_files(alloc: Global) -> Option<Files> {
    if !geometry_ok(256, 8) {
        return None;
    }
    let image = format(alloc, 256, 8).ok()?;
    let journal = Vec::new(alloc);
    Some(Files { image, journal })
}

/// The same with a directory, and with the journal of that change.
fn changed_files(alloc: Global) -> Option<Files> {
    let Files { image, journal } = new_files(alloc)?;
    let path: &[u8] = b"/a";
    let command = Command::Mkdir { path };
    let steps = [Move::Do {
        command,
        keep: None,
    }];
    let mut out = MemorySink::new(alloc);
    let outcome = run(alloc, Step::Change(&steps), 256, image, journal, &mut out);
    let journal = outcome.journal.into_bytes(alloc)?;
    Some(Files {
        image: outcome.image,
        journal,
    })
}

/// How long the journal is once an image is taken over that stays as it is, of which this is said.
fn journal_left(alloc: Global, files: Files, form: Form, said: &[u8]) -> Option<usize> {
    let old = files.image.clone().ok()?;
    let step = Step::Adopt {
        form,
        replaces: false,
    };
    let mut out = MemorySink::new(alloc);
    let outcome = run(alloc, step, 256, files.image, files.journal, &mut out);
    if outcome.status != 0
        || outcome.image.as_slice() != old.as_slice()
        || out.bytes.as_slice() != said
    {
        return None;
    }
    let journal = outcome.journal.into_bytes(alloc)?;
    Some(journal.len())
}

/// Whether an image that nothing was done to gets a journal without changes.
fn new_image_gets_a_journal(alloc: Global) -> bool {
    let Some(files) = new_files(alloc) else {
        return false;
    };
    journal_left(alloc, files, Form::Text, b"no block changed\n") == Some(NO_CHANGE)
}

/// Whether a journal with changes stays where no block changes, of which no line is said in JSON.
fn journal_stays(alloc: Global) -> bool {
    let Some(files) = changed_files(alloc) else {
        return false;
    };
    let many = files.journal.len();
    many > NO_CHANGE && journal_left(alloc, files, Form::Json, b"") == Some(many)
}

#[test]
fn an_image_that_is_taken_over_gets_a_journal(rt: HostRuntime) {
    assert!(rt; new_image_gets_a_journal(rt.alloc()));
}

#[test]
fn a_journal_stays_where_no_block_changes(rt: HostRuntime) {
    assert!(rt; journal_stays(rt.alloc()));
}
