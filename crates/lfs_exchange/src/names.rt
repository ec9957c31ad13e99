//! The names of an image's journal, and of what is to become a file.

ghost use Rattle.std.specs.Prelude.{◌≡◌, IfOk, string_bytes};
ghost use Rattle.lfs_exchange.specs.Storing.{IsNames, journal_name, new_name};

use std::alloc::{AllocError, Global};

/// What stands behind the name of an image in the name of its journal.
const JOURNAL: &str = ".lfsj";

/// What stands behind the name of a file in the name of what is to become it.
const NEW: &str = ".new";

/// The names of an image's journal, and of what is to become the two.
#[derive(Drop)]
pub struct Names {
    /// The journal's.
    pub journal: String,
    /// The new image's.
    pub new_image: String,
    /// The new journal's.
    pub new_journal: String,
}

/// The names that belong to an image's.
pub fn names_of(alloc: Global, name: &str) -> Result<Names, AllocError>
    ensures { IfOk result (λ names. IsNames names name.now) }
{
    let journal = journal_name(alloc, name)?;
    let new_journal = new_name(alloc, journal.as_str())?;
    Ok(Names {
        journal,
        new_image: new_name(alloc, name)?,
        new_journal,
    })
}

/// The name of an image's journal.
pub fn journal_name(alloc: Global, name: &str) -> Result<String, AllocError>
    ensures { IfOk result (λ journal. string_bytes journal ≡ journal_name name.now) }
{
    format!(in alloc; "{name}{JOURNAL}")
}

/// The name of what is to become the file of a name.
fn new_name(alloc: Global, name: &str) -> Result<String, AllocError>
    ensures { IfOk result (λ new. string_bytes new ≡ new_name name.now) }
{
    format!(in alloc; "{name}{NEW}")
}
