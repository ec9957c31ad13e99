//! A host's words for names.

ghost use Rattle.std.specs.Prelude.{◌≡◌, ℕ, List, IfOk, MatchOption, flat_map, false, string_bytes, true};
ghost use Rattle.lfs_extract.specs.HostNames.{IsHostName, is_host_name};
ghost use Rattle.lfs_extract.specs.PathBelow.{name_in};
ghost use Rattle.lfs_listing.specs.Listing.{shown_byte};
ghost use Rattle.lfs_meta.specs.Name.{is_name};
ghost use Rattle.lfs_salvage.specs.Below.{IsNameBelow};
ghost use Rattle.lfs_salvage.specs.Word.{is_own_word, numbered_word, numbers, other_word, host_word, word_in};

use crate::entry_name::EntryName;
use crate::wording::Wording;
use lfs_listing::append_all_shown;
use lfs_meta::is_name;
use std::alloc::{AllocError, Global};

/// Whether an image may hold a name, and no byte of it is zero.
fn is_host_name(name: &[u8]) -> bool
    ensures { result ≡ is_host_name name.now }
{
    is_name(name) && !name.contains(&0)
}

/// The text of a name that a host can have.
pub(crate) fn own_word(name: &[u8]) -> Option<&str>
    ensures { MatchOption result (is_own_word name.now ≡ false) (λ text. (is_own_word name.now ≡ true) × (text.now ≡ name.now)) }
{
    if !is_host_name(name) {
        return None;
    }
    match std::str::from_utf8(name) {
        Ok(text) => Some(text),
        Err(_) => None,
    }
}

/// The bytes of a name as a listing shows them, as a text.
fn shown_text(alloc: Global, name: &[u8]) -> Result<String, AllocError>
    requires { is_name name.now ≡ true }
    ensures { IfOk result (λ text. string_bytes text ≡ flat_map shown_byte name.now) }
{
    let mut bytes = Vec::new(alloc);
    append_all_shown(&mut bytes, name)?;
    match String::from_utf8(bytes) {
        Ok(text) => Ok(text),
        Err(_) => unreachable!(),
    }
}

/// The word for a name that a host can't have.
fn other_word(alloc: Global, name: &[u8]) -> Result<String, AllocError>
    ensures { IfOk result (λ text. string_bytes text ≡ other_word name.now) }
{
    if is_name(name) {
        shown_text(alloc, name)
    } else {
        String::from_str(alloc, "~")
    }
}

/// A host's word for a name.
fn word(alloc: Global, name: &[u8]) -> Result<String, AllocError>
    ensures value { IfOk result (λ text. string_bytes text ≡ host_word name.now) }
    ensures host { IsHostName (host_word name.now) }
{
    match own_word(name) {
        Some(text) => String::from_str(alloc, text),
        None => other_word(alloc, name),
    }
}

/// The host's name of what has its word for a name in a folder.
fn name_below(alloc: Global, folder: &str, name: &[u8]) -> Result<String, AllocError>
    ensures value { IfOk result (λ below. string_bytes below ≡ name_in folder.now (host_word name.now)) }
    ensures below { (top : List ℕ) → IsNameBelow top folder.now → IsNameBelow top (name_in folder.now (host_word name.now)) }
{
    let word = word(alloc, name)?;
    format!(in alloc; "{folder}/{word}")
}

/// The host's name of what has its word for the name of an entry, with the entry's numbers behind it, in a folder.
fn numbered_below(alloc: Global, folder: &str, named: EntryName<'_>) -> Result<String, AllocError>
    ensures value { IfOk result (λ below. string_bytes below ≡ name_in folder.now (numbered_word (host_word named.entry.name.now) named.entry.block named.entry.index)) }
    ensures below { (top : List ℕ) → IsNameBelow top folder.now
        → IsNameBelow top (name_in folder.now (numbered_word (host_word named.entry.name.now) named.entry.block named.entry.index)) }
{
    let word = word(alloc, named.name)?;
    let EntryName { block, index, .. } = named;
    format!(in alloc; "{folder}/{word}~{block}.{index}")
}

/// The host's name of what has the numbers of an entry in a folder.
fn numbers_below(alloc: Global, folder: &str, named: EntryName<'_>) -> Result<String, AllocError>
    ensures value { IfOk result (λ below. string_bytes below ≡ name_in folder.now (numbers named.entry.block named.entry.index)) }
    ensures below { (top : List ℕ) → IsNameBelow top folder.now → IsNameBelow top (name_in folder.now (numbers named.entry.block named.entry.index)) }
{
    let EntryName { block, index, .. } = named;
    format!(in alloc; "{folder}/~{block}.{index}")
}

/// The host's name of what has a word for the name of an entry in a folder.
pub(crate) fn word_below(
    alloc: Global,
    folder: &str,
    named: EntryName<'_>,
    word: Wording,
) -> Result<String, AllocError>
    ensures value { IfOk result (λ below. string_bytes below
        ≡ word_in folder.now named.entry.block named.entry.index named.entry.name.now word) }
    ensures below { (top : List ℕ) → IsNameBelow top folder.now
        → IsNameBelow top (word_in folder.now named.entry.block named.entry.index named.entry.name.now word) }
{
    match word {
        Wording::Own => name_below(alloc, folder, named.name),
        Wording::Numbered => numbered_below(alloc, folder, named),
        Wording::Alone => numbers_below(alloc, folder, named),
    }
}
