//! What there is under names among files in memory.

ghost use Rattle.std.specs.Prelude.{◌≡◌, IfOk, is_some, map, string_bytes};
ghost use Rattle.std.specs.BTreeMap.{keys};
ghost use Rattle.std.specs.List.{list_any};
ghost use Rattle.std.specs.Option.{option_map};
ghost use Rattle.lfs_host.specs.HostTree.{AreNamesIn, host_kind_of};
ghost use Rattle.lfs_host.specs.MemoryTree.{HasNoGap, name_behind, name_through, file_names_of, names_through, tree_of};

use crate::host_kind::HostKind;
use crate::memory_files::MemoryFiles;
use std::alloc::{AllocError, Global};
use std::collections::BTreeSet;

/// What a file's name has behind a folder's name and a slash, where the file is below the folder.
pub(crate) fn below<'a>(folder: &str, file: &'a str) -> Option<&'a str>
    ensures { option_map (λ rest. rest.now) result ≡ name_behind folder.now file.now }
{
    file.strip_prefix(folder)?.strip_prefix('/')
}

/// The name in a folder that a file's name leads through, where the file is below the folder.
fn name_through<'a>(folder: &str, file: &'a str) -> Option<&'a str>
    ensures { option_map (λ name. name.now) result ≡ name_through folder.now file.now }
{
    let rest = below(folder, file)?;
    match rest.split_once('/') {
        Some((name, _)) => Some(name),
        None => Some(rest),
    }
}

/// Whether a file is below a folder.
fn has_below(files: &MemoryFiles, folder: &str) -> bool
    ensures { result ≡ list_any (λ file. is_some (name_through folder.now (string_bytes file))) (keys files.now) }
{
    files
        .keys()
        .any(|file| name_through(folder, file.as_str()).is_some())
}

/// What is under a name: a file, or a folder as long as a file is below it, or nothing.
pub(crate) fn kind_of(files: &MemoryFiles, name: &str) -> HostKind
    ensures { result ≡ host_kind_of (tree_of files.now name.now) }
{
    if files.contains_key(name) {
        HostKind::File
    } else if has_below(files, name) {
        HostKind::Folder
    } else {
        HostKind::Missing
    }
}

/// The names in a folder, each once.
pub(crate) fn names_in(
    alloc: Global,
    files: &MemoryFiles,
    folder: &str,
) -> Result<Vec<String>, AllocError>
    ensures { IfOk result (λ names. AreNamesIn (names_through folder.now (file_names_of files.now)) (map (λ n. string_bytes n) names.items)) }
{
    let mut names: BTreeSet<String> = BTreeSet::new(alloc);
    for file in files.keys() {
        if let Some(name) = name_through(folder, file.as_str()) {
            names.insert(String::from_str(alloc, name)?)?;
        }
    }
    names.into_iter().collect(alloc)
}

/// A law: what is named in a folder of files in memory is there.
pub fn memory_folders_have_no_gap(_files: &MemoryFiles)
    ensures { HasNoGap (tree_of _files.now) }
{}
