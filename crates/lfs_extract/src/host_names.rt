//! The names in a host's folder, in the order in which they stand in an image.

ghost use Rattle.std.specs.Prelude.{◌≡◌, IfErr, IfOk, OnOk, map, string_bytes};
ghost use Rattle.std.specs.List.{IsAllAdjacentAnswer, list_all};
ghost use Rattle.std.specs.Ordering.{is_lt};
ghost use Rattle.std.specs.List.Sorted.{IsPermutation};
ghost use Rattle.lfs_fs.specs.NameOrder.{precedes};
ghost use Rattle.lfs_extract.specs.HostNames.{AreInOrder, CannotOrder, NoneFalls, is_host_name};

use crate::folder_fault::FolderFault;
use lfs_fs::precedes;
use lfs_meta::is_name;
use std::alloc::AllocError;
use std::cmp::Ordering;

/// Whether a host's name can be one in an image.
fn is_host_name(name: &[u8]) -> bool
    ensures { result ≡ is_host_name name.now }
{
    is_name(name) && !name.contains(&0)
}

/// How two names stand in an image.
fn name_order(left: &str, right: &str) -> Ordering
    ensures { is_lt result ≡ precedes left.now right.now }
{
    if precedes(left.as_bytes(), right.as_bytes()) {
        Ordering::Less
    } else if precedes(right.as_bytes(), left.as_bytes()) {
        Ordering::Greater
    } else {
        Ordering::Equal
    }
}

/// Puts names in the order in which they stand in an image.
fn sort(names: &mut Vec<String>) -> Result<(), AllocError>
    ensures same { IsPermutation names.old.items names.new.items }
    ensures sorted { OnOk result (NoneFalls (map (λ n. string_bytes n) names.new.items)) }
{
    names.sort_by(|left, right| name_order(left.as_str(), right.as_str()))
}

/// Whether each can be a name in an image.
fn are_host_names(names: &[String]) -> bool
    ensures { result ≡ list_all (λ n. is_host_name (string_bytes n)) names.now }
{
    names.iter().all(|name| is_host_name(name.as_bytes()))
}

/// Whether each name comes before the next.
fn rise(names: &[String]) -> bool
    ensures { IsAllAdjacentAnswer (λ x y b. b ≡ precedes (string_bytes x) (string_bytes y)) names.now result }
{
    names.is_sorted_by(|left, right| precedes(left.as_bytes(), right.as_bytes()))
}

/// The names in a folder, in the order in which they stand in an image: `HostName` where one can't be a name there,
/// `CannotRead` where one is there twice.
pub(crate) fn in_order(mut names: Vec<String>) -> Result<Vec<String>, FolderFault>
    ensures ordered { IfOk result (λ sorted. AreInOrder (map (λ n. string_bytes n) names.items) (map (λ n. string_bytes n) sorted.items)) }
    ensures refused { IfErr result (λ fault. CannotOrder (map (λ n. string_bytes n) names.items) fault) }
{
    if !are_host_names(&names) {
        return Err(FolderFault::HostName);
    }
    sort(&mut names)?;
    if rise(&names) {
        Ok(names)
    } else {
        Err(FolderFault::CannotRead)
    }
}
