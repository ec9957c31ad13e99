//! Where the directories of an outline stand, by a block of theirs.

ghost use Rattle.std.specs.Prelude.{◌≡◌, All, IfOk, None, Some, if◌then◌else◌, option_and_then, option_map, set, slice_get};
ghost use Rattle.std.specs.Option.{option_flatten};
ghost use Rattle.lfs_fs.specs.Directory.{begins_at};
ghost use Rattle.lfs_fs.specs.Pair.{unordered};
ghost use Rattle.lfs_fs.specs.Sound.{IsSound};
ghost use Rattle.lfs_listing.specs.DirectoryNumbers.{AreNumbers, FindDirectories, key_block};

use crate::block_numbers::no_numbers;
use lfs_fs::{Outline, OutlineDirectory};
use std::alloc::{AllocError, Global};
use std::marker::Model;

/// The lesser block of the first pair of a directory.
fn key_block(directory: &OutlineDirectory) -> u32
    ensures { result ≡ key_block directory.now }
{
    let (first, second) = directory.parts.first.pair;
    if first <= second { first } else { second }
}

/// Notes where a directory stands, under the lesser block of its first pair.
fn note(numbers: &mut [Option<usize>], directory: &OutlineDirectory, number: usize)
    ensures { numbers.new ≡ set numbers.old (key_block directory.now) (Some number) }
{
    let block = key_block(directory) as usize;
    if block < numbers.len() {
        numbers[block] = Some(number);
    }
}

/// The same of directories, where none was noted.
fn note_each(numbers: &mut [Option<usize>], directories: &[OutlineDirectory])
    requires { All (λ o. o ≡ None) numbers.old }
    ensures { AreNumbers directories.now numbers.new }
{
    for (number, directory) in directories.iter().enumerate() {
        note(numbers, directory, number);
    }
}

/// Where each directory of an outline stands, one number a block: that of the directory whose first pair has it as its lesser one.
fn numbers_of(alloc: Global, outline: &Outline) -> Result<Vec<Option<usize>>, AllocError>
    requires { IsSound outline.now }
    ensures { IfOk result (λ numbers. FindDirectories outline.now.directories numbers.items) }
{
    let mut numbers = no_numbers(alloc, outline.count)?;
    note_each(&mut numbers, &outline.directories);
    Ok(numbers)
}

/// A pair as a set: the lesser block first.
fn unordered(first: u32, second: u32) -> (u32, u32)
    ensures { result ≡ unordered (first, second) }
{
    if first <= second {
        (first, second)
    } else {
        (second, first)
    }
}

/// The number at a block, if there is one.
fn number_at(numbers: &[Option<usize>], block: u32) -> Option<usize>
    ensures { result ≡ option_flatten (slice_get numbers.now block) }
{
    match numbers.get(block as usize) {
        Some(number) => *number,
        None => None,
    }
}

/// The directory of a number.
fn numbered<'a>(
    directories: &'a [OutlineDirectory],
    number: Option<usize>,
) -> Option<&'a OutlineDirectory>
    ensures { option_map (λ d. d.now) result ≡ option_and_then (slice_get directories.now) number }
{
    directories.get(number?)
}

/// A directory, if it begins at a pair, the lesser block first.
fn begun_at<'a>(directory: &'a OutlineDirectory, pair: (u32, u32)) -> Option<&'a OutlineDirectory>
    ensures { option_map (λ d. d.now) result ≡ (if begins_at pair directory.now then Some directory.now else None) }
{
    if directory.begins_at(pair) {
        Some(directory)
    } else {
        None
    }
}

/// The directories of an outline, with their numbers by a block of theirs. Its meaning is their list.
#[derive(Drop)]
pub(crate) struct NumberedDirectories<'a> {
    directories: &'a [OutlineDirectory],
    numbers: Vec<Option<usize>>,
}

impl<'a> Model for NumberedDirectories<'a> {
    ghost use Rattle.std.specs.Prelude.{List};
    ghost use Rattle.lfs_fs.specs.Directory.{Directory};
    ghost use Rattle.lfs_listing.specs.DirectoryNumbers.{FindDirectories};

    ghost Value = { List Directory };

    ghost view = { λ n. n.directories.now };

    ghost invariant = { λ n. FindDirectories n.directories.now n.numbers.items };
}

impl<'a> NumberedDirectories<'a> {
    ghost use Rattle.std.specs.Prelude.{◌≡◌, IfOk, find};
    ghost use Rattle.std.specs.Option.{option_map};
    ghost use Rattle.lfs_fs.specs.Directory.{begins_at};
    ghost use Rattle.lfs_fs.specs.Pair.{unordered};
    ghost use Rattle.lfs_fs.specs.Sound.{IsSound};

    /// Those of an outline.
    pub(crate) fn new(
        alloc: Global,
        outline: &'a Outline,
    ) -> Result<NumberedDirectories<'a>, AllocError>
        requires { IsSound outline.now }
        ensures { IfOk result (λ numbered. numbered ≡ outline.now.directories) }
    {
        let numbers = numbers_of(alloc, outline)?;
        Ok(NumberedDirectories {
            directories: &outline.directories,
            numbers,
        })
    }

    /// The directory that begins at a pair, in either order.
    pub(crate) fn find(&self, first: u32, second: u32) -> Option<&OutlineDirectory>
        ensures { option_map (λ d. d.now) result ≡ find (begins_at (unordered (first, second))) self.now }
    {
        let pair = unordered(first, second);
        let number = number_at(&self.numbers, pair.0);
        begun_at(numbered(self.directories, number)?, pair)
    }
}
