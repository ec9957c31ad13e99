//! What `check` prints.

ghost use Rattle.std.specs.Prelude.{◌≡◌, ◌++◌, IfOk, OnOk, string_bytes};
ghost use Rattle.lfs_json.specs.Line.{line_of};
ghost use Rattle.lfs_json.specs.Summary.{json_of_summary};
ghost use Rattle.lfs_step.specs.Summary.{check_text, counts, has_longer, longer_if_asked};
ghost use Rattle.lfs_step.specs.Summary.{summary, summary_of, summary_text, version_line};

use lfs_block::{Blocks, Image};
use lfs_fs::Mounted;
use lfs_json::{Form, Summary, append_json_summary};
use lfs_listing::{append_longer, longest_inline};
use std::alloc::{AllocError, Global};

/// A mounted image of a disk version in numbers.
fn summary_of(version: u32, image: &Image, mounted: &Mounted) -> Summary
    ensures { result ≡ summary_of version image.now.disk mounted.now }
{
    Summary {
        block: image.size(),
        count: image.count(),
        free: mounted.free_count(),
        directories: mounted.directories(),
        files: mounted.files(),
        version,
        limits: mounted.limits(),
        inline_longest: longest_inline(mounted.rows()),
    }
}

/// What one line says of a mounted image, up to its disk version: its geometry, its free blocks, and how many directories and files it has,
/// the root among the directories.
fn counts(alloc: Global, image: &Image, mounted: &Mounted) -> Result<String, AllocError>
    ensures { IfOk result (λ text. string_bytes text ≡ counts image.now.disk mounted.now) }
{
    let size = image.size();
    let count = image.count();
    let free = mounted.free_count();
    let directories = mounted.directories();
    let files = mounted.files();
    format!(in alloc;
        "block {size}, count {count}, free {free}, directories {directories}, files {files}, version "
    )
}

/// A disk version and a newline.
fn version_line(alloc: Global, version: u32) -> Result<String, AllocError>
    ensures { IfOk result (λ text. string_bytes text ≡ version_line version) }
{
    let major = version / 0x1_0000;
    let minor = version % 0x1_0000;
    format!(in alloc; "{major}.{minor}\n")
}

/// One line on a mounted image of a disk version.
fn summary(
    alloc: Global,
    version: u32,
    image: &Image,
    mounted: &Mounted,
) -> Result<Vec<u8>, AllocError>
    ensures { IfOk result (λ text. text.items ≡ summary version image.now.disk mounted.now) }
{
    let mut text = counts(alloc, image, mounted)?.into_bytes();
    let told = version_line(alloc, version)?;
    text.extend_from_slice(told.as_bytes())?;
    Ok(text)
}

/// The same as an object of JSON, with the limits and the longest file that stands in its entry.
fn json_summary(
    alloc: Global,
    version: u32,
    image: &Image,
    mounted: &Mounted,
) -> Result<Vec<u8>, AllocError>
    ensures { IfOk result (λ text. text.items ≡ line_of (json_of_summary (summary_of version image.now.disk mounted.now))) }
{
    let mut text = Vec::new(alloc);
    append_json_summary(alloc, &mut text, &summary_of(version, image, mounted))?;
    Ok(text)
}

/// The line on a mounted image of a disk version in a form.
fn summary_text(
    alloc: Global,
    form: Form,
    version: u32,
    image: &Image,
    mounted: &Mounted,
) -> Result<Vec<u8>, AllocError>
    ensures { IfOk result (λ text. text.items ≡ summary_text form version image.now.disk mounted.now) }
{
    match form {
        Form::Text => summary(alloc, version, image, mounted),
        Form::Json => json_summary(alloc, version, image, mounted),
    }
}

/// Adds the lines of the files of a mounted image that stand in their entries and are longer than `most` bytes, if that is asked for, in a
/// form that lists them.
fn append_if_asked(
    alloc: Global,
    form: Form,
    text: &mut Vec<u8>,
    most: Option<u32>,
    mounted: &Mounted,
) -> Result<(), AllocError>
    ensures { OnOk result (text.new.items ≡ text.old.items ++ longer_if_asked form most mounted.now) }
{
    match (form, most) {
        (Form::Text, Some(most)) => append_longer(alloc, text, most as usize, mounted.rows()),
        _ => Ok(()),
    }
}

/// What `check` prints of a mounted image of a disk version, in a form: its line, and the lines of the files that stand in their entries and
/// are longer than `most` bytes, if that is asked for.
pub(crate) fn check_text(
    alloc: Global,
    form: Form,
    version: u32,
    most: Option<u32>,
    image: &Image,
    mounted: &Mounted,
) -> Result<Vec<u8>, AllocError>
    ensures { IfOk result (λ text. text.items ≡ check_text form version most image.now.disk mounted.now) }
{
    let mut text = summary_text(alloc, form, version, image, mounted)?;
    append_if_asked(alloc, form, &mut text, most, mounted)?;
    Ok(text)
}

/// Whether a file of a mounted image stands in its entry and is longer than `most` bytes, if that is asked for.
pub(crate) fn has_longer(most: Option<u32>, mounted: &Mounted) -> bool
    ensures { result ≡ has_longer most mounted.now }
{
    match most {
        Some(most) => (most as usize) < longest_inline(mounted.rows()),
        None => false,
    }
}
