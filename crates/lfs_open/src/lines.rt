//! The lines of what is found, as text and as JSON.

ghost use Rattle.std.specs.Prelude.{◌≡◌, ◌*◌, ◌++◌, IfOk, OnOk, codes, string_bytes};
ghost use Rattle.json.specs.Json.{string};
ghost use Rattle.lfs_json.specs.Line.{line_of};
ghost use Rattle.lfs_json.specs.Written.{Adds, member_tokens, members_tokens};
ghost use Rattle.lfs_open.specs.FoundText.{at_text, extent_text, fault_text, found_line, plain_line, unmounted_text, verdict_text, version_text};
ghost use Rattle.lfs_open.specs.FoundText.{fault_members, json_of_found, place_members, unmounted_members, verdict_members};

use crate::fault_name::{image_fault_name, mount_fault_name};
use json::Writer;
use lfs_find::{Found, Place, Unmounted};
use lfs_json::{Form, add_number, add_text, begin_line, end_line};
use std::alloc::{AllocError, Global};

// ---- as text

/// What is said of a fault: its number and its name.
fn fault_text(alloc: Global, number: u8, name: &str) -> Result<String, AllocError>
    ensures { IfOk result (λ text. string_bytes text ≡ fault_text number name.now) }
{
    format!(in alloc; "{number} {name}")
}

/// What is said of what does not mount.
fn unmounted_text(alloc: Global, fault: Unmounted) -> Result<String, AllocError>
    ensures { IfOk result (λ text. string_bytes text ≡ unmounted_text fault) }
{
    match fault {
        Unmounted::Image(fault) => fault_text(alloc, fault.number(), image_fault_name(fault)),
        Unmounted::Mount(fault) => fault_text(alloc, fault.number(), mount_fault_name(fault)),
    }
}

/// What is said of what is found: that it mounts, or its fault.
fn verdict_text(alloc: Global, fault: Option<Unmounted>) -> Result<String, AllocError>
    ensures { IfOk result (λ text. string_bytes text ≡ verdict_text fault) }
{
    match fault {
        None => format!(in alloc; "mounts"),
        Some(fault) => unmounted_text(alloc, fault),
    }
}

/// A place in hexadecimal digits.
fn at_text(alloc: Global, at: usize) -> Result<String, AllocError>
    ensures { IfOk result (λ text. string_bytes text ≡ at_text at) }
{
    format!(in alloc; "0x{at:x}")
}

/// A version: its upper half and its lower half.
fn version_text(alloc: Global, version: u32) -> Result<String, AllocError>
    ensures { IfOk result (λ text. string_bytes text ≡ version_text version) }
{
    let major = version / 65_536;
    let minor = version % 65_536;
    format!(in alloc; "{major}.{minor}")
}

/// The size and the number of blocks, and the number of bytes.
fn extent_text(alloc: Global, size: u32, count: u32) -> Result<String, AllocError>
    ensures { IfOk result (λ text. string_bytes text ≡ extent_text size count) }
{
    let len = count as usize * size as usize;
    format!(in alloc; "block {size}  count {count}  {len} bytes")
}

/// The line of what is found at a place.
fn plain_line(alloc: Global, found: &Found) -> Result<String, AllocError>
    ensures { IfOk result (λ text. string_bytes text ≡ plain_line found.now) }
{
    let at = at_text(alloc, found.place.at)?;
    let version = version_text(alloc, found.place.version)?;
    let extent = extent_text(alloc, found.place.size, found.place.count)?;
    let verdict = verdict_text(alloc, found.fault)?;
    format!(in alloc; "{at}  version {version}  {extent}  {verdict}\n")
}

/// Adds the line of what is found at a place.
fn append_plain(alloc: Global, text: &mut Vec<u8>, found: &Found) -> Result<(), AllocError>
    ensures { OnOk result (text.new.items ≡ text.old.items ++ plain_line found.now) }
{
    let line = plain_line(alloc, found)?;
    text.extend_from_slice(line.as_bytes())
}

// ---- as JSON

/// Adds the disk version that is stated.
fn add_version(alloc: Global, line: &mut Writer, version: u32) -> Result<(), AllocError>
    ensures { OnOk result (Adds line.old line.new (member_tokens (codes "version", string (version_text version)))) }
{
    let text = version_text(alloc, version)?;
    add_text(line, "version", text.as_str())
}

/// How many bytes an image has.
fn bytes_of(place: &Place) -> u64
    ensures { result ≡ place.now.count * place.now.size }
{
    u64::from(place.count) * u64::from(place.size)
}

/// Adds where an image stands, and what it states.
fn add_place(alloc: Global, line: &mut Writer, place: &Place) -> Result<(), AllocError>
    ensures { OnOk result (Adds line.old line.new (members_tokens (place_members place.now))) }
{
    add_number(line, "at", place.at as u64)?;
    add_version(alloc, line, place.version)?;
    add_number(line, "block", place.size as u64)?;
    add_number(line, "count", place.count as u64)?;
    add_number(line, "bytes", bytes_of(place))?;
    Ok(())
}

/// Adds a fault: its number and its name.
fn add_fault(line: &mut Writer, number: u8, name: &str) -> Result<(), AllocError>
    ensures { OnOk result (Adds line.old line.new (members_tokens (fault_members number name.now))) }
{
    add_number(line, "fault", u64::from(number))?;
    add_text(line, "name", name)
}

/// Adds why an image does not mount.
fn add_unmounted(line: &mut Writer, fault: Unmounted) -> Result<(), AllocError>
    ensures { OnOk result (Adds line.old line.new (members_tokens (unmounted_members fault))) }
{
    match fault {
        Unmounted::Image(fault) => add_fault(line, fault.number(), image_fault_name(fault)),
        Unmounted::Mount(fault) => add_fault(line, fault.number(), mount_fault_name(fault)),
    }
}

/// Adds the fault of an image, unless it mounts.
fn add_verdict(line: &mut Writer, fault: Option<Unmounted>) -> Result<(), AllocError>
    ensures { OnOk result (Adds line.old line.new (members_tokens (verdict_members fault))) }
{
    match fault {
        None => Ok(()),
        Some(fault) => add_unmounted(line, fault),
    }
}

/// Adds the object of what is found at a place: `at`, `version`, `block`, `count` and `bytes`, and if it doesn't mount, `fault` and `name`.
fn append_json(alloc: Global, text: &mut Vec<u8>, found: &Found) -> Result<(), AllocError>
    ensures { OnOk result (text.new.items ≡ text.old.items ++ line_of (json_of_found found.now)) }
{
    let mut line = begin_line(alloc, text)?;
    add_place(alloc, &mut line, &found.place)?;
    add_verdict(&mut line, found.fault)?;
    end_line(text, line)?;
    Ok(())
}

// ---- in either form

/// Adds the line of what is found at a place.
pub(crate) fn append_found(
    alloc: Global,
    form: Form,
    text: &mut Vec<u8>,
    found: &Found,
) -> Result<(), AllocError>
    ensures { OnOk result (text.new.items ≡ text.old.items ++ found_line form found.now) }
{
    match form {
        Form::Text => append_plain(alloc, text, found),
        Form::Json => append_json(alloc, text, found),
    }
}
