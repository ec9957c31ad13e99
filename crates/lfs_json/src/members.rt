//! Members of an object, one after another.

ghost use Rattle.std.specs.Prelude.{OnOk};
ghost use Rattle.json.specs.Json.{string};
ghost use Rattle.lfs_json.specs.Object.{bytes_member, digits, integer};
ghost use Rattle.lfs_json.specs.Written.{Adds, member_tokens};

use json::Writer;
use std::alloc::{AllocError, Global};

/// Adds a number under a name.
pub fn add_number(line: &mut Writer, name: &str, number: u64) -> Result<(), AllocError>
    ensures { OnOk result (Adds line.old line.new (member_tokens (name.now, integer number))) }
{
    line.key(name)?;
    line.u64(number)
}

/// Adds a text under a name.
pub fn add_text(line: &mut Writer, name: &str, text: &str) -> Result<(), AllocError>
    ensures { OnOk result (Adds line.old line.new (member_tokens (name.now, string text.now))) }
{
    line.key(name)?;
    line.string(text)
}

/// Adds bytes under a name, in hexadecimal digits.
pub fn add_digits(
    alloc: Global,
    line: &mut Writer,
    name: &str,
    bytes: &[u8],
) -> Result<(), AllocError>
    ensures { OnOk result (Adds line.old line.new (member_tokens (name.now, digits bytes.now))) }
{
    let text = hex::encode(alloc, bytes)?;
    add_text(line, name, text.as_str())
}

/// Adds bytes under a name as they are, where they are UTF-8, or under another name in hexadecimal digits.
pub fn add_bytes(
    alloc: Global,
    line: &mut Writer,
    name: &str,
    digits_name: &str,
    bytes: &[u8],
) -> Result<(), AllocError>
    ensures { OnOk result (Adds line.old line.new (member_tokens (bytes_member name.now digits_name.now bytes.now))) }
{
    match std::str::from_utf8(bytes) {
        Ok(text) => add_text(line, name, text),
        Err(_) => add_digits(alloc, line, digits_name, bytes),
    }
}
