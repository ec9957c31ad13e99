//! Where lines begin and end.

ghost use Rattle.std.specs.Prelude.{◌≡◌, ◌++◌, [], List, IfOk, OnOk};
ghost use Rattle.lfs_json.specs.Line.{line_of};
ghost use Rattle.lfs_json.specs.Object.{Member, object_of};
ghost use Rattle.lfs_json.specs.Written.{begun};

use json::Writer;
use std::alloc::{AllocError, Global};
use std::mem::replace;

/// Begins the line of an object behind a text, which the line holds up to its end.
pub fn begin_line(alloc: Global, text: &mut Vec<u8>) -> Result<Writer, AllocError>
    ensures before { IfOk result (λ line. line.before ≡ text.old.items) }
    ensures tokens { IfOk result (λ line. line.tokens ≡ begun []) }
{
    let mut line = Writer::new(replace(text, Vec::new(alloc)));
    line.begin_object()?;
    Ok(line)
}

/// Ends a line and its object, and leaves the text with it.
pub fn end_line(text: &mut Vec<u8>, mut line: Writer) -> Result<(), AllocError>
    ensures { OnOk result ((ms : List Member) → line.tokens ≡ begun ms → text.new.items ≡ line.before ++ line_of (object_of ms)) }
{
    line.end_object()?;
    *text = line.into_inner();
    text.extend_from_slice(b"\n")?;
    Ok(())
}
