//! What is said of the blocks that change where an image is taken over.

ghost use Rattle.std.specs.Prelude.{◌≡◌, ◌++◌, IfOk, OnOk};
ghost use Rattle.std.specs.Fmt.{decimal};
ghost use Rattle.lfs_step.specs.ChangedText.{changed_line, changed_text, line_of_changed, others_listed};
ghost use Rattle.lfs_json.specs.declared.form.Form.TheVariants.{Json};

use itoa::Buffer;
use lfs_json::{Form, add_number, begin_line, end_line};
use std::alloc::{AllocError, Global};

// ---- as text

/// Adds the number of a block.
fn append_number(text: &mut Vec<u8>, number: u32) -> Result<(), AllocError>
    ensures { OnOk result (text.new.items ≡ text.old.items ++ decimal number) }
{
    text.extend_from_slice(Buffer::new().format(number).as_bytes())
}

/// Adds numbers after a first one: the last one stands after `and`.
fn append_others(text: &mut Vec<u8>, others: &[u32]) -> Result<(), AllocError>
    ensures { OnOk result (text.new.items ≡ text.old.items ++ others_listed others.now) }
{
    let mut left = others;
    'each: while let [number, more @ ..] = left {
        if more.is_empty() {
            text.extend_from_slice(b" and ")?;
        } else {
            text.extend_from_slice(b", ")?;
        }
        append_number(text, *number)?;
        left = more;
    }
    Ok(())
}

/// One line on blocks.
fn changed_line(alloc: Global, blocks: &[u32]) -> Result<Vec<u8>, AllocError>
    ensures { IfOk result (λ text. text.items ≡ changed_line blocks.now) }
{
    let mut text = Vec::new(alloc);
    match blocks {
        [] => text.extend_from_slice(b"no block")?,
        [block] => {
            text.extend_from_slice(b"block ")?;
            append_number(&mut text, *block)?;
        }
        [first, others @ ..] => {
            text.extend_from_slice(b"blocks ")?;
            append_number(&mut text, *first)?;
            append_others(&mut text, others)?;
        }
    }
    text.extend_from_slice(b" changed\n")?;
    Ok(text)
}

// ---- as JSON

/// Adds the line of a block: an object with `changed`, its number.
fn append_json_changed(alloc: Global, text: &mut Vec<u8>, number: u32) -> Result<(), AllocError>
    ensures { OnOk result (text.new.items ≡ text.old.items ++ line_of_changed number) }
{
    let mut line = begin_line(alloc, text)?;
    add_number(&mut line, "changed", u64::from(number))?;
    end_line(text, line)?;
    Ok(())
}

/// A line for each block.
fn changed_json(alloc: Global, blocks: &[u32]) -> Result<Vec<u8>, AllocError>
    ensures { IfOk result (λ text. text.items ≡ changed_text Json blocks.now) }
{
    let mut text = Vec::new(alloc);
    for block in blocks {
        append_json_changed(alloc, &mut text, *block)?;
    }
    Ok(text)
}

/// What is said of blocks that change, in a form: one line with their numbers, or in JSON a line for each. Takes memory.
pub(crate) fn changed_text(alloc: Global, form: Form, blocks: &[u32]) -> Result<Vec<u8>, AllocError>
    ensures { IfOk result (λ text. text.items ≡ changed_text form blocks.now) }
{
    match form {
        Form::Text => changed_line(alloc, blocks),
        Form::Json => changed_json(alloc, blocks),
    }
}
