//! The lines of changes.

ghost use Rattle.std.specs.Prelude.{◌≡◌, ◌++◌, false, not, if◌then◌else◌, nat_le, codes, IsTrue};
ghost use Rattle.lfs_json.specs.declared.form.Form.TheVariants.{Text};
ghost use Rattle.lfs_step.specs.Log.{change_line};

use itoa::Buffer;
use lfs_json::{Form, append_json_step};
use lfs_sink::{MemorySink, send};
use std::alloc::Global;

/// What a line says of a change where the first `done` are done.
fn state_of(number: usize, done: usize) -> &'static [u8]
    ensures { result.now ≡ (if nat_le number done then codes ", done\n" else codes ", undone\n") }
{
    if number <= done {
        b", done\n"
    } else {
        b", undone\n"
    }
}

/// Adds the line of a change as text, and answers whether memory was enough for it.
fn append_text_line(text: &mut MemorySink, number: usize, done: usize) -> bool
    requires { text.old.has_failed ≡ false }
    ensures line { IsTrue result → text.new.bytes.items ≡ text.old.bytes.items ++ change_line Text number done }
    ensures failed { text.new.has_failed ≡ not result }
{
    send(text, b"change ")
        && send(text, Buffer::new().format(number).as_bytes())
        && send(text, state_of(number, done))
}

/// Adds the line of a change in a form, and answers whether memory was enough for it.
pub(crate) fn append_line(
    alloc: Global,
    form: Form,
    text: &mut MemorySink,
    number: usize,
    done: usize,
) -> bool
    requires { text.old.has_failed ≡ false }
    ensures line { IsTrue result → text.new.bytes.items ≡ text.old.bytes.items ++ change_line form number done }
    ensures works { IsTrue result → text.new.has_failed ≡ false }
{
    match form {
        Form::Text => append_text_line(text, number, done),
        Form::Json => {
            append_json_step(alloc, &mut text.bytes, number as u64, number <= done).is_ok()
        }
    }
}
