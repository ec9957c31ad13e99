//! Lists with a number for each block, or none.

ghost use Rattle.std.specs.Prelude.{◌≡◌, IfOk, None, replicate};

use std::alloc::{AllocError, Global};

/// A list of so many blocks without a number.
pub(crate) fn no_numbers(alloc: Global, count: u32) -> Result<Vec<Option<usize>>, AllocError>
    ensures { IfOk result (λ numbers. numbers.items ≡ replicate count None) }
{
    let mut numbers = Vec::with_capacity(alloc, count as usize)?;
    for _ in 0..count {
        numbers.push(None)?;
    }
    Ok(numbers)
}
