//! Lists that grow while an image is mounted.

ghost use Rattle.std.specs.Prelude.{◌≡◌, ◌++◌, [], ◌∷◌, OnOk, OnErr};

use std::alloc::AllocError;

/// Puts an item behind the others; want of memory leaves them as they were.
pub(crate) fn push<T: Drop>(items: &mut Vec<T>, item: T) -> Result<(), AllocError>
    ensures pushed { OnOk result (items.new.items ≡ items.old.items ++ item ∷ []) }
    ensures unchanged { OnErr result (items.new.items ≡ items.old.items) }
{
    items.push(item)?;
    Ok(())
}
