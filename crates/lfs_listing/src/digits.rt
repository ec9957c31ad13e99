//! Bytes in hexadecimal digits.

ghost use Rattle.std.specs.Prelude.{◌≡◌, ◌++◌, [], ◌∷◌, OnOk};
ghost use Rattle.hex.specs.Hex.{encode_lower};

use std::alloc::AllocError;

/// Adds the two digits of a byte.
pub(crate) fn append_digits(text: &mut Vec<u8>, byte: u8) -> Result<(), AllocError>
    ensures { OnOk result (text.new.items ≡ text.old.items ++ encode_lower (byte ∷ [])) }
{
    let mut digits = [0; 2];
    match hex::encode_to_slice([byte], &mut digits) {
        Ok(()) => text.extend_from_slice(&digits),
        Err(_) => unreachable!(),
    }
}

/// Adds the digits of bytes, two of each.
pub(crate) fn append_all_digits(text: &mut Vec<u8>, bytes: &[u8]) -> Result<(), AllocError>
    ensures { OnOk result (text.new.items ≡ text.old.items ++ encode_lower bytes.now) }
{
    for &byte in bytes {
        append_digits(text, byte)?;
    }
    Ok(())
}
