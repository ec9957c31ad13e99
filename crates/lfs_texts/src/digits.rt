//! The bytes that hexadecimal digits are.

ghost use Rattle.std.specs.Prelude.{IfNone, IfOk, IfSome};
ghost use Rattle.lfs_texts.specs.Digits.{SpellsByte, SpellsBytes, SpellsNoByte, SpellsNoBytes};

use hex::{FromHex, FromHexError};
use std::alloc::{AllocError, Global};

/// The byte that two hexadecimal digits in either case are. `None` for every other text.
pub fn byte_of(digits: &[u8]) -> Option<u8>
    ensures byte { IfSome result (λ byte. SpellsByte digits.now byte) }
    ensures none { IfNone result (SpellsNoByte digits.now) }
{
    match <[u8; 1] as FromHex>::from_hex(digits) {
        Ok(bytes) => Some(bytes[0]),
        Err(_) => None,
    }
}

/// The bytes that hexadecimal digits in either case are, two of each; none for the empty text. `None` for every other text. A fault
/// says only that a growth of memory was refused.
pub fn bytes_of(alloc: Global, digits: &[u8]) -> Result<Option<Vec<u8>>, AllocError>
    ensures bytes { IfOk result (λ found. IfSome found (λ bytes. SpellsBytes digits.now bytes.items)) }
    ensures none { IfOk result (λ found. IfNone found (SpellsNoBytes digits.now)) }
{
    match hex::decode(alloc, digits) {
        Ok(bytes) => Ok(Some(bytes)),
        Err(FromHexError::OutOfMemory) => Err(AllocError),
        Err(_) => Ok(None),
    }
}
