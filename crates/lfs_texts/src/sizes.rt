//! What texts say of sizes.

ghost use Rattle.std.specs.Prelude.{◌<◌, IfErr, IfOk, IfSome, IsNone};
ghost use Rattle.lfs_texts.specs.Sizes.{HasUnit, IsSizeFault, SaysBlock, SaysBlocks, SaysBytes, SaysNoBlock, SaysNoBytes};

use std::fmt;

/// Why a text says no number of bytes.
pub const NO_BYTES: &str =
    "it is no number of bytes: decimal, hexadecimal behind 0x, or decimal with k or M behind it";

/// The fewest blocks of an image.
const LEAST_COUNT: u64 = 2;

/// The most blocks of an image.
const MOST_COUNT: u64 = 65_536;

/// Why the text of an image's size says no number of blocks.
#[derive(Clone, Copy)]
pub enum SizeFault {
    /// It says no number of bytes.
    NoNumber,
    /// It is no multiple of the block size.
    NoMultiple {
        /// The size that it says, in bytes.
        bytes: u64,
        /// The block size, in bytes.
        block: u32,
    },
    /// An image has 2 to 65,536 blocks.
    OutOfRange {
        /// The size that it says, in bytes.
        bytes: u64,
        /// The block size, in bytes.
        block: u32,
    },
}

impl fmt::Display for SizeFault {
    fn fmt<W: fmt::Write>(&self, f: &mut fmt::Formatter<W>) -> fmt::Result {
        match *self {
            SizeFault::NoNumber => f.write_str(NO_BYTES),
            SizeFault::NoMultiple { bytes, block } => {
                write!(f, "{bytes} is no multiple of the block size, {block}")
            }
            SizeFault::OutOfRange { bytes, block } => {
                let block = u64::from(block);
                let (least, most) = (LEAST_COUNT * block, MOST_COUNT * block);
                write!(f, "{bytes} is not in {least}..={most}")
            }
        }
    }
}

/// How many blocks an image has whose size a text says, in bytes: a decimal number, a hexadecimal one behind `0x`, or a
/// decimal one with `k` or `M` behind it, for 1,024 and 1,048,576. A fault where the text says no number, or none that is 2
/// to 65,536 such blocks.
pub fn blocks_said(text: &str, block: u32) -> Result<u32, SizeFault>
    requires { 0 < block }
    ensures blocks { IfOk result (λ count. SaysBlocks text.now block count) }
    ensures refused { IfErr result (λ fault. IsSizeFault fault text.now block) }
{
    let Some(bytes) = bytes_said(text) else {
        return Err(SizeFault::NoNumber);
    };
    let size = u64::from(block);
    if bytes % size != 0 {
        return Err(SizeFault::NoMultiple { bytes, block });
    }
    let count = bytes / size;
    if count < LEAST_COUNT || MOST_COUNT < count {
        return Err(SizeFault::OutOfRange { bytes, block });
    }
    Ok(count as u32)
}

/// How many bytes a text says: a decimal number, a hexadecimal one behind `0x`, or a decimal one with `k` or `M` behind it, for 1,024 and
/// 1,048,576. `None` where it says no number, or a greater one than `u64` holds.
pub fn bytes_said(text: &str) -> Option<u64>
    ensures bytes { IfSome result (λ bytes. SaysBytes text.now bytes) }
    ensures none { IsNone result → SaysNoBytes text.now }
{
    if let Some(digits) = text.strip_prefix("0x") {
        return u64::from_str_radix(digits, 16).ok();
    }
    let (digits, unit) = split_unit(text);
    match digits.parse::<u64>() {
        Ok(number) => number.checked_mul(unit),
        Err(_) => None,
    }
}

/// The digits of a text, and how many bytes the last of them stands for.
fn split_unit(text: &str) -> (&str, u64)
    ensures unit { HasUnit text.now result.0.now result.1 }
{
    if let Some(digits) = text.strip_suffix("k") {
        (digits, 1_024)
    } else if let Some(digits) = text.strip_suffix("M") {
        (digits, 1_048_576)
    } else {
        (text, 1)
    }
}

/// The size of a block that a text says, in bytes, where `auto` stands for this one. `None` where it is none that blocks have, which
/// is 256 to 65,536.
pub fn block_said(text: &str, stated: u32) -> Option<u32>
    ensures block { IfSome result (λ size. SaysBlock text.now stated size) }
    ensures none { IsNone result → SaysNoBlock text.now stated }
{
    let size = if text == "auto" {
        stated
    } else {
        match text.parse::<u32>() {
            Ok(size) => size,
            Err(_) => return None,
        }
    };
    if 256 <= size && size <= 65_536 {
        Some(size)
    } else {
        None
    }
}
