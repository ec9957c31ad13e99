//! The checksum of metadata.

ghost use Rattle.std.specs.Prelude.{◌≡◌, ◌+◌, ◌<◌, ◌^◌};
ghost use Rattle.std.specs.List.{fold};
ghost use Rattle.lfs_block.specs.Checksum.{crc, crc_byte, crc_shifted};

use crate::checksum_tables::TABLES;

/// What is left of `byte` once `more` bytes and one are shifted out.
fn shifted(more: usize, byte: u8) -> u32
    requires { more < 16 }
    ensures { result ≡ crc_shifted (more + 1) byte }
{
    TABLES[more][usize::from(byte)]
}

/// The checksum after one more byte.
fn add_byte(checksum: u32, byte: u8) -> u32
    ensures { result ≡ crc_byte checksum byte }
{
    shifted(0, (checksum & 0xff) as u8 ^ byte) ^ (checksum >> 8)
}

/// What is left of the checksum after eight more bytes, which meet its own as one word, once `more` bytes are shifted out. The four of
/// them that the checksum doesn't meet come first, so that they wait for nothing.
fn eight_shifted(more: usize, checksum: u32, bytes: &[u8; 8]) -> u32
    requires { more < 9 }
    ensures { result ≡ crc_shifted more (crc checksum bytes.now) }
{
    let word = u64::from(checksum) ^ u64::from_le_bytes(*bytes);
    let met = word.to_le_bytes();
    let behind = shifted(more + 3, met[4])
        ^ shifted(more + 2, met[5])
        ^ shifted(more + 1, met[6])
        ^ shifted(more, met[7]);
    behind
        ^ shifted(more + 7, met[0])
        ^ shifted(more + 6, met[1])
        ^ shifted(more + 5, met[2])
        ^ shifted(more + 4, met[3])
}

/// The checksum after eight more bytes.
fn add_eight(checksum: u32, bytes: &[u8; 8]) -> u32
    ensures { result ≡ crc checksum bytes.now }
{
    eight_shifted(0, checksum, bytes)
}

/// The checksum after sixteen more bytes: that of the last eight alone, which waits for nothing, meets what the first eight leave once
/// eight are shifted out.
fn add_sixteen(checksum: u32, first: &[u8; 8], second: &[u8; 8]) -> u32
    ensures { result ≡ crc (crc checksum first.now) second.now }
{
    eight_shifted(0, 0, second) ^ eight_shifted(8, checksum, first)
}

/// The checksum after a pair of eight bytes each.
fn add_pair(checksum: u32, pair: &[[u8; 8]; 2]) -> u32
    ensures { result ≡ fold crc checksum pair.now }
{
    add_sixteen(checksum, &pair[0], &pair[1])
}

/// The checksum after more bytes, one by one.
fn add_bytes(checksum: u32, bytes: &[u8]) -> u32
    ensures { result ≡ crc checksum bytes.now }
{
    bytes
        .iter()
        .fold(checksum, |sum, byte| add_byte(sum, *byte))
}

/// The checksum after more bytes, eight by eight.
fn add_eights(checksum: u32, eights: &[[u8; 8]]) -> u32
    ensures { result ≡ fold crc checksum eights.now }
{
    eights
        .iter()
        .fold(checksum, |sum, eight| add_eight(sum, eight))
}

/// The checksum after more bytes, sixteen by sixteen.
fn add_pairs(checksum: u32, pairs: &[[[u8; 8]; 2]]) -> u32
    ensures { result ≡ fold (fold crc) checksum pairs.now }
{
    pairs.iter().fold(checksum, |sum, pair| add_pair(sum, pair))
}

/// The checksum of `bytes` from the start value `start`: a CRC-32 with the polynomial 0x04c11db7, reflected, with no
/// final inversion. A commit starts at 0xffffffff.
///
/// Source: SPEC.md, "0x5xx CRC".
pub fn crc32(start: u32, bytes: &[u8]) -> u32
    ensures { result ≡ crc start bytes.now }
{
    let (eights, rest) = bytes.as_chunks::<8>();
    let (pairs, last) = eights.as_chunks::<2>();
    add_bytes(add_eights(add_pairs(start, pairs), last), rest)
}
