//! The words of a superblock at the front of a block.

ghost use Rattle.std.specs.Prelude.{◌≡◌};
ghost use Rattle.std.specs.Option.{option_map};
ghost use Rattle.lfs_lower.specs.Words.{stands_in, from_place, superblock_words};

/// A superblock's name.
const MAGIC: &[u8] = b"littlefs";

/// The tag that creates entry 0, as it is stored behind a revision.
const CREATED: &[u8] = &[0xbf, 0xef, 0xff, 0xff];

/// The bytes from a place on.
fn from_place(front: &[u8], at: usize) -> Option<&[u8]>
    ensures { option_map (λ behind. behind.now) result ≡ from_place front.now at }
{
    if at <= front.len() {
        let (_, behind) = front.split_at(at);
        Some(behind)
    } else {
        None
    }
}

/// Whether these bytes stand at a place.
fn begins_at(front: &[u8], at: usize, bytes: &[u8]) -> bool
    ensures { result ≡ stands_in front.now at bytes.now }
{
    match from_place(front, at) {
        Some(behind) => behind.starts_with(bytes),
        None => false,
    }
}

/// The bytes of the struct of the superblock at the front of a block, its version first, and all behind them; `None` where the block
/// doesn't begin as one with a superblock does. A tag that creates the entry may stand before its name. Whether a commit holds them
/// isn't looked at.
///
/// Source: SPEC.md, "0x0ff superblock".
pub fn superblock_words(front: &[u8]) -> Option<&[u8]>
    ensures { option_map (λ words. words.now) result ≡ superblock_words front.now }
{
    if begins_at(front, 8, MAGIC) {
        from_place(front, 20)
    } else if begins_at(front, 4, CREATED) && begins_at(front, 12, MAGIC) {
        from_place(front, 24)
    } else {
        None
    }
}
