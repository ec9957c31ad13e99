//! Names compared.

ghost use Rattle.std.specs.Prelude.{◌≡◌};
ghost use Rattle.lfs_fs.specs.NameOrder.{precedes};

/// Whether a name comes before another: by the first byte in which they differ, and where one begins the other, the
/// longer one first.
pub fn precedes(left: &[u8], right: &[u8]) -> bool
    ensures { result ≡ precedes left.now right.now }
{
    'each: for (index, byte) in left.iter().enumerate() {
        let Some(other) = right.get(index) else {
            return true;
        };
        if byte != other {
            return byte < other;
        }
    }
    false
}
