//! Which of two paths comes first.

ghost use Rattle.std.specs.Prelude.{◌≡◌, ◌≢◌, map};
ghost use Rattle.lfs_listing.specs.Order.{name_order, path_order};

use lfs_fs::{names_are_ordered, precedes};
use std::cmp::Ordering;

/// Which of two names that differ comes first.
fn name_order(left: &[u8], right: &[u8]) -> Ordering
    requires { left.now ≢ right.now }
    ensures { result ≡ name_order left.now right.now }
{
    names_are_ordered();
    if precedes(left, right) {
        Ordering::Less
    } else {
        Ordering::Greater
    }
}

/// Which of two paths comes first: one before its extensions, else by the first names in which they differ.
pub fn order_of(left: &[&[u8]], right: &[&[u8]]) -> Ordering
    ensures { result ≡ path_order (map (λ n. n.now) left.now) (map (λ n. n.now) right.now) }
{
    'each: for (index, name) in left.iter().enumerate() {
        let Some(other) = right.get(index) else {
            return Ordering::Greater;
        };
        if name != other {
            return name_order(name, other);
        }
    }
    if left.len() < right.len() {
        Ordering::Less
    } else {
        Ordering::Equal
    }
}
