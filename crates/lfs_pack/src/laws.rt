//! Laws of packing: each function does nothing but call laws, and its contract is the law.

ghost use Rattle.lfs_pack.specs.Laws.{LeastCountsAreLeast, LedToTheirMap};

use lfs_fs::paths_are_ordered;
use lfs_law::{cuts_follow, free_after};

/// A law: the commands of rows, each accepted, lead from the volume of a new image to one whose tree is the map of the rows: at each
/// path it has what the row of that path says, and nothing elsewhere.
pub fn rows_are_led_to_their_map()
    ensures { LedToTheirMap }
{
    paths_are_ordered();
    cuts_follow();
}

/// A law: rows are packed into as many blocks as their least count says, and into more, where no memory is refused; into fewer they
/// aren't packed.
pub fn least_counts_are_least()
    ensures { LeastCountsAreLeast }
{
    paths_are_ordered();
    cuts_follow();
    free_after();
}
