//! The laws that packing stands on.

ghost use Rattle.lfs_pack.specs.PackingLaws.{PackingLaws};

use crate::laws::rows_are_led_to_their_map;
use lfs_fs::{paths_are_ordered, texts_spell_one_path};
use lfs_law::{cuts_follow, free_after};

/// The laws that packing stands on.
pub(crate) fn packing_laws()
    ensures { PackingLaws }
{
    rows_are_led_to_their_map();
    texts_spell_one_path();
    cuts_follow();
    paths_are_ordered();
    free_after();
}
