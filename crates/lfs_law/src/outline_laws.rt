//! Laws of outlines, volumes less the contents of their chains: each function does nothing but call laws, and its contract is the law.

ghost use Rattle.lfs_law.specs.CutOutline.{CutsOutline};
ghost use Rattle.lfs_law.specs.EditedOutline.{OutlinesFollow};
ghost use Rattle.lfs_law.specs.JudgedAlike.{OutlinesAreJudgedAlike, OutlinesTakeSameRoom, PairsAreChosenAlike};
ghost use Rattle.lfs_law.specs.OutlineCarried.{LargeIsTheSame, OutlinesAreCarried};

use crate::laws::need_is_exact;

/// A law: the outline of the volume that a command leaves is what the command makes of the outline.
pub fn outlines_follow()
    ensures { OutlinesFollow }
{}

/// A law: the outline of a volume whose parts are cut is the outline cut, where the same pairs are chosen (`cut`). Pairs that are
/// enough for the outline are for the volume, and use the same blocks (`chosen`).
pub fn cuts_keep_outlines()
    ensures cut { CutsOutline }
    ensures chosen { PairsAreChosenAlike }
{}

/// A law: a command has the same checks, the same verdict and the same need on an outline as on its volume, and frees the same
/// blocks (`judged`). The outline uses the same blocks, and its parts take the same room (`room`).
pub fn outlines_are_judged_alike()
    ensures judged { OutlinesAreJudgedAlike }
    ensures room { OutlinesTakeSameRoom }
{}

/// A law: what is worked out on the edited outline holds of the volume: how it is cut, which pairs are enough, what it needs, and
/// whether an entry is too large (`carried`), which doesn't depend on what the command gets (`large`).
pub fn outlines_are_carried()
    ensures carried { OutlinesAreCarried }
    ensures large { LargeIsTheSame }
{
    need_is_exact();
}
