//! Where the last name of a path belongs to in an outline.

ghost use Rattle.std.specs.Prelude.{◌≡◌, None, Some, map, IfOk, IfErr, OnErr, OnOk};
ghost use Rattle.lfs_command.specs.Parent.{parent_of};
ghost use Rattle.lfs_fs.specs.Sound.{IsSound};
ghost use Rattle.lfs_law.specs.ParentChecks.{parent_checks};
ghost use Rattle.lfs_command.specs.Verdict.{first_refusal};

use crate::walking::walk;
use lfs_command::Refusal;
use lfs_fs::Outline;

/// The directory that a path's last name belongs to, and that name.
#[derive(Clone, Copy)]
pub(crate) struct Parent<'a> {
    /// The directory's pair, the lesser block first.
    pub(crate) pair: (u32, u32),
    /// The name.
    pub(crate) name: &'a [u8],
}

/// Where the last name of a path belongs to: `IsRoot` where the path is the root's, else what the walk to its last name is
/// refused for.
pub(crate) fn parent_of<'a>(outline: &Outline, names: &[&'a [u8]]) -> Result<Parent<'a>, Refusal>
    requires { IsSound outline.now }
    ensures parent { IfOk result (λ parent. parent_of outline.now (map (λ n. n.now) names.now) ≡ Some (parent.pair, parent.name.now)) }
    ensures unrefused { OnOk result (first_refusal (parent_checks outline.now (map (λ n. n.now) names.now)) ≡ None) }
    ensures refused { IfErr result (λ r. first_refusal (parent_checks outline.now (map (λ n. n.now) names.now)) ≡ Some r) }
    ensures none { OnErr result (parent_of outline.now (map (λ n. n.now) names.now) ≡ None) }
{
    let Some((name, fronts)) = names.split_last() else {
        return Err(Refusal::IsRoot);
    };
    let pair = walk(&outline.directories, fronts)?;
    Ok(Parent { pair, name: *name })
}
