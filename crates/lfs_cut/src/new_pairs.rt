//! Pairs for the new parts of a part.

ghost use Rattle.std.specs.Prelude.{◌≡◌, ◌*◌, length, flat_map, IfOk};
ghost use Rattle.lfs_command.specs.Ordered.{pair_blocks};

use std::alloc::{AllocError, Global};
use std::default::MadeWith;
use std::marker::Model;

/// The pairs for the new parts of a part. Its meaning is the part's pair with them.
#[derive(Drop)]
pub struct NewPairs {
    /// The pair of the part.
    pub(crate) pair: (u32, u32),
    /// Those of its new parts, in order.
    pub(crate) pairs: Vec<(u32, u32)>,
}

impl Model for NewPairs {
    ghost use Rattle.lfs_cut.specs.Chosen.{PairRow};

    ghost Value = { PairRow };

    ghost view = { λ r. (r.pair, r.pairs.items) };

    ghost invariant = { λ r. Unit };
}

impl MadeWith<Global> for NewPairs {
    fn made_with(alloc: Global) -> Self {
        NewPairs {
            pair: (0, 0),
            pairs: Vec::new(alloc),
        }
    }
}

/// Blocks two by two, as so many pairs.
pub(crate) fn pairs_of(
    alloc: Global,
    blocks: &[u32],
    len: usize,
) -> Result<Vec<(u32, u32)>, AllocError>
    requires { length blocks.now ≡ 2 * len }
    ensures len { IfOk result (λ pairs. length pairs.items ≡ len) }
    ensures blocks { IfOk result (λ pairs. flat_map pair_blocks pairs.items ≡ blocks.now) }
{
    let mut pairs = Vec::with_capacity(alloc, len)?;
    'each: for at in 0..len {
        pairs.push((blocks[2 * at], blocks[2 * at + 1]))?;
    }
    Ok(pairs)
}
