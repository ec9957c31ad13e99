//! Paths of an image.

use std::marker::Model;

/// A path: the names from the root on. The root's path has none.
#[derive(Drop)]
pub struct Path {
    names: Vec<Vec<u8>>,
}

impl Model for Path {
    ghost use Rattle.std.specs.Prelude.{map};
    ghost use Rattle.lfs_fs.specs.Path.{Path};

    ghost Value = { Path };

    ghost view = { λ p. map (λ n. n.items) p.names.items };

    ghost invariant = { λ p. Unit };
}

impl Path {
    ghost use Rattle.std.specs.Prelude.{◌≡◌, map};

    /// The path of these names.
    pub fn new(names: Vec<Vec<u8>>) -> Path
        ensures { result ≡ map (λ n. n.items) names.items }
    {
        Path { names }
    }

    /// Its names, from the root on.
    pub fn names(&self) -> &[Vec<u8>]
        ensures { map (λ n. n.items) result.now ≡ self.now }
    {
        &self.names
    }
}
