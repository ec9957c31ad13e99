//! Paths of rows, and a host's names of them.

ghost use Rattle.std.specs.Prelude.{◌≡◌, ◌≢◌, IfOk, OnOk, map, string_bytes};
ghost use Rattle.std.specs.Str.{IsUtf8};
ghost use Rattle.lfs_fs.specs.Listed.{path_after};
ghost use Rattle.lfs_extract.specs.PathBelow.{host_name};

use lfs_fs::follow;
use std::alloc::{AllocError, Global};

/// A name as a text.
fn text_of(name: &[u8]) -> &str
    requires { IsUtf8 name.now }
    ensures { result.now ≡ name.now }
{
    match std::str::from_utf8(name) {
        Ok(text) => text,
        Err(_) => unreachable!(),
    }
}

/// Turns what is left of a row's path into that of a later one, of which so many names are left, this one last.
pub(crate) fn follow_rest<'a>(
    rest: &mut Vec<&'a str>,
    depth: usize,
    name: &'a [u8],
) -> Result<(), AllocError>
    requires { depth ≢ 0 → IsUtf8 name.now }
    ensures { OnOk result (map (λ n. n.now) rest.new.items ≡ path_after (map (λ n. n.now) rest.old.items) depth name.now) }
{
    if depth == 0 {
        rest.clear();
        return Ok(());
    }
    follow(rest, depth, text_of(name))?;
    Ok(())
}

/// The host's name of a path below a folder.
pub(crate) fn host_name(alloc: Global, dir: &str, path: &[&str]) -> Result<String, AllocError>
    ensures { IfOk result (λ name. string_bytes name ≡ host_name dir.now (map (λ n. n.now) path.now)) }
{
    let mut name = String::from_str(alloc, dir)?;
    for part in path {
        name.push_str("/")?;
        name.push_str(part)?;
    }
    Ok(name)
}
