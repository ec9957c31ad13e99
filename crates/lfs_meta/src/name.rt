//! Which names files and directories take.

ghost use Rattle.std.specs.Prelude.{◌≡◌, ◌==◌, not};
ghost use Rattle.std.specs.List.{list_all};
ghost use Rattle.lfs_meta.specs.Name.{is_name};

/// Whether no byte of a name is a slash.
fn has_no_slash(name: &[u8]) -> bool
    ensures { result ≡ list_all (λ b. not (b == 47)) name.now }
{
    name.iter().all(|byte| *byte != b'/')
}

/// Whether a file or a directory may have this name: it has at least one byte, and no slash, and isn't `.` or `..`.
pub fn is_name(name: &[u8]) -> bool
    ensures { result ≡ is_name name.now }
{
    let is_some = !name.is_empty();
    let has_slash = !has_no_slash(name);
    let is_dot = name == b".".as_slice();
    let is_dots = name == b"..".as_slice();
    is_some && !has_slash && !is_dot && !is_dots
}
