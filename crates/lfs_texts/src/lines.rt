//! Lines that are passed over.

ghost use Rattle.std.specs.Prelude.{◌≡◌};
ghost use Rattle.lfs_texts.specs.Lines.{is_passed_over};

/// Whether a line is passed over: it is empty, or begins with `#`.
pub(crate) fn is_passed_over(line: &[u8]) -> bool
    ensures { result ≡ is_passed_over line.now }
{
    match line.split_first() {
        None => true,
        Some((first, _)) => *first == b'#',
    }
}
