//! Which names of rows a host can have.

ghost use Rattle.std.specs.Prelude.{MatchBool};
ghost use Rattle.lfs_fs.specs.Listed.{rows_listed};
ghost use Rattle.lfs_fs.specs.Path.{Path};
ghost use Rattle.lfs_listing.specs.Below.{names};
ghost use Rattle.lfs_extract.specs.Extracted.{HasOtherName, HaveTexts, IsHostText};
ghost use Rattle.lfs_extract.specs.RowsBelow.{IsDeeper, IsSharedPrefix, rows_below};

use crate::shared_prefix::SharedPrefix;
use lfs_fs::Rows;

/// Whether a name is UTF-8 with no byte of zero.
fn is_host_text(name: &[u8]) -> bool
    ensures { MatchBool result (IsHostText name.now) (¬ IsHostText name.now) }
{
    std::str::from_utf8(name).is_ok() && !name.contains(&0)
}

/// Whether the path of a row is below another one, and its last name isn't UTF-8 or holds a byte of zero.
fn has_other_name(prefix: SharedPrefix, at: &[&[u8]], name: &[u8]) -> bool
    ensures { (path : Path) → IsSharedPrefix (names at.now) path prefix
        → MatchBool result (IsDeeper (names at.now) path × ¬ IsHostText name.now) (IsDeeper (names at.now) path → IsHostText name.now) }
{
    prefix.is_below(at) && prefix.more(at) > 0 && !is_host_text(name)
}

/// Whether each name behind a path, of the rows at it and below it, is UTF-8 with no byte of zero.
pub(crate) fn have_host_texts(rows: Rows<'_>, at: &[&[u8]]) -> bool
    ensures { MatchBool result (HaveTexts (rows_below (names at.now) (rows_listed rows.entry)))
        (HasOtherName (rows_below (names at.now) (rows_listed rows.entry))) }
{
    let mut prefix = SharedPrefix::new();
    for row in rows {
        prefix = prefix.behind(at, &row);
        if has_other_name(prefix, at, row.name) {
            return false;
        }
    }
    true
}
