//! How the words of a command say that an image is looked at.

ghost use Rattle.std.specs.Prelude.{◌<◌, ◌^◌, ℕ, List, IfErr, IfOk, IfSome, IsNone, codes};
ghost use Rattle.clap.specs.Words.{Row, found_of, rows_of};
ghost use Rattle.lfs_texts.specs.Sizes.{SaysBytes};
ghost use Rattle.lfs_arguments.specs.Words.{HasText, IsOffsetUsageError, IsView, SaysPlace};

use crate::options::said;
use crate::usage_error::UsageError;
use clap::ArgMatches;
use lfs_request::View;
use lfs_texts::bytes_said;

/// The number of bytes that the text of an option says, as far as it says one.
fn place_in<'a>(text: &'a str) -> Result<u64, UsageError<'a>>
    ensures some { IfOk result (SaysBytes text.now) }
    ensures refused { IfErr result (λ usage_error. (rows : List Row) → HasText rows (codes "offset") text.now → IsOffsetUsageError usage_error rows) }
{
    match bytes_said(text) {
        Some(place) => Ok(place),
        None => Err(UsageError::Offset { text }),
    }
}

/// How the words say that an image is looked at.
pub(crate) fn view_of<'a>(options: &ArgMatches<'a>) -> Result<View, UsageError<'a>>
    ensures some { IfOk result (λ view. IsView view (rows_of (found_of options.now))) }
    ensures refused { IfErr result (λ usage_error. IsOffsetUsageError usage_error (rows_of (found_of options.now))) }
{
    let by_device = said(options, "device");
    match options.get_str("offset") {
        Some(text) => Ok(View {
            by_device,
            offset: Some(place_in(text)?),
        }),
        None => Ok(View {
            by_device,
            offset: None,
        }),
    }
}

/// Where in its file the words say that an image begins, in bytes.
pub(crate) fn place_said(options: &ArgMatches<'_>) -> Option<u64>
    ensures some { IfSome result (SaysPlace (rows_of (found_of options.now))) }
    ensures none { IsNone result → (place : ℕ) → SaysPlace (rows_of (found_of options.now)) place → place < 2 ^ 64 → ⊥ }
{
    match options.get_str("offset") {
        Some(text) => bytes_said(text),
        None => None,
    }
}
