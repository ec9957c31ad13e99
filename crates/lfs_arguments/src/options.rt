//! The options that a command's words have.

ghost use Rattle.std.specs.Prelude.{◌≡◌, ◌≤◌, IfErr, IfOk, IfSome, IsNone, is_some};
ghost use Rattle.clap.specs.Words.{Rule, first_of, found_of, rows_of};
ghost use Rattle.lfs_grammar.specs.Grammar.{IsNumber, IsSaid};
ghost use Rattle.lfs_arguments.specs.Words.{HasNumber, HasText, is_flagged};
ghost use Rattle.lfs_arguments.specs.declared.usage_error.UsageError.TheVariants.{Unsaid};

use crate::usage_error::UsageError;
use clap::ArgMatches;

/// The text of an option.
pub(crate) fn text<'a>(options: &ArgMatches<'a>, id: &str) -> Result<&'a str, UsageError<'a>>
    ensures some { IfOk result (λ text. HasText (rows_of (found_of options.now)) id.now text.now) }
    ensures none { IfErr result (λ usage_error. (usage_error ≡ Unsaid)
        × ((rule : Rule) → rule.id ≡ id.now → IsSaid rule (rows_of (found_of options.now)) → ⊥)) }
{
    match options.get_str(id) {
        Some(text) => Ok(text),
        None => Err(UsageError::Unsaid),
    }
}

/// Whether an option has a text.
pub(crate) fn has_text(options: &ArgMatches<'_>, id: &str) -> bool
    ensures { result ≡ is_some (first_of id.now (rows_of (found_of options.now))) }
{
    options.get_str(id).is_some()
}

/// The bytes of an option's text.
pub(crate) fn bytes<'a>(options: &ArgMatches<'a>, id: &str) -> Result<&'a [u8], UsageError<'a>>
    ensures some { IfOk result (λ bytes. HasText (rows_of (found_of options.now)) id.now bytes.now) }
    ensures none { IfErr result (λ usage_error. (usage_error ≡ Unsaid)
        × ((rule : Rule) → rule.id ≡ id.now → IsSaid rule (rows_of (found_of options.now)) → ⊥)) }
{
    match options.get_str(id) {
        Some(text) => Ok(text.as_bytes()),
        None => Err(UsageError::Unsaid),
    }
}

/// The number that an option's text says, which must be there.
pub(crate) fn number<'a>(options: &ArgMatches<'a>, id: &str) -> Result<u32, UsageError<'a>>
    ensures some { IfOk result (λ number. HasNumber (rows_of (found_of options.now)) id.now number) }
    ensures within { IfOk result (λ number. (rule : Rule) → rule.id ≡ id.now → (is : IsNumber rule)
        → IsSaid rule (rows_of (found_of options.now)) → (is.0 ≤ number) × (number ≤ is.1)) }
    ensures none { IfErr result (λ usage_error. (usage_error ≡ Unsaid)
        × ((rule : Rule) → rule.id ≡ id.now → IsNumber rule → IsSaid rule (rows_of (found_of options.now)) → ⊥)) }
{
    match number_if_said(options, id) {
        Some(number) => Ok(number),
        None => Err(UsageError::Unsaid),
    }
}

/// The number that an option's text says.
pub(crate) fn number_if_said(options: &ArgMatches<'_>, id: &str) -> Option<u32>
    ensures some { IfSome result (λ number. HasNumber (rows_of (found_of options.now)) id.now number) }
    ensures within { IfSome result (λ number. (rule : Rule) → rule.id ≡ id.now → (is : IsNumber rule)
        → IsSaid rule (rows_of (found_of options.now)) → (is.0 ≤ number) × (number ≤ is.1)) }
    ensures none { IsNone result → (rule : Rule) → rule.id ≡ id.now → IsNumber rule
        → IsSaid rule (rows_of (found_of options.now)) → ⊥ }
{
    options.get_one::<u32>(id)
}

/// Whether an option without a value is said.
pub(crate) fn said(options: &ArgMatches<'_>, id: &str) -> bool
    ensures { result ≡ is_flagged id.now (rows_of (found_of options.now)) }
{
    match options.get_str(id) {
        Some(text) => text == "true",
        None => false,
    }
}
