//! The kinds and values of attributes, in hexadecimal digits.

ghost use Rattle.std.specs.Prelude.{◌≡◌, ◌⊎◌, IfErr, IfOk, codes};
ghost use Rattle.clap.specs.Words.{Rule, found_of, rows_of};
ghost use Rattle.lfs_grammar.specs.Grammar.{IsSaid};
ghost use Rattle.lfs_arguments.specs.Words.{HasByte, HasBytes, IsHexUsageError, IsKindUsageError};
ghost use Rattle.lfs_arguments.specs.declared.usage_error.UsageError.TheVariants.{Memory, Unsaid};

use crate::options::text;
use crate::usage_error::UsageError;
use clap::ArgMatches;
use lfs_texts::{Reason, byte_of, bytes_of};
use std::alloc::Global;

/// The kind of an attribute that the words of a command of this name say.
pub(crate) fn kind_of<'a>(
    command: &'static str,
    options: &ArgMatches<'a>,
) -> Result<u8, UsageError<'a>>
    ensures kind { IfOk result (HasByte (rows_of (found_of options.now)) (codes "kind")) }
    ensures refused { IfErr result (λ usage_error. (usage_error ≡ Unsaid) ⊎ IsKindUsageError usage_error command.now (rows_of (found_of options.now))) }
    ensures unsaid { IfErr result (λ usage_error. usage_error ≡ Unsaid → (rule : Rule) → rule.id ≡ codes "kind"
        → IsSaid rule (rows_of (found_of options.now)) → ⊥) }
{
    let digits = text(options, "kind")?;
    match byte_of(digits.as_bytes()) {
        Some(kind) => Ok(kind),
        None => Err(UsageError::Hex {
            command,
            reason: Reason::BadKind,
            digits,
        }),
    }
}

/// The kind and the value of an attribute that the words of `setattr` say.
pub(crate) fn attribute_of<'a>(
    alloc: Global,
    options: &ArgMatches<'a>,
) -> Result<(u8, Vec<u8>), UsageError<'a>>
    ensures kind { IfOk result (λ attribute. HasByte (rows_of (found_of options.now)) (codes "kind") attribute.0) }
    ensures value { IfOk result (λ attribute. HasBytes (rows_of (found_of options.now)) (codes "hex") attribute.1.items) }
    ensures refused { IfErr result (λ usage_error. (usage_error ≡ Unsaid) ⊎ (usage_error ≡ Memory)
        ⊎ IsHexUsageError usage_error (codes "setattr") (rows_of (found_of options.now))) }
    ensures unsaid { IfErr result (λ usage_error. usage_error ≡ Unsaid → ((rule : Rule) → rule.id ≡ codes "hex"
        → IsSaid rule (rows_of (found_of options.now)) → ⊥) ⊎ ((rule : Rule) → rule.id ≡ codes "kind"
        → IsSaid rule (rows_of (found_of options.now)) → ⊥)) }
{
    let digits = text(options, "hex")?;
    let value = bytes_of(alloc, digits.as_bytes())?;
    let kind = kind_of("setattr", options)?;
    match value {
        Some(value) => Ok((kind, value)),
        None => Err(UsageError::Hex {
            command: "setattr",
            reason: Reason::BadValue,
            digits,
        }),
    }
}
