//! How many blocks the words of a command say.

ghost use Rattle.std.specs.Prelude.{◌≡◌, ◌<◌, ◌⊎◌, IfErr, IfOk, List, codes, true};
ghost use Rattle.clap.specs.Words.{Row, Rule, found_of, rows_of};
ghost use Rattle.lfs_fs.specs.Superblock.{IsLimits};
ghost use Rattle.lfs_grammar.specs.Grammar.{IsNumber, IsSaid, IsSaidOrNeedNot, attr_max, attr_max_or_source, file_max};
ghost use Rattle.lfs_grammar.specs.Grammar.{file_max_or_source, name_max, name_max_or_source};
ghost use Rattle.lfs_request.specs.SaidLimits.{AreSaidInRange};
ghost use Rattle.lfs_texts.specs.Sizes.{SaysBlock};
ghost use Rattle.lfs_arguments.specs.Words.{HasBlock, HasOtherBlock, HasText, IsBlockUsageError, IsCountUsageError, IsExtentUsageError, IsTwice, SaysCount};
ghost use Rattle.lfs_arguments.specs.Words.{SaysExtent, SaysExtentIfSaid, SaysNewLimits, SaysLimitsIfSaid, is_extent_said, other_block};
ghost use Rattle.lfs_arguments.specs.declared.usage_error.UsageError.TheVariants.{Unsaid};

use crate::options::{has_text, number, number_if_said, said, text};
use crate::usage_error::{REPACK, UsageError, Ways};
use clap::ArgMatches;
use lfs_fs::Limits;
use lfs_request::{Extent, SaidLimits};
use lfs_texts::{block_said, blocks_said};

/// The block size that the text of an option says, where `auto` stands for this one.
fn block_in<'a>(option: &'static str, text: &'a str, stated: u32) -> Result<u32, UsageError<'a>>
    ensures block { IfOk result (λ size. SaysBlock text.now stated size × (0 < size)) }
    ensures refused { IfErr result (λ usage_error. (rows : List Row) → HasText rows option.now text.now
        → IsBlockUsageError usage_error rows option.now stated) }
{
    match block_said(text, stated) {
        Some(size) => Ok(size),
        None => Err(UsageError::Block { option, text }),
    }
}

/// The block size that the words say, where `auto` stands for this one.
pub(crate) fn block_of<'a>(options: &ArgMatches<'a>, stated: u32) -> Result<u32, UsageError<'a>>
    ensures block { IfOk result (λ size. HasBlock (rows_of (found_of options.now)) (codes "block") stated size × (0 < size)) }
    ensures refused { IfErr result (λ usage_error. (usage_error ≡ Unsaid)
        ⊎ IsBlockUsageError usage_error (rows_of (found_of options.now)) (codes "block") stated) }
    ensures unsaid { IfErr result (λ usage_error. usage_error ≡ Unsaid → (rule : Rule) → rule.id ≡ codes "block"
        → IsSaid rule (rows_of (found_of options.now)) → ⊥) }
{
    let text = text(options, "block")?;
    block_in("block", text, stated)
}

/// The block size of another image that the words say, where `auto` stands for this one.
pub(crate) fn other_block_of<'a>(
    options: &ArgMatches<'a>,
    stated: u32,
) -> Result<u32, UsageError<'a>>
    ensures block { IfOk result (HasOtherBlock (rows_of (found_of options.now)) stated) }
    ensures refused { IfErr result (λ usage_error. (usage_error ≡ Unsaid)
        ⊎ IsBlockUsageError usage_error (rows_of (found_of options.now)) (other_block (rows_of (found_of options.now))) stated) }
    ensures unsaid { IfErr result (λ usage_error. usage_error ≡ Unsaid → (rule : Rule) → rule.id ≡ codes "block"
        → IsSaid rule (rows_of (found_of options.now)) → ⊥) }
{
    match options.get_str("from-block") {
        Some(text) => block_in("from-block", text, stated),
        None => block_of(options, stated),
    }
}

/// The number of blocks of this size that the words say in one of two ways.
pub(crate) fn count_of<'a>(
    options: &ArgMatches<'a>,
    block: u32,
    ways: Ways,
) -> Result<u32, UsageError<'a>>
    requires { 0 < block }
    ensures count { IfOk result (λ count. SaysCount (rows_of (found_of options.now)) block count) }
    ensures refused { IfErr result (λ usage_error. (usage_error ≡ Unsaid) ⊎ IsCountUsageError usage_error (rows_of (found_of options.now)) block) }
    ensures unsaid { IfErr result (λ usage_error. usage_error ≡ Unsaid → (rule : Rule) → rule.id ≡ codes "count" → IsNumber rule
        → IsSaidOrNeedNot rule (rows_of (found_of options.now)) → ⊥) }
{
    match (options.get_str("count"), options.get_str("size")) {
        (Some(_), None) => number(options, "count"),
        (None, Some(text)) => match blocks_said(text, block) {
            Ok(count) => Ok(count),
            Err(fault) => Err(UsageError::Size { text, fault }),
        },
        (None, None) => Err(UsageError::NoCount(ways)),
        (Some(_), Some(_)) => Err(UsageError::TwoCounts {
            ways,
            one: ways.count,
            other: "--size <BYTES>",
        }),
    }
}

/// How many blocks of this size a packed image gets by the words, which say it in one of these ways.
pub(crate) fn extent_of<'a>(
    options: &ArgMatches<'a>,
    block: u32,
    ways: Ways,
) -> Result<Extent, UsageError<'a>>
    requires { 0 < block }
    ensures extent { IfOk result (λ extent. SaysExtent (rows_of (found_of options.now)) block extent) }
    ensures refused { IfErr result (λ usage_error. (usage_error ≡ Unsaid) ⊎ IsExtentUsageError usage_error (rows_of (found_of options.now)) block) }
    ensures unsaid { IfErr result (λ usage_error. usage_error ≡ Unsaid → (rule : Rule) → rule.id ≡ codes "count" → IsNumber rule
        → IsSaidOrNeedNot rule (rows_of (found_of options.now)) → ⊥) }
{
    if !said(options, "least") {
        return Ok(Extent::Count(count_of(options, block, ways)?));
    }
    match (options.get_str("count"), options.get_str("size")) {
        (None, None) => Ok(Extent::Least),
        (Some(_), _) => Err(twice(ways, "--count <N>")),
        (None, Some(_)) => Err(twice(ways, "--size <BYTES>")),
    }
}

/// What is wrong where `--least` is said beside another way.
fn twice<'a>(ways: Ways, one: &'static str) -> UsageError<'a>
    ensures twice { IsTwice result }
{
    UsageError::TwoCounts {
        ways,
        one,
        other: "--least",
    }
}

/// Whether the words say in some way how many blocks a packed image gets.
fn is_extent_said(options: &ArgMatches<'_>) -> bool
    ensures { result ≡ is_extent_said (rows_of (found_of options.now)) }
{
    said(options, "least") || has_text(options, "count") || has_text(options, "size")
}

/// How many blocks of this size an image gets by the words that is made of another one; `None` where they say it in no way.
pub(crate) fn extent_if_said<'a>(
    options: &ArgMatches<'a>,
    block: u32,
) -> Result<Option<Extent>, UsageError<'a>>
    requires { 0 < block }
    ensures extent { IfOk result (λ extent. SaysExtentIfSaid (rows_of (found_of options.now)) block extent) }
    ensures refused { IfErr result (λ usage_error. (usage_error ≡ Unsaid)
        ⊎ ((is_extent_said (rows_of (found_of options.now)) ≡ true) × IsExtentUsageError usage_error (rows_of (found_of options.now)) block)) }
    ensures unsaid { IfErr result (λ usage_error. usage_error ≡ Unsaid → (rule : Rule) → rule.id ≡ codes "count" → IsNumber rule
        → IsSaidOrNeedNot rule (rows_of (found_of options.now)) → ⊥) }
{
    if is_extent_said(options) {
        Ok(Some(extent_of(options, block, REPACK)?))
    } else {
        Ok(None)
    }
}

/// The limits that the words say.
pub(crate) fn limits_of<'a>(options: &ArgMatches<'a>) -> Result<Limits, UsageError<'a>>
    ensures limits { IfOk result (λ limits. SaysNewLimits (rows_of (found_of options.now)) limits) }
    ensures within { IfOk result (λ limits. IsSaid name_max (rows_of (found_of options.now))
        → IsSaid file_max (rows_of (found_of options.now)) → IsSaid attr_max (rows_of (found_of options.now)) → IsLimits limits) }
    ensures unsaid { IfErr result (λ usage_error. (usage_error ≡ Unsaid) × (IsSaid name_max (rows_of (found_of options.now))
        → IsSaid file_max (rows_of (found_of options.now)) → IsSaid attr_max (rows_of (found_of options.now)) → ⊥)) }
{
    Ok(Limits {
        name: number(options, "name-max")?,
        file: number(options, "file-max")?,
        attribute: number(options, "attr-max")?,
    })
}

/// The limits that the words say, as far as they do.
pub(crate) fn limits_if_said(options: &ArgMatches<'_>) -> SaidLimits
    ensures limits { SaysLimitsIfSaid (rows_of (found_of options.now)) result }
    ensures within { IsSaidOrNeedNot name_max_or_source (rows_of (found_of options.now))
        → IsSaidOrNeedNot file_max_or_source (rows_of (found_of options.now))
        → IsSaidOrNeedNot attr_max_or_source (rows_of (found_of options.now)) → AreSaidInRange result }
{
    SaidLimits {
        name: number_if_said(options, "name-max"),
        file: number_if_said(options, "file-max"),
        attribute: number_if_said(options, "attr-max"),
    }
}
