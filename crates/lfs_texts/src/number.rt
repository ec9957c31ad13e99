//! Numbers in decimal digits.

ghost use Rattle.std.specs.Prelude.{ℕ, IfNone, IfSome};
ghost use Rattle.lfs_texts.specs.Steps.{SpellsNumber};

/// The number that decimal digits are, where a plus may stand first. `None` for every other word, and from 2^32 on.
pub(crate) fn number_of(word: &[u8]) -> Option<u32>
    ensures number { IfSome result (λ number. SpellsNumber word.now number) }
    ensures none { IfNone result ((number : ℕ) → SpellsNumber word.now number → ⊥) }
{
    match std::str::from_utf8(word) {
        Ok(text) => match text.parse::<u32>() {
            Ok(number) => Some(number),
            Err(_) => None,
        },
        Err(_) => None,
    }
}
