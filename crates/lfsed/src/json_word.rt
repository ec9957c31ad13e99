//! The word in front of the command that asks for JSON of all that is told.

ghost use Rattle.std.specs.Prelude.{◌≡◌, ◌<◌, IsTrue, length, map, slice_get, string_bytes};
ghost use Rattle.lfsed.specs.JsonWord.{asks_for_json, is_of_rows, is_word, plain_words};

/// Whether the word at a place is there, and is this one.
fn has_at(words: &[String], place: usize, text: &str) -> bool
    ensures is { result ≡ is_word (slice_get (map string_bytes words.now) place) text.now }
    ensures within { IsTrue result → place < length words.now }
{
    match words.get(place) {
        Some(word) => word.as_str() == text,
        None => false,
    }
}

/// Whether the word after the program's name asks for JSON.
pub fn asks_for_json(words: &[String]) -> bool
    ensures asks { result ≡ asks_for_json (map string_bytes words.now) }
    ensures within { IsTrue result → 1 < length words.now }
{
    has_at(words, 1, "--json")
}

/// Whether the word after that one is a command that prints rows.
fn prints_rows(words: &[String]) -> bool
    ensures prints { result ≡ is_of_rows (slice_get (map string_bytes words.now) 2) }
    ensures within { IsTrue result → 2 < length words.now }
{
    has_at(words, 2, "check")
        || has_at(words, 2, "ls")
        || has_at(words, 2, "blocks")
        || has_at(words, 2, "diff")
        || has_at(words, 2, "log")
        || has_at(words, 2, "adopt")
        || has_at(words, 2, "find")
        || has_at(words, 2, "explain")
}

/// Words as the grammar reads them: one in front of the command that asks for JSON is taken away, or stands after a command that prints rows.
pub fn plain(words: Vec<String>) -> Vec<String>
    ensures { map string_bytes result.items ≡ plain_words (map string_bytes words.items) }
{
    let mut words = words;
    if !asks_for_json(&words) {
        return words;
    }
    if prints_rows(&words) {
        words.swap(1, 2);
    } else {
        words.remove(1);
    }
    words
}
