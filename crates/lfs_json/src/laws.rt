//! What every line is.

ghost use Rattle.lfs_json.specs.Texts.{SpellingsAreOneLine, SpellingsAreUtf8, SpellingsReadBack};

/// A value of UTF-8 and whole numbers is spelled as UTF-8.
pub fn spellings_are_utf8()
    ensures { SpellingsAreUtf8 }
{}

/// Such a spelling has no control character: it is one line.
pub fn spellings_are_one_line()
    ensures { SpellingsAreOneLine }
{}

/// The value is read back from its spelling.
pub fn spellings_read_back()
    ensures { SpellingsReadBack }
{}
