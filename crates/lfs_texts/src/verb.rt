//! The first words of lines.

ghost use Rattle.std.specs.Prelude.{◌≡◌, bytes_eq, codes};
ghost use Rattle.lfs_texts.specs.Verbs.{least_of, most_of, verb_of};

/// The first word of a line that says a step.
#[derive(Clone, Copy, Debug, PartialEq, Eq)]
pub enum Verb {
    /// `mkdir`.
    Mkdir,
    /// `put`.
    Put,
    /// `rm`.
    Rm,
    /// `mv`.
    Mv,
    /// `setattr`.
    SetAttr,
    /// `rmattr`.
    RmAttr,
    /// `grow`.
    Grow,
    /// `undo`.
    Undo,
    /// `redo`.
    Redo,
    /// `forget`.
    Forget,
}

impl Verb {
    /// The line of a step with this verb, as help texts show it.
    pub(crate) fn usage(self) -> &'static str {
        match self {
            Verb::Mkdir => "mkdir PATH",
            Verb::Put => "put PATH FILE",
            Verb::Rm => "rm PATH",
            Verb::Mv => "mv FROM TO",
            Verb::SetAttr => "setattr PATH KIND HEX",
            Verb::RmAttr => "rmattr PATH KIND",
            Verb::Grow => "grow COUNT",
            Verb::Undo => "undo",
            Verb::Redo => "redo",
            Verb::Forget => "forget",
        }
    }

    /// How many words stand behind it at least.
    pub(crate) fn least(self) -> usize
        ensures { result ≡ least_of self }
    {
        match self {
            Verb::Undo | Verb::Redo | Verb::Forget => 0,
            Verb::Mkdir | Verb::Rm | Verb::Grow => 1,
            Verb::Put | Verb::Mv | Verb::SetAttr | Verb::RmAttr => 2,
        }
    }

    /// How many words stand behind it at most.
    pub(crate) fn most(self) -> usize
        ensures { result ≡ most_of self }
    {
        match self {
            Verb::SetAttr => 3,
            verb => verb.least(),
        }
    }
}

/// Whether a word is this one.
fn is_word(word: &[u8], other: &str) -> bool
    ensures { result ≡ bytes_eq word.now other.now }
{
    word == other.as_bytes()
}

/// The verb that a word is; `None` where it is none.
pub(crate) fn verb_of(word: &[u8]) -> Option<Verb>
    ensures { result ≡ verb_of word.now }
{
    if is_word(word, "mkdir") {
        Some(Verb::Mkdir)
    } else if is_word(word, "put") {
        Some(Verb::Put)
    } else if is_word(word, "rm") {
        Some(Verb::Rm)
    } else if is_word(word, "mv") {
        Some(Verb::Mv)
    } else if is_word(word, "setattr") {
        Some(Verb::SetAttr)
    } else if is_word(word, "rmattr") {
        Some(Verb::RmAttr)
    } else if is_word(word, "grow") {
        Some(Verb::Grow)
    } else if is_word(word, "undo") {
        Some(Verb::Undo)
    } else if is_word(word, "redo") {
        Some(Verb::Redo)
    } else if is_word(word, "forget") {
        Some(Verb::Forget)
    } else {
        None
    }
}
