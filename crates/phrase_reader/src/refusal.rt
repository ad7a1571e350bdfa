ghost use Rattle.std.specs.Prelude.{◌≡◌};
ghost use Rattle.phrase_reader.specs.Words.{refusal_word};

/// Why a text is not a phrase.
#[derive(Clone, Copy, Debug, PartialEq, Eq)]
pub enum Kind {
    /// A byte that begins no token, or that doesn't continue one.
    Char,
    /// A word that is not a keyword, a name or a decimal.
    Word,
    /// Something else must come here.
    Expected,
    /// The tokens before it are a whole phrase, and this one doesn't continue it.
    Trailing,
    /// A fifth argument.
    TooManyArgs,
    /// A decimal above 4294967295.
    NumberTooLarge,
    /// A 65th open bracket.
    TooDeep,
    /// More than 65,536 bytes.
    TooLong,
    /// More than 2,048 events.
    TooManyEvents,
}

impl Kind {
    /// The word for it in the line of a refusal.
    pub fn word(self) -> &'static str
        ensures { result.now ≡ refusal_word self }
    {
        match self {
            Kind::Char => "char",
            Kind::Word => "word",
            Kind::Expected => "expected",
            Kind::Trailing => "trailing",
            Kind::TooManyArgs => "too-many-args",
            Kind::NumberTooLarge => "number-too-large",
            Kind::TooDeep => "too-deep",
            Kind::TooLong => "too-long",
            Kind::TooManyEvents => "too-many-events",
        }
    }
}

/// Why no phrase was read: the text is refused, or there was no memory.
#[derive(Clone, Copy, Debug, PartialEq, Eq)]
pub enum ReadError {
    /// The first refusal of the text, with its offset in bytes.
    Refused { at: u32, kind: Kind },
    NoMemory,
}
