ghost use Rattle.std.specs.Prelude.{◌≡◌};
ghost use Rattle.evidence_codec.specs.Words.{bundle_word};

/// What is wrong with bytes that are not a bundle.
#[derive(Clone, Copy, Debug, PartialEq, Eq)]
pub enum BadKind {
    /// The bytes end where another one is needed.
    Short,
    /// The first bytes are not those of a bundle, or a tag is not that of a node.
    Tag,
    /// A length is too large, or the value does not have the length that the bundle says.
    Length,
    /// Bytes follow the bundle.
    Rest,
    /// The nodes nest too deep.
    Deep,
}

impl BadKind {
    /// The word for it in the line of a refusal.
    pub fn word(self) -> &'static str
        ensures { result.now ≡ bundle_word self }
    {
        match self {
            BadKind::Short => "short",
            BadKind::Tag => "tag",
            BadKind::Length => "length",
            BadKind::Rest => "rest",
            BadKind::Deep => "deep",
        }
    }
}

/// A fault: its offset in the bytes, which counts from 0, and what is wrong there.
#[derive(Clone, Copy, Debug, PartialEq, Eq)]
pub struct Fault {
    pub at: u32,
    pub kind: BadKind,
}

/// Why bytes were not decoded.
#[derive(Clone, Copy, Debug, PartialEq, Eq)]
pub enum DecodeError {
    /// The bytes are not a bundle: the first fault from the left.
    Bad { at: u32, kind: BadKind },
    NoMemory,
}

/// Why no head stands at the front of bytes.
#[derive(Clone, Copy, Debug, PartialEq, Eq)]
pub enum Stop {
    /// Another byte is wanted behind them.
    Wanting,
    /// There is a fault, so many bytes behind the first one.
    Faulty(u32, BadKind),
}
