/// What is wrong with bytes that are not a transcript.
#[derive(Clone, Copy, Debug, PartialEq, Eq)]
pub enum TranscriptKind {
    /// The bytes end where another one is needed.
    Short,
    /// The first bytes are not those of a transcript, a tag is not that of an entry, or a byte that says
    /// which of two things follows is neither 0 nor 1.
    Tag,
    /// The length of a name is not from 1 to 32, or that of an answer is above 1,024.
    Length,
    /// A place has a text that is not a name.
    Name,
    /// Bytes follow the last entry.
    Rest,
}

/// Why bytes are not a transcript: what is wrong, and how many of the bytes there are from where it
/// stands on.
#[derive(Clone, Copy, Debug, PartialEq, Eq)]
pub struct Stop {
    pub kind: TranscriptKind,
    pub left: usize,
}
