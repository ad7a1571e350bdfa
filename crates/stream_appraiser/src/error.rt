use evidence_codec::BadKind;

/// Why a bundle that came in pieces was not judged.
#[derive(Clone, Copy, Debug, PartialEq, Eq)]
pub enum StreamError {
    /// The bytes are not a bundle of either version: the first fault from the left.
    Bad { at: u32, kind: BadKind },
    /// The value does not fit the shape: the number of the first node that does not.
    WrongShape { node: u32 },
    NoMemory,
}
