ghost use Rattle.std.specs.Prelude.{◌≡◌, ◌≤◌, ◌+◌};
ghost use Rattle.evidence_types.specs.Measure.{limit, of_answer, of_digest, of_nonce, of_pair};

/// The greatest weight that evidence may have at an event, and the greatest length of a value in
/// bytes.
pub const VALUE_BYTES: u32 = 262_144;

/// The greatest nest that evidence may have at an event, and the greatest nesting of a value.
pub const VALUE_NESTING: u32 = 1_025;

/// The greatest length in bytes of a value whose measurements carry marks.
pub const MARKED_BYTES: u32 = 262_398;

/// What is counted of evidence at each event, and limited.
#[derive(Clone, Copy, Debug, PartialEq, Eq)]
pub enum Measure {
    /// The greatest number of bytes that the value can have.
    Weight,
    /// The greatest depth to which the value can nest.
    Nest,
}

/// The count of empty evidence.
pub(crate) const EMPTY: u32 = 1;

impl Measure {
    /// The limit at each event.
    pub(crate) fn limit(self) -> u32
        ensures { result ≡ limit self }
    {
        match self {
            Measure::Weight => VALUE_BYTES,
            Measure::Nest => VALUE_NESTING,
        }
    }

    /// The count of a nonce.
    pub(crate) fn nonce(self) -> u32
        ensures nonce { result ≡ of_nonce self }
        ensures within { result ≤ limit self }
    {
        match self {
            Measure::Weight => 17,
            Measure::Nest => 1,
        }
    }

    /// With a measurement over it: a tag, its event, a length, and the longest answer; one node.
    pub(crate) fn answered(self, under: u32) -> u32
        requires { under ≤ limit self }
        ensures { result ≡ of_answer self + under }
    {
        match self {
            Measure::Weight => 1031 + under,
            Measure::Nest => 1 + under,
        }
    }

    /// With a seal or a hash over it: a tag, its event, and 32 bytes; one node.
    pub(crate) fn digested(self, under: u32) -> u32
        requires { under ≤ limit self }
        ensures { result ≡ of_digest self + under }
    {
        match self {
            Measure::Weight => 37 + under,
            Measure::Nest => 1 + under,
        }
    }

    /// What a pair makes of its parts.
    pub(crate) fn paired(self, left: u32, right: u32) -> u32
        requires left { left ≤ limit self }
        requires right { right ≤ limit self }
        ensures { result ≡ of_pair self left right }
    {
        match self {
            Measure::Weight => 1 + left + right,
            Measure::Nest => 1 + left.max(right),
        }
    }
}
