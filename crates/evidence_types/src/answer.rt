ghost use Rattle.std.specs.Prelude.{◌≡◌, ◌≤◌, length};
ghost use Rattle.std.specs.Option.{SomeIff};
ghost use Rattle.evidence_types.specs.Answer.{FitsAnswer};

use arrayvec::ArrayVec;
use std::marker::Model;

/// The greatest length of an answer, in bytes.
pub const ANSWER_BYTES: usize = 1024;

/// What a measurer answered: at most 1,024 bytes, which lie in the value itself.
#[derive(Debug, Drop, PartialEq, Eq)]
pub struct Answer {
    bytes: ArrayVec<u8, ANSWER_BYTES>,
}

impl Model for Answer {
    ghost use Rattle.std.specs.Prelude.{ℕ, List};
    ghost use Rattle.evidence_types.specs.Answer.{FitsAnswer};

    ghost Value = { List ℕ };

    ghost view = { λ answer. answer.bytes.items };

    ghost invariant = { λ answer. FitsAnswer answer.bytes.items };

    ghost inverse = { λ bytes. record { bytes = record { items = bytes } } };
}

impl Answer {
    /// The answer with these bytes; none exactly when there are more than 1,024. Takes no memory.
    pub fn of(bytes: &[u8]) -> Option<Answer>
        ensures { SomeIff result (FitsAnswer bytes.now) bytes.now }
    {
        if bytes.len() > ANSWER_BYTES {
            return None;
        }
        Some(filled(bytes))
    }

    pub fn bytes(&self) -> &[u8]
        ensures bytes { result.now ≡ self.now }
        ensures few { FitsAnswer self.now }
    {
        &self.bytes
    }

    /// The same answer again. Takes no memory.
    pub fn copy(&self) -> Answer
        ensures { result ≡ self.now }
    {
        filled(self.bytes())
    }
}

fn filled(bytes: &[u8]) -> Answer
    requires { FitsAnswer bytes.now }
    ensures { result ≡ bytes.now }
{
    let mut kept = ArrayVec::new();
    kept.try_extend_from_slice(bytes).unwrap();
    Answer { bytes: kept }
}
