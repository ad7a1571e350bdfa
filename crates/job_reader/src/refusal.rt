ghost use Rattle.std.specs.Prelude.{◌≡◌};
ghost use Rattle.job_reader.specs.declared.refusal.JobError.TheVariants.{NoMemory};

use job_values::{FieldAt, FieldKind};
use phrase_reader::Kind;
use place_check::PlaceKind;
use std::alloc::AllocFailed;

/// Why the bytes of a job are refused, in the order of the tests: the first that finds something
/// decides. Want of memory may come at any point.
#[derive(Clone, Copy, Debug, PartialEq, Eq)]
pub enum JobError {
    /// The bytes are not a JSON text.
    NotJson,
    /// The first fault of form, where it stands and what it is.
    BadJob {
        at: FieldAt,
        kind: FieldKind,
    },
    /// Two places of one name. Of each pair the second is the least index that repeats an earlier one,
    /// and the first is the least index that it repeats.
    RepeatedPlace {
        first: u32,
        second: u32,
    },
    /// Two artefacts of one place and name.
    RepeatedArtefact {
        first: u32,
        second: u32,
    },
    /// Two references of one place, kind with target, measurement with arguments, and answer.
    RepeatedReference {
        first: u32,
        second: u32,
    },
    /// The least session whose root is not a place.
    BadRoot {
        session: u32,
    },
    /// Two sessions of one nonce.
    RepeatedNonce {
        first: u32,
        second: u32,
    },
    /// The least session whose text is refused, and its refusal.
    BadPhrase {
        session: u32,
        at: u32,
        kind: Kind,
    },
    /// The least session that breaks a rule of places or is oversize; this one breaks a rule, and this
    /// is the first.
    Misplaced {
        session: u32,
        event: u32,
        kind: PlaceKind,
    },
    /// The same, and this one breaks no rule.
    Oversize {
        session: u32,
        event: u32,
    },
    NoMemory,
}

impl<T: Drop> From<AllocFailed<T>> for JobError {
    ghost from_gives = { λ _ error. error ≡ NoMemory };

    fn from(_error: AllocFailed<T>) -> JobError {
        JobError::NoMemory
    }
}
