ghost use Rattle.std.specs.Prelude.{◌≡◌};
ghost use Rattle.reference_book.specs.Order.{sought_reference};

use crate::reference::Reference;
use bench_trait::AskKind;
use phrase_tree::{Asp, Place};

/// What references are compared with: what one would be for, and its answer.
#[derive(Clone, Copy)]
pub(crate) struct Sought<'a> {
    pub place: Place,
    pub kind: &'a AskKind,
    pub asp: &'a Asp,
    pub answer: &'a [u8],
}

impl<'a> Sought<'a> {
    pub(crate) fn of(reference: &'a Reference) -> Sought<'a>
        ensures { sought_reference result ≡ reference.now }
    {
        Sought {
            place: reference.place,
            kind: &reference.kind,
            asp: &reference.asp,
            answer: reference.answer.bytes(),
        }
    }

    /// What the references for this measurement are looked for by; their answers are left open.
    pub(crate) fn of_measurement(place: Place, kind: &'a AskKind, asp: &'a Asp) -> Sought<'a>
        ensures place { result.place ≡ place }
        ensures kind { result.kind.now ≡ kind.now }
        ensures asp { result.asp.now ≡ asp.now }
    {
        Sought {
            place,
            kind,
            asp,
            answer: &[],
        }
    }
}
