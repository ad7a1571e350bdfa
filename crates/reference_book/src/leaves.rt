ghost use Rattle.std.specs.Prelude.{◌≡◌, None, Some, if◌then◌else◌, option_map};
ghost use Rattle.std.specs.Result.{result_err};
ghost use Rattle.evidence_types.specs.Shape.{form};
ghost use Rattle.reference_book.specs.Leaves.{has_none, has_several, hashed_leaves, is_wanted, is_wanted_count, least_event, leaves, lesser};

use crate::references::References;
use bench_trait::AskKind;
use evidence_types::Shape;
use phrase_tree::{Asp, Place};

/// A measurement of a shape has no reference; the event is that of the least such measurement.
#[derive(Clone, Copy, Debug, PartialEq, Eq)]
pub struct NoReference {
    pub event: u32,
}

/// What is looked for among the measurements of a shape.
#[derive(Clone, Copy)]
pub(crate) enum Wanted {
    /// One without a reference.
    WithNone,
    /// One with more than one.
    WithSeveral,
}

fn lesser(number: Option<u32>, other: Option<u32>) -> Option<u32>
    ensures { result ≡ lesser number other }
{
    match number {
        None => other,
        Some(first) => match other {
            None => number,
            Some(second) => Some(first.min(second)),
        },
    }
}

fn is_wanted(wanted: Wanted, count: u32) -> bool
    ensures { result ≡ is_wanted_count wanted count }
{
    match wanted {
        Wanted::WithNone => count == 0,
        Wanted::WithSeveral => count > 1,
    }
}

/// The event of a measurement, if it is looked for.
fn event_of(
    references: &References,
    wanted: Wanted,
    event: u32,
    place: Place,
    kind: &AskKind,
    asp: &Asp,
) -> Option<u32>
    ensures { result ≡ (if is_wanted wanted references.now (record { event = event; place = place; kind = kind.now; asp = asp.now }) then Some event else None) }
{
    if is_wanted(wanted, references.count(place, kind, asp)) {
        Some(event)
    } else {
        None
    }
}

/// The least event of a measurement of a shape that is looked for.
#[tactic(auto, using(crate::proofs::LeafLemmas::least_of_both))]
fn least_event(references: &References, wanted: Wanted, shape: &Shape) -> Option<u32>
    ensures { result ≡ least_event (is_wanted wanted references.now) (leaves (form shape.now)) }
{
    match shape {
        Shape::Empty | Shape::Nonce => None,
        Shape::Usm(event, place, asp, under) => lesser(
            event_of(references, wanted, *event, *place, &AskKind::Usm, asp),
            least_event(references, wanted, under),
        ),
        Shape::Kim(event, place, target, asp, under) => lesser(
            event_of(
                references,
                wanted,
                *event,
                *place,
                &AskKind::Kim(*target),
                asp,
            ),
            least_event(references, wanted, under),
        ),
        Shape::Sig(_, _, under) | Shape::Hsh(_, _, under) => least_event(references, wanted, under),
        Shape::SeqPair(left, right) | Shape::ParPair(left, right) => lesser(
            least_event(references, wanted, left),
            least_event(references, wanted, right),
        ),
    }
}

/// The least event of a measurement under a hash of a shape that has more than one reference.
#[tactic(auto, using(crate::proofs::LeafLemmas::least_of_both))]
fn least_hashed(references: &References, shape: &Shape) -> Option<u32>
    ensures { result ≡ least_event (has_several references.now) (hashed_leaves (form shape.now)) }
{
    match shape {
        Shape::Empty | Shape::Nonce => None,
        Shape::Usm(_, _, _, under) => least_hashed(references, under),
        Shape::Kim(_, _, _, _, under) => least_hashed(references, under),
        Shape::Sig(_, _, under) => least_hashed(references, under),
        Shape::Hsh(_, _, under) => least_event(references, Wanted::WithSeveral, under),
        Shape::SeqPair(left, right) | Shape::ParPair(left, right) => {
            lesser(
                least_hashed(references, left),
                least_hashed(references, right),
            )
        }
    }
}

impl References {
    /// Whether each measurement of a shape, also one under a hash, has a reference; the error is the
    /// least event of one that has none. Takes no memory, and for each measurement time in the
    /// logarithm of the number of references.
    pub fn check_for(&self, shape: &Shape) -> Result<(), NoReference>
        ensures { option_map (λ error. error.event) (result_err result) ≡ least_event (has_none self.now) (leaves (form shape.now)) }
    {
        match least_event(self, Wanted::WithNone, shape) {
            Some(event) => Err(NoReference { event }),
            None => Ok(()),
        }
    }

    /// The least event of a measurement under a hash of the shape that has more than one reference;
    /// none exactly when there is no such measurement. The answers under a hash can't be told apart.
    /// Takes no memory, and for each measurement time in the logarithm of the number of references.
    pub fn ambiguous(&self, shape: &Shape) -> Option<u32>
        ensures { result ≡ least_event (has_several self.now) (hashed_leaves (form shape.now)) }
    {
        least_hashed(self, shape)
    }
}
