ghost use Rattle.std.specs.Prelude.{◌≡◌, ◌≤◌, ◌<◌, ◌+◌, ◌^◌, ◌↔◌, [], ◌∷◌, ℕ, List, Some, None, map, max, min, IfOk};
ghost use Rattle.std.specs.Result.{result_err};
ghost use Rattle.phrase_tree.specs.Term.{Term, term};
ghost use Rattle.phrase_tree.specs.Numbering.{IsSized, event_count};
ghost use Rattle.evidence_types.specs.Shape.{Form, form, shape_from, shapes_from};
ghost use Rattle.evidence_types.specs.Measure.{count_after, count_of, counts, counts_from, first_past, greatest, lesser, limit, measure, of_arm, of_pair, of_nonce, over_by, oversize_at, worst_weight, IsLight, IsOver, StaysWithin};
ghost use Rattle.evidence_types.specs.declared.measure.Measure.{Measure};

use crate::measure::{EMPTY, Measure, VALUE_BYTES};
use crate::shape::Shape;
use phrase_tree::{Phrase, Place};

/// What was found in a part of a phrase, if no count passes the limit.
#[derive(Clone, Copy)]
struct Counted {
    /// The number that follows its events.
    next: u32,
    /// The count of the evidence that it makes.
    after: u32,
    /// The greatest count at one of its events.
    worst: u32,
}

/// The count at one event; an error names the event where it passes the limit.
fn count_event(measure: Measure, number: u32, count: u32) -> Result<Counted, u32>
    requires { number + 1 < 2 ^ 32 }
    ensures over { result_err result ≡ first_past (limit measure) ((number, count) ∷ []) }
    ensures next { IfOk result (λ found. found.next ≡ number + 1) }
    ensures after { IfOk result (λ found. found.after ≡ count) }
    ensures worst { IfOk result (λ found. found.worst ≡ count) }
    ensures light { IfOk result (λ found. found.worst ≤ limit measure) }
{
    if count > measure.limit() {
        return Err(number);
    }
    Ok(Counted {
        next: number + 1,
        after: count,
        worst: count,
    })
}

/// The count that an arm starts with.
fn arm(gets_all: bool, before: u32) -> u32
    ensures { result ≡ of_arm gets_all before }
{
    if gets_all { before } else { EMPTY }
}

/// What a branch makes of its arms, at its join.
fn count_join(measure: Measure, first: Counted, second: Counted) -> Result<Counted, u32>
    requires number { second.next + 1 < 2 ^ 32 }
    requires left { first.after ≤ limit measure }
    requires right { second.after ≤ limit measure }
    requires light_left { first.worst ≤ limit measure }
    requires light_right { second.worst ≤ limit measure }
    ensures over { result_err result ≡ first_past (limit measure) ((second.next, of_pair measure first.after second.after) ∷ []) }
    ensures next { IfOk result (λ found. found.next ≡ second.next + 1) }
    ensures after { IfOk result (λ found. found.after ≡ of_pair measure first.after second.after) }
    ensures worst { IfOk result (λ found. found.worst ≡ max first.worst (max second.worst (of_pair measure first.after second.after))) }
    ensures after_light { IfOk result (λ found. found.after ≤ limit measure) }
    ensures light { IfOk result (λ found. found.worst ≤ limit measure) }
{
    let count = measure.paired(first.after, second.after);
    match count_event(measure, second.next, count) {
        Ok(join) => Ok(Counted {
            next: join.next,
            after: join.after,
            worst: first.worst.max(second.worst.max(join.worst)),
        }),
        Err(event) => Err(event),
    }
}

/// Walks a phrase once from a number on; an error names its first event whose count passes the limit.
fn count(measure: Measure, phrase: &Phrase, number: u32, before: u32) -> Result<Counted, u32>
    requires numbers { number + event_count (term phrase.now) < 2 ^ 32 }
    requires light { before ≤ limit measure }
    ensures over { result_err result ≡ first_past (limit measure) (counts_from measure (term phrase.now) number before) }
    ensures next { IfOk result (λ found. found.next ≡ number + event_count (term phrase.now)) }
    ensures after { IfOk result (λ found. found.after ≡ count_after measure (term phrase.now) before) }
    ensures worst { IfOk result (λ found. found.worst ≡ greatest (counts_from measure (term phrase.now) number before)) }
    ensures after_light { IfOk result (λ found. found.after ≤ limit measure) }
    ensures light { IfOk result (λ found. found.worst ≤ limit measure) }
{
    match phrase {
        Phrase::Cpy => count_event(measure, number, before),
        Phrase::Nul => count_event(measure, number, EMPTY),
        Phrase::Sig | Phrase::Hsh => count_event(measure, number, measure.digested(before)),
        Phrase::Usm(_) | Phrase::Kim(_, _) => {
            count_event(measure, number, measure.answered(before))
        }
        Phrase::At(_, body) => match count(measure, body, number + 1, before) {
            Ok(found) => Ok(Counted {
                next: found.next + 1,
                after: found.after,
                worst: found.worst,
            }),
            Err(event) => Err(event),
        },
        Phrase::Then(left, right) => {
            let first = match count(measure, left, number, before) {
                Ok(found) => found,
                Err(event) => return Err(event),
            };
            match count(measure, right, first.next, first.after) {
                Ok(second) => Ok(Counted {
                    next: second.next,
                    after: second.after,
                    worst: first.worst.max(second.worst),
                }),
                Err(event) => Err(event),
            }
        }
        Phrase::Seq(split, left, right) | Phrase::Par(split, left, right) => {
            let first = match count(measure, left, number + 1, arm(split.left, before)) {
                Ok(found) => found,
                Err(event) => return Err(event),
            };
            let second = match count(measure, right, first.next, arm(split.right, before)) {
                Ok(found) => found,
                Err(event) => return Err(event),
            };
            count_join(measure, first, second)
        }
    }
}

/// The greatest weight of a phrase's evidence at any event, including that of the nonce; 262,145 if it
/// is more than that. Takes no memory, and time linear in the phrase.
#[tactic(auto, using(crate::proofs::MeasureLemmas::heavy, crate::proofs::LeastLemmas::light_worst))]
pub fn worst(phrase: &Phrase) -> u32
    requires { IsSized (term phrase.now) }
    ensures worst { result ≡ min (VALUE_BYTES + 1) (worst_weight (term phrase.now)) }
    ensures light { IsLight (term phrase.now) → result ≡ worst_weight (term phrase.now) }
{
    let nonce = Measure::Weight.nonce();
    match count(Measure::Weight, phrase, 0, nonce) {
        Ok(found) => nonce.max(found.worst),
        Err(_) => VALUE_BYTES + 1,
    }
}

/// The first event at which this count of the phrase's evidence passes its limit.
fn over_by(measure: Measure, phrase: &Phrase) -> Option<u32>
    requires { IsSized (term phrase.now) }
    ensures { result ≡ over_by measure (term phrase.now) }
{
    match count(measure, phrase, 0, measure.nonce()) {
        Ok(_) => None,
        Err(event) => Some(event),
    }
}

/// The lesser of two events; either may be missing.
fn lesser(one: Option<u32>, other: Option<u32>) -> Option<u32>
    ensures { result ≡ lesser one other }
{
    match (one, other) {
        (None, other) => other,
        (Some(event), None) => Some(event),
        (Some(event), Some(other)) => Some(event.min(other)),
    }
}

/// The least event at which the weight of the phrase's evidence passes 262,144 or its nest 1,025; none
/// if there is no such event. Takes no memory, and time linear in the phrase.
#[tactic(auto, using(crate::proofs::LeastLemmas::the_least))]
pub fn first_over(phrase: &Phrase) -> Option<u32>
    requires { IsSized (term phrase.now) }
    ensures first { result ≡ oversize_at (term phrase.now) }
    ensures over { (event : ℕ) → result ≡ Some event → IsOver (term phrase.now) event }
    ensures least { (found event : ℕ) → result ≡ Some found → IsOver (term phrase.now) event → found ≤ event }
    ensures none { (event : ℕ) → result ≡ None → ¬ IsOver (term phrase.now) event }
{
    lesser(
        over_by(Measure::Weight, phrase),
        over_by(Measure::Nest, phrase),
    )
}

/// A law: the shape that a phrase makes has, at every place and from every number on, the count that
/// `count_after` gives over the phrase alone. It does nothing.
#[tactic(auto, using(crate::proofs::ShapeLemmas::shape_measures))]
pub fn count_is_of_shape(
    _measure: Measure,
    _phrase: &Phrase,
    _place: Place,
    _number: u32,
    _before: &Shape,
)
    ensures { measure _measure (shape_from (term _phrase.now) _place _number (form _before.now)) ≡ count_after _measure (term _phrase.now) (measure _measure (form _before.now)) }
{}

/// The law of the counts at events: each is that of the shape that the event makes, at every place, from
/// every number on, and of every shape before it.
pub fn counts_are_of_shapes()
    ensures { (m : Measure) (phrase : Term) (place : List ℕ) (number : ℕ) (before : Form) →
        counts_from m phrase number (measure m before) ≡ map (count_of m) (shapes_from phrase place number before) }
{}

/// A law: a phrase that is nowhere oversize stays within each limit, on what a nonce counts. It does
/// nothing.
#[tactic(auto, using(crate::proofs::WithinLemmas::light_phrases))]
pub fn light_phrases_stay_within(_phrase: &Phrase)
    ensures { (m : Measure) → IsLight (term _phrase.now) → StaysWithin m (term _phrase.now) (of_nonce m) }
{}
