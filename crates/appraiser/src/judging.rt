ghost use Rattle.std.specs.Prelude.{◌≡◌, ◌∷◌, ◌++◌, [], map, OnOk, IsSome};
ghost use Rattle.evidence_types.specs.Answers.{answer_at};
ghost use Rattle.evidence_types.specs.Bytes.{encoding};
ghost use Rattle.evidence_types.specs.Evidence.{evidence};
ghost use Rattle.evidence_types.specs.Shape.{Fits, form};
ghost use Rattle.appraiser.specs.Expected.{HasKeys, expected, reference_at};
ghost use Rattle.appraiser.specs.Given.{basis_in};
ghost use Rattle.appraiser.specs.Holding.{pair_of};
ghost use Rattle.appraiser.specs.Verdicts.{held, is_good_answer, same, verdict, verdicts_under};
ghost use Rattle.reference_book.specs.References.{answers_for};
ghost use Rattle.std.specs.List.{list_any};
ghost use Rattle.seal_hmac.specs.Keys.{key_of, key_at};
ghost use Rattle.seal_hmac.specs.Seal.{seal_of, hash_of};

use crate::digesting::seal_over;
use crate::expecting::{Given, hash_of_expected};
use crate::verdict::{Verdict, VerdictOf, Verdicts};
use bench_trait::AskKind;
use evidence_types::{Answer, Shape, Value};
use phrase_tree::{Asp, NoMemory, Place};
use reference_book::References;
use seal_hmac::same;
use std::alloc::Global;

/// An answer that a value holds, with its event.
#[derive(Clone, Copy)]
pub(crate) struct Held<'a> {
    pub event: u32,
    pub answer: &'a Answer,
}

fn push_held<'a>(list: &mut Vec<Held<'a>>, event: u32, answer: &'a Answer) -> Result<(), NoMemory>
    ensures { OnOk result (map pair_of list.new.items ≡ map pair_of list.old.items ++ (event, answer.now) ∷ []) }
{
    match list.push(Held { event, answer }) {
        Ok(()) => Ok(()),
        Err(_) => Err(NoMemory),
    }
}

/// Appends the answers that a part of a value holds.
pub(crate) fn gather<'a>(list: &mut Vec<Held<'a>>, value: &'a Value) -> Result<(), NoMemory>
    ensures { OnOk result (map pair_of list.new.items ≡ map pair_of list.old.items ++ held (evidence value.now)) }
{
    match value {
        Value::Empty | Value::Nonce(_) | Value::Hash(_, _) => Ok(()),
        Value::Usm(event, answer, under) => {
            push_held(list, *event, answer)?;
            gather(list, under)
        }
        Value::Kim(event, answer, under) => {
            push_held(list, *event, answer)?;
            gather(list, under)
        }
        Value::Seal(_, _, under) => gather(list, under),
        Value::SeqPair(left, right) => {
            gather(list, left)?;
            gather(list, right)
        }
        Value::ParPair(left, right) => {
            gather(list, left)?;
            gather(list, right)
        }
    }
}

/// The first answer of an event; no bytes if there is none.
fn first_held<'a>(list: &[Held<'a>], event: u32) -> &'a [u8]
    ensures { result.now ≡ answer_at (map pair_of list.now) event }
{
    for held in list {
        if held.event == event {
            return held.answer.bytes();
        }
    }
    &[]
}

/// Whether an answer is one of the references for a measurement. It is compared with each of them in turn.
/// Takes no memory.
pub fn is_expected(
    references: &References,
    place: Place,
    kind: &AskKind,
    asp: &Asp,
    answer: &[u8],
) -> bool
    ensures { result ≡ list_any (λ other. same other answer.now) (answers_for references.now place kind.now asp.now) }
{
    for index in 0..references.count(place, kind, asp) {
        let Some(other) = references.nth(place, kind, asp, index) else {
            unreachable!()
        };
        if other.bytes() == answer {
            return true;
        }
    }
    false
}

/// Whether an answer is good at a leaf.
fn is_good_answer(
    given: &Given<'_>,
    firsts: &[Held<'_>],
    event: u32,
    place: Place,
    kind: &AskKind,
    asp: &Asp,
    answer: &[u8],
) -> bool
    ensures { result ≡ is_good_answer given.now.references.now (map pair_of firsts.now) (record { event = event; place = place; kind = kind.now; asp = asp.now }) answer.now }
{
    is_expected(given.references, place, kind, asp, answer) && answer == first_held(firsts, event)
}

/// Whether a seal is that of a place over a value.
fn is_good_seal(
    given: &Given<'_>,
    place: Place,
    event: u32,
    bytes: &[u8; 32],
    under: &Value,
) -> bool
    requires { IsSome (key_of (basis_in given.now).keys place) }
    ensures { result ≡ same bytes.now (seal_of (key_at (basis_in given.now).keys place) place (basis_in given.now).nonce event (encoding (evidence under.now))) }
{
    let Some(key) = given.places.keys().find(place) else {
        unreachable!()
    };
    is_same(bytes, &seal_over(key, place, given.nonce, event, under))
}

fn is_same(bytes: &[u8; 32], others: &[u8; 32]) -> bool
    ensures { result ≡ same bytes.now others.now }
{
    same(bytes, others)
}

fn push(verdicts: &mut Verdicts, of: VerdictOf, good: bool) -> Result<(), NoMemory>
    ensures { OnOk result (verdicts.new ≡ verdicts.old ++ verdict «of» good ∷ []) }
{
    match verdicts.push(Verdict { of, good }) {
        Ok(()) => Ok(()),
        Err(_) => Err(NoMemory),
    }
}

/// Appends the verdicts of a part of a value that fits a part of a shape.
pub(crate) fn judge(
    alloc: Global,
    given: &Given<'_>,
    firsts: &[Held<'_>],
    value: &Value,
    shape: &Shape,
    verdicts: &mut Verdicts,
) -> Result<(), NoMemory>
    requires fits { Fits (evidence value.now) (form shape.now) }
    requires keys { HasKeys (basis_in given.now).keys (form shape.now) }
    ensures { OnOk result (verdicts.new ≡ verdicts.old ++ verdicts_under (basis_in given.now) (map pair_of firsts.now) (evidence value.now) (form shape.now)) }
{
    match (value, shape) {
        (Value::Nonce(bytes), Shape::Nonce) => push(
            verdicts,
            VerdictOf::Nonce,
            bytes == given.nonce,
        ),
        (Value::Usm(_, answer, under), Shape::Usm(event, place, asp, below)) => {
            let good = is_good_answer(
                given,
                firsts,
                *event,
                *place,
                &AskKind::Usm,
                asp,
                answer.bytes(),
            );
            push(verdicts, VerdictOf::Leaf(*event), good)?;
            judge(alloc, given, firsts, under, below, verdicts)
        }
        (Value::Kim(_, answer, under), Shape::Kim(event, place, target, asp, below)) => {
            let good = is_good_answer(
                given,
                firsts,
                *event,
                *place,
                &AskKind::Kim(*target),
                asp,
                answer.bytes(),
            );
            push(verdicts, VerdictOf::Leaf(*event), good)?;
            judge(alloc, given, firsts, under, below, verdicts)
        }
        (Value::Seal(_, bytes, under), Shape::Sig(event, place, below)) => {
            let good = is_good_seal(given, *place, *event, bytes, under);
            push(verdicts, VerdictOf::Seal(*event), good)?;
            judge(alloc, given, firsts, under, below, verdicts)
        }
        (Value::Hash(_, bytes), Shape::Hsh(event, _, below)) => {
            let hash = hash_of_expected(alloc, given, below)?;
            push(verdicts, VerdictOf::Hash(*event), is_same(bytes, &hash))
        }
        (Value::SeqPair(left, right), Shape::SeqPair(first, second)) => {
            judge(alloc, given, firsts, left, first, verdicts)?;
            judge(alloc, given, firsts, right, second, verdicts)
        }
        (Value::ParPair(left, right), Shape::ParPair(first, second)) => {
            judge(alloc, given, firsts, left, first, verdicts)?;
            judge(alloc, given, firsts, right, second, verdicts)
        }
        _ => Ok(()),
    }
}
