ghost use Rattle.std.specs.Prelude.{◌≡◌, ◌+◌, ◌^◌, ◌<◌, IfOk, IsSome};
ghost use Rattle.phrase_tree.specs.Term.{term};
ghost use Rattle.phrase_tree.specs.Numbering.{event_count, IsSized};
ghost use Rattle.evidence_types.specs.Answer.{FitsAnswer};
ghost use Rattle.evidence_types.specs.Answers.{answer_at};
ghost use Rattle.evidence_types.specs.Bytes.{FitsBundle, encoding};
ghost use Rattle.evidence_types.specs.Evidence.{evidence, usm as measured, kim as measured_at, seal, hash};
ghost use Rattle.evidence_types.specs.Measure.{IsLight};
ghost use Rattle.seal_hmac.specs.Keys.{key_of, key_at};
ghost use Rattle.seal_hmac.specs.Seal.{seal_of, hash_of};
ghost use Rattle.session_model.specs.Value.{part, value_of, session_value};
ghost use Rattle.plain_eval.specs.Keyed.{HasKeys};
ghost use Rattle.session_model.specs.Short.{HasShortAnswers};
ghost use Rattle.plain_eval.specs.Evaluating.{makings};

use crate::answering::answer_of;
use crate::copying::copy;
use crate::digesting::{hash_over, seal_over};
use crate::nodes;
use evidence_types::{Answer, Answers, Value};
use phrase_tree::{NoMemory, Phrase, Place, Split};
use seal_hmac::KeyRing;
use std::alloc::Global;

/// What a value is made from: the nonce of the session, the answers by event, and the keys by place.
#[derive(Drop)]
struct Materials<'a> {
    nonce: &'a [u8; 16],
    answers: &'a Answers,
    keys: &'a KeyRing,
}

/// The value of a part of a phrase, and the number after its events.
#[derive(Drop)]
struct Made {
    value: Box<Value>,
    next: u32,
}

/// An answer with these bytes.
fn copied(bytes: &[u8]) -> Answer
    requires { FitsAnswer bytes.now }
    ensures answer { result ≡ bytes.now }
    ensures few { FitsAnswer result }
{
    Answer::of(bytes).unwrap()
}

/// What the two arms of a branch get of the evidence before it.
fn parts(
    alloc: Global,
    split: Split,
    before: Box<Value>,
) -> Result<(Box<Value>, Box<Value>), NoMemory>
    ensures { IfOk result (λ made. (evidence made.0.value ≡ part split.left (evidence before.value)) × (evidence made.1.value ≡ part split.right (evidence before.value))) }
{
    if !split.left {
        let left = nodes::empty(alloc)?;
        let right = if_all(alloc, split.right, before)?;
        return Ok((left, right));
    }
    if !split.right {
        let right = nodes::empty(alloc)?;
        return Ok((before, right));
    }
    let right = copy(alloc, &before)?;
    Ok((before, right))
}

/// All of the evidence, or none.
fn if_all(alloc: Global, all: bool, before: Box<Value>) -> Result<Box<Value>, NoMemory>
    ensures { IfOk result (λ made. evidence made.value ≡ part all (evidence before.value)) }
{
    if all {
        return Ok(before);
    }
    nodes::empty(alloc)
}

fn sealed(
    alloc: Global,
    from: &Materials<'_>,
    place: Place,
    event: u32,
    before: Box<Value>,
) -> Result<Box<Value>, NoMemory>
    requires { IsSome (key_of from.now.keys.now place) }
    ensures { IfOk result (λ made. evidence made.value ≡ seal event (seal_of (key_at from.now.keys.now place) place from.now.nonce.now event (encoding (evidence before.value))) (evidence before.value)) }
{
    let Some(key) = from.keys.find(place) else {
        unreachable!()
    };
    let seal = seal_over(key, place, from.nonce, event, &before);
    nodes::seal(alloc, event, &seal, before)
}

fn hashed(alloc: Global, event: u32, before: Box<Value>) -> Result<Box<Value>, NoMemory>
    ensures { IfOk result (λ made. evidence made.value ≡ hash event (hash_of (encoding (evidence before.value)))) }
{
    let hash = hash_over(&before);
    nodes::hash(alloc, event, &hash)
}

fn usm(
    alloc: Global,
    from: &Materials<'_>,
    event: u32,
    before: Box<Value>,
) -> Result<Box<Value>, NoMemory>
    ensures value { IfOk result (λ made. evidence made.value ≡ measured event (answer_at from.now.answers.now event) (evidence before.value)) }
    ensures short { FitsAnswer (answer_at from.now.answers.now event) }
{
    let answer = copied(answer_of(from.answers.items(), event));
    nodes::usm(alloc, event, &answer, before)
}

fn kim(
    alloc: Global,
    from: &Materials<'_>,
    event: u32,
    before: Box<Value>,
) -> Result<Box<Value>, NoMemory>
    ensures value { IfOk result (λ made. evidence made.value ≡ measured_at event (answer_at from.now.answers.now event) (evidence before.value)) }
    ensures short { FitsAnswer (answer_at from.now.answers.now event) }
{
    let answer = copied(answer_of(from.answers.items(), event));
    nodes::kim(alloc, event, &answer, before)
}

/// A value that is made once the event of this number has happened.
fn ending(value: Box<Value>, last: u32) -> Made
    requires { last + 1 < 2 ^ 32 }
    ensures value { evidence result.value.value ≡ evidence value.value }
    ensures next { result.next ≡ last + 1 }
{
    Made {
        value,
        next: last + 1,
    }
}

/// The value of a phrase that a place runs from a number on, on the evidence before it.
#[cycle(evaluation)]
fn value_of(
    alloc: Global,
    from: &Materials<'_>,
    phrase: &Phrase,
    place: Place,
    first: u32,
    before: Box<Value>,
) -> Result<Made, NoMemory>
    requires few { first + event_count (term phrase.now) < 2 ^ 32 }
    requires keys { HasKeys (term phrase.now) place from.now.keys.now }
    ensures value { IfOk result (λ made. evidence made.value.value ≡ value_of (term phrase.now) place first (evidence before.value) (makings from.now)) }
    ensures next { IfOk result (λ made. made.next ≡ first + event_count (term phrase.now)) }
    ensures short { IfOk result (λ made. HasShortAnswers (term phrase.now) first from.now.answers.now) }
{
    match phrase {
        Phrase::Cpy => Ok(ending(before, first)),
        Phrase::Sig => {
            let value = sealed(alloc, from, place, first, before)?;
            Ok(ending(value, first))
        }
        Phrase::Hsh => {
            let value = hashed(alloc, first, before)?;
            Ok(ending(value, first))
        }
        Phrase::Nul => {
            let value = nodes::empty(alloc)?;
            Ok(ending(value, first))
        }
        Phrase::Usm(_) => {
            let value = usm(alloc, from, first, before)?;
            Ok(ending(value, first))
        }
        Phrase::Kim(_, _) => {
            let value = kim(alloc, from, first, before)?;
            Ok(ending(value, first))
        }
        Phrase::At(asked, body) => {
            let made = value_of(alloc, from, body, *asked, first + 1, before)?;
            Ok(ending(made.value, made.next))
        }
        Phrase::Then(left, right) => {
            let made = chained(alloc, from, left, place, first, before)?;
            value_of(alloc, from, right, place, made.next, made.value)
        }
        Phrase::Seq(split, left, right) => {
            let (before_left, before_right) = parts(alloc, *split, before)?;
            let on_left = value_of(alloc, from, left, place, first + 1, before_left)?;
            let on_right = value_of(alloc, from, right, place, on_left.next, before_right)?;
            let value = nodes::seq_pair(alloc, on_left.value, on_right.value)?;
            Ok(ending(value, on_right.next))
        }
        Phrase::Par(split, left, right) => {
            let (before_left, before_right) = parts(alloc, *split, before)?;
            let on_left = value_of(alloc, from, left, place, first + 1, before_left)?;
            let on_right = value_of(alloc, from, right, place, on_left.next, before_right)?;
            let value = nodes::par_pair(alloc, on_left.value, on_right.value)?;
            Ok(ending(value, on_right.next))
        }
    }
}

/// The same, in a small frame of its own: a chain nests as deep as it is long, while all other nesting
/// comes from brackets, and few of these are open.
#[cycle(evaluation)]
fn chained(
    alloc: Global,
    from: &Materials<'_>,
    phrase: &Phrase,
    place: Place,
    first: u32,
    before: Box<Value>,
) -> Result<Made, NoMemory>
    requires few { first + event_count (term phrase.now) < 2 ^ 32 }
    requires keys { HasKeys (term phrase.now) place from.now.keys.now }
    ensures value { IfOk result (λ made. evidence made.value.value ≡ value_of (term phrase.now) place first (evidence before.value) (makings from.now)) }
    ensures next { IfOk result (λ made. made.next ≡ first + event_count (term phrase.now)) }
    ensures short { IfOk result (λ made. HasShortAnswers (term phrase.now) first from.now.answers.now) }
{
    match phrase {
        Phrase::Then(left, right) => {
            let made = chained(alloc, from, left, place, first, before)?;
            value_of(alloc, from, right, place, made.next, made.value)
        }
        _ => value_of(alloc, from, phrase, place, first, before),
    }
}

/// The value of a session's phrase, which starts at a place with the number 0 and on the nonce, for
/// these answers and keys (POST 2019, the evidence of a phrase). It evaluates by recursion on one
/// thread. Each seal and each hash costs time in the bytes of the value under it, which are not
/// gathered, and a branch that gives both arms the evidence copies it.
pub fn eval(
    alloc: Global,
    phrase: &Phrase,
    place: Place,
    nonce: &[u8; 16],
    answers: &Answers,
    keys: &KeyRing,
) -> Result<Value, NoMemory>
    requires sized { IsSized (term phrase.now) }
    requires keys { HasKeys (term phrase.now) place keys.now }
    ensures value { IfOk result (λ value. evidence value ≡ session_value (term phrase.now) place (record { nonce = nonce.now; answers = answers.now; keys = keys.now })) }
    // So the value of a phrase that is nowhere oversize can be written as a bundle.
    ensures fits { IsLight (term phrase.now) → IfOk result (λ value. FitsBundle (evidence value)) }
{
    let before = nodes::nonce(alloc, nonce)?;
    let from = Materials {
        nonce,
        answers,
        keys,
    };
    let made = value_of(alloc, &from, phrase, place, 0, before)?;
    Ok(Box::into_inner(made.value))
}
