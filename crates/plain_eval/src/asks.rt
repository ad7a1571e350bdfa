ghost use Rattle.std.specs.Prelude.{◌≡◌, ◌+◌, ◌^◌, ◌<◌, [], ◌∷◌, IfOk, OnOk};
ghost use Rattle.phrase_tree.specs.Term.{term};
ghost use Rattle.phrase_tree.specs.Numbering.{event_count};
ghost use Rattle.plain_eval.specs.Asks.{Sees, Sets, all_coming, end_of, events_coming, quiet, run};

use bench_trait::AskKind;
use phrase_tree::{Asp, NoMemory, Phrase, Place};
use std::alloc::Global;

/// A part of a session that is still to come.
#[derive(Drop)]
pub(crate) enum Part<'a> {
    /// A place runs a phrase.
    Run(&'a Phrase, Place),
    /// A reply or a join, which asks nothing.
    Quiet,
}

/// The questions of a session that are still to be asked, in the order of their events.
#[derive(Drop)]
pub(crate) struct Asks<'a> {
    pub(crate) nonce: &'a [u8; 16],
    /// What is to come, the next part last.
    parts: Vec<Part<'a>>,
    /// The number of the next event.
    next: u32,
}

/// What came next.
#[derive(Drop)]
pub(crate) enum Seen<'a> {
    /// Nothing that asks.
    Passed,
    /// The measurement of an event at a place.
    Measures(u32, Place, AskKind, &'a Asp),
    /// Nothing: all questions were asked.
    End,
}

fn push_run<'a>(parts: &mut Vec<Part<'a>>, phrase: &'a Phrase, place: Place) -> Result<(), NoMemory>
    ensures { OnOk result (all_coming parts.new.items ≡ run (term phrase.now) place ∷ all_coming parts.old.items) }
{
    match parts.push(Part::Run(phrase, place)) {
        Ok(()) => Ok(()),
        Err(_) => Err(NoMemory),
    }
}

fn push_quiet(parts: &mut Vec<Part<'_>>) -> Result<(), NoMemory>
    ensures { OnOk result (all_coming parts.new.items ≡ quiet ∷ all_coming parts.old.items) }
{
    match parts.push(Part::Quiet) {
        Ok(()) => Ok(()),
        Err(_) => Err(NoMemory),
    }
}

/// All questions of a session with this phrase, root and nonce.
pub(crate) fn asks_of<'a>(
    alloc: Global,
    phrase: &'a Phrase,
    root: Place,
    nonce: &'a [u8; 16],
) -> Result<Asks<'a>, NoMemory>
    ensures parts { IfOk result (λ asks. all_coming asks.parts.items ≡ run (term phrase.now) root ∷ []) }
    ensures next { IfOk result (λ asks. asks.next ≡ 0) }
    ensures nonce { IfOk result (λ asks. asks.nonce.now ≡ nonce.now) }
{
    let mut parts = Vec::new(alloc);
    push_run(&mut parts, phrase, root)?;
    Ok(Asks {
        nonce,
        parts,
        next: 0,
    })
}

/// A request asks nothing; another place runs its body, and then replies.
fn request<'a>(asks: &mut Asks<'a>, body: &'a Phrase, asked: Place) -> Result<(), NoMemory>
    requires { asks.old.next + 1 < 2 ^ 32 }
    ensures { OnOk result (Sets asks.old asks.new (run (term body.now) asked ∷ (quiet ∷ all_coming asks.old.parts.items)) (asks.old.next + 1)) }
{
    asks.next += 1;
    push_quiet(&mut asks.parts)?;
    push_run(&mut asks.parts, body, asked)
}

/// The place runs one part after the other.
fn chain<'a>(
    asks: &mut Asks<'a>,
    left: &'a Phrase,
    right: &'a Phrase,
    place: Place,
) -> Result<(), NoMemory>
    ensures { OnOk result (Sets asks.old asks.new (run (term left.now) place ∷ (run (term right.now) place ∷ all_coming asks.old.parts.items)) asks.old.next) }
{
    push_run(&mut asks.parts, right, place)?;
    push_run(&mut asks.parts, left, place)
}

/// A split asks nothing; the place runs both arms, which then join.
fn branch<'a>(
    asks: &mut Asks<'a>,
    left: &'a Phrase,
    right: &'a Phrase,
    place: Place,
) -> Result<(), NoMemory>
    requires { asks.old.next + 1 < 2 ^ 32 }
    ensures { OnOk result (Sets asks.old asks.new (run (term left.now) place ∷ (run (term right.now) place ∷ (quiet ∷ all_coming asks.old.parts.items))) (asks.old.next + 1)) }
{
    asks.next += 1;
    push_quiet(&mut asks.parts)?;
    chain(asks, left, right, place)
}

/// Passes an event, which has this number.
fn event(asks: &mut Asks<'_>) -> u32
    requires { asks.old.next + 1 < 2 ^ 32 }
    ensures sets { Sets asks.old asks.new (all_coming asks.old.parts.items) (asks.old.next + 1) }
    ensures number { result ≡ asks.old.next }
{
    let number = asks.next;
    asks.next += 1;
    number
}

/// The place runs a phrase, or its first part.
fn begin<'a>(asks: &mut Asks<'a>, phrase: &'a Phrase, place: Place) -> Result<Seen<'a>, NoMemory>
    requires { asks.old.next + (event_count (term phrase.now) + events_coming (all_coming asks.old.parts.items)) < 2 ^ 32 }
    ensures { IfOk result (λ seen. Sees asks.old (run (term phrase.now) place ∷ all_coming asks.old.parts.items) asks.new seen) }
{
    match phrase {
        Phrase::Cpy | Phrase::Sig | Phrase::Hsh | Phrase::Nul => {
            event(asks);
            Ok(Seen::Passed)
        }
        Phrase::Usm(asp) => Ok(Seen::Measures(event(asks), place, AskKind::Usm, asp)),
        Phrase::Kim(target, asp) => {
            Ok(Seen::Measures(event(asks), place, AskKind::Kim(*target), asp))
        }
        Phrase::At(asked, body) => {
            request(asks, body, *asked)?;
            Ok(Seen::Passed)
        }
        Phrase::Then(left, right) => {
            chain(asks, left, right, place)?;
            Ok(Seen::Passed)
        }
        Phrase::Seq(_, left, right) | Phrase::Par(_, left, right) => {
            branch(asks, left, right, place)?;
            Ok(Seen::Passed)
        }
    }
}

/// Goes one step further. It costs nothing in the length of the phrase, and memory for the parts that
/// are to come.
pub(crate) fn see<'a>(asks: &mut Asks<'a>) -> Result<Seen<'a>, NoMemory>
    requires { end_of asks.old < 2 ^ 32 }
    ensures { IfOk result (λ seen. Sees asks.old (all_coming asks.old.parts.items) asks.new seen) }
{
    let Some(part) = asks.parts.pop() else {
        return Ok(Seen::End);
    };
    match &part {
        Part::Run(phrase, place) => begin(asks, phrase, *place),
        Part::Quiet => {
            event(asks);
            Ok(Seen::Passed)
        }
    }
}
