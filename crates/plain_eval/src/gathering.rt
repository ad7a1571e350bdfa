ghost use Rattle.std.specs.Prelude.{◌≡◌, [], ◌∷◌, ◌++◌, IfOk, OnOk};
ghost use Rattle.phrase_tree.specs.Term.{term};
ghost use Rattle.phrase_tree.specs.Numbering.{IsSized};
ghost use Rattle.place_check.specs.Session.{session_of};
ghost use Rattle.plain_eval.specs.Asks.{AreUpTo};
ghost use Rattle.plain_eval.specs.Gathering.{IsGathered};
ghost use Rattle.plain_eval.specs.Round.{Ends, IsAsked, IsUnderWay, Paces};
ghost use Rattle.plain_eval.specs.declared.gathering.Gathered.TheVariants.{All};

use crate::asks::{Asks, Seen, asks_of, see};
use bench_trait::{ArtefactBook, Ask, AskKind, Bench, BenchFault, MeasureError};
use evidence_types::{Answer, Answers};
use phrase_tree::{Asp, NoMemory, Phrase, Place};
use place_check::Checked;
use std::alloc::Global;

/// What asking a session's questions gave.
#[derive(Debug, Drop)]
pub enum Gathered {
    /// The answer of each measurement, by its event.
    All(Answers),
    /// The first measurement that failed, by its event. No measurement of a later event was asked for.
    Failed { event: u32, fault: BenchFault },
}

/// Asks a bench for the answers to a checked session's questions, as `gather_session` does.
pub fn gather<B: Bench>(
    alloc: Global,
    checked: &Checked,
    artefacts: &ArtefactBook,
    bench: &B,
) -> Result<Gathered, NoMemory>
    ensures { IfOk result (λ gathered. IsGathered
        (λ ask answer. B.gives bench.now artefacts.now ask answer)
        (λ ask fault. B.fails bench.now artefacts.now ask fault)
        (session_of checked.now)
        gathered) }
{
    let phrase = checked.phrase();
    gather_session(
        alloc,
        phrase,
        checked.root(),
        checked.nonce(),
        artefacts,
        bench,
    )
}

/// Asks a bench for the answers to the questions of a session with this phrase, root and nonce, one
/// after the other in the order of their events, up to the first fault. Want of memory is the bench's
/// own, or that of the list of answers and of what is still to be asked. It goes over the phrase once, as a
/// loop, so a phrase of any depth takes the same stack.
pub fn gather_session<B: Bench>(
    alloc: Global,
    phrase: &Phrase,
    root: Place,
    nonce: &[u8; 16],
    artefacts: &ArtefactBook,
    bench: &B,
) -> Result<Gathered, NoMemory>
    requires { IsSized (term phrase.now) }
    ensures { IfOk result (λ gathered. IsGathered
        (λ ask answer. B.gives bench.now artefacts.now ask answer)
        (λ ask fault. B.fails bench.now artefacts.now ask fault)
        (record { root = root; nonce = nonce.now; phrase = term phrase.now })
        gathered) }
{
    let asking = Asking {
        phrase,
        root,
        nonce,
        artefacts,
        bench,
    };
    let asks = asks_of(alloc, phrase, root, nonce)?;
    let mut round = Round {
        asks,
        answers: Answers::of(Vec::new(alloc)),
    };
    match finish(&asking, &mut round)? {
        None => Ok(all_answers(round)),
        Some((event, fault)) => Ok(Gathered::Failed { event, fault }),
    }
}

/// A session, and what its questions are asked with.
#[derive(Drop)]
struct Asking<'a, B> {
    phrase: &'a Phrase,
    root: Place,
    nonce: &'a [u8; 16],
    artefacts: &'a ArtefactBook,
    bench: &'a B,
}

/// How far the questions were asked: those that are left, and the answers to those before.
#[derive(Drop)]
struct Round<'a> {
    asks: Asks<'a>,
    answers: Answers,
}

/// Whether there is more to be done. The measurement of an event may have failed.
#[derive(Drop)]
enum Pace {
    On,
    Over,
    Stopped(u32, BenchFault),
}

/// All answers.
fn all_answers(round: Round<'_>) -> Gathered
    ensures { result ≡ All round.entry.answers }
{
    let Round { asks: _, answers } = round;
    Gathered::All(answers)
}

/// Asks what is left to be asked, up to the first fault.
fn finish<B: Bench>(
    asking: &Asking<'_, B>,
    round: &mut Round<'_>,
) -> Result<Option<(u32, BenchFault)>, NoMemory>
    requires { IsUnderWay
        (λ ask answer. B.gives asking.now.bench.now asking.now.artefacts.now ask answer)
        (record { root = asking.now.root; nonce = asking.now.nonce.now; phrase = term asking.now.phrase.now })
        round.old }
    ensures { IfOk result (λ stopped. Ends
        (λ ask answer. B.gives asking.now.bench.now asking.now.artefacts.now ask answer)
        (λ ask fault. B.fails asking.now.bench.now asking.now.artefacts.now ask fault)
        (record { root = asking.now.root; nonce = asking.now.nonce.now; phrase = term asking.now.phrase.now })
        round.new
        stopped) }
{
    loop {
        match advance(asking, round) {
            Ok(Pace::On) => {}
            Ok(Pace::Over) => return Ok(None),
            Ok(Pace::Stopped(event, fault)) => return Ok(Some((event, fault))),
            Err(_) => return Err(NoMemory),
        }
    }
}

/// Goes one step further, and asks the question that comes up.
fn advance<B: Bench>(asking: &Asking<'_, B>, round: &mut Round<'_>) -> Result<Pace, NoMemory>
    requires { IsUnderWay
        (λ ask answer. B.gives asking.now.bench.now asking.now.artefacts.now ask answer)
        (record { root = asking.now.root; nonce = asking.now.nonce.now; phrase = term asking.now.phrase.now })
        round.old }
    ensures { IfOk result (λ pace. Paces
        (λ ask answer. B.gives asking.now.bench.now asking.now.artefacts.now ask answer)
        (λ ask fault. B.fails asking.now.bench.now asking.now.artefacts.now ask fault)
        (record { root = asking.now.root; nonce = asking.now.nonce.now; phrase = term asking.now.phrase.now })
        round.old
        round.new
        pace) }
{
    let seen = match see(&mut round.asks) {
        Ok(seen) => seen,
        Err(_) => return Err(NoMemory),
    };
    match &seen {
        Seen::Passed => Ok(Pace::On),
        Seen::Measures(event, place, kind, asp) => {
            let ask = question(round.asks.nonce, *event, *place, *kind, asp);
            match asked(asking, &ask, &mut round.answers) {
                Ok(None) => Ok(Pace::On),
                Ok(Some(fault)) => Ok(Pace::Stopped(*event, fault)),
                Err(_) => Err(NoMemory),
            }
        }
        Seen::End => Ok(Pace::Over),
    }
}

fn question(nonce: &[u8; 16], event: u32, place: Place, kind: AskKind, asp: &Asp) -> Ask
    ensures { result ≡ record { nonce = nonce.now; event = event; place = place; kind = kind; asp = asp.now } }
{
    Ask {
        nonce: *nonce,
        event,
        place,
        kind,
        asp: asp.copy(),
    }
}

/// Asks one question, and appends its answer; what is returned is its fault, if it failed.
fn asked<B: Bench>(
    asking: &Asking<'_, B>,
    ask: &Ask,
    answers: &mut Answers,
) -> Result<Option<BenchFault>, NoMemory>
    requires { AreUpTo ask.now.event answers.old }
    ensures { IfOk result (λ failed. IsAsked
        (λ ask answer. B.gives asking.now.bench.now asking.now.artefacts.now ask answer)
        (λ ask fault. B.fails asking.now.bench.now asking.now.artefacts.now ask fault)
        ask.now
        answers.old
        answers.new
        failed) }
{
    match asking.bench.measure(asking.artefacts, ask) {
        Ok(answer) => {
            note(ask.event, answer, answers)?;
            Ok(None)
        }
        Err(MeasureError::Fault(fault)) => Ok(Some(fault)),
        Err(MeasureError::NoMemory) => Err(NoMemory),
    }
}

/// Appends the answer of an event after those of earlier ones.
#[tactic(auto, using(crate::proofs::GatherLemmas::rising_push))]
fn note(event: u32, answer: Answer, answers: &mut Answers) -> Result<(), NoMemory>
    requires { AreUpTo event answers.old }
    ensures { OnOk result (answers.new ≡ answers.old ++ (event, answer) ∷ []) }
{
    match answers.push((event, answer)) {
        Ok(()) => Ok(()),
        Err(_) => Err(NoMemory),
    }
}
