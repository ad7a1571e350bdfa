//! What a call of a desk does with a session while its pass has the turn.
ghost use Rattle.std.specs.Prelude.{◌≡◌, ℕ, Some};
ghost use Rattle.bench_trait.specs.declared.ask.Ask.{Ask as Question};
ghost use Rattle.bench_trait.specs.Asking.{question};
ghost use Rattle.bench_trait.specs.Bench.{MatchMeasured};
ghost use Rattle.session_core.specs.Session.{session_in, IsAwaited};
ghost use Rattle.session_desk.specs.Taking.{GoesOn};
ghost use Rattle.session_desk.specs.Words.{turn_of, idle_turn, closing};
ghost use Rattle.session_desk.specs.Answers.{TurnTells, RecordTells, OutcomeTells};

use crate::hand::{DeskError, Hand, Turned};
use bench_trait::{Bench, MeasureError};
use evidence_types::Answer;
use session_core::{OutcomeError, Played, Session, State};
use session_model::Record;

/// Makes the first possible move.
pub(crate) fn advance<'a, B: Bench>(session: &mut Session<'a, B>, index: u32, number: u32) -> Turned
    ensures { GoesOn number (TurnTells index number result) session.old session.new }
{
    session.legal();
    match session.nth_move(0) {
        Some(step) => {
            let played = session.play(number, step);
            session.legal();
            match played {
                Ok(played) => told(index, played),
                Err(_) => unreachable!(),
            }
        }
        None => idle(session.state()),
    }
}

/// What a turn in which a move was made came to.
fn told(index: u32, played: Played) -> Turned
    ensures { result ≡ turn_of index played }
{
    match played {
        Played::Moved => Turned::Moved,
        Played::Asked(ask) => {
            let event = ask.event;
            Turned::ToMeasure(
                ask,
                Hand {
                    session: index,
                    event,
                },
            )
        }
    }
}

/// What a turn in which no move is possible came to.
fn idle(state: State) -> Turned
    ensures { result ≡ idle_turn state }
{
    match state {
        State::Open => Turned::Waiting,
        State::Done => Turned::Finished,
        State::Failed => Turned::Finished,
        State::Starved => Turned::Finished,
    }
}

/// Keeps a result; false if the session had failed or starved.
pub(crate) fn keep<'a, B: Bench>(
    session: &mut Session<'a, B>,
    number: u32,
    event: u32,
    measured: Result<Answer, MeasureError>,
) -> bool
    requires asked { IsAwaited session.old number event }
    requires measured { (ask : Question) × (question (session_in session.old.opening).phrase (session_in session.old.opening).root (session_in session.old.opening).nonce event ≡ Some ask) × MatchMeasured
        measured
        (B.gives session.old.opening.bench.now session.old.opening.artefacts.now ask)
        (B.fails session.old.opening.bench.now session.old.opening.artefacts.now ask)
        (B.starves session.old.opening.bench.now session.old.opening.artefacts.now ask) }
    ensures { GoesOn number (RecordTells number event measured result) session.old session.new }
{
    match session.record(number, event, measured) {
        Ok(()) => true,
        Err(_) => false,
    }
}

/// The record of a session.
pub(crate) fn outcome_of<'a, B: Bench>(
    session: &Session<'a, B>,
    number: u32,
) -> Result<Record, DeskError>
    ensures { GoesOn number (OutcomeTells result) session.now session.now }
{
    session.legal();
    closed(session.outcome())
}

/// The same, in the words of a desk.
fn closed(outcome: Result<Record, OutcomeError>) -> Result<Record, DeskError>
    ensures { result ≡ closing outcome }
{
    match outcome {
        Ok(found) => Ok(found),
        Err(error) => match error {
            OutcomeError::NotFinished => Err(DeskError::NotFinished),
            OutcomeError::NoMemory => Err(DeskError::NoMemory),
        },
    }
}
