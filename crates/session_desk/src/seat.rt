//! The calls of a desk at one cell: the turn is taken, something is done with the session, and the turn is
//! given back.
ghost use Rattle.std.specs.Prelude.{◌≡◌};
ghost use Rattle.turn_cell.specs.Passes.{MadeBy};
ghost use Rattle.session_desk.specs.Seats.{IsSeat, view_of};
ghost use Rattle.session_desk.specs.Words.{kept_or_ended};
ghost use Rattle.session_desk.specs.Answers.{Turns, Records, Outcomes, Awaits, Measures, IsLegalSeen};

use crate::advance::{advance, keep, outcome_of};
use crate::hand::{DeskError, Hand, Recorded, Turned};
use bench_trait::{Bench, MeasureError};
use evidence_types::Answer;
use session_core::Session;
use session_model::Record;
use session_runs::flight_law;
use turn_cell::{CellPass, TurnCell};

/// Makes the first possible move, if the turn is free.
pub(crate) fn turn_at<'a, B: Bench>(
    cell: &TurnCell<Session<'a, B>>,
    seat: &mut CellPass<Session<'a, B>>,
    index: u32,
    number: u32,
) -> Turned
    requires made { MadeBy cell.now seat.old }
    requires seat { IsSeat number seat.old }
    ensures made { MadeBy cell.now seat.new }
    ensures seat { IsSeat number seat.new }
    ensures told { Turns
        (IsLegalSeen
        (λ opening ask answer. B.gives opening.bench.now opening.artefacts.now ask answer)
        (λ opening ask fault. B.fails opening.bench.now opening.artefacts.now ask fault)
        (λ opening ask. B.starves opening.bench.now opening.artefacts.now ask))
        index
        number
        result
        (view_of seat.old)
        (view_of seat.new) }
{
    match cell.take(seat) {
        Some(mut session) => {
            let turned = advance(&mut session, index, number);
            session.legal();
            cell.put(seat, session);
            turned
        }
        None => Turned::Busy,
    }
}

/// Records the result of a hand's ask, if the turn is free.
pub(crate) fn record_at<'a, B: Bench>(
    cell: &TurnCell<Session<'a, B>>,
    seat: &mut CellPass<Session<'a, B>>,
    number: u32,
    hand: Hand,
    measured: Result<Answer, MeasureError>,
) -> Recorded
    requires made { MadeBy cell.now seat.old }
    requires seat { IsSeat number seat.old }
    requires held { Awaits number hand.event (view_of seat.old) }
    requires measured { Measures
        (λ opening ask answer. B.gives opening.bench.now opening.artefacts.now ask answer)
        (λ opening ask fault. B.fails opening.bench.now opening.artefacts.now ask fault)
        (λ opening ask. B.starves opening.bench.now opening.artefacts.now ask)
        hand.event
        measured
        (view_of seat.old) }
    ensures made { MadeBy cell.now seat.new }
    ensures seat { IsSeat number seat.new }
    ensures told { Records
        (IsLegalSeen
        (λ opening ask answer. B.gives opening.bench.now opening.artefacts.now ask answer)
        (λ opening ask fault. B.fails opening.bench.now opening.artefacts.now ask fault)
        (λ opening ask. B.starves opening.bench.now opening.artefacts.now ask))
        number
        hand
        measured
        result
        (view_of seat.old)
        (view_of seat.new) }
{
    match cell.take(seat) {
        Some(mut session) => {
            let Hand { session: _, event } = hand;
            flight_law();
            session.legal();
            let kept = keep(&mut session, number, event, measured);
            session.legal();
            cell.put(seat, session);
            recorded(kept)
        }
        None => Recorded::Busy(hand, measured),
    }
}

/// What a record came to.
fn recorded(kept: bool) -> Recorded
    ensures { result ≡ kept_or_ended kept }
{
    if kept {
        Recorded::Kept
    } else {
        Recorded::Ended
    }
}

/// The record of a session, if the turn is free.
pub(crate) fn outcome_at<'a, B: Bench>(
    cell: &TurnCell<Session<'a, B>>,
    seat: &mut CellPass<Session<'a, B>>,
    number: u32,
) -> Result<Record, DeskError>
    requires made { MadeBy cell.now seat.old }
    requires seat { IsSeat number seat.old }
    ensures made { MadeBy cell.now seat.new }
    ensures seat { IsSeat number seat.new }
    ensures told { Outcomes
        (IsLegalSeen
        (λ opening ask answer. B.gives opening.bench.now opening.artefacts.now ask answer)
        (λ opening ask fault. B.fails opening.bench.now opening.artefacts.now ask fault)
        (λ opening ask. B.starves opening.bench.now opening.artefacts.now ask))
        number
        result
        (view_of seat.old)
        (view_of seat.new) }
{
    match cell.take(seat) {
        Some(session) => {
            session.legal();
            let outcome = outcome_of(&session, number);
            cell.put(seat, session);
            outcome
        }
        None => Err(DeskError::Busy),
    }
}
