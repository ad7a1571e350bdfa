//! The calls of a desk at the cell of an index.
ghost use Rattle.std.specs.Prelude.{◌≡◌, ◌<◌, length};
ghost use Rattle.session_desk.specs.Views.{cells_of};
ghost use Rattle.session_desk.specs.Cells.{ids_of};
ghost use Rattle.session_desk.specs.Seats.{AreSeats, views_of};
ghost use Rattle.session_desk.specs.Taking.{ChangesOne};
ghost use Rattle.session_desk.specs.Answers.{Turns, Records, Outcomes, Awaits, Measures, IsAt, IsLegalSeen};

use crate::hand::{DeskError, Hand, Recorded, Turned};
use crate::seat::{outcome_at, record_at, turn_at};
use bench_trait::{Bench, MeasureError};
use evidence_types::Answer;
use session_core::Session;
use session_model::Record;
use turn_cell::{CellPass, TurnCell};

/// Makes the first possible move of the session at an index, if its turn is free.
pub(crate) fn turn_among<'a, B: Bench>(
    cells: &Vec<TurnCell<Session<'a, B>>>,
    seats: &mut Vec<CellPass<Session<'a, B>>>,
    index: u32,
    number: u32,
) -> Turned
    requires range { index < length cells.now.items }
    requires made { cells_of (views_of seats.old.items) ≡ ids_of cells.now.items }
    requires seats { AreSeats number seats.old.items }
    ensures made { cells_of (views_of seats.new.items) ≡ ids_of cells.now.items }
    ensures seats { AreSeats number seats.new.items }
    ensures told { ChangesOne
        index
        (Turns
        (IsLegalSeen
        (λ opening ask answer. B.gives opening.bench.now opening.artefacts.now ask answer)
        (λ opening ask fault. B.fails opening.bench.now opening.artefacts.now ask fault)
        (λ opening ask. B.starves opening.bench.now opening.artefacts.now ask))
        index
        number
        result)
        (views_of seats.old.items)
        (views_of seats.new.items) }
{
    let at = index as usize;
    let cell = &cells[at];
    let seat = &mut seats[at];
    turn_at(cell, seat, index, number)
}

/// Records the result of a hand's ask at the session of an index, if its turn is free.
pub(crate) fn record_among<'a, B: Bench>(
    cells: &Vec<TurnCell<Session<'a, B>>>,
    seats: &mut Vec<CellPass<Session<'a, B>>>,
    index: u32,
    number: u32,
    hand: Hand,
    measured: Result<Answer, MeasureError>,
) -> Recorded
    requires range { index < length cells.now.items }
    requires made { cells_of (views_of seats.old.items) ≡ ids_of cells.now.items }
    requires seats { AreSeats number seats.old.items }
    requires held { IsAt index (Awaits number hand.event) (views_of seats.old.items) }
    requires measured { IsAt
        index
        (Measures
        (λ opening ask answer. B.gives opening.bench.now opening.artefacts.now ask answer)
        (λ opening ask fault. B.fails opening.bench.now opening.artefacts.now ask fault)
        (λ opening ask. B.starves opening.bench.now opening.artefacts.now ask)
        hand.event
        measured)
        (views_of seats.old.items) }
    ensures made { cells_of (views_of seats.new.items) ≡ ids_of cells.now.items }
    ensures seats { AreSeats number seats.new.items }
    ensures told { ChangesOne
        index
        (Records
        (IsLegalSeen
        (λ opening ask answer. B.gives opening.bench.now opening.artefacts.now ask answer)
        (λ opening ask fault. B.fails opening.bench.now opening.artefacts.now ask fault)
        (λ opening ask. B.starves opening.bench.now opening.artefacts.now ask))
        number
        hand
        measured
        result)
        (views_of seats.old.items)
        (views_of seats.new.items) }
{
    let at = index as usize;
    let cell = &cells[at];
    let seat = &mut seats[at];
    record_at(cell, seat, number, hand, measured)
}

/// The record of the session at an index, if its turn is free.
pub(crate) fn outcome_among<'a, B: Bench>(
    cells: &Vec<TurnCell<Session<'a, B>>>,
    seats: &mut Vec<CellPass<Session<'a, B>>>,
    index: u32,
    number: u32,
) -> Result<Record, DeskError>
    requires range { index < length cells.now.items }
    requires made { cells_of (views_of seats.old.items) ≡ ids_of cells.now.items }
    requires seats { AreSeats number seats.old.items }
    ensures made { cells_of (views_of seats.new.items) ≡ ids_of cells.now.items }
    ensures seats { AreSeats number seats.new.items }
    ensures told { ChangesOne
        index
        (Outcomes
        (IsLegalSeen
        (λ opening ask answer. B.gives opening.bench.now opening.artefacts.now ask answer)
        (λ opening ask fault. B.fails opening.bench.now opening.artefacts.now ask fault)
        (λ opening ask. B.starves opening.bench.now opening.artefacts.now ask))
        number
        result)
        (views_of seats.old.items)
        (views_of seats.new.items) }
{
    let at = index as usize;
    let cell = &cells[at];
    let seat = &mut seats[at];
    outcome_at(cell, seat, number)
}
