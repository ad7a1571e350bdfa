ghost use Rattle.std.specs.Prelude.{◌≡◌, ◌<◌, ◌≤◌, length, IfOk};
ghost use Rattle.session_desk.specs.Views.{IsPassOf, openings_of};
ghost use Rattle.session_desk.specs.Taking.{ChangesAt};
ghost use Rattle.session_desk.specs.Opening.{AreOpened, AreJustOpened};
ghost use Rattle.session_desk.specs.Answers.{Turns, Records, Outcomes, IsHeld, IsMeasured, IsLegalSeen, Hands, Again};

use crate::among::{outcome_among, record_among, turn_among};
use crate::hand::{DeskError, Hand, Recorded, Turned};
use crate::opening::{add, fresh};
use crate::pass::Pass;
use bench_trait::{Bench, MeasureError};
use evidence_types::Answer;
use phrase_tree::NoMemory;
use session_core::Session;
use session_model::Record;
use std::alloc::Global;
use std::marker::Model;
use turn_cell::TurnCell;

/// Sessions, each behind its turn.
#[derive(Drop)]
pub struct Desk<'a, B: Bench> {
    cells: Vec<TurnCell<Session<'a, B>>>,
}

impl<'a, B: Bench> Model for Desk<'a, B> {
    ghost use Rattle.std.specs.Prelude.{List, ◌≤◌, length};
    ghost use Rattle.std.specs.Coded.{codes};
    ghost use Rattle.atomic_table.specs.Seated.{TableId, table_id_coded};
    ghost use Rattle.session_desk.specs.Cells.{ids_of};

    ghost Value = { List TableId };

    ghost coded = { Prim.hlevel (codes, table_id_coded) };

    ghost view = { λ d. ids_of d.cells.items };

    ghost invariant = { λ d. length d.cells.items ≤ 4294967295 };
}

impl<'a, B: Bench> Desk<'a, B> {
    /// A desk of these sessions, just opened, and as many passes of it as this, by their numbers. An error
    /// is want of memory; then the sessions are dropped. Takes a step for each pass of each session.
    pub fn open(
        alloc: Global,
        mut sessions: Vec<Session<'a, B>>,
        passes: u32,
    ) -> Result<(Desk<'a, B>, Vec<Pass<'a, B>>), NoMemory>
        requires passes { 0 < passes }
        requires count { length sessions.items ≤ 4294967295 }
        requires opened { AreJustOpened sessions.items }
        ensures { IfOk result (λ opened. AreOpened sessions.entry.items passes opened.0 opened.1.items) }
    {
        let mut made = fresh(alloc, passes)?;
        let mut cells = Vec::new(alloc);
        sessions.reverse();
        while let Some(session) = sessions.pop() {
            let cell = match add(alloc, session, &mut made, passes) {
                Ok(cell) => cell,
                Err(_) => return Err(NoMemory),
            };
            match cells.push(cell) {
                Ok(()) => {}
                Err(_) => return Err(NoMemory),
            }
        }
        Ok((Desk { cells }, made))
    }

    /// The number of sessions that the desk was opened with.
    pub fn session_count(&self) -> u32
        ensures { result ≡ length self.now }
    {
        self.cells.len() as u32
    }

    /// Makes the first possible move of a session, by its index, if its turn is free. It doesn't wait, and
    /// takes no memory.
    pub fn turn(&self, session: u32, pass: &mut Pass<'a, B>) -> Turned
        requires range { session < length self.now }
        requires made { IsPassOf self.now pass.old }
        ensures made { IsPassOf self.now pass.new }
        ensures openings { openings_of pass.new.views ≡ openings_of pass.old.views }
        ensures told { ChangesAt
            session
            (Turns
            (IsLegalSeen
            (λ opening ask answer. B.gives opening.bench.now opening.artefacts.now ask answer)
            (λ opening ask fault. B.fails opening.bench.now opening.artefacts.now ask fault)
            (λ opening ask. B.starves opening.bench.now opening.artefacts.now ask))
            session
            pass.old.number
            result)
            pass.old
            pass.new }
        ensures hands { Hands result pass.new }
    {
        let number = pass.number;
        turn_among(&self.cells, &mut pass.seats, session, number)
    }

    /// Records the result of a hand's ask, by the pass that got the hand, if the session's turn is free. It
    /// doesn't wait, and takes no memory.
    pub fn record(
        &self,
        pass: &mut Pass<'a, B>,
        hand: Hand,
        measured: Result<Answer, MeasureError>,
    ) -> Recorded
        requires made { IsPassOf self.now pass.old }
        requires held { IsHeld pass.old hand }
        requires measured { IsMeasured
            (λ opening ask answer. B.gives opening.bench.now opening.artefacts.now ask answer)
            (λ opening ask fault. B.fails opening.bench.now opening.artefacts.now ask fault)
            (λ opening ask. B.starves opening.bench.now opening.artefacts.now ask)
            pass.old
            hand
            measured }
        ensures made { IsPassOf self.now pass.new }
        ensures openings { openings_of pass.new.views ≡ openings_of pass.old.views }
        ensures told { ChangesAt
            hand.session
            (Records
            (IsLegalSeen
            (λ opening ask answer. B.gives opening.bench.now opening.artefacts.now ask answer)
            (λ opening ask fault. B.fails opening.bench.now opening.artefacts.now ask fault)
            (λ opening ask. B.starves opening.bench.now opening.artefacts.now ask))
            pass.old.number
            hand
            measured
            result)
            pass.old
            pass.new }
        ensures again { Again
            (λ opening ask answer. B.gives opening.bench.now opening.artefacts.now ask answer)
            (λ opening ask fault. B.fails opening.bench.now opening.artefacts.now ask fault)
            (λ opening ask. B.starves opening.bench.now opening.artefacts.now ask)
            result
            pass.new }
    {
        let number = pass.number;
        let session = hand.session;
        record_among(
            &self.cells,
            &mut pass.seats,
            session,
            number,
            hand,
            measured,
        )
    }

    /// The record of a session, by its index, if its turn is free. It doesn't wait.
    pub fn outcome(&self, session: u32, pass: &mut Pass<'a, B>) -> Result<Record, DeskError>
        requires range { session < length self.now }
        requires made { IsPassOf self.now pass.old }
        ensures made { IsPassOf self.now pass.new }
        ensures openings { openings_of pass.new.views ≡ openings_of pass.old.views }
        ensures told { ChangesAt
            session
            (Outcomes
            (IsLegalSeen
            (λ opening ask answer. B.gives opening.bench.now opening.artefacts.now ask answer)
            (λ opening ask fault. B.fails opening.bench.now opening.artefacts.now ask fault)
            (λ opening ask. B.starves opening.bench.now opening.artefacts.now ask))
            pass.old.number
            result)
            pass.old
            pass.new }
    {
        let number = pass.number;
        outcome_among(&self.cells, &mut pass.seats, session, number)
    }
}
