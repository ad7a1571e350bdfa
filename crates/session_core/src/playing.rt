//! Moves, results and the record of a session.
ghost use Rattle.std.specs.Prelude.{◌≡◌, ◌↔◌, ℕ, List, true, Err, IsErr, IfOk, OnOk, OnErr, Contains};
ghost use Rattle.session_runs.specs.Standing.{is_open, Standing};
ghost use Rattle.session_runs.specs.History.{standing_after};
ghost use Rattle.session_runs.specs.MoveOrder.{possible_moves};
ghost use Rattle.session_book.specs.declared.entry.Entry.TheVariants as entry;
ghost use Rattle.session_book.specs.Entries.{move_of, entry_of};
ghost use Rattle.session_core.specs.Core.{history_in, IsCore, IsCoreAgain};
ghost use Rattle.session_core.specs.Steps.{Adds, ForSome};
ghost use Rattle.session_core.specs.Reading.{Tells, HasStopped, result_entry, ForSomeWith, IsPossible, IsAwaitedBy, IsAwaitedNow, TellsAfter, IsOutcome, IsDoneCore};

use crate::places::index_of;
use crate::played::{OutcomeError, PlayError, Played, RecordError};
use crate::steps::Core;
use bench_trait::{BenchFault, MeasureError};
use evidence_types::Answer;
use seal_hmac::KeyRing;
use session_book::{Ending, Move, State};
use session_model::{DoneRecord, FailRecord, Record};
use session_runs::{ask_law, done_law, listing_law, result_law};
use session_tables::over_law;

impl Core {
    /// Makes a move by a pass. An error is that it isn't possible, and then nothing changes.
    pub fn play(&mut self, pass: u32, step: Move, keys: &KeyRing) -> Result<Played, PlayError>
        requires { ForSomeWith keys.now IsCore self.old }
        ensures refused { Tells self.old (λ session places standing. IsErr result ↔ (Contains (possible_moves places standing) (move_of step) → ⊥)) }
        ensures adds { OnOk result (Adds (entry_of (entry.Played pass step)) self.old.book self.new.book) }
        ensures core { IsCoreAgain keys.now self.old self.new }
        ensures err { OnErr result (self.new ≡ self.old) }
        ensures tells { IfOk result (λ played. TellsAfter keys.now pass step self.old self.new played) }
    {
        if !self.can(&step) {
            return Err(PlayError::NotNow);
        }
        Ok(self.make(pass, step, keys))
    }

    /// Makes a move that is possible.
    fn make(&mut self, pass: u32, step: Move, keys: &KeyRing) -> Played
        requires { IsPossible keys.now step self.old }
        ensures adds { Adds (entry_of (entry.Played pass step)) self.old.book self.new.book }
        ensures core { IsCoreAgain keys.now self.old self.new }
        ensures tells { TellsAfter keys.now pass step self.old self.new result }
    {
        listing_law();
        ask_law();
        match step {
            Move::Run(name) => {
                self.run(pass, name, keys);
                Played::Moved
            }
            Move::Ask(name) => Played::Asked(self.ask(pass, name)),
            Move::Deliver(place) => match index_of(self.world.places(), place) {
                Some(index) => {
                    self.deliver(pass, place, index);
                    Played::Moved
                }
                None => unreachable!(),
            },
        }
    }

    /// Records what a bench gave for an ask of this pass that is in flight. An error is that the session
    /// had failed or starved; then the result is dropped, and nothing changes.
    pub fn record(
        &mut self,
        pass: u32,
        event: u32,
        measured: Result<Answer, MeasureError>,
    ) -> Result<(), RecordError>
        requires { IsAwaitedBy pass event self.old }
        ensures ended { Tells self.old (λ session places standing. IsErr result ↔ HasStopped standing.state) }
        ensures adds { OnOk result (Adds (entry_of (result_entry pass event measured)) self.old.book self.new.book) }
        ensures core { (keys : List (List ℕ × List ℕ)) → IsCoreAgain keys self.old self.new }
        ensures err { OnErr result (self.new ≡ self.old) }
    {
        done_law();
        match self.book.state() {
            State::Open => {
                self.take(pass, event, measured);
                Ok(())
            }
            State::Done => unreachable!(),
            State::Failed => Err(RecordError::Ended),
            State::Starved => Err(RecordError::Ended),
        }
    }

    /// Takes the result of an open session.
    fn take(&mut self, pass: u32, event: u32, measured: Result<Answer, MeasureError>)
        requires { IsAwaitedNow pass event self.old }
        ensures adds { Adds (entry_of (result_entry pass event measured)) self.old.book self.new.book }
        ensures core { (keys : List (List ℕ × List ℕ)) → IsCoreAgain keys self.old self.new }
    {
        result_law();
        match measured {
            Ok(answer) => self.answer(pass, event, answer),
            Err(wanted) => match wanted {
                MeasureError::Fault(fault) => self.fail(pass, event, fault),
                MeasureError::NoMemory => self.starve(pass, event),
            },
        }
    }

    /// The record of a session that is done or failed. An error is that it is open, or want of memory,
    /// always if it starved.
    pub fn outcome(&self) -> Result<Record, OutcomeError>
        requires { ForSome IsCore self.now }
        ensures found { Tells self.now (λ session places standing. IsOutcome session standing result) }
        ensures not_finished { Tells self.now (λ session places standing. (result ≡ Err OutcomeError.NotFinished) ↔ (standing.state ≡ is_open)) }
    {
        match self.book.ending() {
            Ending::Open => Err(OutcomeError::NotFinished),
            Ending::Done(_) => self.done(),
            Ending::Failed { event, fault } => self.failed(event, fault),
            Ending::Starved { .. } => Err(OutcomeError::NoMemory),
        }
    }

    fn failed(&self, event: u32, fault: BenchFault) -> Result<Record, OutcomeError>
        requires { self.now.book.ending ≡ Ending.Failed event fault }
        ensures found { Tells self.now (λ session places standing. IsOutcome session standing result) }
        ensures finished { (result ≡ Err OutcomeError.NotFinished) → ⊥ }
    {
        match self.book.trace() {
            Ok(trace) => Ok(Record::Failed(FailRecord {
                event,
                fault,
                trace,
            })),
            Err(_) => Err(OutcomeError::NoMemory),
        }
    }

    fn done(&self) -> Result<Record, OutcomeError>
        requires { IsDoneCore self.now }
        ensures found { Tells self.now (λ session places standing. IsOutcome session standing result) }
        ensures finished { (result ≡ Err OutcomeError.NotFinished) → ⊥ }
    {
        over_law();
        done_law();
        let result_id = match self.world.root_result() {
            Some(id) => id,
            None => unreachable!(),
        };
        let Ok(trace) = self.book.trace() else {
            return Err(OutcomeError::NoMemory);
        };
        let Ok(answers) = self.book.answers() else {
            return Err(OutcomeError::NoMemory);
        };
        match self.world.emit(result_id) {
            Ok(bundle) => Ok(Record::Done(DoneRecord {
                trace,
                answers,
                bundle,
            })),
            Err(_) => Err(OutcomeError::NoMemory),
        }
    }
}
