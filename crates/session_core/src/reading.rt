//! What a core tells of its session.
ghost use Rattle.std.specs.Prelude.{◌≡◌, ◌<◌, ◌↔◌, IsTrue, Err, Contains, length, slice_get};
ghost use Rattle.std.specs.Option.{option_map};
ghost use Rattle.session_runs.specs.Standing.{is_open};
ghost use Rattle.session_runs.specs.MoveOrder.{possible_moves, asks_in_order};
ghost use Rattle.session_agenda.specs.Placed.{placed};
ghost use Rattle.session_book.specs.Entries.{move_of, entry_of};
ghost use Rattle.session_core.specs.Core.{history_in, IsCore};
ghost use Rattle.session_core.specs.Steps.{ForSome};
ghost use Rattle.session_core.specs.Reading.{Tells, word_of, question_of, IsOpenCore, IsWithin};

use crate::places::index_of;
use crate::reading_laws::{asks_law, moves_law};
use crate::steps::Core;
use bench_trait::Ask;
use session_agenda::Move as Listed;
use session_book::{Entry, Move, State};
use session_runs::done_law;

impl Core {
    /// How the session stands.
    pub fn state(&self) -> State
        ensures { Tells self.now (λ session places standing. result ≡ word_of standing.state) }
    {
        self.book.state()
    }

    /// Whether a move is possible. Takes time in the logarithm of the events; for a delivery also time
    /// linear in the places.
    pub fn can(&self, step: &Move) -> bool
        requires { ForSome IsCore self.now }
        ensures { Tells self.now (λ session places standing. IsTrue result ↔ Contains (possible_moves places standing) (move_of step.now)) }
    {
        match self.book.state() {
            State::Open => self.can_now(step),
            State::Done => false,
            State::Failed => false,
            State::Starved => false,
        }
    }

    /// The number of possible moves, in constant time.
    pub fn move_count(&self) -> u64
        requires { ForSome IsCore self.now }
        ensures { Tells self.now (λ session places standing. result ≡ length (possible_moves places standing)) }
    {
        match self.book.state() {
            State::Open => self.count_now(),
            State::Done => 0,
            State::Failed => 0,
            State::Starved => 0,
        }
    }

    /// The possible move at an index, in their order; none exactly if there are no more than that. Takes
    /// constant time.
    pub fn nth_move(&self, index: u32) -> Option<Move>
        requires { ForSome IsCore self.now }
        ensures { Tells self.now (λ session places standing. option_map move_of result ≡ slice_get (possible_moves places standing) index) }
    {
        match self.book.state() {
            State::Open => self.nth_now(index),
            State::Done => None,
            State::Failed => None,
            State::Starved => None,
        }
    }

    /// The number of asks in flight, in constant time.
    pub fn asked_count(&self) -> u32
        ensures { Tells self.now (λ session places standing. result ≡ length (asks_in_order standing.in_flight)) }
    {
        asks_law(&self.book);
        self.book.flight_count()
    }

    /// The question of the ask in flight at an index, by the order of their events; none exactly if there
    /// are no more than that. Takes time in the logarithm of the blocks.
    pub fn nth_asked(&self, index: u32) -> Option<Ask>
        requires { ForSome IsCore self.now }
        ensures { Tells self.now (λ session places standing. result ≡ question_of session (slice_get (asks_in_order standing.in_flight) index)) }
    {
        asks_law(&self.book);
        done_law();
        match self.book.nth_flight(index) {
            Some((_, flight)) => { self.world.ask(flight.name, &self.nonce) }
            None => None,
        }
    }

    /// The number of entries, with the opening, in constant time.
    pub fn entry_count(&self) -> usize
        ensures { result ≡ length (history_in self.now) }
    {
        self.book.entry_count()
    }

    /// The entry at an index; the first is the opening. None exactly if there are no more than that. It
    /// copies an answer.
    pub fn nth_entry(&self, index: u32) -> Option<Entry>
        requires { ForSome IsCore self.now }
        ensures { option_map entry_of result ≡ slice_get (history_in self.now) index }
    {
        self.book.nth_entry(index)
    }

    fn can_now(&self, step: &Move) -> bool
        requires { IsOpenCore self.now }
        ensures { Tells self.now (λ session places standing. IsTrue result ↔ Contains (possible_moves places standing) (move_of step.now)) }
    {
        moves_law();
        match step {
            Move::Run(name) => self.agenda.can(Listed::Run(*name)),
            Move::Ask(name) => self.agenda.can(Listed::Ask(*name)),
            Move::Deliver(place) => match index_of(self.world.places(), *place) {
                Some(index) => self.agenda.can(Listed::Deliver(index)),
                None => false,
            },
        }
    }

    fn count_now(&self) -> u64
        requires { IsOpenCore self.now }
        ensures { Tells self.now (λ session places standing. result ≡ length (possible_moves places standing)) }
    {
        moves_law();
        self.agenda.count()
    }

    fn nth_now(&self, index: u32) -> Option<Move>
        requires { IsOpenCore self.now }
        ensures { Tells self.now (λ session places standing. option_map move_of result ≡ slice_get (possible_moves places standing) index) }
    {
        moves_law();
        match self.agenda.nth(index) {
            Some(listed) => Some(self.move_at(listed)),
            None => None,
        }
    }

    /// A move of the agenda as one of the session.
    fn move_at(&self, listed: Listed) -> Move
        requires { IsWithin (length self.now.world.places.items) listed }
        ensures { move_of result ≡ placed self.now.world.places.items listed }
    {
        match listed {
            Listed::Run(name) => Move::Run(name),
            Listed::Ask(name) => Move::Ask(name),
            Listed::Deliver(index) => Move::Deliver(self.world.places()[index as usize]),
        }
    }
}
