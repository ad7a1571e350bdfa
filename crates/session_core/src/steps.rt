ghost use Rattle.std.specs.Prelude.{◌≡◌, ℕ, List, None};
ghost use Rattle.session_model.specs.Session.{Session};
ghost use Rattle.session_runs.specs.Standing.{run, ask, deliver, played, answered, failed, starved};
ghost use Rattle.machine_world.specs.Seen.{IsPlace};
ghost use Rattle.machine_world.specs.Cells.{block_of};
ghost use Rattle.session_core.specs.Core.{history_in, IsCore, IsCoreAgain, CanTake, CanTakeWith};
ghost use Rattle.session_core.specs.Steps.{Adds, IsAsked, IsBehind};

use crate::laws::{room_law, taking_law};
use crate::telling::place_told;
use avm_code::BlockName;
use bench_trait::{Ask, BenchFault};
use evidence_types::Answer;
use machine_world::World;
use phrase_tree::Place;
use seal_hmac::KeyRing;
use session_agenda::{Agenda, PlaceUpdate};
use session_book::SessionBook;
use session_tables::{
    allowed_law, free_law, own_question_law, played_law, results_law, steps_law, touched_law,
};

/// A session that runs: its machines, what they can do next, its history, and its nonce.
#[derive(Debug, Drop)]
pub struct Core {
    pub(crate) world: World,
    pub(crate) agenda: Agenda,
    pub(crate) book: SessionBook,
    pub(crate) nonce: [u8; 16],
}

impl Core {
    /// A block runs on. Takes time in the logarithm of the phrase's events, beside hashing and finding
    /// the place of a request.
    pub fn run(&mut self, pass: u32, name: BlockName, keys: &KeyRing)
        requires { CanTakeWith keys.now (played pass (run (block_of name))) self.old }
        ensures adds { Adds (played pass (run (block_of name))) self.old.book self.new.book }
        ensures core { IsCoreAgain keys.now self.old self.new }
    {
        let (second, place) = self.go_on(pass, name, keys);
        self.tell(name, second, place);
    }

    /// A block asks: the session's own question for the event of its next instruction, which is in flight
    /// by this pass from now on.
    pub fn ask(&mut self, pass: u32, name: BlockName) -> Ask
        requires { CanTake (played pass (ask (block_of name))) self.old }
        ensures adds { Adds (played pass (ask (block_of name))) self.old.book self.new.book }
        ensures core { (keys : List (List ℕ × List ℕ)) → IsCoreAgain keys self.old self.new }
        ensures asked { (session : Session) (keys : List (List ℕ × List ℕ)) (places : List (List ℕ)) →
            IsCore session keys places self.old → IsAsked session keys pass (history_in self.old) (history_in self.new) result }
    {
        let asked = self.lift(pass, name);
        self.tell(name, None, None);
        asked
    }

    /// The first request that waits at a place, given with its index, is delivered.
    pub fn deliver(&mut self, pass: u32, place: Place, index: u32)
        requires can { CanTake (played pass (deliver place)) self.old }
        requires place { IsPlace self.old.world.places.items place index }
        ensures adds { Adds (played pass (deliver place)) self.old.book self.new.book }
        ensures core { (keys : List (List ℕ × List ℕ)) → IsCoreAgain keys self.old self.new }
    {
        let (number, waits) = self.hand_over(pass, place, index);
        let told = PlaceUpdate {
            place: index,
            waits,
        };
        self.tell(BlockName::Of(number), None, Some(told));
    }

    /// The answer of an event comes to the block that asked for it.
    pub fn answer(&mut self, pass: u32, event: u32, answer: Answer)
        requires { CanTake (answered pass event answer) self.old }
        ensures adds { Adds (answered pass event answer) self.old.book self.new.book }
        ensures core { (keys : List (List ℕ × List ℕ)) → IsCoreAgain keys self.old self.new }
    {
        let name = self.give(pass, event, answer);
        self.tell(name, None, None);
    }

    /// The measurement of an event failed, and the session with it.
    pub fn fail(&mut self, pass: u32, event: u32, fault: BenchFault)
        requires { CanTake (failed pass event fault) self.old }
        ensures adds { Adds (failed pass event fault) self.old.book self.new.book }
        ensures core { (keys : List (List ℕ × List ℕ)) → IsCoreAgain keys self.old self.new }
    {
        played_law();
        taking_law();
        room_law();
        results_law();
        self.book.fail(pass, event, fault);
    }

    /// The bench had no memory for the measurement of an event, and the session goes no further.
    pub fn starve(&mut self, pass: u32, event: u32)
        requires { CanTake (starved pass event) self.old }
        ensures adds { Adds (starved pass event) self.old.book self.new.book }
        ensures core { (keys : List (List ℕ × List ℕ)) → IsCoreAgain keys self.old self.new }
    {
        played_law();
        taking_law();
        room_law();
        results_law();
        self.book.starve(pass, event);
    }

    /// A block runs on, and the agenda isn't told: the block that it started, or that waits for it if it
    /// ended; and what is to be told of a place.
    fn go_on(
        &mut self,
        pass: u32,
        name: BlockName,
        keys: &KeyRing,
    ) -> (Option<BlockName>, Option<PlaceUpdate>)
        requires { CanTakeWith keys.now (played pass (run (block_of name))) self.old }
        ensures adds { Adds (played pass (run (block_of name))) self.old.book self.new.book }
        ensures behind { (session : Session) (places : List (List ℕ)) →
            IsCore session keys.now places self.old → IsBehind session keys.now places name result.0 result.1 self.new }
    {
        played_law();
        taking_law();
        room_law();
        allowed_law();
        touched_law();
        let nonce = self.nonce;
        let moved = self.world.run(name, keys, &nonce);
        let second = self.second(name, &moved);
        let place = place_told(&moved);
        self.book.run(pass, name, moved);
        (second, place)
    }

    /// A block asks, and the agenda isn't told.
    fn lift(&mut self, pass: u32, name: BlockName) -> Ask
        requires { CanTake (played pass (ask (block_of name))) self.old }
        ensures adds { Adds (played pass (ask (block_of name))) self.old.book self.new.book }
        ensures asked { (session : Session) (keys : List (List ℕ × List ℕ)) (places : List (List ℕ)) →
            IsCore session keys places self.old → IsAsked session keys pass (history_in self.old) (history_in self.new) result }
        ensures behind { (session : Session) (keys : List (List ℕ × List ℕ)) (places : List (List ℕ)) →
            IsCore session keys places self.old → IsBehind session keys places name None None self.new }
    {
        played_law();
        taking_law();
        room_law();
        steps_law();
        results_law();
        free_law();
        own_question_law();
        let nonce = self.nonce;
        match self.world.ask(name, &nonce) {
            None => unreachable!(),
            Some(asked) => {
                self.book.ask(pass, name, asked.event);
                asked
            }
        }
    }

    /// The first request of a place, given with its index, is delivered, and the agenda isn't told: the
    /// number of the request, and whether another waits.
    fn hand_over(&mut self, pass: u32, place: Place, index: u32) -> (u32, bool)
        requires can { CanTake (played pass (deliver place)) self.old }
        requires place { IsPlace self.old.world.places.items place index }
        ensures adds { Adds (played pass (deliver place)) self.old.book self.new.book }
        ensures behind { (session : Session) (keys : List (List ℕ × List ℕ)) (places : List (List ℕ)) →
            IsCore session keys places self.old →
            IsBehind session keys places (BlockName.Of result.0) None (Some (record { place = index; waits = result.1 })) self.new }
    {
        played_law();
        taking_law();
        room_law();
        steps_law();
        allowed_law();
        match self.world.deliver(index) {
            None => unreachable!(),
            Some(number) => {
                self.book.deliver(pass, place);
                (number, self.world.front(index).is_some())
            }
        }
    }

    /// The answer of an event comes to the block that asked, and the agenda isn't told: that block.
    fn give(&mut self, pass: u32, event: u32, answer: Answer) -> BlockName
        requires { CanTake (answered pass event answer) self.old }
        ensures adds { Adds (answered pass event answer) self.old.book self.new.book }
        ensures behind { (session : Session) (keys : List (List ℕ × List ℕ)) (places : List (List ℕ)) →
            IsCore session keys places self.old → IsBehind session keys places result None None self.new }
    {
        played_law();
        taking_law();
        room_law();
        results_law();
        free_law();
        allowed_law();
        let _ = answer.bytes();
        match self.book.flight(event) {
            None => unreachable!(),
            Some(flight) => {
                self.world.answer(flight.name, &answer);
                self.book.answer(pass, event, answer);
                flight.name
            }
        }
    }
}
