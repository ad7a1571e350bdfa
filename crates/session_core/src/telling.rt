//! How the agenda of a core is told what an entry changed.
ghost use Rattle.std.specs.Prelude.{◌≡◌, ℕ, List, Some};
ghost use Rattle.session_model.specs.Session.{Session};
ghost use Rattle.avm_code.specs.declared.instr.Instr.{Instr};
ghost use Rattle.machine_tables.specs.Tables.{next_of, next_unless, is_asked};
ghost use Rattle.machine_world.specs.World.{IsWorldForSome};
ghost use Rattle.machine_world.specs.Cells.{block_of};
ghost use Rattle.session_core.specs.Did.{DidNext};
ghost use Rattle.session_tables.specs.Touched.{touched_by, waiting_block};
ghost use Rattle.session_agenda.specs.Kept.{next_of_task};
ghost use Rattle.session_agenda.specs.Updated.{Says};
ghost use Rattle.session_core.specs.Core.{tables_in, IsCore};
ghost use Rattle.session_core.specs.Steps.{IsBehind, ForSome, told_second, place_told, IsStartedIfOver, IsStartedByName};

use crate::laws::telling_law;
use crate::steps::Core;
use avm_code::BlockName;
use machine_world::{Moved, Ready};
use session_agenda::{PlaceUpdate, Task, Update};
use session_book::{Ending, State};

impl Core {
    /// The agenda is told what a block can do next, and another, if there is one, and of a place; but
    /// nothing once the session isn't open.
    pub(crate) fn tell(
        &mut self,
        first: BlockName,
        second: Option<BlockName>,
        place: Option<PlaceUpdate>,
    )
        requires { ForSome (λ session keys places core. IsBehind session keys places first second place core) self.old }
        ensures core { (session : Session) (keys : List (List ℕ × List ℕ)) (places : List (List ℕ)) →
            IsBehind session keys places first second place self.old → IsCore session keys places self.new }
        ensures rest { self.new ≡ record self.old { agenda = self.new.agenda } }
    {
        match self.book.state() {
            State::Open => self.tell_now(first, second, place),
            State::Done => {}
            State::Failed => {}
            State::Starved => {}
        }
    }

    /// The same, where the session is open.
    fn tell_now(&mut self, first: BlockName, second: Option<BlockName>, place: Option<PlaceUpdate>)
        requires behind { ForSome (λ session keys places core. IsBehind session keys places first second place core) self.old }
        requires opened { self.old.book.ending ≡ Ending.Open }
        ensures core { (session : Session) (keys : List (List ℕ × List ℕ)) (places : List (List ℕ)) →
            IsBehind session keys places first second place self.old → IsCore session keys places self.new }
        ensures rest { self.new ≡ record self.old { agenda = self.new.agenda } }
    {
        telling_law();
        let one = self.update(first);
        match second {
            None => self.agenda.follow(&[one], place),
            Some(second) => {
                let other = self.update(second);
                self.agenda.follow(&[one, other], place);
            }
        }
    }

    /// The block that starts by what a block did, or that waits for it if it ended.
    pub(crate) fn second(&self, name: BlockName, moved: &Moved) -> Option<BlockName>
        requires world { IsWorldForSome self.now.world }
        requires started { IsStartedIfOver name moved.now self.now.world }
        ensures { (places : List (List ℕ)) (instr : Instr) → DidNext places moved.now instr →
            told_second result ≡ touched_by self.now.world.program (block_of name) instr }
    {
        match moved {
            Moved::Waits => None,
            Moved::Silent => None,
            Moved::Happened(_) => None,
            Moved::Sent { .. } => None,
            Moved::Forked(number) => Some(BlockName::Of(*number)),
            Moved::Ended(_) => self.waiter(name),
        }
    }

    fn waiter(&self, name: BlockName) -> Option<BlockName>
        requires world { IsWorldForSome self.now.world }
        requires started { IsStartedByName name self.now.world }
        ensures { told_second result ≡ waiting_block self.now.world.program (block_of name) }
    {
        match name {
            BlockName::Root => None,
            BlockName::Of(number) => Some(self.world.waiter(number)),
        }
    }

    /// What the agenda is told of a block.
    pub(crate) fn update(&self, name: BlockName) -> Update
        requires { IsWorldForSome self.now.world }
        ensures name { result.name ≡ name }
        ensures says { Says (next_of (tables_in self.now)) result }
    {
        Update {
            name,
            task: self.task(name),
        }
    }

    /// What a block can do next.
    fn task(&self, name: BlockName) -> Option<Task>
        requires { IsWorldForSome self.now.world }
        ensures { next_of (tables_in self.now) (block_of name) ≡ next_of_task result }
    {
        match self.world.next(name) {
            Ready::Waits => None,
            Ready::Runs(event) => Some(Task::Runs(event)),
            Ready::Asks(event) => self.task_of_ask(event),
        }
    }

    /// A block that waits for the answer of an event can ask for it, unless the ask is in flight.
    fn task_of_ask(&self, event: u32) -> Option<Task>
        ensures { next_unless (is_asked ((tables_in self.now).in_flight event)) event ≡ next_of_task result }
    {
        match self.book.flight(event) {
            None => Some(Task::Asks(event)),
            Some(_) => None,
        }
    }
}

/// What is told of a place after a block did this.
pub(crate) fn place_told(moved: &Moved) -> Option<PlaceUpdate>
    ensures { result ≡ place_told moved.now }
{
    match moved {
        Moved::Waits => None,
        Moved::Silent => None,
        Moved::Happened(_) => None,
        Moved::Sent { place, .. } => Some(PlaceUpdate {
            place: *place,
            waits: true,
        }),
        Moved::Forked(_) => None,
        Moved::Ended(_) => None,
    }
}
