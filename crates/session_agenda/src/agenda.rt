ghost use Rattle.std.specs.Prelude.{◌≡◌, ◌+◌, ◌≤◌, ◌<◌, ◌^◌, ℕ, true, false, None, Some, IfOk, IsTrue, Contains, ◌↔◌, length, nat_eq, slice_get, if◌then◌else◌};
ghost use Rattle.rising_list.specs.Rising.{find};
ghost use Rattle.machine_tables.specs.Tables.{same_name};
ghost use Rattle.session_runs.specs.Standing.{Block};
ghost use Rattle.session_tables.specs.Touched.{named};
ghost use Rattle.session_agenda.specs.Kept.{rank_by, task_by, next_of_task, next_by, waits_by, listed, deliveries_in, move_at, IsKept, HasRoomFor, IsFree, SameBounds};

use crate::moves::{Move, Mover, Task, can_ask, can_run, event_of, move_by, rank_if_any, rank_of};
use avm_code::BlockName;
use phrase_tree::NoMemory;
use rising_list::RisingList;
use std::alloc::Global;

/// The possible moves of a session, in their order: what each block can do next, and the places where a
/// request waits.
#[derive(Debug, Drop)]
pub struct Agenda {
    // What each block can do next, by the block's rank.
    blocks: RisingList<Task>,
    // Those without an event, by the block's rank.
    silent: RisingList<Mover>,
    // Those with an event, by the event.
    events: RisingList<Mover>,
    // The places, by their index.
    places: RisingList<bool>,
}

impl Agenda {
    /// An agenda in which no block can do anything, with room for the blocks and the events of so many
    /// numbers, and for so many places. No other call takes memory. An error is want of memory.
    pub fn open(alloc: Global, events: u32, places: u32) -> Result<Agenda, NoMemory>
        requires { events + 1 < 2 ^ 32 }
        ensures kept { IfOk result IsKept }
        ensures blocks { IfOk result (λ agenda. (block : Block) → next_by agenda block ≡ None) }
        ensures places { IfOk result (λ agenda. (place : ℕ) → waits_by agenda place ≡ false) }
        ensures room { IfOk result (λ agenda. (agenda.blocks.bound ≡ events + 1) × (agenda.events.bound ≡ events) × (agenda.places.bound ≡ places)) }
    {
        let blocks = RisingList::open(alloc, events + 1)?;
        let silent = RisingList::open(alloc, events + 1)?;
        let by_event = RisingList::open(alloc, events)?;
        let places = RisingList::open(alloc, places)?;
        Ok(Agenda {
            blocks,
            silent,
            events: by_event,
            places,
        })
    }

    /// A block that could do nothing can now do this, and no other block is marked for its event. Takes
    /// time in the logarithm of what is kept, beside the shift of the entries behind.
    pub fn mark(&mut self, name: BlockName, task: Task)
        requires kept { IsKept self.old }
        requires room { HasRoomFor self.old name task }
        requires idle { next_by self.old (named name) ≡ None }
        requires free { IsFree self.old task }
        ensures blocks { (block : Block) → next_by self.new block ≡ (if same_name (named name) block then next_of_task (Some task) else next_by self.old block) }
        ensures places { (place : ℕ) → waits_by self.new place ≡ waits_by self.old place }
        ensures kept { IsKept self.new }
        ensures bounds { SameBounds self.old self.new }
    {
        let rank = rank_of(name);
        self.blocks.insert(rank, task);
        match event_of(task) {
            None => self.silent.insert(rank, Mover { name, task }),
            Some(event) => self.events.insert(event, Mover { name, task }),
        }
    }

    /// A block can do nothing now. Takes time in the logarithm of what is kept, beside the shift of the
    /// entries behind.
    pub fn unmark(&mut self, name: BlockName)
        requires { IsKept self.old }
        ensures blocks { (block : Block) → next_by self.new block ≡ (if same_name (named name) block then None else next_by self.old block) }
        ensures places { (place : ℕ) → waits_by self.new place ≡ waits_by self.old place }
        ensures kept { IsKept self.new }
        ensures bounds { SameBounds self.old self.new }
    {
        self.blocks.rises();
        match rank_if_any(name) {
            Some(rank) => self.unmark_at(name, rank),
            None => {}
        }
    }

    fn unmark_at(&mut self, name: BlockName, rank: u32)
        requires kept { IsKept self.old }
        requires rank { rank ≡ rank_by name }
        ensures blocks { (block : Block) → next_by self.new block ≡ (if same_name (named name) block then None else next_by self.old block) }
        ensures places { (place : ℕ) → waits_by self.new place ≡ waits_by self.old place }
        ensures kept { IsKept self.new }
        ensures bounds { SameBounds self.old self.new }
    {
        let Some(task) = self.blocks.remove(rank) else {
            return;
        };
        match event_of(task) {
            None => {
                self.silent.remove(rank);
            }
            Some(event) => {
                self.events.remove(event);
            }
        }
    }

    /// A request waits at the place of this index. Takes time in the logarithm of the places, beside the
    /// shift of the entries behind.
    pub fn mark_place(&mut self, place: u32)
        requires kept { IsKept self.old }
        requires room { place < self.old.places.bound }
        ensures places { (other : ℕ) → waits_by self.new other ≡ (if nat_eq place other then true else waits_by self.old other) }
        ensures blocks { (block : Block) → next_by self.new block ≡ next_by self.old block }
        ensures kept { IsKept self.new }
        ensures bounds { SameBounds self.old self.new }
    {
        match self.places.find(place) {
            None => self.places.insert(place, true),
            Some(_) => {}
        }
    }

    /// No request waits at the place of this index. Takes time in the logarithm of the places, beside the
    /// shift of the entries behind.
    pub fn unmark_place(&mut self, place: u32)
        requires kept { IsKept self.old }
        ensures places { (other : ℕ) → waits_by self.new other ≡ (if nat_eq place other then false else waits_by self.old other) }
        ensures blocks { (block : Block) → next_by self.new block ≡ next_by self.old block }
        ensures kept { IsKept self.new }
        ensures bounds { SameBounds self.old self.new }
    {
        self.places.remove(place);
    }

    /// The number of moves, in constant time.
    pub fn count(&self) -> u64
        ensures moves { result ≡ length (listed self.now) }
        ensures few { result ≤ self.now.places.bound + self.now.silent.bound + self.now.events.bound }
    {
        self.places.rises();
        self.silent.rises();
        self.events.rises();
        self.places.len() as u64 + self.silent.len() as u64 + self.events.len() as u64
    }

    /// The move of an index; none exactly when there are no more moves than that. Takes constant time.
    pub fn nth(&self, index: u32) -> Option<Move>
        ensures { result ≡ slice_get (listed self.now) index }
    {
        let places = self.places.len();
        if index < places {
            return self.delivery(index);
        }
        let silent = self.silent.len();
        if index - places < silent {
            return moved(self.silent.nth(index - places));
        }
        moved(self.events.nth(index - places - silent))
    }

    fn delivery(&self, index: u32) -> Option<Move>
        ensures { result ≡ slice_get (deliveries_in self.now.places.entries) index }
    {
        match self.places.nth(index) {
            Some(entry) => Some(Move::Deliver(entry.0)),
            None => None,
        }
    }

    /// What a block can do next; none exactly if nothing. Takes time in the logarithm of the blocks.
    pub fn task(&self, name: BlockName) -> Option<Task>
        requires { IsKept self.now }
        ensures { result ≡ task_by self.now (named name) }
    {
        self.blocks.rises();
        match rank_if_any(name) {
            Some(rank) => self.blocks.find(rank),
            None => None,
        }
    }

    /// Whether a move is possible. Takes time in the logarithm of what is kept.
    pub fn can(&self, asked: Move) -> bool
        requires { IsKept self.now }
        ensures { IsTrue result ↔ Contains (listed self.now) asked }
    {
        match asked {
            Move::Deliver(place) => self.waits(place),
            Move::Run(name) => can_run(self.task(name)),
            Move::Ask(name) => can_ask(self.task(name)),
        }
    }

    /// Whether no block is marked for the event of what a block can do next. Takes time in the logarithm
    /// of the events.
    pub fn is_free(&self, task: Task) -> bool
        requires { IsKept self.now }
        ensures { IsTrue result → IsFree self.now task }
    {
        match event_of(task) {
            None => true,
            Some(event) => self.has_no(event),
        }
    }

    fn has_no(&self, event: u32) -> bool
        ensures { IsTrue result → find event self.now.events.entries ≡ None }
    {
        self.events.find(event).is_none()
    }

    /// Whether a request waits at the place of an index. Takes time in the logarithm of the places.
    pub fn waits(&self, place: u32) -> bool
        ensures { result ≡ waits_by self.now place }
    {
        self.places.find(place).is_some()
    }
}

/// The move of an entry, where there is one.
fn moved(entry: Option<(u32, Mover)>) -> Option<Move>
    ensures { result ≡ move_at entry }
{
    match entry {
        Some(entry) => Some(move_by(entry.1)),
        None => None,
    }
}
