ghost use Rattle.std.specs.Prelude.{◌≡◌, ◌+◌, ◌<◌, ◌*◌, ◌^◌, ◌++◌, ◌∷◌, [], ℕ, List, Some, None, IfOk, IfSome, length, slice_get, slice_index_or, vec_capacity};
ghost use Rattle.std.specs.Option.{option_map};
ghost use Rattle.evidence_types.specs.Evidence.{Evidence};
ghost use Rattle.rising_list.specs.Rising.{find, inserted, RisesFrom};
ghost use Rattle.session_runs.specs.Standing.{run, ask, deliver, opened, played, answered, failed, starved, has_failed, has_starved};
ghost use Rattle.machine_tables.specs.Tables.{put_ask};
ghost use Rattle.machine_world.specs.Cells.{Book, opening_book, block_of, with_answer, book_after};
ghost use Rattle.session_book.specs.Entries.{entry_of, answer_in, entry_with, history_of};
ghost use Rattle.session_book.specs.Kept.{word_of, flight_of, asks_of, answers_of, book_of, IsKept, IsNotInFlight, IsUnanswered, IsRoomy, Keeps, HasEntryRoom, HasTraceRoom, HasAnswerRoom, CanNote, IsKnown, AreByEvent, answer_by, asked_book, stopped_book, ending_at};

use crate::entry::{Ending, Entry, Flight, Move, Note, State};
use avm_code::BlockName;
use bench_trait::BenchFault;
use evidence_store::EvId;
use evidence_types::{Answer, Answers};
use machine_world::Moved;
use phrase_tree::{NoMemory, Place, Trace};
use rising_list::RisingList;
use std::alloc::Global;

/// What a session keeps beside its machines.
#[derive(Debug, Drop)]
pub struct SessionBook {
    entries: Vec<Note>,
    // In the order in which they came, each with its event; and their indices by event.
    answers: Vec<(u32, Answer)>,
    indexed: RisingList<u32>,
    in_flight: RisingList<Flight>,
    trace: Vec<u32>,
    ending: Ending,
}

impl SessionBook {
    /// The book of a session just opened, with room for so many events and so many answers: for all
    /// entries that such a session can have. No other call takes memory but `trace` and `answers`. An
    /// error is want of memory.
    pub fn open(alloc: Global, events: u32, answers: u32) -> Result<SessionBook, NoMemory>
        ensures history { IfOk result (λ book. history_of book ≡ opened ∷ []) }
        ensures book { IfOk result (λ book. (values : List Evidence) → book_of values book ≡ opening_book) }
        ensures kept { IfOk result IsKept }
        ensures room { IfOk result (IsRoomy events answers) }
    {
        let mut entries = Vec::with_capacity(alloc, events as usize * 2 + 2)?;
        entries.push_reserved(Note::Opened);
        let kept = Vec::with_capacity(alloc, answers as usize)?;
        let indexed = RisingList::open(alloc, events)?;
        let in_flight = RisingList::open(alloc, events)?;
        let trace = Vec::with_capacity(alloc, events as usize)?;
        Ok(SessionBook {
            entries,
            answers: kept,
            indexed,
            in_flight,
            trace,
            ending: Ending::Open,
        })
    }

    /// A block went on, and did this, which isn't nothing. Takes constant time, as each change but of
    /// asks and answers does.
    pub fn run(&mut self, pass: u32, name: BlockName, moved: Moved)
        requires kept { IsKept self.old }
        requires room { HasEntryRoom self.old }
        requires moved { CanNote moved self.old }
        ensures history { history_of self.new ≡ history_of self.old ++ played pass (run (block_of name)) ∷ [] }
        ensures book { (values : List Evidence) → book_after values name moved (book_of values self.old) ≡ Some (book_of values self.new) }
        ensures keeps { Keeps self.old self.new }
    {
        self.note(Note::Ran { pass, name });
        self.add(name, moved);
    }

    /// The first request of a place was delivered.
    pub fn deliver(&mut self, pass: u32, place: Place)
        requires kept { IsKept self.old }
        requires room { HasEntryRoom self.old }
        ensures history { history_of self.new ≡ history_of self.old ++ played pass (deliver place) ∷ [] }
        ensures book { (values : List Evidence) → book_of values self.new ≡ book_of values self.old }
        ensures keeps { Keeps self.old self.new }
    {
        self.note(Note::Delivered { pass, place });
    }

    /// A block asked for the answer of an event, which isn't in flight. Takes time in the logarithm of
    /// the asks in flight, beside the shift of those behind it.
    pub fn ask(&mut self, pass: u32, name: BlockName, event: u32)
        requires kept { IsKept self.old }
        requires room { HasEntryRoom self.old }
        requires event { event < self.old.in_flight.bound }
        requires free { IsNotInFlight self.old event }
        ensures history { history_of self.new ≡ history_of self.old ++ played pass (ask (block_of name)) ∷ [] }
        ensures book { (values : List Evidence) → book_of values self.new ≡ asked_book event (Some (pass, block_of name)) (book_of values self.old) }
        ensures keeps { Keeps self.old self.new }
    {
        self.in_flight.rises();
        self.note(Note::Asked { pass, name });
        self.in_flight.insert(event, Flight { pass, name });
    }

    /// The answer of an event came, which has none yet; the event happens. Takes time in the logarithm
    /// of the answers, beside the shift of the indices behind it.
    pub fn answer(&mut self, pass: u32, event: u32, answer: Answer)
        requires kept { IsKept self.old }
        requires room { HasEntryRoom self.old }
        requires trace { HasTraceRoom self.old }
        requires answers { HasAnswerRoom self.old }
        requires event { event < self.old.indexed.bound }
        requires first { IsUnanswered self.old event }
        ensures history { history_of self.new ≡ history_of self.old ++ answered pass event answer ∷ [] }
        ensures book { (values : List Evidence) → book_of values self.new ≡ with_answer event answer (book_of values self.old) }
        ensures keeps { Keeps self.old self.new }
    {
        self.in_flight.rises();
        let at = self.put_answer(event, answer);
        self.note(Note::Answered { pass, at });
        self.in_flight.remove(event);
        self.trace.push_reserved(event);
    }

    /// The measurement of an event failed, and the session with it.
    pub fn fail(&mut self, pass: u32, event: u32, fault: BenchFault)
        requires kept { IsKept self.old }
        requires room { HasEntryRoom self.old }
        ensures history { history_of self.new ≡ history_of self.old ++ failed pass event fault ∷ [] }
        ensures book { (values : List Evidence) → book_of values self.new ≡ stopped_book event (has_failed event fault) (book_of values self.old) }
        ensures keeps { Keeps self.old self.new }
    {
        self.in_flight.rises();
        self.note(Note::Failed { pass, event, fault });
        self.in_flight.remove(event);
        self.ending = Ending::Failed { event, fault };
    }

    /// The bench had no memory for the measurement of an event, and the session goes no further.
    pub fn starve(&mut self, pass: u32, event: u32)
        requires kept { IsKept self.old }
        requires room { HasEntryRoom self.old }
        ensures history { history_of self.new ≡ history_of self.old ++ starved pass event ∷ [] }
        ensures book { (values : List Evidence) → book_of values self.new ≡ stopped_book event (has_starved event) (book_of values self.old) }
        ensures keeps { Keeps self.old self.new }
    {
        self.in_flight.rises();
        self.note(Note::Starved { pass, event });
        self.in_flight.remove(event);
        self.ending = Ending::Starved { event };
    }

    /// The ask of an event that is in flight; none exactly if none is. Takes time in the logarithm of
    /// the asks in flight.
    pub fn flight(&self, event: u32) -> Option<Flight>
        ensures { (values : List Evidence) → option_map flight_of result ≡ (book_of values self.now).in_flight event }
    {
        self.in_flight.find(event)
    }

    /// The number of asks in flight, in constant time.
    pub fn flight_count(&self) -> u32
        ensures { result ≡ length (asks_of self.now) }
    {
        self.in_flight.len()
    }

    /// The ask in flight at an index, by the order of their events; none exactly if there are no more
    /// than that. Takes constant time.
    pub fn nth_flight(&self, index: u32) -> Option<(u32, Flight)>
        ensures listed { option_map (λ entry. (entry.0, entry.1.pass)) result ≡ slice_get (asks_of self.now) index }
        ensures flies { IfSome result (λ entry. (values : List Evidence) → (book_of values self.now).in_flight entry.0 ≡ Some (flight_of entry.1)) }
    {
        self.in_flight.rises();
        self.in_flight.nth(index)
    }

    /// How the session stands, and what ended it.
    pub fn ending(&self) -> Ending
        ensures { result ≡ self.now.ending }
    {
        self.ending
    }

    /// How the session stands.
    pub fn state(&self) -> State
        ensures { result ≡ word_of self.now.ending }
    {
        match self.ending {
            Ending::Open => State::Open,
            Ending::Done(_) => State::Done,
            Ending::Failed { .. } => State::Failed,
            Ending::Starved { .. } => State::Starved,
        }
    }

    /// The number of entries, in constant time.
    pub fn entry_count(&self) -> usize
        ensures { result ≡ length (history_of self.now) }
    {
        self.entries.len()
    }

    /// The entry at an index; none exactly if there are no more than that. It copies an answer, and
    /// takes no memory.
    pub fn nth_entry(&self, index: u32) -> Option<Entry>
        requires { IsKept self.now }
        ensures { option_map entry_of result ≡ slice_get (history_of self.now) index }
    {
        match self.entries.get(index as usize).copied() {
            Some(note) => Some(self.entry(note)),
            None => None,
        }
    }

    /// The events that happened, in their order. An error is want of memory.
    pub fn trace(&self) -> Result<Trace, NoMemory>
        ensures { IfOk result (λ trace. (values : List Evidence) → trace ≡ (book_of values self.now).trace) }
    {
        let alloc = *self.trace.allocator();
        Ok(Trace::of(Vec::from_slice(alloc, &self.trace)?))
    }

    /// The answers, in the order of their events. An error is want of memory. Takes time linear in them.
    pub fn answers(&self) -> Result<Answers, NoMemory>
        requires { IsKept self.now }
        ensures { IfOk result (λ found. AreByEvent (answers_of self.now) found) }
    {
        self.indexed.rises();
        let alloc = *self.answers.allocator();
        let mut pairs = Vec::with_capacity(alloc, self.answers.len())?;
        for index in 0..self.indexed.len() {
            let pair = self.nth_answer(index);
            pairs.push(pair)?;
        }
        Ok(Answers::of(pairs))
    }

    /// What holds of the asks in flight of every book: they are in the order of their events.
    pub(crate) fn in_flight_rises(&self)
        ensures { RisesFrom 0 self.now.in_flight.entries }
    {
        self.in_flight.rises();
    }

    fn note(&mut self, note: Note)
        requires { HasEntryRoom self.old }
        ensures entries { self.new.entries.items ≡ self.old.entries.items ++ note ∷ [] }
        ensures capacity { vec_capacity self.new.entries ≡ vec_capacity self.old.entries }
        ensures rest { self.new ≡ record self.old { entries = self.new.entries } }
    {
        self.entries.push_reserved(note);
    }

    /// What a block did, beside the entry.
    fn add(&mut self, name: BlockName, moved: Moved)
        requires { CanNote moved self.old }
        ensures book { (values : List Evidence) → book_after values name moved (book_of values self.old) ≡ Some (book_of values self.new) }
        ensures capacity { vec_capacity self.new.trace ≡ vec_capacity self.old.trace }
        ensures rest { self.new ≡ record self.old { trace = self.new.trace; ending = self.new.ending } }
    {
        match moved {
            Moved::Waits => unreachable!(),
            Moved::Silent => {}
            Moved::Happened(event) => self.happen(event),
            Moved::Sent { event, .. } => self.happen(event),
            Moved::Forked(event) => self.happen(event),
            Moved::Ended(value) => self.end(name, value),
        }
    }

    fn happen(&mut self, event: u32)
        requires { HasTraceRoom self.old }
        ensures trace { self.new.trace.items ≡ self.old.trace.items ++ event ∷ [] }
        ensures capacity { vec_capacity self.new.trace ≡ vec_capacity self.old.trace }
        ensures rest { self.new ≡ record self.old { trace = self.new.trace } }
    {
        self.trace.push_reserved(event);
    }

    /// The session is done once its root is over.
    fn end(&mut self, name: BlockName, value: EvId)
        ensures { self.new ≡ record self.old { ending = ending_at name value self.old.ending } }
    {
        match name {
            BlockName::Root => self.ending = Ending::Done(value),
            BlockName::Of(_) => {}
        }
    }

    /// Keeps an answer, and gives its index.
    fn put_answer(&mut self, event: u32, answer: Answer) -> u32
        requires room { HasAnswerRoom self.old }
        requires counted { length self.old.answers.items ≡ length self.old.indexed.entries }
        requires few { self.old.indexed.bound < 2 ^ 32 }
        requires event { event < self.old.indexed.bound }
        requires free { find event self.old.indexed.entries ≡ None }
        ensures at { result ≡ length self.old.answers.items }
        ensures answers { self.new.answers.items ≡ self.old.answers.items ++ (event, answer) ∷ [] }
        ensures capacity { vec_capacity self.new.answers ≡ vec_capacity self.old.answers }
        ensures indexed { self.new.indexed.entries ≡ inserted event result self.old.indexed.entries }
        ensures bound { self.new.indexed.bound ≡ self.old.indexed.bound }
        ensures rest { self.new ≡ record self.old { answers = self.new.answers; indexed = self.new.indexed } }
    {
        self.indexed.rises();
        let at = self.answers.len() as u32;
        self.answers.push_reserved((event, answer));
        self.indexed.insert(event, at);
        at
    }

    /// The entry that is kept so.
    fn entry(&self, note: Note) -> Entry
        requires { IsKnown (length self.now.answers.items) note }
        ensures { entry_of result ≡ entry_with self.now.answers.items note }
    {
        match note {
            Note::Opened => Entry::Opened,
            Note::Ran { pass, name } => played(pass, Move::Run(name)),
            Note::Asked { pass, name } => played(pass, Move::Ask(name)),
            Note::Delivered { pass, place } => played(pass, Move::Deliver(place)),
            Note::Answered { pass, at } => self.answered(pass, at),
            Note::Failed { pass, event, fault } => Entry::Failed { pass, event, fault },
            Note::Starved { pass, event } => Entry::Starved { pass, event },
        }
    }

    fn answered(&self, pass: u32, at: u32) -> Entry
        requires { at < length self.now.answers.items }
        ensures { entry_of result ≡ entry_with self.now.answers.items (Note.Answered pass at) }
    {
        let pair = self.answer_at(at);
        Entry::Answered {
            pass,
            event: pair.0,
            answer: pair.1,
        }
    }

    /// A copy of the answer at an index, with its event.
    fn answer_at(&self, at: u32) -> (u32, Answer)
        requires { at < length self.now.answers.items }
        ensures { result ≡ answer_in self.now.answers.items at }
    {
        let pair = &self.answers[at as usize];
        (pair.0, pair.1.copy())
    }

    /// A copy of the answer at an index, with this event.
    fn paired(&self, event: u32, at: u32) -> (u32, Answer)
        requires { at < length self.now.answers.items }
        ensures { result ≡ answer_by self.now.answers.items (event, at) }
    {
        (event, self.answer_at(at).1)
    }

    /// A copy of the answer whose event stands at an index, among all events that have answers.
    fn nth_answer(&self, index: u32) -> (u32, Answer)
        requires kept { IsKept self.now }
        requires within { index < length self.now.indexed.entries }
        ensures { result ≡ answer_by self.now.answers.items (slice_index_or self.now.indexed.entries index (0, 0)) }
    {
        self.indexed.rises();
        match self.indexed.nth(index) {
            Some(entry) => self.paired(entry.0, entry.1),
            None => unreachable!(),
        }
    }
}

fn played(pass: u32, step: Move) -> Entry
    ensures { result ≡ Entry.Played pass step }
{
    Entry::Played { pass, step }
}
