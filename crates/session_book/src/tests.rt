ghost use Rattle.std.specs.Prelude.{◌≡◌, ◌<◌, [], IsTrue, IfOk};
ghost use Rattle.session_book.specs.Kept.{answers_of, IsKept, IsNotInFlight, IsRoomy, HasEntryRoom, HasTraceRoom};

use super::*;
use avm_code::BlockName;
use bench_trait::BenchFault;
use evidence_types::Answer;
use machine_world::Moved;
use phrase_tree::NoMemory;
use std::alloc::Global;
use std::process::Abort;
use std::test::Fail;

const ROOT: BlockName = BlockName::Root;

const ZERO: BlockName = BlockName::Of(0);

/// A book with room for four events and two answers.
fn four_events(alloc: Global) -> Result<SessionBook, NoMemory>
    ensures kept { IfOk result IsKept }
    ensures room { IfOk result (IsRoomy 4 2) }
    ensures answers { IfOk result (λ book. answers_of book ≡ []) }
{
    SessionBook::open(alloc, 4, 2)
}

fn can_enter(book: &SessionBook) -> bool
    requires { IsRoomy 4 2 book.now }
    ensures { IsTrue result → HasEntryRoom book.now }
{
    book.entry_count() < 10
}

fn can_happen(book: &SessionBook) -> bool
    requires { IsRoomy 4 2 book.now }
    ensures { IsTrue result → HasTraceRoom book.now }
{
    match book.trace() {
        Ok(trace) => trace.items().len() < 4,
        Err(_) => false,
    }
}

fn is_free(book: &SessionBook, event: u32) -> bool
    ensures { IsTrue result → IsNotInFlight book.now event }
{
    match book.flight(event) {
        Some(_) => false,
        None => true,
    }
}

/// A block asks, of an event that isn't in flight.
fn asks_now(book: &mut SessionBook, pass: u32, name: BlockName, event: u32)
    requires kept { IsKept book.old }
    requires room { IsRoomy 4 2 book.old }
    requires entry { HasEntryRoom book.old }
    requires event { event < 4 }
    requires free { IsNotInFlight book.old event }
    ensures kept { IsKept book.new }
    ensures room { IsRoomy 4 2 book.new }
    ensures answers { answers_of book.new ≡ answers_of book.old }
{
    book.ask(pass, name, event);
}

/// The same; false if the event is in flight, or the book has no room.
fn asks(book: &mut SessionBook, pass: u32, name: BlockName, event: u32) -> bool
    requires kept { IsKept book.old }
    requires room { IsRoomy 4 2 book.old }
    requires event { event < 4 }
    ensures kept { IsKept book.new }
    ensures room { IsRoomy 4 2 book.new }
    ensures answers { answers_of book.new ≡ answers_of book.old }
{
    if !can_enter(book) {
        return false;
    }
    if !is_free(book, event) {
        return false;
    }
    asks_now(book, pass, name, event);
    true
}

/// A block goes on, and an event happens.
fn happens_now(book: &mut SessionBook, pass: u32, name: BlockName, event: u32)
    requires kept { IsKept book.old }
    requires room { IsRoomy 4 2 book.old }
    requires entry { HasEntryRoom book.old }
    requires trace { HasTraceRoom book.old }
    ensures kept { IsKept book.new }
    ensures room { IsRoomy 4 2 book.new }
{
    book.run(pass, name, Moved::Happened(event));
}

/// The same; false if the book has no room.
fn happens(book: &mut SessionBook, pass: u32, name: BlockName, event: u32) -> bool
    requires kept { IsKept book.old }
    requires room { IsRoomy 4 2 book.old }
    ensures kept { IsKept book.new }
    ensures room { IsRoomy 4 2 book.new }
{
    if !can_enter(book) {
        return false;
    }
    if !can_happen(book) {
        return false;
    }
    happens_now(book, pass, name, event);
    true
}

/// The first answer comes.
fn answer_comes(book: &mut SessionBook, pass: u32, event: u32, answer: Answer)
    requires kept { IsKept book.old }
    requires room { IsRoomy 4 2 book.old }
    requires entry { HasEntryRoom book.old }
    requires trace { HasTraceRoom book.old }
    requires event { event < 4 }
    requires first { answers_of book.old ≡ [] }
    ensures kept { IsKept book.new }
    ensures room { IsRoomy 4 2 book.new }
{
    book.answer(pass, event, answer);
}

/// The same; false if the book has no room.
fn first_answer(book: &mut SessionBook, pass: u32, event: u32, answer: Answer) -> bool
    requires kept { IsKept book.old }
    requires room { IsRoomy 4 2 book.old }
    requires event { event < 4 }
    requires first { answers_of book.old ≡ [] }
    ensures kept { IsKept book.new }
    ensures room { IsRoomy 4 2 book.new }
{
    if !can_enter(book) {
        return false;
    }
    if !can_happen(book) {
        return false;
    }
    answer_comes(book, pass, event, answer);
    true
}

/// The measurement of an event fails; false if the book has no room.
fn fails(book: &mut SessionBook, pass: u32, event: u32) -> bool
    requires kept { IsKept book.old }
    requires room { IsRoomy 4 2 book.old }
{
    if !can_enter(book) {
        return false;
    }
    book.fail(pass, event, BenchFault::NoArtefact);
    true
}

fn asked(pass: u32, name: BlockName) -> Flight {
    Flight { pass, name }
}

/// Two asks are in flight, each by its pass, in the order of their events.
fn two_are_asked(rt: &impl Abort, book: &SessionBook) {
    assert_eq!(rt; book.flight_count(), 2);
    assert_eq!(rt; book.nth_flight(0), Some((1, asked(5, ZERO))));
    assert_eq!(rt; book.nth_flight(1), Some((3, asked(4, ROOT))));
    assert_eq!(rt; book.nth_flight(2), None);
    assert_eq!(rt; book.flight(3), Some(asked(4, ROOT)));
    assert_eq!(rt; book.flight(0), None);
}

fn has_trace(book: &SessionBook, events: &[u32]) -> bool {
    match book.trace() {
        Ok(trace) => trace.items() == events,
        Err(_) => false,
    }
}

/// Whether one answer is kept, of this event.
fn has_answer(book: &SessionBook, event: u32, bytes: &[u8]) -> bool
    requires { IsKept book.now }
{
    match book.answers() {
        Ok(answers) => match answers.items().first() {
            Some(first) => first.0 == event
                && first.1.bytes() == bytes
                && answers.items().len() == 1,
            None => false,
        },
        Err(_) => false,
    }
}

/// Whether the entry at an index is the answer of an event by a pass.
fn is_answered(book: &SessionBook, index: u32, by: u32, of: u32, bytes: &[u8]) -> bool
    requires { IsKept book.now }
{
    match book.nth_entry(index) {
        Some(
            Entry::Answered {
                pass,
                event,
                answer,
            },
        ) => pass == by && event == of && answer.bytes() == bytes,
        _ => false,
    }
}

/// The root's event happens, and two asks are made; the same ask isn't made again.
fn begins(rt: &impl Abort, book: &mut SessionBook)
    requires kept { IsKept book.old }
    requires room { IsRoomy 4 2 book.old }
    ensures kept { IsKept book.new }
    ensures room { IsRoomy 4 2 book.new }
    ensures answers { answers_of book.new ≡ answers_of book.old }
{
    assert_eq!(rt; book.state(), State::Open);
    assert_eq!(rt; book.entry_count(), 1);
    assert!(rt; asks(book, 4, ROOT, 3));
    assert!(rt; asks(book, 5, ZERO, 1));
    assert!(rt; !asks(book, 6, ZERO, 1));
    assert_eq!(rt; book.entry_count(), 3);
    two_are_asked(rt, book);
}

/// One ask is answered, which its event follows, and the other fails.
fn ends(rt: &impl Abort, book: &mut SessionBook, bytes: &[u8])
    requires kept { IsKept book.old }
    requires room { IsRoomy 4 2 book.old }
    requires first { answers_of book.old ≡ [] }
{
    let answer = Answer::of(bytes).expect(rt, "an answer");
    assert!(rt; first_answer(book, 5, 1, answer));
    assert_eq!(rt; book.flight(1), None);
    assert!(rt; happens(book, 7, ROOT, 2));
    assert!(rt; has_trace(book, &[1, 2]));
    assert!(rt; has_answer(book, 1, bytes));
    assert!(rt; is_answered(book, 3, 5, 1, bytes));
    assert!(rt; fails(book, 4, 3));
}

#[test]
fn a_book_keeps_what_happens_in_its_order(rt: HostRuntime) -> Result<(), Fail> {
    let mut book = four_events(rt.alloc())?;
    begins(&rt, &mut book);
    ends(&rt, &mut book, &[7, 0, 255]);
    assert_eq!(rt; book.state(), State::Failed);
    assert_eq!(rt; book.flight_count(), 0);
    assert_eq!(rt; book.entry_count(), 6);
    assert!(rt; has_trace(&book, &[1, 2]));
    Ok(())
}
