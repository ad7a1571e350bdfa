//! A session over a bench of a table, played to its end.
ghost use Rattle.std.specs.Prelude.{◌≡◌};

use crate::fixture::{NONCE, OF_PARALLEL, bank_and_q, checked, two_arms};
use avm_code::BlockName;
use bench_trait::{ArtefactBook, Bench, BenchFault, TableBench, TableResult, TableRow};
use evidence_types::{Answer, Answers};
use session_book::{Move, State};
use session_core::{PlayError, Played, RecordError, Session};
use session_model::Record;
use std::alloc::Global;
use std::process::Abort;
use std::test::Fail;

/// What came of a move, and of the measurement if it asks for one.
#[derive(Clone, Copy)]
enum Came {
    Refused,
    Moved,
    Recorded,
    Ended,
}

/// Makes a move by pass 0, and records what the bench gives to the question if it asks one.
fn goes_on<'a, B: Bench>(
    session: &mut Session<'a, B>,
    artefacts: &ArtefactBook,
    bench: &B,
    step: Move,
) -> Came
    requires artefacts { session.old.opening.artefacts.now ≡ artefacts.now }
    requires bench { session.old.opening.bench.now ≡ bench.now }
    ensures artefacts { session.new.opening.artefacts.now ≡ artefacts.now }
    ensures bench { session.new.opening.bench.now ≡ bench.now }
{
    session.legal();
    match session.play(0, step) {
        Ok(Played::Moved) => Came::Moved,
        Ok(Played::Asked(ask)) => {
            session.legal();
            let measured = bench.measure(artefacts, &ask);
            match session.record(0, ask.event, measured) {
                Ok(()) => Came::Recorded,
                Err(RecordError::Ended) => Came::Ended,
            }
        }
        Err(PlayError::NotNow) => Came::Refused,
    }
}

/// Makes the first of the possible moves, until there is none. How many were made.
fn runs<'a, B: Bench>(session: &mut Session<'a, B>, artefacts: &ArtefactBook, bench: &B) -> u32
    requires artefacts { session.old.opening.artefacts.now ≡ artefacts.now }
    requires bench { session.old.opening.bench.now ≡ bench.now }
{
    for made in 0..64 {
        match session.nth_move(0) {
            Some(step) => {
                let _ = goes_on(session, artefacts, bench, step);
            }
            None => return made,
        }
    }
    64
}

fn answer(rt: &impl Abort, byte: u8) -> Answer {
    Answer::of(&[byte]).expect(rt, "an answer")
}

fn row(event: u32, outcome: TableResult) -> TableRow {
    TableRow {
        nonce: NONCE,
        event,
        outcome,
    }
}

/// A bench that answers one event, and says this of another.
fn table(rt: &impl Abort, alloc: Global, of_two: TableResult) -> Result<TableBench, Fail> {
    let mut rows = Vec::new(alloc);
    rows.push(row(1, TableResult::Answer(answer(rt, 1))))?;
    rows.push(row(2, of_two))?;
    Ok(TableBench::of(rows))
}

fn is_just_opened<'a, B: Bench>(session: &Session<'a, B>) -> bool {
    session.state() == State::Open
        && session.move_count() == 1
        && session.nth_move(0) == Some(Move::Run(BlockName::Root))
        && !session.can(&Move::Run(BlockName::Of(0)))
}

fn is_over<'a, B: Bench>(session: &Session<'a, B>, entries: u32) -> bool {
    session.state() == State::Done
        && session.asked_count() == 0
        && session.nth_asked(0).is_none()
        && session.entry_count() == entries
        && *session.nonce() == NONCE
}

fn has_entries<'a, B: Bench>(session: &Session<'a, B>, entries: u32) -> bool {
    session.nth_entry(entries.wrapping_sub(1)).is_some() && session.nth_entry(entries).is_none()
}

/// Whether these are the answers, each of one byte.
fn are_answers(found: &Answers, wanted: &[(u32, u8)]) -> bool {
    let mut same = found.items().len() == wanted.len();
    for ((event, answer), (number, byte)) in found.items().iter().zip(wanted) {
        same = same && event == number && answer.bytes() == [*byte].as_slice();
    }
    same
}

fn is_done<'a, B: Bench>(session: &Session<'a, B>) -> bool {
    match session.outcome() {
        Ok(Record::Done(found)) => {
            found.trace.items() == [0, 1, 2, 3].as_slice()
                && are_answers(&found.answers, &[(1, 1), (2, 2)])
                && found.bundle.items() == OF_PARALLEL
        }
        Ok(Record::Failed(_record)) => false,
        Err(_error) => false,
    }
}

fn has_failed<'a, B: Bench>(session: &Session<'a, B>, fault: BenchFault) -> bool {
    match session.outcome() {
        Ok(Record::Failed(found)) => {
            found.event == 2 && found.fault == fault && found.trace.items() == [0, 1].as_slice()
        }
        Ok(Record::Done(_record)) => false,
        Err(_error) => false,
    }
}

#[test]
fn a_session_is_run_to_its_record(rt: HostRuntime) -> Result<(), Fail> {
    let alloc = rt.alloc();
    let places = bank_and_q(&rt, alloc)?;
    let checked = checked(&rt, &places, "bank", NONCE, two_arms(&rt, alloc, true)?)?;
    let artefacts = ArtefactBook::empty(alloc);
    let bench = table(&rt, alloc, TableResult::Answer(answer(&rt, 2)))?;
    let mut session = Session::open(alloc, &checked, &places, &artefacts, &bench)?;
    assert!(rt; is_just_opened(&session));
    assert_eq!(rt; runs(&mut session, &artefacts, &bench), 6);
    assert!(rt; is_over(&session, 9));
    assert!(rt; has_entries(&session, 9));
    assert!(rt; is_done(&session));
    Ok(())
}

#[test]
fn a_session_fails_with_its_bench(rt: HostRuntime) -> Result<(), Fail> {
    let alloc = rt.alloc();
    let places = bank_and_q(&rt, alloc)?;
    let checked = checked(&rt, &places, "bank", NONCE, two_arms(&rt, alloc, true)?)?;
    let fault = BenchFault::Broken(7);
    let artefacts = ArtefactBook::empty(alloc);
    let bench = table(&rt, alloc, TableResult::Fault(fault))?;
    let mut session = Session::open(alloc, &checked, &places, &artefacts, &bench)?;
    assert_eq!(rt; runs(&mut session, &artefacts, &bench), 3);
    assert!(rt; has_failed(&session, fault));
    Ok(())
}
