ghost use Rattle.std.specs.Prelude.{◌≡◌, ◌<◌, ◌≤◌, true, false, IfOk, length};
ghost use Rattle.phrase_tree.specs.Term.{term, par, chain};
ghost use Rattle.phrase_tree.specs.Numbering.{IsSized};
ghost use Rattle.place_check.specs.Session.{IsCheckedAgainst, session_of};
ghost use Rattle.session_desk.specs.Opening.{AreJustOpened, AreOpenedOver};

use super::*;
use bench_trait::{ArtefactBook, Ask, Bench, BenchFault, MeasureError};
use evidence_types::Answer;
use phrase_tree::{Args, Asp, Name, Names, NoMemory, Phrase, Split};
use place_check::{Checked, PlaceEntry, Places, check};
use seal_hmac::Key;
use session_core::Session;
use session_desk::Desk;
use session_model::Record;
use std::alloc::Global;
use std::process::Abort;
use std::sync::Wait;
use std::sync::atomic::{AtomicU64, Ordering};
use std::test::Fail;
use std::thread;
use std::thread::Threads;

const NONCE: [u8; 16] = [0, 1, 2, 3, 4, 5, 6, 7, 8, 9, 10, 11, 12, 13, 14, 15];

/// A bench that counts its asks. It holds its answer to one event until so many asks have come, or it
/// fails at each, or it has no memory for the one of this number, from 0.
#[derive(Drop)]
struct Meeting {
    asks: AtomicU64,
    held: u32,
    wanted: u64,
    fails: bool,
    starved: Option<u64>,
}

impl Meeting {
    fn of(held: u32, wanted: u64) -> Meeting {
        Meeting {
            asks: AtomicU64::new(0),
            held,
            wanted,
            fails: false,
            starved: None,
        }
    }

    fn failing() -> Meeting {
        Meeting {
            asks: AtomicU64::new(0),
            held: 0,
            wanted: 0,
            fails: true,
            starved: None,
        }
    }

    fn starving(ask: u64) -> Meeting {
        Meeting {
            asks: AtomicU64::new(0),
            held: 0,
            wanted: 0,
            fails: false,
            starved: Some(ask),
        }
    }

    /// Polls until so many asks have come; false where they don't come.
    fn meets(&self) -> bool {
        for _ in 0..1_000_000_000u32 {
            if self.asks.load(Ordering::SeqCst) >= self.wanted {
                return true;
            }
            thread::yield_now();
        }
        false
    }
}

impl Bench for Meeting {
    ghost gives = { λ bench artefacts ask bytes. Unit {0} };

    ghost fails = { λ bench artefacts ask fault. Unit {0} };

    ghost starves = { λ bench artefacts ask. Unit {0} };

    fn measure(&self, artefacts: &ArtefactBook, ask: &Ask) -> Result<Answer, MeasureError> {
        let _ = artefacts;
        let asked = self.asks.fetch_add(1, Ordering::SeqCst);
        if self.starved == Some(asked) {
            return Err(MeasureError::NoMemory);
        }
        if self.fails {
            return Err(MeasureError::Fault(BenchFault::Broken(7)));
        }
        if ask.event == self.held && !self.meets() {
            return Err(MeasureError::Fault(BenchFault::Broken(1)));
        }
        match Answer::of(&ask.event.to_be_bytes()) {
            Some(answer) => Ok(answer),
            None => Err(MeasureError::Fault(BenchFault::Broken(2))),
        }
    }
}

fn name(rt: &impl Abort, text: &str) -> Name {
    Name::read(text).expect(rt, "a name")
}

fn asp(rt: &impl Abort, text: &str) -> Asp {
    Asp {
        name: name(rt, text),
        args: Args::none(),
    }
}

/// The place `bank`, which offers what the tests measure.
fn bank(rt: &impl Abort, alloc: Global) -> Result<Places, Fail> {
    let mut offers = Vec::new(alloc);
    offers.push(name(rt, "a"))?;
    offers.push(name(rt, "b"))?;
    offers.push(name(rt, "scan"))?;
    let mut entries = Vec::new(alloc);
    entries.push(PlaceEntry {
        name: name(rt, "bank"),
        key: Key::read(&[1; 16]).expect(rt, "a key"),
        asks: Names::of(Vec::new(alloc)),
        sees: Names::of(Vec::new(alloc)),
        offers: Names::of(offers),
    })?;
    Ok(Places::of(alloc, entries)?)
}

/// `USM a`.
fn one(rt: &impl Abort, alloc: Global) -> Result<Phrase, NoMemory>
    ensures { IfOk result (λ phrase. IsSized (term phrase)) }
{
    Phrase::usm(alloc, asp(rt, "a"))
}

/// Both arms of a branch run, the left on what stands before it, the right on nothing.
fn in_parallel(alloc: Global, left: Phrase, right: Phrase) -> Result<Phrase, NoMemory>
    ensures { IfOk result (λ phrase. term phrase ≡ par (record { left = true; right = false }) (term left) (term right)) }
{
    let split = Split {
        left: true,
        right: false,
    };
    Ok(Phrase::Par(split, Box::new(alloc, left)?, Box::new(alloc, right)?))
}

/// `USM a +~- USM b`.
fn two_arms(rt: &impl Abort, alloc: Global) -> Result<Phrase, NoMemory>
    ensures { IfOk result (λ phrase. IsSized (term phrase)) }
{
    let left = Phrase::usm(alloc, asp(rt, "a"))?;
    let right = Phrase::usm(alloc, asp(rt, "b"))?;
    in_parallel(alloc, left, right)
}

/// `USM a +~- USM b -> USM scan`, where the right arm is the chain.
fn longer_arm(rt: &impl Abort, alloc: Global) -> Result<Phrase, NoMemory>
    ensures { IfOk result (λ phrase. IsSized (term phrase)) }
{
    let left = Phrase::usm(alloc, asp(rt, "a"))?;
    let second = Phrase::usm(alloc, asp(rt, "b"))?;
    let third = Phrase::usm(alloc, asp(rt, "scan"))?;
    let right = chained(alloc, second, third)?;
    in_parallel(alloc, left, right)
}

fn chained(alloc: Global, first: Phrase, second: Phrase) -> Result<Phrase, NoMemory>
    ensures { IfOk result (λ phrase. term phrase ≡ chain (term first) (term second)) }
{
    Ok(Phrase::Then(Box::new(alloc, first)?, Box::new(alloc, second)?))
}

/// A phrase at the root `bank`, checked.
fn checked(rt: &impl Abort, places: &Places, phrase: Phrase) -> Result<Checked, Fail>
    requires { IsSized (term phrase) }
    ensures { IfOk result (λ checked. IsCheckedAgainst (session_of checked) places.now) }
{
    let root = name(rt, "bank");
    let Some(_) = places.find(root) else {
        return Err(Fail::from("no root"));
    };
    match check(places, root, NONCE, phrase) {
        Ok(checked) => Ok(checked),
        Err(_) => Err(Fail::from("a refused phrase")),
    }
}

/// So many sessions of one phrase, just opened.
fn opened<'a, B: Bench>(
    alloc: Global,
    checked: &'a Checked,
    places: &'a Places,
    artefacts: &'a ArtefactBook,
    bench: &'a B,
    count: u32,
) -> Result<Vec<Session<'a, B>>, NoMemory>
    requires { IsCheckedAgainst (session_of checked.now) places.now }
    ensures count { IfOk result (λ sessions. length sessions.items ≡ count) }
    ensures just { IfOk result (λ sessions. AreJustOpened sessions.items) }
    ensures over { IfOk result (λ sessions. AreOpenedOver bench.now artefacts.now sessions.items) }
{
    let mut sessions = Vec::new(alloc);
    for _ in 0..count {
        let session = match Session::open(alloc, checked, places, artefacts, bench) {
            Ok(session) => session,
            Err(short) => return Err(short),
        };
        match sessions.push(session) {
            Ok(()) => {}
            Err(_) => return Err(NoMemory),
        }
    }
    Ok(sessions)
}

/// The records of sessions, by so many workers.
fn ran<'a, R: Threads + Wait + Sync, B: Bench + Sync>(
    rt: &R,
    alloc: Global,
    sessions: Vec<Session<'a, B>>,
    artefacts: &ArtefactBook,
    bench: &B,
    workers: u32,
) -> Result<Vec<Record>, NoMemory>
    requires count { length sessions.items ≤ 4294967295 }
    requires just { AreJustOpened sessions.items }
    requires over { AreOpenedOver bench.now artefacts.now sessions.items }
    requires workers { (0 < workers) × (workers < 100) }
{
    workers_law(bench, artefacts);
    match Desk::open(alloc, sessions, workers + 1) {
        Ok((desk, mut passes)) => match passes.pop() {
            Some(mut closer) => run(
                rt,
                alloc,
                &desk,
                artefacts,
                bench,
                passes.as_mut_slice(),
                &mut closer,
            ),
            None => Err(NoMemory),
        },
        Err(short) => Err(short),
    }
}

/// What so many workers make of so many sessions of one phrase.
fn tried<R: Threads + Wait + Sync + Abort>(
    rt: &R,
    alloc: Global,
    phrase: Phrase,
    bench: &Meeting,
    sessions: u32,
    workers: u32,
) -> Result<Result<Vec<Record>, NoMemory>, Fail>
    requires sized { IsSized (term phrase) }
    requires workers { (0 < workers) × (workers < 100) }
{
    let places = bank(rt, alloc)?;
    let checked = checked(rt, &places, phrase)?;
    let artefacts = ArtefactBook::empty(alloc);
    let sessions = opened(alloc, &checked, &places, &artefacts, bench, sessions)?;
    Ok(ran(rt, alloc, sessions, &artefacts, bench, workers))
}

/// The records of so many sessions of one phrase, by so many workers.
fn records<R: Threads + Wait + Sync + Abort>(
    rt: &R,
    alloc: Global,
    phrase: Phrase,
    bench: &Meeting,
    sessions: u32,
    workers: u32,
) -> Result<Vec<Record>, Fail>
    requires sized { IsSized (term phrase) }
    requires workers { (0 < workers) × (workers < 100) }
{
    Ok(tried(rt, alloc, phrase, bench, sessions, workers)??)
}

/// Whether a session is done with one of these traces.
fn is_done(found: &Record, traces: &[&[u32]]) -> bool {
    match found {
        Record::Done(done) => traces.iter().any(|trace| done.trace.items() == *trace),
        Record::Failed(_) => false,
    }
}

#[test]
fn two_workers_measure_at_once(rt: HostRuntime) -> Result<(), Fail> {
    let alloc = rt.alloc();
    // the asks of two sessions, of two arms, and of an arm and what follows in the other
    let sessions = records(&rt, alloc, one(&rt, alloc)?, &Meeting::of(0, 2), 2, 2)?;
    assert_eq!(rt; sessions.len(), 2);
    assert!(rt; is_done(&sessions[0], &[&[0]]) && is_done(&sessions[1], &[&[0]]));
    let arms = records(&rt, alloc, two_arms(&rt, alloc)?, &Meeting::of(1, 2), 1, 2)?;
    assert_eq!(rt; arms.len(), 1);
    assert!(rt; is_done(&arms[0], &[&[0, 1, 2, 3], &[0, 2, 1, 3]]));
    let longer = records(
        &rt,
        alloc,
        longer_arm(&rt, alloc)?,
        &Meeting::of(1, 3),
        1,
        2,
    )?;
    assert_eq!(rt; longer.len(), 1);
    assert!(rt; is_done(&longer[0], &[&[0, 2, 1, 3, 4], &[0, 2, 3, 1, 4]]));
    Ok(())
}

#[test]
fn sixteen_workers_ask_as_often_as_there_are_measurements(rt: HostRuntime) -> Result<(), Fail> {
    let alloc = rt.alloc();
    let bench = Meeting::of(0, 0);
    let found = records(&rt, alloc, two_arms(&rt, alloc)?, &bench, 200, 16)?;
    assert_eq!(rt; found.len(), 200);
    for record in &found {
        assert!(rt; is_done(record, &[&[0, 1, 2, 3], &[0, 2, 1, 3]]));
    }
    assert_eq!(rt; bench.asks.load(Ordering::SeqCst), 400);
    Ok(())
}

#[test]
fn every_ask_fails(rt: HostRuntime) -> Result<(), Fail> {
    let alloc = rt.alloc();
    let bench = Meeting::failing();
    let found = records(&rt, alloc, one(&rt, alloc)?, &bench, 256, 16)?;
    assert_eq!(rt; found.len(), 256);
    for record in &found {
        assert!(rt; has_failed(record, 0, BenchFault::Broken(7)));
    }
    assert_eq!(rt; bench.asks.load(Ordering::SeqCst), 256);
    Ok(())
}

// The first ask, one in the middle, or the last has no memory; every other session is asked all the same.
#[test]
fn one_ask_starves(rt: HostRuntime) -> Result<(), Fail> {
    let alloc = rt.alloc();
    for ask in [0, 100, 255] {
        let bench = Meeting::starving(ask);
        let found = tried(&rt, alloc, one(&rt, alloc)?, &bench, 256, 16)?;
        assert!(rt; found.is_err(), "at {ask}");
        assert_eq!(rt; bench.asks.load(Ordering::SeqCst), 256, "at {ask}");
    }
    Ok(())
}

/// Whether a session failed at this event, before any other came.
fn has_failed(found: &Record, event: u32, fault: BenchFault) -> bool {
    match found {
        Record::Failed(failed) => {
            failed.event == event && failed.fault == fault && failed.trace.items().is_empty()
        }
        Record::Done(_) => false,
    }
}
