//! A desk of one session, whose two passes take turns.
ghost use Rattle.std.specs.Prelude.{◌≡◌, ◌<◌, ◌≤◌, ℕ, Some, IfOk, length, slice_get};
ghost use Rattle.place_check.specs.Session.{IsCheckedAgainst, session_of};
ghost use Rattle.bench_trait.specs.declared.ask.Ask.{Ask as Question};
ghost use Rattle.session_desk.specs.declared.hand.Hand.{Hand};
ghost use Rattle.session_core.specs.declared.opened.Opened.{Opened};
ghost use Rattle.session_desk.specs.Views.{Known};
ghost use Rattle.session_desk.specs.Opening.{AreJustOpened, AreOpenedOver, IsFit};
ghost use Rattle.session_desk.specs.Answers.{IsHeld, IsQuestion, Hands};

use crate::fixture::{NONCE, artefact_of, bank_and_q, checked, measures, two_arms};
use bench_trait::{ArtefactBook, Ask, Bench, DigestBench};
use phrase_tree::NoMemory;
use place_check::{Checked, Places};
use session_core::Session;
use session_desk::{
    Desk, DeskError, Hand, Pass, Recorded, Turned, measured_law, opened_law, stays_law,
};
use session_model::Record;
use std::alloc::Global;
use std::sync::Wait;
use std::test::Fail;

/// A desk of one session, and its two passes.
#[derive(Drop)]
struct Table<'a, B: Bench> {
    desk: Desk<'a, B>,
    a: Pass<'a, B>,
    b: Pass<'a, B>,
}

/// One session, just opened.
fn one_session<'a, B: Bench>(
    alloc: Global,
    checked: &'a Checked,
    places: &'a Places,
    artefacts: &'a ArtefactBook,
    bench: &'a B,
) -> Result<Vec<Session<'a, B>>, NoMemory>
    requires { IsCheckedAgainst (session_of checked.now) places.now }
    ensures count { IfOk result (λ sessions. length sessions.items ≡ 1) }
    ensures just { IfOk result (λ sessions. AreJustOpened sessions.items) }
    ensures over { IfOk result (λ sessions. AreOpenedOver bench.now artefacts.now sessions.items) }
{
    let session = Session::open(alloc, checked, places, artefacts, bench)?;
    let mut sessions = Vec::with_capacity(alloc, 1)?;
    sessions.push_reserved(session);
    Ok(sessions)
}

/// A desk of these sessions, and so many passes of it.
pub(crate) fn seated<'a, B: Bench>(
    alloc: Global,
    sessions: Vec<Session<'a, B>>,
    many: u32,
    artefacts: &ArtefactBook,
    bench: &B,
) -> Result<(Desk<'a, B>, Vec<Pass<'a, B>>), NoMemory>
    requires some { 0 < many }
    requires few { length sessions.items ≤ 4294967295 }
    requires just { AreJustOpened sessions.items }
    requires over { AreOpenedOver bench.now artefacts.now sessions.items }
    ensures count { IfOk result (λ seated. length seated.0 ≡ length sessions.entry.items) }
    ensures fit { IfOk result (λ seated. (number : ℕ) (pass : Known (Opened B)) → slice_get seated.1.items number ≡ Some pass → IsFit bench.now artefacts.now seated.0 pass) }
{
    opened_law(bench, artefacts);
    match Desk::open(alloc, sessions, many) {
        Ok(seated) => Ok(seated),
        Err(short) => Err(short),
    }
}

/// The last of some passes, which is taken from them.
pub(crate) fn last<'a, B: Bench>(
    desk: &Desk<'a, B>,
    artefacts: &ArtefactBook,
    bench: &B,
    passes: &mut Vec<Pass<'a, B>>,
) -> Result<Pass<'a, B>, NoMemory>
    requires { (number : ℕ) (pass : Known (Opened B)) → slice_get passes.old.items number ≡ Some pass → IsFit bench.now artefacts.now desk.now pass }
    ensures fit { IfOk result (λ pass. IsFit bench.now artefacts.now desk.now pass) }
    ensures rest { (number : ℕ) (pass : Known (Opened B)) → slice_get passes.new.items number ≡ Some pass → IsFit bench.now artefacts.now desk.now pass }
{
    let _ = desk;
    let _ = artefacts;
    let _ = bench;
    match passes.pop() {
        Some(pass) => Ok(pass),
        None => Err(NoMemory),
    }
}

fn two_passes<'a, B: Bench>(
    alloc: Global,
    checked: &'a Checked,
    places: &'a Places,
    artefacts: &'a ArtefactBook,
    bench: &'a B,
) -> Result<Table<'a, B>, NoMemory>
    requires { IsCheckedAgainst (session_of checked.now) places.now }
    ensures desk { IfOk result (λ t. length t.desk ≡ 1) }
    ensures a { IfOk result (λ t. IsFit bench.now artefacts.now t.desk t.a) }
    ensures b { IfOk result (λ t. IsFit bench.now artefacts.now t.desk t.b) }
{
    let sessions = one_session(alloc, checked, places, artefacts, bench)?;
    let (desk, mut passes) = seated(alloc, sessions, 2, artefacts, bench)?;
    let b = last(&desk, artefacts, bench, &mut passes)?;
    let a = last(&desk, artefacts, bench, &mut passes)?;
    Ok(Table { desk, a, b })
}

/// Measures what a hand is for, and records it: whether it was kept.
pub(crate) fn records<'a, B: Bench, R: Wait>(
    rt: &R,
    desk: &Desk<'a, B>,
    artefacts: &ArtefactBook,
    bench: &B,
    pass: &mut Pass<'a, B>,
    ask: &Ask,
    hand: Hand,
) -> bool
    requires fit { IsFit bench.now artefacts.now desk.now pass.old }
    requires held { IsHeld pass.old hand }
    requires question { IsQuestion pass.old hand ask.now }
    ensures { IsFit bench.now artefacts.now desk.now pass.new }
{
    measured_law(bench, artefacts);
    let mut hand = hand;
    let mut measured = bench.measure(artefacts, ask);
    for _ in rt.forever() {
        match desk.record(pass, hand, measured) {
            Recorded::Kept => return true,
            Recorded::Ended => return false,
            Recorded::Busy(again, result) => {
                hand = again;
                measured = result;
            }
        }
    }
    unreachable!()
}

/// A turn at a session.
pub(crate) fn tries<'a, B: Bench>(
    desk: &Desk<'a, B>,
    artefacts: &ArtefactBook,
    bench: &B,
    pass: &mut Pass<'a, B>,
    session: u32,
) -> Turned
    requires fit { IsFit bench.now artefacts.now desk.now pass.old }
    requires range { session < length desk.now }
    ensures fit { IsFit bench.now artefacts.now desk.now pass.new }
    ensures hands { Hands result pass.new }
{
    let _ = artefacts;
    let _ = bench;
    desk.turn(session, pass)
}

/// The outcome of a session.
pub(crate) fn finds<'a, B: Bench>(
    desk: &Desk<'a, B>,
    artefacts: &ArtefactBook,
    bench: &B,
    pass: &mut Pass<'a, B>,
    session: u32,
) -> Result<Record, DeskError>
    requires fit { IsFit bench.now artefacts.now desk.now pass.old }
    requires range { session < length desk.now }
    ensures fit { IsFit bench.now artefacts.now desk.now pass.new }
    ensures held { (hand : Hand) → IsHeld pass.old hand → IsHeld pass.new hand }
    ensures question { (hand : Hand) (ask : Question) → IsQuestion pass.old hand ask → IsQuestion pass.new hand ask }
{
    let _ = artefacts;
    let _ = bench;
    stays_law::<B>();
    desk.outcome(session, pass)
}

/// A turn at a session, as a letter: what it was told, and of one that asks whether the result was kept.
pub(crate) fn turns<'a, B: Bench, R: Wait>(
    rt: &R,
    desk: &Desk<'a, B>,
    artefacts: &ArtefactBook,
    bench: &B,
    pass: &mut Pass<'a, B>,
    session: u32,
) -> char
    requires fit { IsFit bench.now artefacts.now desk.now pass.old }
    requires range { session < length desk.now }
    ensures { IsFit bench.now artefacts.now desk.now pass.new }
{
    match tries(desk, artefacts, bench, pass, session) {
        Turned::Moved => 'm',
        Turned::ToMeasure(ask, hand) => {
            if records(rt, desk, artefacts, bench, pass, &ask, hand) {
                'k'
            } else {
                'e'
            }
        }
        Turned::Waiting => 'w',
        Turned::Finished => 'f',
        Turned::Busy => 'b',
    }
}

/// What the two passes of a session `USM a` are told: one measures, and the other waits.
fn one_measures<'a, B: Bench, R: Wait>(
    rt: &R,
    table: Table<'a, B>,
    artefacts: &ArtefactBook,
    bench: &B,
) -> (bool, Option<u32>)
    requires desk { length table.desk ≡ 1 }
    requires a { IsFit bench.now artefacts.now table.desk table.a }
    requires b { IsFit bench.now artefacts.now table.desk table.b }
{
    let Table { desk, mut a, mut b } = table;
    match tries(&desk, artefacts, bench, &mut a, 0) {
        Turned::ToMeasure(ask, hand) => {
            let event = ask.event;
            let waits = turns(rt, &desk, artefacts, bench, &mut b, 0) == 'w';
            let open = finds(&desk, artefacts, bench, &mut b, 0).err()
                == Some(DeskError::NotFinished);
            let kept = records(rt, &desk, artefacts, bench, &mut a, &ask, hand);
            let moves = turns(rt, &desk, artefacts, bench, &mut b, 0) == 'm';
            let over = turns(rt, &desk, artefacts, bench, &mut b, 0) == 'f';
            let done = matches!(
                finds(&desk, artefacts, bench, &mut b, 0),
                Ok(Record::Done(_))
            );
            (waits && open && kept && moves && over && done, Some(event))
        }
        Turned::Moved => (false, None),
        Turned::Waiting => (false, None),
        Turned::Finished => (false, None),
        Turned::Busy => (false, None),
    }
}

#[test]
fn a_pass_waits_while_another_measures(rt: HostRuntime) -> Result<(), Fail> {
    let alloc = rt.alloc();
    let places = bank_and_q(&rt, alloc)?;
    let checked = checked(&rt, &places, "bank", NONCE, measures(&rt, alloc, "a")?)?;
    let artefacts = artefact_of(&rt, alloc, "bank", "a")?;
    let bench = DigestBench;
    let table = two_passes(alloc, &checked, &places, &artefacts, &bench)?;
    assert_eq!(rt; table.desk.session_count(), 1);
    let (told, event) = one_measures(&rt, table, &artefacts, &bench);
    assert!(rt; told);
    assert_eq!(rt; event, Some(0));
    Ok(())
}

/// What two passes of `USM a +~- USM b` are told: each measures an arm, the second fails, and then the
/// first one's result isn't kept any more.
fn one_fails<'a, B: Bench, R: Wait>(
    rt: &R,
    table: Table<'a, B>,
    artefacts: &ArtefactBook,
    bench: &B,
) -> (bool, Option<(u32, u32)>)
    requires desk { length table.desk ≡ 1 }
    requires a { IsFit bench.now artefacts.now table.desk table.a }
    requires b { IsFit bench.now artefacts.now table.desk table.b }
{
    let Table { desk, mut a, mut b } = table;
    let moved = turns(rt, &desk, artefacts, bench, &mut a, 0) == 'm';
    match tries(&desk, artefacts, bench, &mut a, 0) {
        Turned::ToMeasure(ask, hand) => {
            let (kept, other) = settles(rt, &desk, artefacts, bench, &mut b);
            let ended = !records(rt, &desk, artefacts, bench, &mut a, &ask, hand);
            let over = turns(rt, &desk, artefacts, bench, &mut a, 0) == 'f';
            let failed = matches!(
                finds(&desk, artefacts, bench, &mut a, 0),
                Ok(Record::Failed(_))
            );
            (
                moved && kept && ended && over && failed,
                Some((ask.event, other)),
            )
        }
        Turned::Moved => (false, None),
        Turned::Waiting => (false, None),
        Turned::Finished => (false, None),
        Turned::Busy => (false, None),
    }
}

/// A turn that is to ask, answered: whether the result was kept, and its event.
fn settles<'a, B: Bench, R: Wait>(
    rt: &R,
    desk: &Desk<'a, B>,
    artefacts: &ArtefactBook,
    bench: &B,
    pass: &mut Pass<'a, B>,
) -> (bool, u32)
    requires fit { IsFit bench.now artefacts.now desk.now pass.old }
    requires one { length desk.now ≡ 1 }
{
    match tries(desk, artefacts, bench, pass, 0) {
        Turned::ToMeasure(ask, hand) => {
            let kept = records(rt, desk, artefacts, bench, pass, &ask, hand);
            (kept, ask.event)
        }
        Turned::Moved => (false, 0),
        Turned::Waiting => (false, 0),
        Turned::Finished => (false, 0),
        Turned::Busy => (false, 0),
    }
}

#[test]
fn a_result_after_anothers_fault_is_dropped(rt: HostRuntime) -> Result<(), Fail> {
    let alloc = rt.alloc();
    let places = bank_and_q(&rt, alloc)?;
    let checked = checked(&rt, &places, "bank", NONCE, two_arms(&rt, alloc, true)?)?;
    let artefacts = artefact_of(&rt, alloc, "bank", "a")?;
    let bench = DigestBench;
    let table = two_passes(alloc, &checked, &places, &artefacts, &bench)?;
    let (told, events) = one_fails(&rt, table, &artefacts, &bench);
    assert!(rt; told);
    assert_eq!(rt; events, Some((1, 2)));
    Ok(())
}
