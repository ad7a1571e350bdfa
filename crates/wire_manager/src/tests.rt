ghost use Rattle.std.specs.Prelude.{◌≡◌, [], IfOk};
ghost use Rattle.phrase_tree.specs.Term.{term};
ghost use Rattle.phrase_tree.specs.Numbering.{IsSized};
ghost use Rattle.place_check.specs.Session.{IsCheckedAgainst, session_of};

use super::*;
use avm_code::BlockName;
use bench_trait::{ArtefactBook, Ask, Bench, BenchFault, MeasureError};
use byte_ports::Bytes;
use evidence_types::Answer;
use phrase_tree::{Args, Asp, Name, Names, NoMemory, Phrase, Split};
use place_check::{Checked, PlaceEntry, Places, check};
use seal_hmac::Key;
use session_core::{Move, Played, RecordError, Session, State};
use session_model::Record;
use std::alloc::Global;
use std::process::Abort;
use std::test::Fail;
use wire_frames::{Frame, FrameReader, NextFrame};

const NONCE: [u8; 16] = [0, 1, 2, 3, 4, 5, 6, 7, 8, 9, 10, 11, 12, 13, 14, 15];

/// A bench of which nothing is known, so that a test may record what it likes.
#[derive(Drop)]
struct AnyBench;

impl Bench for AnyBench {
    ghost gives = { λ bench artefacts ask bytes. Unit {0} };

    ghost fails = { λ bench artefacts ask fault. Unit {0} };

    ghost starves = { λ bench artefacts ask. Unit {0} };

    fn measure(&self, artefacts: &ArtefactBook, ask: &Ask) -> Result<Answer, MeasureError> {
        let _ = artefacts;
        let _ = ask;
        Err(MeasureError::NoMemory)
    }
}

fn name(rt: &impl Abort, text: &str) -> Name {
    Name::read(text).expect(rt, "a name")
}

fn names(rt: &impl Abort, alloc: Global, texts: &[&str]) -> Result<Names, NoMemory> {
    let mut found = Vec::new(alloc);
    for text in texts {
        found.push(name(rt, text))?;
    }
    Ok(Names::of(found))
}

/// The places `bank` and `q`, each of which may ask and see both, and offers `a`.
fn two_places(rt: &impl Abort, alloc: Global) -> Result<Places, Fail> {
    let mut entries = Vec::new(alloc);
    for (text, key) in [("bank", 1), ("q", 2)] {
        entries.push(PlaceEntry {
            name: name(rt, text),
            key: Key::read(&[key; 16]).expect(rt, "a key"),
            asks: names(rt, alloc, &["bank", "q"])?,
            sees: names(rt, alloc, &["bank", "q"])?,
            offers: names(rt, alloc, &["a"])?,
        })?;
    }
    assert!(rt; entries.len() == 2);
    Ok(Places::of(alloc, entries)?)
}

/// `@q [CPY]`.
fn copied_at_q(rt: &impl Abort, alloc: Global) -> Result<Phrase, NoMemory>
    ensures { IfOk result (λ phrase. IsSized (term phrase)) }
{
    Ok(Phrase::At(name(rt, "q"), Box::new(alloc, Phrase::Cpy)?))
}

/// `@q [USM a]`.
fn measured_at_q(rt: &impl Abort, alloc: Global) -> Result<Phrase, NoMemory>
    ensures { IfOk result (λ phrase. IsSized (term phrase)) }
{
    let asp = Asp {
        name: name(rt, "a"),
        args: Args::none(),
    };
    let body = Phrase::usm(alloc, asp)?;
    Ok(Phrase::At(name(rt, "q"), Box::new(alloc, body)?))
}

/// `@q [@bank [SIG]] +~+ @q [HSH]`.
fn three_requests(rt: &impl Abort, alloc: Global) -> Result<Phrase, NoMemory>
    ensures { IfOk result (λ phrase. IsSized (term phrase)) }
{
    let split = Split {
        left: true,
        right: true,
    };
    let inner = Phrase::At(name(rt, "bank"), Box::new(alloc, Phrase::Sig)?);
    let left = Phrase::At(name(rt, "q"), Box::new(alloc, inner)?);
    let right = Phrase::At(name(rt, "q"), Box::new(alloc, Phrase::Hsh)?);
    Ok(Phrase::Par(split, Box::new(alloc, left)?, Box::new(alloc, right)?))
}

/// A session of a phrase at the root `bank`.
fn checked_of(rt: &impl Abort, places: &Places, phrase: Phrase) -> Result<Checked, Fail>
    requires { IsSized (term phrase) }
    ensures { IfOk result (λ checked. IsCheckedAgainst (session_of checked) places.now) }
{
    let bank = name(rt, "bank");
    let Some(_) = places.find(bank) else {
        return Err(Fail::from("no root"));
    };
    match check(places, bank, NONCE, phrase) {
        Ok(checked) => Ok(checked),
        Err(_) => Err(Fail::from("a refused phrase")),
    }
}

fn opened<'a>(
    alloc: Global,
    checked: &'a Checked,
    places: &'a Places,
    artefacts: &'a ArtefactBook,
    bench: &'a AnyBench,
) -> Result<WireSession<'a, AnyBench>, NoMemory>
    requires { IsCheckedAgainst (session_of checked.now) places.now }
{
    let session = Session::open(alloc, checked, places, artefacts, bench)?;
    WireSession::open(alloc, session)
}

/// One ask is in flight, which is of this event.
fn expect_asked(rt: &impl Abort, wire: &WireSession<'_, AnyBench>, event: u32) {
    assert!(rt; wire.asked_count() == 1);
    match wire.nth_asked(0) {
        Some(ask) => assert!(rt; ask.event == event),
        None => assert!(rt; false, "no ask"),
    }
    assert!(rt; wire.nth_asked(1).is_none());
}

/// Makes a move that asks, and records what was measured; none if the move doesn't ask.
fn answer(
    rt: &impl Abort,
    wire: &mut WireSession<'_, AnyBench>,
    step: Move,
    measured: Result<Answer, MeasureError>,
) -> Option<Result<(), RecordError>> {
    wire.linked();
    match wire.play(3, step) {
        Ok(Played::Asked(ask)) => {
            wire.linked();
            expect_asked(rt, wire, ask.event);
            Some(wire.record(3, ask.event, measured))
        }
        Ok(Played::Moved) => None,
        Err(_) => None,
    }
}

/// The frame that was sent at an index.
fn frame_at(alloc: Global, wire: &WireSession<'_, AnyBench>, index: u32) -> Result<Frame, Fail> {
    let Some(bytes) = wire.nth_sent(index) else {
        return Err(Fail::from("nothing was sent there"));
    };
    let mut reader = FrameReader::open(alloc);
    reader.feed(bytes.items())?;
    match reader.next() {
        Ok(NextFrame::Whole(frame)) => Ok(frame),
        Ok(NextFrame::More) => Err(Fail::from("part of a frame")),
        Err(_) => Err(Fail::from("no frame")),
    }
}

/// Lets the frame arrive that was sent at an index.
fn arrive_at(
    alloc: Global,
    wire: &mut WireSession<'_, AnyBench>,
    index: u32,
) -> Result<Arrived, Fail> {
    let frame = frame_at(alloc, wire, index)?;
    Ok(wire.arrive(&frame)?)
}

/// Makes the first moves that are possible over links, while there are some.
fn play_on(rt: &impl Abort, wire: &mut WireSession<'_, AnyBench>) {
    for _ in 0..50 {
        let Some(step) = wire.nth_move(0) else {
            assert_eq!(rt; wire.move_count(), 0);
            return;
        };
        assert!(rt; wire.can(&step));
        assert!(rt; wire.play(7, step).is_ok());
    }
    assert!(rt; false, "no end");
}

/// A session that is done, with this trace.
fn expect_done(rt: &impl Abort, wire: &WireSession<'_, AnyBench>, trace: &[u32]) {
    assert_eq!(rt; wire.state(), State::Done);
    match wire.outcome() {
        Ok(Record::Done(found)) => assert_eq!(rt; found.trace.items(), trace),
        Ok(Record::Failed(_)) => assert!(rt; false, "failed"),
        Err(_) => assert!(rt; false, "not done"),
    }
}

/// How a frame that arrives differs from one that was sent.
#[derive(Clone, Copy, Debug)]
enum Change {
    Nothing,
    /// The byte of its nonce at an index.
    Nonce(usize),
    Name,
    Kind,
    /// One byte more of its bundle.
    Longer,
    NoBundle,
}

fn changed(alloc: Global, frame: &mut Frame, change: Change) -> Result<(), NoMemory> {
    match change {
        Change::Nothing => {}
        Change::Nonce(index) => {
            if index < 16 {
                frame.nonce[index] ^= 1;
            }
        }
        Change::Name => frame.name ^= 1,
        Change::Kind => frame.reply = !frame.reply,
        Change::Longer => {
            let mut longer = Vec::new(alloc);
            longer.extend_from_slice(frame.bundle.items())?;
            longer.push(0)?;
            frame.bundle = Bytes::of(longer);
        }
        Change::NoBundle => frame.bundle = Bytes::of(Vec::new(alloc)),
    }
    Ok(())
}

/// What is done with a session, and what is expected of it.
#[derive(Clone, Copy)]
enum Step {
    /// The moves that are possible are made; then so many frames have been sent.
    Play(u32),
    /// The frame that was sent at an index arrives, with a change.
    Arrive(u32, Change, Arrived),
    /// A message is sent again, if it was sent; then so many frames have been sent.
    Resend(bool, u32, u32),
    /// A move is possible, or it isn't.
    Delivers(bool),
}

fn arrives(
    rt: &impl Abort,
    alloc: Global,
    wire: &mut WireSession<'_, AnyBench>,
    index: u32,
    change: Change,
    wanted: Arrived,
) -> Result<(), Fail> {
    let mut frame = frame_at(alloc, wire, index)?;
    changed(alloc, &mut frame, change)?;
    let found = wire.arrive(&frame)?;
    assert!(rt; found == wanted);
    Ok(())
}

fn resends(
    rt: &impl Abort,
    wire: &mut WireSession<'_, AnyBench>,
    reply: bool,
    name: u32,
    count: u32,
) {
    let before = wire.sent_count();
    match wire.resend(reply, name) {
        Ok(()) => assert!(rt; before < count),
        Err(ResendError::NotSent) => assert!(rt; before == count),
        Err(ResendError::NoMemory) => assert!(rt; false, "no memory"),
    }
    assert!(rt; wire.sent_count() == count);
}

/// The delivery of the first request of `q`.
fn delivers(rt: &impl Abort, wire: &mut WireSession<'_, AnyBench>, possible: bool) {
    let step = Move::Deliver(name(rt, "q"));
    assert!(rt; wire.can(&step) == possible);
    if possible {
        assert!(rt; wire.nth_move(0) == Some(step));
        assert!(rt; wire.nth_move(1).is_none());
        assert!(rt; wire.move_count() == 1);
        return;
    }
    match wire.play(0, step) {
        Ok(_) => assert!(rt; false, "possible"),
        Err(error) => assert!(rt; error == WireError::NotNow),
    }
}

fn take(
    rt: &impl Abort,
    alloc: Global,
    wire: &mut WireSession<'_, AnyBench>,
    step: Step,
) -> Result<(), Fail> {
    match step {
        Step::Play(count) => {
            play_on(rt, wire);
            assert!(rt; wire.sent_count() == count);
            assert!(rt; wire.nth_sent(count).is_none());
        }
        Step::Arrive(index, change, wanted) => arrives(rt, alloc, wire, index, change, wanted)?,
        Step::Resend(reply, name, count) => resends(rt, wire, reply, name, count),
        Step::Delivers(possible) => delivers(rt, wire, possible),
    }
    Ok(())
}

/// Takes these steps with a session of `@q [CPY]`, which is done then.
fn expect_steps(rt: &impl Abort, alloc: Global, steps: &[Step]) -> Result<(), Fail> {
    let places = two_places(rt, alloc)?;
    let checked = checked_of(rt, &places, copied_at_q(rt, alloc)?)?;
    let artefacts = ArtefactBook::empty(alloc);
    let mut wire = opened(alloc, &checked, &places, &artefacts, &AnyBench)?;
    for step in steps {
        take(rt, alloc, &mut wire, *step)?;
    }
    expect_done(rt, &wire, &[0, 1, 2]);
    Ok(())
}

#[test]
fn a_request_and_a_reply_take_effect_once_their_frames_have_arrived(
    rt: HostRuntime,
) -> Result<(), Fail> {
    let steps = [
        Step::Delivers(false),
        Step::Play(1),
        Step::Delivers(false),
        Step::Arrive(0, Change::Nothing, Arrived::Kept),
        Step::Delivers(true),
        Step::Play(2),
        Step::Play(2),
        Step::Arrive(1, Change::Nothing, Arrived::Kept),
        Step::Play(2),
    ];
    expect_steps(&rt, rt.alloc(), &steps)
}

#[test]
fn a_frame_is_strange_with_another_nonce_name_kind_or_bundle(rt: HostRuntime) -> Result<(), Fail> {
    let steps = [
        Step::Play(1),
        Step::Arrive(0, Change::Nonce(0), Arrived::Strange),
        Step::Arrive(0, Change::Nonce(15), Arrived::Strange),
        Step::Arrive(0, Change::Name, Arrived::Strange),
        Step::Arrive(0, Change::Kind, Arrived::Strange),
        Step::Arrive(0, Change::Longer, Arrived::Strange),
        Step::Arrive(0, Change::NoBundle, Arrived::Strange),
        Step::Delivers(false),
        Step::Arrive(0, Change::Nothing, Arrived::Kept),
        Step::Arrive(0, Change::Longer, Arrived::Strange),
        Step::Play(2),
        Step::Arrive(1, Change::Nothing, Arrived::Kept),
        Step::Play(2),
    ];
    expect_steps(&rt, rt.alloc(), &steps)
}

#[test]
fn a_lost_reply_is_sent_again_for_a_repeated_request(rt: HostRuntime) -> Result<(), Fail> {
    let steps = [
        Step::Resend(false, 0, 0),
        Step::Play(1),
        Step::Resend(true, 0, 1),
        Step::Resend(false, 1, 1),
        Step::Resend(false, 0, 2),
        Step::Arrive(1, Change::Nothing, Arrived::Kept),
        Step::Arrive(0, Change::Nothing, Arrived::Repeated),
        Step::Play(3),
        Step::Arrive(0, Change::Nothing, Arrived::Repeated),
        Step::Play(4),
        Step::Arrive(3, Change::Nothing, Arrived::Kept),
        Step::Arrive(2, Change::Nothing, Arrived::Repeated),
        Step::Arrive(1, Change::Nothing, Arrived::Repeated),
        Step::Play(5),
    ];
    expect_steps(&rt, rt.alloc(), &steps)
}

/// Lets each frame arrive that was sent, the last first, each twice; none is strange.
fn repeat_all(
    rt: &impl Abort,
    alloc: Global,
    wire: &mut WireSession<'_, AnyBench>,
) -> Result<(), Fail> {
    for index in (0..wire.sent_count()).rev() {
        for _ in 0..2 {
            assert!(rt; arrive_at(alloc, wire, index)? != Arrived::Strange);
        }
    }
    Ok(())
}

#[test]
fn each_block_is_started_once_where_every_frame_is_repeated(rt: HostRuntime) -> Result<(), Fail> {
    let alloc = rt.alloc();
    let places = two_places(&rt, alloc)?;
    let checked = checked_of(&rt, &places, three_requests(&rt, alloc)?)?;
    let artefacts = ArtefactBook::empty(alloc);
    let mut wire = opened(alloc, &checked, &places, &artefacts, &AnyBench)?;
    for _ in 0..4 {
        play_on(&rt, &mut wire);
        repeat_all(&rt, alloc, &mut wire)?;
    }
    play_on(&rt, &mut wire);
    wire.is_not_stuck();
    expect_done(&rt, &wire, &[0, 1, 6, 2, 7, 3, 8, 4, 5, 9]);
    Ok(())
}

/// The session stands like this; if it is open, it goes on to its end.
fn goes_on(
    rt: &impl Abort,
    alloc: Global,
    wire: &mut WireSession<'_, AnyBench>,
    state: State,
) -> Result<(), Fail> {
    assert!(rt; wire.state() == state);
    if state != State::Open {
        assert!(rt; wire.move_count() == 0);
        return Ok(());
    }
    play_on(rt, wire);
    arrives(rt, alloc, wire, 1, Change::Nothing, Arrived::Kept)?;
    play_on(rt, wire);
    expect_done(rt, wire, &[0, 1, 2]);
    Ok(())
}

/// Opens a session of `@q [USM a]`, delivers its request, and records what is measured there.
fn expect_measured(
    rt: &impl Abort,
    alloc: Global,
    measured: Result<Answer, MeasureError>,
    state: State,
) -> Result<(), Fail> {
    let places = two_places(rt, alloc)?;
    let checked = checked_of(rt, &places, measured_at_q(rt, alloc)?)?;
    let artefacts = ArtefactBook::empty(alloc);
    let mut wire = opened(alloc, &checked, &places, &artefacts, &AnyBench)?;
    play_on(rt, &mut wire);
    arrives(rt, alloc, &mut wire, 0, Change::Nothing, Arrived::Kept)?;
    assert!(rt; wire.play(0, Move::Deliver(name(rt, "q"))).is_ok());
    let ask = Move::Ask(BlockName::Of(0));
    assert!(rt; answer(rt, &mut wire, ask, measured) == Some(Ok(())));
    goes_on(rt, alloc, &mut wire, state)
}

#[test]
fn a_result_is_recorded_as_the_session_does(rt: HostRuntime) -> Result<(), Fail> {
    let alloc = rt.alloc();
    let answer = Answer::of(b"it").expect(&rt, "an answer");
    expect_measured(&rt, alloc, Ok(answer), State::Open)?;
    let fault = MeasureError::Fault(BenchFault::Broken(4));
    expect_measured(&rt, alloc, Err(fault), State::Failed)?;
    expect_measured(&rt, alloc, Err(MeasureError::NoMemory), State::Starved)
}
