ghost use Rattle.std.specs.Prelude.{◌≡◌, true, IsTrue, IfOk, IfSome};
ghost use Rattle.phrase_tree.specs.Term.{term, par};
ghost use Rattle.phrase_tree.specs.Numbering.{IsSized};
ghost use Rattle.place_check.specs.Places.{keys_of};
ghost use Rattle.place_check.specs.Session.{IsCheckedAgainst, session_of};
ghost use Rattle.session_core.specs.Core.{IsCore};
ghost use Rattle.session_core.specs.Steps.{ForSome};
ghost use Rattle.session_core.specs.Reading.{ForSomeWith, IsAwaitedBy};

use super::*;
use avm_code::BlockName;
use bench_trait::{AskKind, BenchFault, MeasureError};
use evidence_types::{Answer, Answers};
use phrase_tree::{Args, Asp, Name, Names, NoMemory, Phrase, Split};
use place_check::{Checked, PlaceEntry, Places, check};
use seal_hmac::Key;
use session_model::Record;
use session_tables::results_law;
use std::alloc::Global;
use std::process::Abort;
use std::test::Fail;

pub(crate) const NONCE: [u8; 16] = [0, 1, 2, 3, 4, 5, 6, 7, 8, 9, 10, 11, 12, 13, 14, 15];

/// The root block, and those of the requests and right arms of these numbers.
const ROOT: BlockName = BlockName::Root;

const ZERO: BlockName = BlockName::Of(0);

const ONE: BlockName = BlockName::Of(1);

/// The bundles of two of the phrases, by an evaluator of its own.
pub(crate) const OF_TWO_ARMS: &[u8] = &[
    67, 80, 76, 66, 1, 0, 0, 0, 35, 7, 2, 0, 0, 0, 1, 0, 1, 17, 1, 0, 1, 2, 3, 4, 5, 6, 7, 8, 9,
    10, 11, 12, 13, 14, 15, 2, 0, 0, 0, 2, 0, 1, 34, 0,
];

const OF_Q: &[u8] = &[
    67, 80, 76, 66, 1, 0, 0, 0, 25, 2, 0, 0, 0, 1, 0, 1, 17, 1, 0, 1, 2, 3, 4, 5, 6, 7, 8, 9, 10,
    11, 12, 13, 14, 15,
];

/// The same where each event of a measurement is answered with its number.
const ARMS_BY_EVENT: &[u8] = &[
    67, 80, 76, 66, 1, 0, 0, 0, 35, 7, 2, 0, 0, 0, 1, 0, 1, 1, 1, 0, 1, 2, 3, 4, 5, 6, 7, 8, 9, 10,
    11, 12, 13, 14, 15, 2, 0, 0, 0, 2, 0, 1, 2, 0,
];

const THREE_BY_EVENT: &[u8] = &[
    67, 80, 76, 66, 1, 0, 0, 0, 61, 7, 7, 2, 0, 0, 0, 2, 0, 1, 2, 1, 0, 1, 2, 3, 4, 5, 6, 7, 8, 9,
    10, 11, 12, 13, 14, 15, 2, 0, 0, 0, 3, 0, 1, 3, 1, 0, 1, 2, 3, 4, 5, 6, 7, 8, 9, 10, 11, 12,
    13, 14, 15, 2, 0, 0, 0, 5, 0, 1, 5, 0,
];

const REQUESTS_BY_EVENT: &[u8] = &[
    67, 80, 76, 66, 1, 0, 0, 0, 35, 7, 2, 0, 0, 0, 2, 0, 1, 2, 1, 0, 1, 2, 3, 4, 5, 6, 7, 8, 9, 10,
    11, 12, 13, 14, 15, 2, 0, 0, 0, 5, 0, 1, 5, 0,
];

pub(crate) fn name(rt: &impl Abort, text: &str) -> Name {
    Name::read(text).expect(rt, "a name")
}

fn asp(rt: &impl Abort, text: &str) -> Asp {
    Asp {
        name: name(rt, text),
        args: Args::none(),
    }
}

pub(crate) fn answer(rt: &impl Abort, bytes: &[u8]) -> Answer {
    Answer::of(bytes).expect(rt, "an answer")
}

/// A place that may ask one other, and offers what the tests measure.
fn entry(
    rt: &impl Abort,
    alloc: Global,
    text: &str,
    key: u8,
    peer: &str,
) -> Result<PlaceEntry, Fail> {
    let mut peers = Vec::new(alloc);
    peers.push(name(rt, peer))?;
    let mut offers = Vec::new(alloc);
    offers.push(name(rt, "a"))?;
    offers.push(name(rt, "b"))?;
    offers.push(name(rt, "scan"))?;
    Ok(PlaceEntry {
        name: name(rt, text),
        key: Key::read(&[key; 16]).expect(rt, "a key"),
        asks: Names::of(peers),
        sees: Names::of(Vec::new(alloc)),
        offers: Names::of(offers),
    })
}

pub(crate) fn two_places(rt: &impl Abort, alloc: Global) -> Result<Places, Fail> {
    let bank = entry(rt, alloc, "bank", 1, "q")?;
    let q = entry(rt, alloc, "q", 2, "bank")?;
    let mut entries = Vec::new(alloc);
    entries.push(bank)?;
    entries.push(q)?;
    Ok(Places::of(alloc, entries)?)
}

/// Both arms of a branch run, the left on what stands before it, the right on what this says.
fn in_parallel(
    alloc: Global,
    right: bool,
    left_arm: Phrase,
    right_arm: Phrase,
) -> Result<Phrase, NoMemory>
    ensures { IfOk result (λ phrase. term phrase ≡ par (record { left = true; right = right }) (term left_arm) (term right_arm)) }
{
    let split = Split { left: true, right };
    Ok(Phrase::Par(
        split,
        Box::new(alloc, left_arm)?,
        Box::new(alloc, right_arm)?,
    ))
}

/// `@q [SIG]`.
fn q_seals(rt: &impl Abort, alloc: Global) -> Result<Phrase, NoMemory>
    ensures { IfOk result (λ phrase. IsSized (term phrase)) }
{
    Ok(Phrase::At(name(rt, "q"), Box::new(alloc, Phrase::Sig)?))
}

/// `@q [USM scan]`.
fn q_measures(rt: &impl Abort, alloc: Global) -> Result<Phrase, NoMemory>
    ensures { IfOk result (λ phrase. IsSized (term phrase)) }
{
    Ok(Phrase::At(
        name(rt, "q"),
        Box::new(alloc, Phrase::usm(alloc, asp(rt, "scan"))?)?,
    ))
}

/// `USM a +~- USM b`.
pub(crate) fn two_arms(rt: &impl Abort, alloc: Global) -> Result<Phrase, NoMemory>
    ensures { IfOk result (λ phrase. IsSized (term phrase)) }
{
    let left = Phrase::usm(alloc, asp(rt, "a"))?;
    let right = Phrase::usm(alloc, asp(rt, "b"))?;
    in_parallel(alloc, false, left, right)
}

/// `(USM a +~+ USM b) +~- USM scan`.
fn three_arms(rt: &impl Abort, alloc: Global) -> Result<Phrase, NoMemory>
    ensures { IfOk result (λ phrase. IsSized (term phrase)) }
{
    let left = Phrase::usm(alloc, asp(rt, "a"))?;
    let right = Phrase::usm(alloc, asp(rt, "b"))?;
    let both = in_parallel(alloc, true, left, right)?;
    let scan = Phrase::usm(alloc, asp(rt, "scan"))?;
    in_parallel(alloc, false, both, scan)
}

/// `@q [USM scan] +~- @q [USM scan]`.
fn two_requests(rt: &impl Abort, alloc: Global) -> Result<Phrase, NoMemory>
    ensures { IfOk result (λ phrase. IsSized (term phrase)) }
{
    let q = name(rt, "q");
    let first = Phrase::usm(alloc, asp(rt, "scan"))?;
    let second = Phrase::usm(alloc, asp(rt, "scan"))?;
    let left = Phrase::At(q, Box::new(alloc, first)?);
    let right = Phrase::At(q, Box::new(alloc, second)?);
    in_parallel(alloc, false, left, right)
}

fn opened(alloc: Global, checked: &Checked, places: &Places) -> Result<Core, NoMemory>
    requires { IsCheckedAgainst (session_of checked.now) places.now }
    ensures { IfOk result (ForSomeWith (keys_of places.now) IsCore) }
{
    match Core::open(alloc, checked, places) {
        Ok(core) => Ok(core),
        Err(short) => Err(short),
    }
}

/// The core of a phrase at the root `bank`, just opened; none where the phrase is refused.
fn at_bank(
    rt: &impl Abort,
    alloc: Global,
    places: &Places,
    phrase: Phrase,
) -> Result<Option<Core>, NoMemory>
    requires { IsSized (term phrase) }
    ensures { IfOk result (λ found. IfSome found (ForSomeWith (keys_of places.now) IsCore)) }
{
    let bank = name(rt, "bank");
    let Some(_) = places.find(bank) else {
        return Ok(None);
    };
    let Ok(checked) = check(places, bank, NONCE, phrase) else {
        return Ok(None);
    };
    match opened(alloc, &checked, places) {
        Ok(core) => Ok(Some(core)),
        Err(short) => Err(short),
    }
}

/// Makes a move by pass 0.
fn plays(core: &mut Core, places: &Places, step: Move) -> Result<Played, PlayError>
    requires { ForSomeWith (keys_of places.now) IsCore core.old }
    ensures { ForSomeWith (keys_of places.now) IsCore core.new }
{
    core.play(0, step, places.keys())
}

/// A law: a core of a session with the keys of these places is one of a session. It does nothing.
fn is_one(_core: &Core, _places: &Places)
    requires { ForSomeWith (keys_of _places.now) IsCore _core.now }
    ensures { ForSome IsCore _core.now }
{}

/// Whether the ask of an event is in flight by a pass.
fn is_awaited(core: &Core, pass: u32, event: u32) -> bool
    requires { ForSome IsCore core.now }
    ensures { IsTrue result → IsAwaitedBy pass event core.now }
{
    results_law();
    match core.book.flight(event) {
        Some(flight) => flight.pass == pass,
        None => false,
    }
}

/// Records a result for an ask of a pass; none where that isn't in flight.
fn records(
    core: &mut Core,
    places: &Places,
    pass: u32,
    event: u32,
    measured: Result<Answer, MeasureError>,
) -> Option<Result<(), RecordError>>
    requires { ForSomeWith (keys_of places.now) IsCore core.old }
    ensures { ForSomeWith (keys_of places.now) IsCore core.new }
{
    is_one(core, places);
    if !is_awaited(core, pass, event) {
        return None;
    }
    Some(core.record(pass, event, measured))
}

/// The possible moves: their number, and the first of them.
fn moves(core: &Core, places: &Places) -> (u64, Option<Move>)
    requires { ForSomeWith (keys_of places.now) IsCore core.now }
{
    is_one(core, places);
    (core.move_count(), core.nth_move(0))
}

fn ends(core: &Core, places: &Places) -> Result<Record, OutcomeError>
    requires { ForSomeWith (keys_of places.now) IsCore core.now }
{
    is_one(core, places);
    core.outcome()
}

/// Whether a session is done, with this trace, an answer for each of these events, and this bundle.
fn is_done_with(
    core: &Core,
    places: &Places,
    trace: &[u32],
    answers: &[(u32, u8)],
    bundle: &[u8],
) -> bool
    requires { ForSomeWith (keys_of places.now) IsCore core.now }
{
    match ends(core, places) {
        Ok(Record::Done(found)) => {
            found.trace.items() == trace
                && found.bundle.items() == bundle
                && are_answers(&found.answers, answers)
        }
        Ok(Record::Failed(_)) => false,
        Err(_) => false,
    }
}

/// Whether these are the answers, each of one byte.
pub(crate) fn are_answers(found: &Answers, wanted: &[(u32, u8)]) -> bool {
    let mut same = found.items().len() == wanted.len();
    for ((event, answer), (number, byte)) in found.items().iter().zip(wanted) {
        same = same && event == number && answer.bytes() == [*byte].as_slice();
    }
    same
}

/// Whether a session failed so.
fn has_failed_at(core: &Core, places: &Places, event: u32, fault: BenchFault, trace: &[u32]) -> bool
    requires { ForSomeWith (keys_of places.now) IsCore core.now }
{
    match ends(core, places) {
        Ok(Record::Failed(found)) => {
            found.event == event && found.fault == fault && found.trace.items() == trace
        }
        Ok(Record::Done(_)) => false,
        Err(_) => false,
    }
}

/// Whether a move asks for this event, with the session's nonce.
fn asks_for(played: &Result<Played, PlayError>, event: u32) -> bool {
    match played {
        Ok(Played::Asked(ask)) => ask.event == event && ask.nonce == NONCE,
        Ok(Played::Moved) => false,
        Err(_) => false,
    }
}

/// What a test does with a session, and what must come of it.
#[derive(Clone, Copy, Debug)]
enum Trial {
    /// Pass 0 makes a move.
    Moves(Move),
    /// A block asks for an event, by pass 0.
    Asks(BlockName, u32),
    /// A move isn't possible.
    Refused(Move),
    /// The answer of an event for pass 0 is one byte.
    Answers(u32, u8),
    /// The ask of an event fails, or starves.
    Fails(u32),
    Starves(u32),
    /// An answer of an event comes after the end.
    Dropped(u32),
    /// No ask of this event is in flight by this pass.
    Unasked(u32, u32),
    /// There are so many moves, and the first of them is this.
    Possible(u64, Option<Move>),
}

/// Whether it comes so.
fn comes_so(rt: &impl Abort, core: &mut Core, places: &Places, trial: Trial) -> bool
    requires { ForSomeWith (keys_of places.now) IsCore core.old }
    ensures { ForSomeWith (keys_of places.now) IsCore core.new }
{
    match trial {
        Trial::Moves(step) => plays(core, places, step) == Ok(Played::Moved),
        Trial::Asks(name, event) => asks_for(&plays(core, places, Move::Ask(name)), event),
        Trial::Refused(step) => plays(core, places, step) == Err(PlayError::NotNow),
        Trial::Answers(event, byte) => {
            records(core, places, 0, event, Ok(answer(rt, &[byte]))) == Some(Ok(()))
        }
        Trial::Fails(event) => records(core, places, 0, event, Err(FAULT)) == Some(Ok(())),
        Trial::Starves(event) => {
            records(core, places, 0, event, Err(MeasureError::NoMemory)) == Some(Ok(()))
        }
        Trial::Dropped(event) => {
            records(core, places, 0, event, Ok(answer(rt, &[0x11])))
                == Some(Err(RecordError::Ended))
        }
        Trial::Unasked(pass, event) => {
            records(core, places, pass, event, Ok(answer(rt, &[0x11]))) == None
        }
        Trial::Possible(count, first) => moves(core, places) == (count, first),
    }
}

/// All of them come so, in turn.
fn all_come_so(rt: &impl Abort, core: &mut Core, places: &Places, trials: &[Trial])
    requires { ForSomeWith (keys_of places.now) IsCore core.old }
    ensures { ForSomeWith (keys_of places.now) IsCore core.new }
{
    for trial in trials {
        let so = comes_so(rt, core, places, *trial);
        assert!(rt; so, "{trial:?}");
    }
}

const FAULT: MeasureError = MeasureError::Fault(BenchFault::NoArtefact);

/// A branch of two arms: its root forks, asks and joins, and its right arm asks and ends.
fn both_arms() -> [Trial; 14] {
    [
        Trial::Possible(1, Some(Move::Run(ROOT))),
        Trial::Refused(Move::Run(ZERO)),
        Trial::Moves(Move::Run(ROOT)),
        Trial::Asks(ROOT, 1),
        Trial::Asks(ZERO, 2),
        Trial::Refused(Move::Ask(ROOT)),
        Trial::Unasked(1, 1),
        Trial::Answers(1, 0x11),
        Trial::Answers(2, 0x22),
        Trial::Refused(Move::Run(ROOT)),
        Trial::Moves(Move::Run(ZERO)),
        Trial::Moves(Move::Run(ROOT)),
        Trial::Moves(Move::Run(ROOT)),
        Trial::Refused(Move::Run(ROOT)),
    ]
}

/// The same, the right arm first.
fn right_first() -> [Trial; 8] {
    [
        Trial::Moves(Move::Run(ROOT)),
        Trial::Asks(ZERO, 2),
        Trial::Asks(ROOT, 1),
        Trial::Answers(2, 0x22),
        Trial::Moves(Move::Run(ZERO)),
        Trial::Answers(1, 0x11),
        Trial::Moves(Move::Run(ROOT)),
        Trial::Moves(Move::Run(ROOT)),
    ]
}

/// Three asks are in flight, and one of them fails.
fn one_fails() -> [Trial; 8] {
    [
        Trial::Moves(Move::Run(ROOT)),
        Trial::Moves(Move::Run(ROOT)),
        Trial::Asks(ROOT, 2),
        Trial::Asks(ONE, 3),
        Trial::Asks(ZERO, 5),
        Trial::Fails(5),
        Trial::Dropped(2),
        Trial::Possible(0, None),
    ]
}

/// Two asks are in flight, and the bench has no memory for one of them.
fn one_starves() -> [Trial; 6] {
    [
        Trial::Moves(Move::Run(ROOT)),
        Trial::Asks(ROOT, 1),
        Trial::Asks(ZERO, 2),
        Trial::Starves(1),
        Trial::Dropped(2),
        Trial::Possible(0, None),
    ]
}

/// A request is sent, delivered once, and answered; until then the root waits.
fn by_q(q: Name, bank: Name, other: Name) -> [Trial; 15] {
    [
        Trial::Refused(Move::Deliver(q)),
        Trial::Moves(Move::Run(ROOT)),
        Trial::Refused(Move::Run(ROOT)),
        Trial::Refused(Move::Deliver(bank)),
        Trial::Refused(Move::Deliver(other)),
        Trial::Possible(1, Some(Move::Deliver(q))),
        Trial::Moves(Move::Deliver(q)),
        Trial::Refused(Move::Deliver(q)),
        Trial::Asks(ZERO, 1),
        Trial::Answers(1, 0x11),
        Trial::Refused(Move::Run(ROOT)),
        Trial::Moves(Move::Run(ZERO)),
        Trial::Moves(Move::Run(ROOT)),
        Trial::Possible(1, Some(Move::Run(ROOT))),
        Trial::Moves(Move::Run(ROOT)),
    ]
}

#[test]
fn a_core_is_opened_with_its_root_ready(rt: HostRuntime) -> Result<(), Fail> {
    let alloc = rt.alloc();
    let places = two_places(&rt, alloc)?;
    let phrase = q_seals(&rt, alloc)?;
    let Some(core) = at_bank(&rt, alloc, &places, phrase)? else {
        assert!(rt; false, "refused");
        return Ok(());
    };
    assert_eq!(rt; core.book.entry_count(), 1);
    assert_eq!(rt; core.agenda.count(), 1);
    match ends(&core, &places) {
        Ok(_) => assert!(rt; false, "a record of an open session"),
        Err(error) => assert_eq!(rt; error, OutcomeError::NotFinished),
    }
    Ok(())
}

#[test]
fn a_branch_waits_for_both_arms(rt: HostRuntime) -> Result<(), Fail> {
    let alloc = rt.alloc();
    let places = two_places(&rt, alloc)?;
    let phrase = two_arms(&rt, alloc)?;
    let Some(mut core) = at_bank(&rt, alloc, &places, phrase)? else {
        assert!(rt; false, "refused");
        return Ok(());
    };
    all_come_so(&rt, &mut core, &places, &both_arms());
    assert!(rt;
        is_done_with(
            &core,
            &places,
            &[0, 1, 2, 3],
            &[(1, 0x11), (2, 0x22)],
            OF_TWO_ARMS
        )
    );
    Ok(())
}

#[test]
fn the_order_of_answers_changes_the_trace_alone(rt: HostRuntime) -> Result<(), Fail> {
    let alloc = rt.alloc();
    let places = two_places(&rt, alloc)?;
    let phrase = two_arms(&rt, alloc)?;
    let Some(mut core) = at_bank(&rt, alloc, &places, phrase)? else {
        assert!(rt; false, "refused");
        return Ok(());
    };
    all_come_so(&rt, &mut core, &places, &right_first());
    assert!(rt;
        is_done_with(
            &core,
            &places,
            &[0, 2, 1, 3],
            &[(1, 0x11), (2, 0x22)],
            OF_TWO_ARMS
        )
    );
    Ok(())
}

#[test]
fn a_request_waits_at_its_place_for_its_delivery(rt: HostRuntime) -> Result<(), Fail> {
    let alloc = rt.alloc();
    let places = two_places(&rt, alloc)?;
    let phrase = q_measures(&rt, alloc)?;
    let Some(mut core) = at_bank(&rt, alloc, &places, phrase)? else {
        assert!(rt; false, "refused");
        return Ok(());
    };
    let trials = by_q(name(&rt, "q"), name(&rt, "bank"), name(&rt, "zz"));
    all_come_so(&rt, &mut core, &places, &trials);
    assert!(rt; is_done_with(&core, &places, &[0, 1, 2], &[(1, 0x11)], OF_Q));
    Ok(())
}

#[test]
fn a_fault_ends_the_session_for_every_ask(rt: HostRuntime) -> Result<(), Fail> {
    let alloc = rt.alloc();
    let places = two_places(&rt, alloc)?;
    let phrase = three_arms(&rt, alloc)?;
    let Some(mut core) = at_bank(&rt, alloc, &places, phrase)? else {
        assert!(rt; false, "refused");
        return Ok(());
    };
    all_come_so(&rt, &mut core, &places, &one_fails());
    assert!(rt; has_failed_at(&core, &places, 5, BenchFault::NoArtefact, &[0, 1]));
    Ok(())
}

#[test]
fn want_of_memory_leaves_no_record(rt: HostRuntime) -> Result<(), Fail> {
    let alloc = rt.alloc();
    let places = two_places(&rt, alloc)?;
    let phrase = two_arms(&rt, alloc)?;
    let Some(mut core) = at_bank(&rt, alloc, &places, phrase)? else {
        assert!(rt; false, "refused");
        return Ok(());
    };
    all_come_so(&rt, &mut core, &places, &one_starves());
    match ends(&core, &places) {
        Ok(_) => assert!(rt; false, "a record of a starved session"),
        Err(error) => assert_eq!(rt; error, OutcomeError::NoMemory),
    }
    Ok(())
}

/// One of so many choices, by its index.
#[derive(Clone, Copy, Drop)]
struct Choice {
    at: u32,
    of: u64,
}

/// Makes the move at an index, or answers the ask in flight at an index behind the moves with the number
/// of its event. The choice that it was; none where there was none.
fn chooses(rt: &impl Abort, core: &mut Core, places: &Places, at: u32) -> Option<Choice>
    requires { ForSomeWith (keys_of places.now) IsCore core.old }
    ensures { ForSomeWith (keys_of places.now) IsCore core.new }
{
    let count = moves(core, places).0;
    let of = count.saturating_add(core.asked_count() as u64);
    if (at as u64) < count {
        plays_at(core, places, at);
    } else {
        answers_at(rt, core, places, (at as u64 - count) as u32);
    }
    if of == 0 {
        None
    } else {
        Some(Choice { at, of })
    }
}

fn plays_at(core: &mut Core, places: &Places, index: u32)
    requires { ForSomeWith (keys_of places.now) IsCore core.old }
    ensures { ForSomeWith (keys_of places.now) IsCore core.new }
{
    is_one(core, places);
    match core.nth_move(index) {
        Some(step) => {
            let _ = plays(core, places, step);
        }
        None => {}
    }
}

fn answers_at(rt: &impl Abort, core: &mut Core, places: &Places, index: u32)
    requires { ForSomeWith (keys_of places.now) IsCore core.old }
    ensures { ForSomeWith (keys_of places.now) IsCore core.new }
{
    is_one(core, places);
    match core.nth_asked(index) {
        Some(asked) => {
            let byte = (asked.event % 256) as u8;
            let _ = records(core, places, 0, asked.event, Ok(answer(rt, &[byte])));
        }
        None => {}
    }
}

/// Plays a session to its end in an order that begins with these choices, and then takes the first of
/// each. The whole order.
fn in_order(
    rt: &impl Abort,
    alloc: Global,
    core: &mut Core,
    places: &Places,
    begun: &[Choice],
) -> Result<Vec<Choice>, Fail>
    requires { ForSomeWith (keys_of places.now) IsCore core.old }
    ensures { ForSomeWith (keys_of places.now) IsCore core.new }
{
    let mut order = Vec::new(alloc);
    for step in 0..MOST_STEPS {
        let at = match begun.get(step) {
            Some(choice) => choice.at,
            None => 0,
        };
        match chooses(rt, core, places, at) {
            Some(choice) => order.push(choice)?,
            None => return Ok(order),
        }
    }
    Ok(order)
}

/// More steps than a session here has, and more orders.
const MOST_STEPS: usize = 64;

const MOST_ORDERS: usize = 2000;

/// The next order, less what follows its last choice; false after the last order.
fn goes_on(order: &mut Vec<Choice>) -> bool {
    for _ in 0..MOST_STEPS {
        match order.pop() {
            Some(last) => {
                let at = last.at.wrapping_add(1);
                if (at as u64) < last.of {
                    return order.push(Choice { at, of: last.of }).is_ok();
                }
            }
            None => return false,
        }
    }
    false
}

fn has_bundle(core: &Core, places: &Places, bundle: &[u8]) -> bool
    requires { ForSomeWith (keys_of places.now) IsCore core.now }
{
    match ends(core, places) {
        Ok(Record::Done(found)) => found.bundle.items() == bundle,
        Ok(Record::Failed(_)) => false,
        Err(_) => false,
    }
}

/// In how many orders a session can be played; each ends with this bundle.
fn orders_of(
    rt: &impl Abort,
    alloc: Global,
    places: &Places,
    checked: &Checked,
    bundle: &[u8],
) -> Result<usize, Fail>
    requires { IsCheckedAgainst (session_of checked.now) places.now }
{
    let mut order = Vec::new(alloc);
    for count in 1..=MOST_ORDERS {
        let mut core = opened(alloc, checked, places)?;
        order = in_order(rt, alloc, &mut core, places, &order)?;
        assert!(rt; has_bundle(&core, places, bundle));
        if !goes_on(&mut order) {
            return Ok(count);
        }
    }
    Ok(0)
}

/// The same of a phrase at the root `bank`.
fn orders_at_bank(
    rt: &impl Abort,
    alloc: Global,
    places: &Places,
    phrase: Phrase,
    bundle: &[u8],
) -> Result<usize, Fail>
    requires { IsSized (term phrase) }
{
    let bank = name(rt, "bank");
    let Some(_) = places.find(bank) else {
        return Ok(0);
    };
    match check(places, bank, NONCE, phrase) {
        Ok(checked) => orders_of(rt, alloc, places, &checked, bundle),
        Err(_) => Ok(0),
    }
}

#[test]
fn every_order_of_two_arms_has_one_bundle(rt: HostRuntime) -> Result<(), Fail> {
    let alloc = rt.alloc();
    let places = two_places(&rt, alloc)?;
    let phrase = two_arms(&rt, alloc)?;
    assert_eq!(rt;
        orders_at_bank(&rt, alloc, &places, phrase, ARMS_BY_EVENT)?,
        10
    );
    Ok(())
}

#[test]
fn every_order_of_three_arms_has_one_bundle(rt: HostRuntime) -> Result<(), Fail> {
    let alloc = rt.alloc();
    let places = two_places(&rt, alloc)?;
    let phrase = three_arms(&rt, alloc)?;
    assert_eq!(rt;
        orders_at_bank(&rt, alloc, &places, phrase, THREE_BY_EVENT)?,
        1200
    );
    Ok(())
}

#[test]
fn every_order_of_two_requests_has_one_bundle(rt: HostRuntime) -> Result<(), Fail> {
    let alloc = rt.alloc();
    let places = two_places(&rt, alloc)?;
    let phrase = two_requests(&rt, alloc)?;
    assert_eq!(rt;
        orders_at_bank(&rt, alloc, &places, phrase, REQUESTS_BY_EVENT)?,
        1254
    );
    Ok(())
}
