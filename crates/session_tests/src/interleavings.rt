//! Three passes take turns at two sessions, in two hundred orders. What each is told is compared with an
//! account of the test's own, of what all passes together have made of the sessions so far.
ghost use Rattle.std.specs.Prelude.{◌≡◌, ◌<◌, IfOk, IfSome, length};
ghost use Rattle.place_check.specs.Session.{IsCheckedAgainst, session_of};
ghost use Rattle.bench_trait.specs.declared.ask.Ask.{Ask as Question};
ghost use Rattle.session_desk.specs.declared.hand.Hand.{Hand};
ghost use Rattle.session_desk.specs.Opening.{AreJustOpened, AreOpenedOver, IsFit};
ghost use Rattle.session_desk.specs.Answers.{IsHeld, IsQuestion};

use crate::desks::{finds, last, records, seated, tries};
use crate::fixture::{NONCE, OF_PARALLEL, OF_SEQUENCE, OTHER_NONCE, bank_and_q, checked, two_arms};
use bench_trait::{ArtefactBook, Ask, Bench, BenchFault, TableBench, TableResult, TableRow};
use evidence_types::Answer;
use phrase_tree::NoMemory;
use place_check::{Checked, Places};
use session_core::Session;
use session_desk::{Desk, DeskError, Hand, Pass, Turned};
use session_model::Record;
use std::alloc::Global;
use std::process::Abort;
use std::sync::Wait;
use std::test::Fail;

/// What a bench does at a measurement.
#[derive(Clone, Copy)]
pub(crate) enum Means {
    Answers,
    Fails,
    Starves,
}

/// How a session stands.
#[derive(Clone, Copy, PartialEq, Eq)]
enum Stands {
    Open,
    Done,
    Failed(u32),
    Starved,
}

/// What a turn is told.
#[derive(Clone, Copy, PartialEq, Eq)]
enum Told {
    Moved,
    Asked(u32),
    Waiting,
    Finished,
    Busy,
}

/// What was made so far of a session of two measurements, events 1 and 2, in the arms of a branch.
#[derive(Drop)]
struct Account {
    is_parallel: bool,
    left: Means,
    right: Means,
    stands: Stands,
    is_split: bool,
    left_asked: bool,
    left_answered: bool,
    has_swapped: bool,
    right_asked: bool,
    right_answered: bool,
    right_ended: bool,
    is_joined: bool,
    trace: Vec<u32>,
}

impl Account {
    fn new(alloc: Global, is_parallel: bool, means: [Means; 2]) -> Account {
        let [left, right] = means;
        Account {
            is_parallel,
            left,
            right,
            stands: Stands::Open,
            is_split: false,
            left_asked: false,
            left_answered: false,
            has_swapped: false,
            right_asked: false,
            right_answered: false,
            right_ended: false,
            is_joined: false,
            trace: Vec::new(alloc),
        }
    }

    /// An event happens.
    fn happens(&mut self, event: u32) {
        let _ = self.trace.push(event);
    }

    /// What the next turn is to be told.
    fn turn(&mut self) -> Told {
        if self.stands != Stands::Open {
            return Told::Finished;
        }
        if !self.is_split {
            self.is_split = true;
            self.happens(0);
            return Told::Moved;
        }
        if self.is_joined {
            self.stands = Stands::Done;
            return Told::Moved;
        }
        if self.is_parallel {
            self.turn_at_both()
        } else {
            self.turn_at_one()
        }
    }

    /// The same while both arms run: a block that has ended comes first, then the events by their number.
    fn turn_at_both(&mut self) -> Told {
        if self.right_answered && !self.right_ended {
            self.right_ended = true;
            return Told::Moved;
        }
        if !self.left_asked {
            self.left_asked = true;
            return Told::Asked(1);
        }
        if !self.right_asked {
            self.right_asked = true;
            return Told::Asked(2);
        }
        if self.left_answered && self.right_ended {
            return self.joins();
        }
        Told::Waiting
    }

    /// The same while one arm runs after the other.
    fn turn_at_one(&mut self) -> Told {
        if !self.left_asked {
            self.left_asked = true;
            return Told::Asked(1);
        }
        if !self.left_answered {
            return Told::Waiting;
        }
        if !self.has_swapped {
            self.has_swapped = true;
            return Told::Moved;
        }
        if !self.right_asked {
            self.right_asked = true;
            return Told::Asked(2);
        }
        if !self.right_answered {
            return Told::Waiting;
        }
        self.joins()
    }

    fn joins(&mut self) -> Told {
        self.is_joined = true;
        self.happens(3);
        Told::Moved
    }

    /// Whether the result of an event is to be kept.
    fn result(&mut self, event: u32) -> bool {
        match self.stands {
            Stands::Failed(_) => return false,
            Stands::Starved => return false,
            Stands::Open => {}
            Stands::Done => return false,
        }
        let means = if event == 1 { self.left } else { self.right };
        match means {
            Means::Answers => self.answered(event),
            Means::Fails => self.stands = Stands::Failed(event),
            Means::Starves => self.stands = Stands::Starved,
        }
        true
    }

    fn answered(&mut self, event: u32) {
        if event == 1 {
            self.left_answered = true;
        } else {
            self.right_answered = true;
        }
        self.happens(event);
    }

    /// Whether an outcome is as the session stands.
    fn agrees(&self, outcome: &Result<Record, DeskError>) -> bool {
        match outcome {
            Ok(record) => self.is_record(record),
            Err(error) => match error {
                DeskError::NotFinished => self.stands == Stands::Open,
                DeskError::Busy => false,
                DeskError::NoMemory => self.stands == Stands::Starved,
            },
        }
    }

    fn is_record(&self, record: &Record) -> bool {
        match record {
            Record::Done(done) => {
                let bundle = if self.is_parallel {
                    OF_PARALLEL
                } else {
                    OF_SEQUENCE
                };
                self.stands == Stands::Done
                    && done.trace.items() == self.trace.as_slice()
                    && done.bundle.items() == bundle
            }
            Record::Failed(failed) => {
                self.stands == Stands::Failed(failed.event)
                    && failed.fault == BenchFault::Broken(7)
                    && failed.trace.items() == self.trace.as_slice()
            }
        }
    }
}

/// Both accounts, and whether all answers so far were as they say.
#[derive(Drop)]
struct Accounts {
    first: Account,
    second: Account,
    agree: bool,
}

impl Accounts {
    fn of(&mut self, session: u32) -> &mut Account {
        if session == 0 {
            &mut self.first
        } else {
            &mut self.second
        }
    }

    fn tells(&mut self, session: u32, told: Told) {
        let wanted = self.of(session).turn();
        self.agree = self.agree && told == wanted;
    }

    fn keeps(&mut self, session: u32, event: u32, kept: bool) {
        let wanted = self.of(session).result(event);
        self.agree = self.agree && kept == wanted;
    }

    fn looks(&mut self, session: u32, outcome: &Result<Record, DeskError>) {
        let agrees = self.of(session).agrees(outcome);
        self.agree = self.agree && agrees;
    }

    /// How many of the sessions are over.
    fn over(&self) -> u32
        ensures { result < 3 }
    {
        let first = self.first.stands != Stands::Open;
        let second = self.second.stands != Stands::Open;
        if first && second {
            2
        } else if first || second {
            1
        } else {
            0
        }
    }
}

/// What a pass holds between its steps: an ask of a session, and the hand for its result.
struct Held {
    session: u32,
    ask: Ask,
    hand: Hand,
}

/// Looks for the outcome of a session.
fn looks<'a, B: Bench>(
    desk: &Desk<'a, B>,
    artefacts: &ArtefactBook,
    bench: &B,
    pass: &mut Pass<'a, B>,
    session: u32,
    accounts: &mut Accounts,
)
    requires fit { IsFit bench.now artefacts.now desk.now pass.old }
    requires range { session < length desk.now }
    ensures fit { IsFit bench.now artefacts.now desk.now pass.new }
    ensures held { (hand : Hand) → IsHeld pass.old hand → IsHeld pass.new hand }
    ensures question { (hand : Hand) (ask : Question) → IsQuestion pass.old hand ask → IsQuestion pass.new hand ask }
{
    let outcome = finds(desk, artefacts, bench, pass, session);
    accounts.looks(session, &outcome);
}

/// Makes a turn at a session.
fn turns<'a, B: Bench>(
    desk: &Desk<'a, B>,
    artefacts: &ArtefactBook,
    bench: &B,
    pass: &mut Pass<'a, B>,
    session: u32,
    accounts: &mut Accounts,
) -> Option<Held>
    requires fit { IsFit bench.now artefacts.now desk.now pass.old }
    requires range { session < length desk.now }
    ensures fit { IsFit bench.now artefacts.now desk.now pass.new }
    ensures held { IfSome result (λ held. IsHeld pass.new held.hand × IsQuestion pass.new held.hand held.ask) }
{
    match tries(desk, artefacts, bench, pass, session) {
        Turned::Moved => {
            accounts.tells(session, Told::Moved);
            None
        }
        Turned::ToMeasure(ask, hand) => {
            accounts.tells(session, Told::Asked(ask.event));
            Some(Held { session, ask, hand })
        }
        Turned::Waiting => {
            accounts.tells(session, Told::Waiting);
            None
        }
        Turned::Finished => {
            accounts.tells(session, Told::Finished);
            None
        }
        Turned::Busy => {
            accounts.tells(session, Told::Busy);
            None
        }
    }
}

/// Measures and records what a pass holds.
fn settles<'a, B: Bench, R: Wait>(
    rt: &R,
    desk: &Desk<'a, B>,
    artefacts: &ArtefactBook,
    bench: &B,
    pass: &mut Pass<'a, B>,
    held: Held,
    accounts: &mut Accounts,
)
    requires fit { IsFit bench.now artefacts.now desk.now pass.old }
    requires held { IsHeld pass.old held.hand }
    requires question { IsQuestion pass.old held.hand held.ask }
    ensures { IsFit bench.now artefacts.now desk.now pass.new }
{
    let Held { session, ask, hand } = held;
    let kept = records(rt, desk, artefacts, bench, pass, &ask, hand);
    accounts.keeps(session, ask.event, kept);
}

/// A step of a pass: it looks for an outcome, or settles what it holds, or else makes a turn.
fn step<'a, B: Bench, R: Wait>(
    rt: &R,
    desk: &Desk<'a, B>,
    artefacts: &ArtefactBook,
    bench: &B,
    pass: &mut Pass<'a, B>,
    held: Option<Held>,
    session: u32,
    is_look: bool,
    accounts: &mut Accounts,
) -> Option<Held>
    requires fit { IsFit bench.now artefacts.now desk.now pass.old }
    requires range { session < length desk.now }
    requires held { IfSome held (λ held. IsHeld pass.old held.hand × IsQuestion pass.old held.hand held.ask) }
    ensures fit { IsFit bench.now artefacts.now desk.now pass.new }
    ensures held { IfSome result (λ held. IsHeld pass.new held.hand × IsQuestion pass.new held.hand held.ask) }
{
    match held {
        Some(held) => {
            if is_look {
                looks(desk, artefacts, bench, pass, session, accounts);
                Some(held)
            } else {
                settles(rt, desk, artefacts, bench, pass, held, accounts);
                None
            }
        }
        None => {
            if is_look {
                looks(desk, artefacts, bench, pass, session, accounts);
                None
            } else {
                turns(desk, artefacts, bench, pass, session, accounts)
            }
        }
    }
}

/// A pass, and what it holds.
struct Player<'a, B: Bench> {
    pass: Pass<'a, B>,
    held: Option<Held>,
}

/// A step of a pass, which may hold something.
fn goes_on<'a, B: Bench, R: Wait>(
    rt: &R,
    desk: &Desk<'a, B>,
    artefacts: &ArtefactBook,
    bench: &B,
    player: Player<'a, B>,
    session: u32,
    is_look: bool,
    accounts: &mut Accounts,
) -> Player<'a, B>
    requires fit { IsFit bench.now artefacts.now desk.now player.pass }
    requires range { session < length desk.now }
    requires held { IfSome player.held (λ held. IsHeld player.pass held.hand × IsQuestion player.pass held.hand held.ask) }
    ensures fit { IsFit bench.now artefacts.now desk.now result.pass }
    ensures held { IfSome result.held (λ held. IsHeld result.pass held.hand × IsQuestion result.pass held.hand held.ask) }
{
    let Player { mut pass, held } = player;
    let held = step(
        rt, desk, artefacts, bench, &mut pass, held, session, is_look, accounts,
    );
    Player { pass, held }
}

/// The last step of a pass.
fn ends<'a, B: Bench, R: Wait>(
    rt: &R,
    desk: &Desk<'a, B>,
    artefacts: &ArtefactBook,
    bench: &B,
    player: Player<'a, B>,
    accounts: &mut Accounts,
)
    requires fit { IsFit bench.now artefacts.now desk.now player.pass }
    requires held { IfSome player.held (λ held. IsHeld player.pass held.hand × IsQuestion player.pass held.hand held.ask) }
{
    let Player { mut pass, held } = player;
    match held {
        Some(held) => settles(rt, desk, artefacts, bench, &mut pass, held, accounts),
        None => {}
    }
}

/// The three passes.
struct Players<'a, B: Bench> {
    a: Player<'a, B>,
    b: Player<'a, B>,
    c: Player<'a, B>,
}

/// A step of the pass, at the session, and of the kind that are drawn.
fn round<'a, B: Bench, R: Wait>(
    rt: &R,
    desk: &Desk<'a, B>,
    artefacts: &ArtefactBook,
    bench: &B,
    players: Players<'a, B>,
    drawn: u32,
    accounts: &mut Accounts,
) -> Players<'a, B>
    requires two { length desk.now ≡ 2 }
    requires fit_a { IsFit bench.now artefacts.now desk.now players.a.pass }
    requires fit_b { IsFit bench.now artefacts.now desk.now players.b.pass }
    requires fit_c { IsFit bench.now artefacts.now desk.now players.c.pass }
    requires held_a { IfSome players.a.held (λ held. IsHeld players.a.pass held.hand × IsQuestion players.a.pass held.hand held.ask) }
    requires held_b { IfSome players.b.held (λ held. IsHeld players.b.pass held.hand × IsQuestion players.b.pass held.hand held.ask) }
    requires held_c { IfSome players.c.held (λ held. IsHeld players.c.pass held.hand × IsQuestion players.c.pass held.hand held.ask) }
    ensures fit_a { IsFit bench.now artefacts.now desk.now result.a.pass }
    ensures fit_b { IsFit bench.now artefacts.now desk.now result.b.pass }
    ensures fit_c { IsFit bench.now artefacts.now desk.now result.c.pass }
    ensures held_a { IfSome result.a.held (λ held. IsHeld result.a.pass held.hand × IsQuestion result.a.pass held.hand held.ask) }
    ensures held_b { IfSome result.b.held (λ held. IsHeld result.b.pass held.hand × IsQuestion result.b.pass held.hand held.ask) }
    ensures held_c { IfSome result.c.held (λ held. IsHeld result.c.pass held.hand × IsQuestion result.c.pass held.hand held.ask) }
{
    let is_look = (drawn >> 16) % 8 == 0;
    let session = (drawn >> 20) % 2;
    let which = (drawn >> 24) % 3;
    let Players { a, b, c } = players;
    if which == 0 {
        let a = goes_on(rt, desk, artefacts, bench, a, session, is_look, accounts);
        return Players { a, b, c };
    }
    if which == 1 {
        let b = goes_on(rt, desk, artefacts, bench, b, session, is_look, accounts);
        return Players { a, b, c };
    }
    let c = goes_on(rt, desk, artefacts, bench, c, session, is_look, accounts);
    Players { a, b, c }
}

/// A desk of two sessions, and its three passes.
#[derive(Drop)]
pub(crate) struct Trio<'a, B: Bench> {
    pub(crate) desk: Desk<'a, B>,
    pub(crate) a: Pass<'a, B>,
    pub(crate) b: Pass<'a, B>,
    pub(crate) c: Pass<'a, B>,
}

/// Two sessions, just opened.
fn two_sessions<'a, B: Bench>(
    alloc: Global,
    first: &'a Checked,
    second: &'a Checked,
    places: &'a Places,
    artefacts: &'a ArtefactBook,
    bench: &'a B,
) -> Result<Vec<Session<'a, B>>, NoMemory>
    requires first { IsCheckedAgainst (session_of first.now) places.now }
    requires second { IsCheckedAgainst (session_of second.now) places.now }
    ensures count { IfOk result (λ sessions. length sessions.items ≡ 2) }
    ensures just { IfOk result (λ sessions. AreJustOpened sessions.items) }
    ensures over { IfOk result (λ sessions. AreOpenedOver bench.now artefacts.now sessions.items) }
{
    let one = Session::open(alloc, first, places, artefacts, bench)?;
    let two = Session::open(alloc, second, places, artefacts, bench)?;
    let mut sessions = Vec::with_capacity(alloc, 2)?;
    sessions.push_reserved(one);
    sessions.push_reserved(two);
    Ok(sessions)
}

pub(crate) fn three_passes<'a, B: Bench>(
    alloc: Global,
    first: &'a Checked,
    second: &'a Checked,
    places: &'a Places,
    artefacts: &'a ArtefactBook,
    bench: &'a B,
) -> Result<Trio<'a, B>, NoMemory>
    requires first { IsCheckedAgainst (session_of first.now) places.now }
    requires second { IsCheckedAgainst (session_of second.now) places.now }
    ensures desk { IfOk result (λ t. length t.desk ≡ 2) }
    ensures a { IfOk result (λ t. IsFit bench.now artefacts.now t.desk t.a) }
    ensures b { IfOk result (λ t. IsFit bench.now artefacts.now t.desk t.b) }
    ensures c { IfOk result (λ t. IsFit bench.now artefacts.now t.desk t.c) }
{
    let sessions = two_sessions(alloc, first, second, places, artefacts, bench)?;
    let (desk, mut passes) = seated(alloc, sessions, 3, artefacts, bench)?;
    let c = last(&desk, artefacts, bench, &mut passes)?;
    let b = last(&desk, artefacts, bench, &mut passes)?;
    let a = last(&desk, artefacts, bench, &mut passes)?;
    Ok(Trio { desk, a, b, c })
}

/// The steps of a number, drawn from it.
fn interleaves<'a, B: Bench, R: Wait>(
    rt: &R,
    table: Trio<'a, B>,
    artefacts: &ArtefactBook,
    bench: &B,
    number: u32,
    accounts: &mut Accounts,
)
    requires desk { length table.desk ≡ 2 }
    requires a { IsFit bench.now artefacts.now table.desk table.a }
    requires b { IsFit bench.now artefacts.now table.desk table.b }
    requires c { IsFit bench.now artefacts.now table.desk table.c }
{
    let Trio { desk, a, b, c } = table;
    let mut players = Players {
        a: Player {
            pass: a,
            held: None,
        },
        b: Player {
            pass: b,
            held: None,
        },
        c: Player {
            pass: c,
            held: None,
        },
    };
    let mut drawn = number;
    for _ in 0..120 {
        drawn = drawn.wrapping_mul(1664525).wrapping_add(1013904223);
        players = round(rt, &desk, artefacts, bench, players, drawn, accounts);
    }
    let Players { a, b, c } = players;
    ends(rt, &desk, artefacts, bench, a, accounts);
    ends(rt, &desk, artefacts, bench, b, accounts);
    ends(rt, &desk, artefacts, bench, c, accounts);
}

/// A row for an event: its number as the answer, a fault, or want of memory.
fn row(rt: &impl Abort, nonce: [u8; 16], event: u8, means: Means) -> TableRow {
    let outcome = match means {
        Means::Answers => TableResult::Answer(Answer::of(&[event]).expect(rt, "an answer")),
        Means::Fails => TableResult::Fault(BenchFault::Broken(7)),
        Means::Starves => TableResult::Starve,
    };
    TableRow {
        nonce,
        event: event as u32,
        outcome,
    }
}

/// What happens at a measurement, by a number.
fn means_of(number: u32) -> Means {
    match number % 8 {
        0 => Means::Fails,
        1 => Means::Starves,
        _ => Means::Answers,
    }
}

/// The bench that does so at the two measurements of the one session, and of the other.
pub(crate) fn bench_of(
    rt: &impl Abort,
    alloc: Global,
    first: [Means; 2],
    second: [Means; 2],
) -> Result<TableBench, Fail> {
    let [first_left, first_right] = first;
    let [second_left, second_right] = second;
    let mut rows = Vec::new(alloc);
    rows.push(row(rt, NONCE, 1, first_left))?;
    rows.push(row(rt, NONCE, 2, first_right))?;
    rows.push(row(rt, OTHER_NONCE, 1, second_left))?;
    rows.push(row(rt, OTHER_NONCE, 2, second_right))?;
    Ok(TableBench::of(rows))
}

#[test]
fn every_answer_is_what_all_passes_made_in_two_hundred_orders(rt: HostRuntime) -> Result<(), Fail> {
    let alloc = rt.alloc();
    let places = bank_and_q(&rt, alloc)?;
    let artefacts = ArtefactBook::empty(alloc);
    let parallel = two_arms(&rt, alloc, true)?;
    let sequence = two_arms(&rt, alloc, false)?;
    let first = checked(&rt, &places, "bank", NONCE, parallel)?;
    let second = checked(&rt, &places, "bank", OTHER_NONCE, sequence)?;
    let mut over: u32 = 0;
    for number in 0..200 {
        let one = [means_of(number), means_of(number / 3)];
        let two = [means_of(number / 7), means_of(number / 5)];
        let mut accounts = Accounts {
            first: Account::new(alloc, true, one),
            second: Account::new(alloc, false, two),
            agree: true,
        };
        let bench = bench_of(&rt, alloc, one, two)?;
        let table = three_passes(alloc, &first, &second, &places, &artefacts, &bench)?;
        interleaves(&rt, table, &artefacts, &bench, number, &mut accounts);
        assert!(rt; accounts.agree);
        over = over.wrapping_add(accounts.over());
    }
    assert_eq!(rt; over, 400);
    Ok(())
}
