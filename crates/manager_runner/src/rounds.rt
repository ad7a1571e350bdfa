//! The work of one pass.
ghost use Rattle.std.specs.Prelude.{◌≡◌, ◌+◌, ◌<◌, ◌≤◌, true, length};
ghost use Rattle.session_desk.specs.Views.{IsPassOf, openings_of};
ghost use Rattle.session_desk.specs.Opening.{IsFit};
ghost use Rattle.session_desk.specs.Answers.{IsHeld, IsQuestion, IsMeasured, IsAt};
ghost use Rattle.manager_runner.specs.Ended.{HasEnded, AreBetween};
ghost use Rattle.manager_runner.specs.Staying.{StaysOutside, StaysBut};

use crate::bell::{Alone, Rest};
use bench_trait::{ArtefactBook, Ask, Bench, MeasureError};
use evidence_types::Answer;
use session_desk::{Desk, Hand, Pass, Recorded, Turned, measured_law};
use std::sync::Wait;
use std::thread;
use std::thread::Threads;

/// What a visit of sessions, or a turn of one, came to.
#[derive(Clone, Copy, Drop)]
struct Visited {
    /// They have ended, all of them.
    ended: bool,
    /// One of them moved.
    moved: bool,
}

impl Visited {
    /// What two visits came to.
    fn and(self, other: Visited) -> Visited
        ensures { result.ended ≡ true → (self.ended ≡ true) × (other.ended ≡ true) }
    {
        let moved = self.moved || other.moved;
        if self.ended {
            Visited {
                ended: other.ended,
                moved,
            }
        } else {
            Visited {
                ended: false,
                moved,
            }
        }
    }
}

/// Moves the sessions of a desk on by one pass, until the pass has seen the end of each. It may wait for
/// the results of other passes, and then lets other threads run.
pub fn drive<'a, R: Threads + Wait + Sync, B: Bench + Sync>(
    rt: &R,
    desk: &Desk<'a, B>,
    artefacts: &ArtefactBook,
    bench: &B,
    pass: &mut Pass<'a, B>,
)
    requires fit { IsFit bench.now artefacts.now desk.now pass.old }
    ensures fit { IsFit bench.now artefacts.now desk.now pass.new }
    ensures stays { StaysOutside 0 (length desk.now) pass.old pass.new }
    ensures ended { AreBetween
        (HasEnded
        (λ opening ask answer. B.gives opening.bench.now opening.artefacts.now ask answer)
        (λ opening ask fault. B.fails opening.bench.now opening.artefacts.now ask fault)
        (λ opening ask. B.starves opening.bench.now opening.artefacts.now ask))
        0
        (length desk.now)
        pass.new.views }
{
    drive_from(rt, desk, artefacts, bench, &Alone, pass);
}

/// The same, where a worker rests so if a round brought nothing. Each round begins at the session of the
/// pass's number, counted round, so that workers begin at different ones.
pub(crate) fn drive_from<'a, R: Wait, B: Bench, W: Rest>(
    rt: &R,
    desk: &Desk<'a, B>,
    artefacts: &ArtefactBook,
    bench: &B,
    idle: &W,
    pass: &mut Pass<'a, B>,
)
    requires fit { IsFit bench.now artefacts.now desk.now pass.old }
    ensures fit { IsFit bench.now artefacts.now desk.now pass.new }
    ensures stays { StaysOutside 0 (length desk.now) pass.old pass.new }
    ensures ended { AreBetween
        (HasEnded
        (λ opening ask answer. B.gives opening.bench.now opening.artefacts.now ask answer)
        (λ opening ask fault. B.fails opening.bench.now opening.artefacts.now ask fault)
        (λ opening ask. B.starves opening.bench.now opening.artefacts.now ask))
        0
        (length desk.now)
        pass.new.views }
{
    let first = first_of(desk.session_count(), pass.number());
    for _ in rt.forever() {
        let heard = idle.heard(rt);
        let visited = round(rt, desk, artefacts, bench, idle, first, pass);
        if visited.ended {
            return;
        }
        if !visited.moved {
            idle.rest(rt, heard);
        }
    }
    unreachable!()
}

/// The session at which a pass of this number begins: one below their count, if there are any.
fn first_of(count: u32, number: usize) -> u32
    ensures { result ≤ count }
{
    if count == 0 {
        return 0;
    }
    (number % count as usize) as u32
}

/// Visits each session once, from one of them round to it.
fn round<'a, R: Wait, B: Bench, W: Rest>(
    rt: &R,
    desk: &Desk<'a, B>,
    artefacts: &ArtefactBook,
    bench: &B,
    idle: &W,
    first: u32,
    pass: &mut Pass<'a, B>,
) -> Visited
    requires range { first ≤ length desk.now }
    requires fit { IsFit bench.now artefacts.now desk.now pass.old }
    ensures fit { IsFit bench.now artefacts.now desk.now pass.new }
    ensures stays { StaysOutside 0 (length desk.now) pass.old pass.new }
    ensures ended { result.ended ≡ true → AreBetween
        (HasEnded
        (λ opening ask answer. B.gives opening.bench.now opening.artefacts.now ask answer)
        (λ opening ask fault. B.fails opening.bench.now opening.artefacts.now ask fault)
        (λ opening ask. B.starves opening.bench.now opening.artefacts.now ask))
        0
        (length desk.now)
        pass.new.views }
{
    let count = desk.session_count();
    let late = visit_from(rt, desk, artefacts, bench, idle, first, count, pass);
    let early = visit_from(rt, desk, artefacts, bench, idle, 0, first, pass);
    late.and(early)
}

/// Visits the sessions of these indices, from one to below another.
fn visit_from<'a, R: Wait, B: Bench, W: Rest>(
    rt: &R,
    desk: &Desk<'a, B>,
    artefacts: &ArtefactBook,
    bench: &B,
    idle: &W,
    from: u32,
    to: u32,
    pass: &mut Pass<'a, B>,
) -> Visited
    requires order { from ≤ to }
    requires range { to ≤ length desk.now }
    requires fit { IsFit bench.now artefacts.now desk.now pass.old }
    ensures fit { IsFit bench.now artefacts.now desk.now pass.new }
    ensures stays { StaysOutside from to pass.old pass.new }
    ensures ended { result.ended ≡ true → AreBetween
        (HasEnded
        (λ opening ask answer. B.gives opening.bench.now opening.artefacts.now ask answer)
        (λ opening ask fault. B.fails opening.bench.now opening.artefacts.now ask fault)
        (λ opening ask. B.starves opening.bench.now opening.artefacts.now ask))
        from
        to
        pass.new.views }
{
    let mut all = Visited {
        ended: true,
        moved: false,
    };
    for session in from..to {
        let here = visit(rt, desk, artefacts, bench, idle, session, pass);
        all = all.and(here);
    }
    all
}

/// Moves one session on, by its index, for as long as it moves.
fn visit<'a, R: Wait, B: Bench, W: Rest>(
    rt: &R,
    desk: &Desk<'a, B>,
    artefacts: &ArtefactBook,
    bench: &B,
    idle: &W,
    session: u32,
    pass: &mut Pass<'a, B>,
) -> Visited
    requires range { session < length desk.now }
    requires fit { IsFit bench.now artefacts.now desk.now pass.old }
    ensures fit { IsFit bench.now artefacts.now desk.now pass.new }
    ensures stays { StaysBut session pass.old pass.new }
    ensures ended { result.ended ≡ true → IsAt
        session
        (HasEnded
        (λ opening ask answer. B.gives opening.bench.now opening.artefacts.now ask answer)
        (λ opening ask fault. B.fails opening.bench.now opening.artefacts.now ask fault)
        (λ opening ask. B.starves opening.bench.now opening.artefacts.now ask))
        pass.new.views }
{
    let mut moved = false;
    for _ in rt.forever() {
        let here = step(rt, desk, artefacts, bench, idle, session, pass);
        if !here.moved {
            return Visited {
                ended: here.ended,
                moved,
            };
        }
        moved = true;
    }
    unreachable!()
}

/// Takes one turn at a session, and measures where that asks.
fn step<'a, R: Wait, B: Bench, W: Rest>(
    rt: &R,
    desk: &Desk<'a, B>,
    artefacts: &ArtefactBook,
    bench: &B,
    idle: &W,
    session: u32,
    pass: &mut Pass<'a, B>,
) -> Visited
    requires range { session < length desk.now }
    requires fit { IsFit bench.now artefacts.now desk.now pass.old }
    ensures fit { IsFit bench.now artefacts.now desk.now pass.new }
    ensures stays { StaysBut session pass.old pass.new }
    ensures ended { result.ended ≡ true → IsAt
        session
        (HasEnded
        (λ opening ask answer. B.gives opening.bench.now opening.artefacts.now ask answer)
        (λ opening ask fault. B.fails opening.bench.now opening.artefacts.now ask fault)
        (λ opening ask. B.starves opening.bench.now opening.artefacts.now ask))
        pass.new.views }
{
    match desk.turn(session, pass) {
        Turned::Moved => Visited {
            ended: false,
            moved: true,
        },
        Turned::ToMeasure(ask, hand) => {
            measure(rt, desk, artefacts, bench, idle, pass, ask, hand);
            Visited {
                ended: false,
                moved: true,
            }
        }
        Turned::Waiting => Visited {
            ended: false,
            moved: false,
        },
        Turned::Finished => Visited {
            ended: true,
            moved: false,
        },
        Turned::Busy => Visited {
            ended: false,
            moved: false,
        },
    }
}

/// Measures what a turn asked, while the session's turn is free, and records the result by its hand.
fn measure<'a, R: Wait, B: Bench, W: Rest>(
    rt: &R,
    desk: &Desk<'a, B>,
    artefacts: &ArtefactBook,
    bench: &B,
    idle: &W,
    pass: &mut Pass<'a, B>,
    ask: Ask,
    hand: Hand,
)
    requires fit { IsFit bench.now artefacts.now desk.now pass.old }
    requires held { IsHeld pass.old hand }
    requires question { IsQuestion pass.old hand ask }
    ensures fit { IsFit bench.now artefacts.now desk.now pass.new }
    ensures stays { StaysBut hand.session pass.old pass.new }
{
    measured_law(bench, artefacts);
    idle.begin(rt);
    let measured = bench.measure(artefacts, &ask);
    keep(rt, desk, pass, hand, measured);
    idle.end(rt);
}

/// Records a result, as soon as the session's turn is free.
fn keep<'a, R: Wait, B: Bench>(
    rt: &R,
    desk: &Desk<'a, B>,
    pass: &mut Pass<'a, B>,
    hand: Hand,
    measured: Result<Answer, MeasureError>,
)
    requires made { IsPassOf desk.now pass.old }
    requires held { IsHeld pass.old hand }
    requires measured { IsMeasured
        (λ opening ask answer. B.gives opening.bench.now opening.artefacts.now ask answer)
        (λ opening ask fault. B.fails opening.bench.now opening.artefacts.now ask fault)
        (λ opening ask. B.starves opening.bench.now opening.artefacts.now ask)
        pass.old
        hand
        measured }
    ensures made { IsPassOf desk.now pass.new }
    ensures stays { StaysBut hand.session pass.old pass.new }
{
    let mut held = hand;
    let mut kept = measured;
    for _ in rt.forever() {
        match desk.record(pass, held, kept) {
            Recorded::Kept => return,
            Recorded::Ended => return,
            Recorded::Busy(hand_back, measured_back) => {
                held = hand_back;
                kept = measured_back;
            }
        }
        thread::yield_now();
    }
    unreachable!()
}
