//! Workers, and the records of what they did.
ghost use Rattle.std.specs.Prelude.{◌≡◌, ◌+◌, ◌<◌, ◌≤◌, All, IfOk, OnOk, length};
ghost use Rattle.session_desk.specs.Opening.{IsFit};
ghost use Rattle.session_desk.specs.Answers.{IsAt};
ghost use Rattle.manager_runner.specs.Ended.{HasRecord, AreRecords};
ghost use Rattle.manager_runner.specs.Staying.{StaysBut, StaysOutside};

use crate::bell::Bell;
use crate::fan::{Work, fan_out};
use crate::rounds::{drive, drive_from};
use bench_trait::{ArtefactBook, Bench};
use phrase_tree::NoMemory;
use session_desk::{Desk, DeskError, Pass};
use session_model::Record;
use std::alloc::Global;
use std::sync::Wait;
use std::thread;
use std::thread::Threads;

/// To drive the pass.
#[derive(Clone, Copy)]
struct Driving;

impl<'a, B: Bench> Work<Desk<'a, B>, B, Pass<'a, B>> for Driving {
    ghost use Rattle.session_desk.specs.Opening.{IsFit};

    ghost ready = { λ desk bench artefacts pass. IsFit bench artefacts desk pass };

    fn work<R: Wait>(
        &self,
        rt: &R,
        desk: &Desk<'a, B>,
        artefacts: &ArtefactBook,
        bench: &B,
        bell: &Bell,
        pass: &mut Pass<'a, B>,
    ) {
        drive_from(rt, desk, artefacts, bench, bell, pass);
    }
}

/// Drives each worker's pass by a worker of its own, and the closer when they have returned, which then takes
/// the record of each session, in order. Where a thread can't be started, the calling one does its work. An
/// error is want of memory, and always comes where a session starved; the sessions stand where their moves
/// left them. The call may wait.
pub fn run<'a, R: Threads + Wait + Sync, B: Bench + Sync>(
    rt: &R,
    alloc: Global,
    desk: &Desk<'a, B>,
    artefacts: &ArtefactBook,
    bench: &B,
    workers: &mut [Pass<'a, B>],
    closer: &mut Pass<'a, B>,
) -> Result<Vec<Record>, NoMemory>
    requires some { 0 < length workers.old }
    requires workers { All (IsFit bench.now artefacts.now desk.now) workers.old }
    requires closer { IsFit bench.now artefacts.now desk.now closer.old }
    ensures closer { IsFit bench.now artefacts.now desk.now closer.new }
    ensures stays { StaysOutside 0 (length desk.now) closer.old closer.new }
    ensures records { IfOk result (λ records. AreRecords
        (length desk.now)
        (HasRecord
        (λ opening ask answer. B.gives opening.bench.now opening.artefacts.now ask answer)
        (λ opening ask fault. B.fails opening.bench.now opening.artefacts.now ask fault)
        (λ opening ask. B.starves opening.bench.now opening.artefacts.now ask))
        records.items
        closer.new.views) }
{
    fan_out::<R, Driving, Desk<'a, B>, B, Pass<'a, B>>(
        rt, &Driving, desk, artefacts, bench, workers,
    );
    drive(rt, desk, artefacts, bench, closer);
    records(rt, alloc, desk, artefacts, bench, closer)
}

/// The records of all sessions, in order.
fn records<'a, R: Wait, B: Bench>(
    rt: &R,
    alloc: Global,
    desk: &Desk<'a, B>,
    artefacts: &ArtefactBook,
    bench: &B,
    pass: &mut Pass<'a, B>,
) -> Result<Vec<Record>, NoMemory>
    requires fit { IsFit bench.now artefacts.now desk.now pass.old }
    ensures fit { IsFit bench.now artefacts.now desk.now pass.new }
    ensures stays { StaysOutside 0 (length desk.now) pass.old pass.new }
    ensures records { IfOk result (λ records. AreRecords
        (length desk.now)
        (HasRecord
        (λ opening ask answer. B.gives opening.bench.now opening.artefacts.now ask answer)
        (λ opening ask fault. B.fails opening.bench.now opening.artefacts.now ask fault)
        (λ opening ask. B.starves opening.bench.now opening.artefacts.now ask))
        records.items
        pass.new.views) }
{
    let mut records = Vec::new(alloc);
    for session in 0..desk.session_count() {
        let found = match found_at(rt, desk, artefacts, bench, session, pass) {
            Ok(found) => found,
            Err(_) => return Err(NoMemory),
        };
        match records.push(found) {
            Ok(()) => {}
            Err(_) => return Err(NoMemory),
        }
    }
    Ok(records)
}

/// The record of a session, by its index, as soon as it is to be had.
fn found_at<'a, R: Wait, B: Bench>(
    rt: &R,
    desk: &Desk<'a, B>,
    artefacts: &ArtefactBook,
    bench: &B,
    session: u32,
    pass: &mut Pass<'a, B>,
) -> Result<Record, NoMemory>
    requires range { session < length desk.now }
    requires fit { IsFit bench.now artefacts.now desk.now pass.old }
    ensures fit { IsFit bench.now artefacts.now desk.now pass.new }
    ensures stays { StaysBut session pass.old pass.new }
    ensures found { IfOk result (λ found. IsAt
        session
        (HasRecord
        (λ opening ask answer. B.gives opening.bench.now opening.artefacts.now ask answer)
        (λ opening ask fault. B.fails opening.bench.now opening.artefacts.now ask fault)
        (λ opening ask. B.starves opening.bench.now opening.artefacts.now ask)
        found)
        pass.new.views) }
{
    for _ in rt.forever() {
        match desk.outcome(session, pass) {
            Ok(found) => return Ok(found),
            Err(error) => match error {
                DeskError::NoMemory => return Err(NoMemory),
                DeskError::NotFinished => {}
                DeskError::Busy => {}
            },
        }
        thread::yield_now();
    }
    unreachable!()
}
