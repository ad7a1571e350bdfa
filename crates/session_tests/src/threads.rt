//! Two threads drive one desk, each by its pass, and a third pass finds the records of its sessions.
ghost use Rattle.std.specs.Prelude.{◌≡◌, length};
ghost use Rattle.session_desk.specs.Opening.{IsFit};

use crate::desks::{finds, turns};
use crate::fixture::{NONCE, OF_PARALLEL, OF_SEQUENCE, OTHER_NONCE, bank_and_q, checked, two_arms};
use crate::interleavings::{Means, Trio, bench_of, three_passes};
use bench_trait::{ArtefactBook, Bench};
use session_desk::{Desk, DeskError, Pass};
use session_model::Record;
use std::sync::Wait;
use std::test::Fail;
use std::thread;
use std::thread::{Threads, join};

/// What a pass may do on a thread of its own.
trait Work<D, B, P> {
    ghost use Rattle.std.specs.Prelude.{List};
    ghost use Rattle.bench_trait.specs.declared.artefacts.Artefact.{Artefact};

    /// The pass may do it at this desk, by this bench over these artefacts.
    ghost ready: { D → B → List Artefact → P → Type 0 };

    /// Does it, and says how many results were kept.
    fn work<R: Wait>(
        &self,
        rt: &R,
        desk: &D,
        artefacts: &ArtefactBook,
        bench: &B,
        pass: &mut P,
    ) -> u32
        requires { ready desk.now bench.now artefacts.now pass.old };
}

/// Lets two passes do it at once.
fn by_two<R: Threads + Wait + Sync, W: Work<D, B, P> + Sync, D: Sync, B: Sync, P: Send>(
    rt: &R,
    work: &W,
    desk: &D,
    artefacts: &ArtefactBook,
    bench: &B,
    one: &mut P,
    two: &mut P,
) -> (u32, u32)
    requires one { W.ready desk.now bench.now artefacts.now one.old }
    requires two { W.ready desk.now bench.now artefacts.now two.old }
{
    join(
        rt,
        || work.work(rt, desk, artefacts, bench, one),
        || work.work(rt, desk, artefacts, bench, two),
    )
}

/// To move the two sessions of a desk on until they are over.
#[derive(Clone, Copy)]
struct Driving;

impl<'a, B: Bench> Work<Desk<'a, B>, B, Pass<'a, B>> for Driving {
    ghost use Rattle.std.specs.Prelude.{◌≡◌, length};
    ghost use Rattle.session_desk.specs.Opening.{IsFit};

    ghost ready = { λ desk bench artefacts pass. IsFit bench artefacts desk pass × (length desk ≡ 2) };

    fn work<R: Wait>(
        &self,
        rt: &R,
        desk: &Desk<'a, B>,
        artefacts: &ArtefactBook,
        bench: &B,
        pass: &mut Pass<'a, B>,
    ) -> u32 {
        drives(rt, desk, artefacts, bench, pass)
    }
}

/// Moves both sessions on until they are over. How many results were kept.
fn drives<'a, B: Bench, R: Wait>(
    rt: &R,
    desk: &Desk<'a, B>,
    artefacts: &ArtefactBook,
    bench: &B,
    pass: &mut Pass<'a, B>,
) -> u32
    requires fit { IsFit bench.now artefacts.now desk.now pass.old }
    requires two { length desk.now ≡ 2 }
{
    let mut kept: u32 = 0;
    for _ in rt.forever() {
        let first = turns(rt, desk, artefacts, bench, pass, 0);
        let second = turns(rt, desk, artefacts, bench, pass, 1);
        if first == 'k' {
            kept = kept.wrapping_add(1);
        }
        if second == 'k' {
            kept = kept.wrapping_add(1);
        }
        if first == 'f' && second == 'f' {
            break;
        }
        thread::yield_now();
    }
    kept
}

/// How many results two threads record, each with its pass.
fn driven<'a, R: Threads + Wait + Sync, B: Bench + Sync>(
    rt: &R,
    desk: &Desk<'a, B>,
    artefacts: &ArtefactBook,
    bench: &B,
    one: &mut Pass<'a, B>,
    two: &mut Pass<'a, B>,
) -> u32
    requires count { length desk.now ≡ 2 }
    requires one { IsFit bench.now artefacts.now desk.now one.old }
    requires two { IsFit bench.now artefacts.now desk.now two.old }
{
    let (first, second) = by_two::<R, Driving, Desk<'a, B>, B, Pass<'a, B>>(
        rt, &Driving, desk, artefacts, bench, one, two,
    );
    first.wrapping_add(second)
}

/// The number of results that the two threads recorded, and whether both sessions are done as they are to be.
fn ends<'a, R: Threads + Wait + Sync, B: Bench + Sync>(
    rt: &R,
    table: Trio<'a, B>,
    artefacts: &ArtefactBook,
    bench: &B,
) -> (u32, bool)
    requires desk { length table.desk ≡ 2 }
    requires a { IsFit bench.now artefacts.now table.desk table.a }
    requires b { IsFit bench.now artefacts.now table.desk table.b }
    requires c { IsFit bench.now artefacts.now table.desk table.c }
{
    let Trio {
        desk,
        mut a,
        mut b,
        mut c,
    } = table;
    let kept = driven(rt, &desk, artefacts, bench, &mut a, &mut b);
    let first = is_done(&finds(&desk, artefacts, bench, &mut c, 0), OF_PARALLEL);
    let second = is_done(&finds(&desk, artefacts, bench, &mut c, 1), OF_SEQUENCE);
    (kept, first && second)
}

/// Whether a session is done, with this bundle.
fn is_done(outcome: &Result<Record, DeskError>, bundle: &[u8]) -> bool {
    match outcome {
        Ok(record) => match record {
            Record::Done(done) => done.bundle.items() == bundle,
            Record::Failed(_) => false,
        },
        Err(_) => false,
    }
}

#[test]
fn two_threads_drive_one_desk(rt: HostRuntime) -> Result<(), Fail> {
    let alloc = rt.alloc();
    let places = bank_and_q(&rt, alloc)?;
    let artefacts = ArtefactBook::empty(alloc);
    let parallel = two_arms(&rt, alloc, true)?;
    let sequence = two_arms(&rt, alloc, false)?;
    let first = checked(&rt, &places, "bank", NONCE, parallel)?;
    let second = checked(&rt, &places, "bank", OTHER_NONCE, sequence)?;
    let answers = [Means::Answers, Means::Answers];
    let bench = bench_of(&rt, alloc, answers, answers)?;
    let table = three_passes(alloc, &first, &second, &places, &artefacts, &bench)?;
    assert!(rt; ends(&rt, table, &artefacts, &bench) == (4, true));
    Ok(())
}
