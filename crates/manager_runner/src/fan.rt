//! Work on many passes at once.
ghost use Rattle.std.specs.Prelude.{ℕ, ◌<◌, All, length};

use crate::bell::Bell;
use bench_trait::ArtefactBook;
use std::sync::Wait;
use std::thread;
use std::thread::Threads;

/// What is done by each pass.
pub(crate) trait Work<D, B, P> {
    ghost use Rattle.std.specs.Prelude.{List};
    ghost use Rattle.bench_trait.specs.declared.artefacts.Artefact.{Artefact};

    /// The pass may do it at this desk, by this bench over these artefacts.
    ghost ready: { D → B → List Artefact → P → Type 0 };

    fn work<R: Wait>(
        &self,
        rt: &R,
        desk: &D,
        artefacts: &ArtefactBook,
        bench: &B,
        bell: &Bell,
        pass: &mut P,
    )
        requires { ready desk.now bench.now artefacts.now pass.old };
}

/// Lets each pass do it on a thread of its own, where one can be started, and waits for all.
pub(crate) fn fan_out<R: Threads + Wait + Sync, W: Work<D, B, P> + Sync, D: Sync, B: Sync, P: Send>(
    rt: &R,
    work: &W,
    desk: &D,
    artefacts: &ArtefactBook,
    bench: &B,
    passes: &mut [P],
)
    requires some { 0 < length passes.old }
    requires ready { All (W.ready desk.now bench.now artefacts.now) passes.old }
{
    let bell = Bell::new();
    let count = passes.len();
    thread::for_each_mut(
        rt,
        passes,
        count,
        &|_, pass| work.work(rt, desk, artefacts, bench, &bell, pass),
    );
}
