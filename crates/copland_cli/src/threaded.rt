ghost use Rattle.std.specs.Prelude.{◌≡◌, ◌↔◌};
ghost use Rattle.copland_cli.specs.Accepting.{AcceptsExactly};
ghost use Rattle.copland_cli.specs.Answer.{HasCause, IsAnswer, IsExact, IsTooLongExactly};
ghost use Rattle.copland_cli.specs.Attested.{AttestsEachJob};
ghost use Rattle.copland_cli.specs.Commands.{IsAny};
ghost use Rattle.copland_cli.specs.Outcome.{IsDecided};
ghost use Rattle.copland_cli.specs.Port.{port};
ghost use Rattle.copland_cli.specs.Words.{IsBadWords, texts};

use crate::attest::attest;
use crate::plain::{conclude, plain_top};
use crate::status::Status;
use crate::words::workers_in;
use appraiser::shape_law;
use bench_trait::Bench;
use byte_ports::{Sink, Source};
use std::alloc::Global;
use std::sync::Wait;
use std::thread::Threads;
use stream_appraiser::acceptance_law;

/// Carries out a command: `attest` by workers on threads, and every other one as `plain_top` does. Only
/// `attest` may wait.
pub fn top<R: Threads + Wait + Sync, S: Source, K: Sink, B: Bench + Sync>(
    rt: &R,
    alloc: Global,
    words: &[String],
    source: &mut S,
    sink: &mut K,
    bench: &B,
) -> Status
    // The headline. For every accepted job, number of workers and order of their turns, `attest` writes for
    // each session that no measurer failed the bundle of its phrase evaluated on one thread with the
    // answers written beside it, of the phrase's shape, with a trace of each event once in the event
    // system's order, each answer given to that session's own question.
    ensures headline { AttestsEachJob (B.gives bench.now) (B.fails bench.now) (texts words.now)
        (port S.left S.faults source.old source.new)
        (port K.taken K.faults sink.old sink.new)
        result }

    // Among accepted jobs with a bundle, `appraise` is good exactly where the bundle is: each measurement of the
    // phrase's shape has a reference, none under a hash has several, and the bytes are the bundle, of version 1
    // or of version 2 with the marks of the shape, of the value expected on answers that are references.
    ensures accepts { AcceptsExactly (texts words.now)
        (port S.left S.faults source.old source.new)
        (port K.taken K.faults sink.old sink.new)
        result }

    // Some outcome, decided by words, source and bench, and concluded at the sink.
    ensures answer { IsAnswer
        (IsDecided IsAny (B.gives bench.now) (B.fails bench.now) (B.starves bench.now) (texts words.now)
        (port S.left S.faults source.old source.new))
        (port K.taken K.faults sink.old sink.new)
        result }

    // The same by statuses: what each says was decided and written.
    ensures cause { HasCause
        (IsDecided IsAny (B.gives bench.now) (B.fails bench.now) (B.starves bench.now) (texts words.now)
        (port S.left S.faults source.old source.new))
        (port K.taken K.faults sink.old sink.new)
        result }

    // Bad words are told apart from all else, whatever the ports do.
    ensures bad_words { (result ≡ Status.BadWords) ↔ IsBadWords IsAny (texts words.now) }

    // Where the source met no fault and memory sufficed, each answer comes where its input calls for it; that of
    // `audit`, if for the question of each result in the transcript the bench gives one result at most.
    ensures exact { IsExact IsAny (B.gives bench.now) (B.fails bench.now) (B.starves bench.now) (texts words.now)
        (port S.left S.faults source.old source.new)
        (port K.taken K.faults sink.old sink.new)
        result }

    // A source that tells its bytes gave too many of them exactly where the answer says so.
    ensures too_long { IsTooLongExactly IsAny (texts words.now)
        (port S.left S.faults source.old source.new)
        result }
{
    acceptance_law();
    shape_law();
    carry_out(rt, alloc, words, source, sink, bench)
}

fn carry_out<R: Threads + Wait + Sync, S: Source, K: Sink, B: Bench + Sync>(
    rt: &R,
    alloc: Global,
    words: &[String],
    source: &mut S,
    sink: &mut K,
    bench: &B,
) -> Status
    ensures { IsAnswer
        (IsDecided IsAny (B.gives bench.now) (B.fails bench.now) (B.starves bench.now) (texts words.now)
        (port S.left S.faults source.old source.new))
        (port K.taken K.faults sink.old sink.new)
        result }
{
    match workers_in(words) {
        Some(workers) => {
            let outcome = attest(rt, alloc, workers, source, bench);
            conclude(sink, &outcome)
        }
        None => plain_top(alloc, words, source, sink, bench),
    }
}
