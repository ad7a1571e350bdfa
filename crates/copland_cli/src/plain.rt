ghost use Rattle.std.specs.Prelude.{◌≡◌, ◌↔◌};
ghost use Rattle.report_text.specs.Refusal.{line_of};
ghost use Rattle.copland_cli.specs.Accepting.{AcceptsExactly};
ghost use Rattle.copland_cli.specs.Answer.{HasCause, IsAnswer, IsExact, IsTooLongExactly};
ghost use Rattle.copland_cli.specs.Commands.{IsPlain};
ghost use Rattle.copland_cli.specs.Concluded.{IsConcluded};
ghost use Rattle.copland_cli.specs.Outcome.{IsDecided};
ghost use Rattle.copland_cli.specs.Port.{TookLine, port};
ghost use Rattle.copland_cli.specs.Status.{status_of};
ghost use Rattle.copland_cli.specs.Words.{IsBadWords, texts};

use crate::outcome::{Outcome, decide};
use crate::status::{Status, status_of};
use appraiser::shape_law;
use bench_trait::Bench;
use byte_ports::{Sink, Source, write_all_of};
use report_text::{Refusal, refusal_line};
use std::alloc::Global;
use stream_appraiser::acceptance_law;

/// Carries out a command on one thread: reads the job from the source, and writes one report, or the
/// one line of a refusal, to the sink. It always returns. `attest` needs threads, so it is not a
/// command here. The report is built whole before the first write, and each write offers all that is
/// left.
pub fn plain_top<S: Source, K: Sink, B: Bench>(
    alloc: Global,
    words: &[String],
    source: &mut S,
    sink: &mut K,
    bench: &B,
) -> Status
    // Among accepted jobs with a bundle, `appraise` is good exactly where the bundle is: each measurement of the
    // phrase's shape has a reference, none under a hash has several, and the bytes are the bundle, of version 1
    // or of version 2 with the marks of the shape, of the value expected on answers that are references.
    ensures accepts { AcceptsExactly (texts words.now)
        (port S.left S.faults source.old source.new)
        (port K.taken K.faults sink.old sink.new)
        result }

    // Some outcome, decided by words, source and bench, and concluded at the sink.
    ensures answer { IsAnswer
        (IsDecided IsPlain (B.gives bench.now) (B.fails bench.now) (B.starves bench.now) (texts words.now)
        (port S.left S.faults source.old source.new))
        (port K.taken K.faults sink.old sink.new)
        result }

    // The same by statuses: what each says was decided and written.
    ensures cause { HasCause
        (IsDecided IsPlain (B.gives bench.now) (B.fails bench.now) (B.starves bench.now) (texts words.now)
        (port S.left S.faults source.old source.new))
        (port K.taken K.faults sink.old sink.new)
        result }

    // Bad words are told apart from all else, whatever the ports do.
    ensures bad_words { (result ≡ Status.BadWords) ↔ IsBadWords IsPlain (texts words.now) }

    // Where the source met no fault and memory sufficed, each answer comes where its input calls for it; that of
    // `audit`, if for the question of each result in the transcript the bench gives one result at most.
    ensures exact { IsExact IsPlain (B.gives bench.now) (B.fails bench.now) (B.starves bench.now) (texts words.now)
        (port S.left S.faults source.old source.new)
        (port K.taken K.faults sink.old sink.new)
        result }

    // A source that tells its bytes gave too many of them exactly where the answer says so.
    ensures too_long { IsTooLongExactly IsPlain (texts words.now)
        (port S.left S.faults source.old source.new)
        result }
{
    acceptance_law();
    shape_law();
    let outcome = decide(alloc, words, source, bench);
    conclude(sink, &outcome)
}

/// Refuses a run: writes the refusal's line to the sink, and answers its status.
pub fn refuse<K: Sink>(sink: &mut K, refusal: &Refusal) -> Status
    ensures status { result ≡ status_of refusal.now }
    ensures line { TookLine (port K.taken K.faults sink.old sink.new) (line_of refusal.now) }
{
    let line = refusal_line(refusal);
    let _ = write_all_of(sink, line.bytes());
    status_of(refusal)
}

/// Writes what was decided, and answers it.
pub(crate) fn conclude<K: Sink>(sink: &mut K, outcome: &Outcome) -> Status
    ensures { IsConcluded (port K.taken K.faults sink.old sink.new) outcome.now result }
{
    match outcome {
        Outcome::Refused(refusal) => refuse(sink, refusal),
        Outcome::Reported(report) => match write_all_of(sink, report.text.items()) {
            Ok(()) => report.ending.status(),
            Err(_) => Status::WriteFault,
        },
    }
}
