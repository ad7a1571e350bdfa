ghost use Rattle.std.specs.Prelude.{IfOk};
ghost use Rattle.place_check.specs.Places.{keys_of};
ghost use Rattle.place_check.specs.Session.{IsCheckedAgainst, session_of};
ghost use Rattle.session_model.specs.Recorded.{recorded};
ghost use Rattle.load_runner.specs.Run.{IsRunRecord};

use bench_trait::Bench;
use job_reader::Job;
use phrase_tree::NoMemory;
use place_check::Checked;
use session_model::Record;
use session_walk::walk_sessions;
use std::alloc::Global;
use std::slice;

/// The record of a session of a job that is played to its end by itself: the schedule of 0 plays sessions one
/// after the other, so it plays each as it would play that one alone. The session is let go before the call
/// returns.
pub(crate) fn record_alone<B: Bench>(
    alloc: Global,
    job: &Job,
    checked: &Checked,
    bench: &B,
) -> Result<Record, NoMemory>
    requires { IsCheckedAgainst (session_of checked.now) job.now.places }
    ensures { IfOk result (λ found. IsRunRecord
        (B.gives bench.now job.now.artefacts)
        (B.fails bench.now job.now.artefacts)
        (keys_of job.now.places)
        (session_of checked.now)
        (recorded found)) }
{
    let one = slice::from_ref(checked);
    let mut records = walk_sessions(alloc, one, &job.places, &job.artefacts, bench, 0)?;
    match records.pop() {
        Some(found) => Ok(found),
        None => unreachable!(),
    }
}
