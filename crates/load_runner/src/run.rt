ghost use Rattle.std.specs.Prelude.{◌≤◌, IfOk, OnOk, length};
ghost use Rattle.place_check.specs.Session.{session_of};
ghost use Rattle.job_reader.specs.Accepted.{HasCheckedSessions, job_view};
ghost use Rattle.load_maker.specs.Answered.{HaveAnswers};
ghost use Rattle.load_maker.specs.Job.{made_job};
ghost use Rattle.load_runner.specs.Bundled.{IsFit};
ghost use Rattle.load_runner.specs.Run.{IsRunOf};
ghost use Rattle.load_runner.specs.Tally.{Counts, HasRoom};

use crate::alone::record_alone;
use crate::appraisal::is_accepted;
use crate::figures::Figures;
use crate::tally::Tally;
use bench_trait::Bench;
use job_reader::Job;
use load_maker::{load_job, made_questions_are_answered};
use phrase_tree::NoMemory;
use place_check::Checked;
use std::alloc::Global;

/// Makes the job of a number, runs its sessions over a bench one after the other, as the schedule of 0 plays
/// them, and appraises the bundle of each that is done. An error is want of memory, also of the bench. It holds
/// the job, and of one session at a time what its run, its record and its appraisal take; its time is that of
/// these.
pub fn run_load<B: Bench>(alloc: Global, number: u32, bench: &B) -> Result<Figures, NoMemory>
    ensures { IfOk result (λ figures. IsRunOf
        (B.gives bench.now (made_job number).artefacts)
        (B.fails bench.now (made_job number).artefacts)
        (made_job number)
        figures) }
{
    made_questions_are_answered();
    let job = load_job(alloc, number)?;
    run_sessions(alloc, &job, bench)
}

/// Runs the sessions of a job, and counts them.
fn run_sessions<B: Bench>(alloc: Global, job: &Job, bench: &B) -> Result<Figures, NoMemory>
    requires checked { HasCheckedSessions job.now }
    requires answered { HaveAnswers (job_view job.now) }
    requires few { length job.now.sessions.items ≤ 256 }
    ensures { IfOk result (λ figures. IsRunOf
        (B.gives bench.now job.now.artefacts)
        (B.fails bench.now job.now.artefacts)
        (job_view job.now)
        figures) }
{
    let mut tally = Tally::none();
    for checked in job.sessions.as_slice() {
        run_one(alloc, job, checked, bench, &mut tally)?;
    }
    Ok(tally.figures(job.sessions.len() as u32))
}

/// Runs a session of a job, and counts it.
fn run_one<B: Bench>(
    alloc: Global,
    job: &Job,
    checked: &Checked,
    bench: &B,
    tally: &mut Tally,
) -> Result<(), NoMemory>
    requires fit { IsFit (job_view job.now) (session_of checked.now) }
    requires room { HasRoom tally.old }
    ensures { OnOk result (Counts
        (B.gives bench.now job.now.artefacts)
        (B.fails bench.now job.now.artefacts)
        (job_view job.now)
        (session_of checked.now)
        tally.old
        tally.new) }
{
    let found = record_alone(alloc, job, checked, bench)?;
    let good = is_accepted(alloc, job, checked, &found)?;
    tally.count(checked.phrase().events(), &found, good);
    Ok(())
}
