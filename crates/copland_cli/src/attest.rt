//! The sessions of a job, run by workers on threads of their own.
ghost use Rattle.std.specs.Prelude.{◌≡◌, ◌≤◌, ◌<◌, ℕ, Some, IfOk, length, map, slice_get};
ghost use Rattle.session_model.specs.Recorded.{recorded};
ghost use Rattle.session_core.specs.declared.opened.Opened.{Opened};
ghost use Rattle.session_desk.specs.Opening.{IsFit};
ghost use Rattle.session_desk.specs.Views.{Known};
ghost use Rattle.job_reader.specs.Accepted.{HasCheckedSessions, job_view};
ghost use Rattle.copland_cli.specs.Attested.{AreAttestations, IsOfAttestations};
ghost use Rattle.copland_cli.specs.Opened.{AreClosed, AreOpenedOf};
ghost use Rattle.copland_cli.specs.Outcome.{IsMeant, IsRun};
ghost use Rattle.copland_cli.specs.Port.{port};
ghost use Rattle.copland_cli.specs.Command.{Attest};

use crate::ending::Ending;
use crate::input::{BundleNeed, read_job};
use crate::outcome::{Outcome, Report};
use crate::session::some_failed;
use bench_trait::{ArtefactBook, Bench};
use byte_ports::Source;
use job_reader::Job;
use manager_runner::run;
use phrase_tree::NoMemory;
use report_text::{Refusal, records_text};
use session_core::Session;
use session_desk::{Desk, Pass, opened_law};
use session_model::Record;
use session_runs::record_law;
use std::alloc::Global;
use std::sync::Wait;
use std::thread::Threads;

/// Carries out the command `attest` by this many workers, each on a thread of its own. It may wait.
pub fn attest<R: Threads + Wait + Sync, S: Source, B: Bench + Sync>(
    rt: &R,
    alloc: Global,
    workers: u32,
    source: &mut S,
    bench: &B,
) -> Outcome
    requires some { 1 ≤ workers }
    requires most { workers ≤ 16 }
    ensures { IsRun (B.gives bench.now) (B.fails bench.now) (B.starves bench.now) (Attest workers)
        (port S.left S.faults source.old source.new)
        result }
{
    match read_job(alloc, source, BundleNeed::Optional) {
        Ok(job) => attest_job(rt, alloc, workers, &job, bench),
        Err(refusal) => Outcome::Refused(refusal),
    }
}

/// Carries it out over an accepted job.
fn attest_job<R: Threads + Wait + Sync, B: Bench + Sync>(
    rt: &R,
    alloc: Global,
    workers: u32,
    job: &Job,
    bench: &B,
) -> Outcome
    requires some { 1 ≤ workers }
    requires most { workers ≤ 16 }
    requires checked { HasCheckedSessions job.now }
    requires few { length job.now.sessions.items ≤ 256 }
    ensures { IsMeant (B.gives bench.now) (B.fails bench.now) (B.starves bench.now) (Attest workers) (job_view job.now) result }
{
    match report_by(rt, alloc, workers, job, bench) {
        Ok(report) => Outcome::Reported(report),
        Err(_) => Outcome::Refused(Refusal::NoMemory),
    }
}

/// Reports a record of each session, which workers have run.
fn report_by<R: Threads + Wait + Sync, B: Bench + Sync>(
    rt: &R,
    alloc: Global,
    workers: u32,
    job: &Job,
    bench: &B,
) -> Result<Report, NoMemory>
    requires some { 1 ≤ workers }
    requires most { workers ≤ 16 }
    requires checked { HasCheckedSessions job.now }
    requires few { length job.now.sessions.items ≤ 256 }
    ensures { IfOk result (λ report. IsOfAttestations (B.gives bench.now) (B.fails bench.now) (job_view job.now) report.text report.ending) }
{
    let sessions = open_all(alloc, job, bench)?;
    let records = run_all(rt, alloc, workers, job, sessions, bench)?;
    let text = records_text(alloc, records.as_slice())?;
    let ending = Ending::of_sessions(some_failed(records.as_slice()));
    Ok(Report { text, ending })
}

/// Opens each session of a job, in their order.
fn open_all<'a, B: Bench>(
    alloc: Global,
    job: &'a Job,
    bench: &'a B,
) -> Result<Vec<Session<'a, B>>, NoMemory>
    requires { HasCheckedSessions job.now }
    ensures { IfOk result (λ sessions. AreOpenedOf job.now bench.now sessions.items) }
{
    let mut sessions = Vec::new(alloc);
    for checked in job.sessions.as_slice() {
        let session = Session::open(alloc, checked, &job.places, &job.artefacts, bench)?;
        sessions.push(session)?;
    }
    Ok(sessions)
}

/// Runs the sessions of a job, just opened, by this many workers: one record of each, in their order.
fn run_all<'a, R: Threads + Wait + Sync, B: Bench + Sync>(
    rt: &R,
    alloc: Global,
    workers: u32,
    job: &Job,
    sessions: Vec<Session<'a, B>>,
    bench: &B,
) -> Result<Vec<Record>, NoMemory>
    requires some { 1 ≤ workers }
    requires most { workers ≤ 16 }
    requires few { length job.now.sessions.items ≤ 256 }
    requires opened { AreOpenedOf job.now bench.now sessions.items }
    ensures { IfOk result (λ records. AreAttestations (B.gives bench.now) (B.fails bench.now) (job_view job.now) (map recorded records.items)) }
{
    record_law(bench, &job.artefacts);
    opened_law(bench, &job.artefacts);
    match Desk::open(alloc, sessions, workers + 1) {
        Ok((desk, passes)) => run_at(rt, alloc, &desk, passes, &job.artefacts, bench),
        Err(_) => Err(NoMemory),
    }
}

/// Runs the sessions of a desk by all of its passes but the last, which then takes their records.
fn run_at<'a, R: Threads + Wait + Sync, B: Bench + Sync>(
    rt: &R,
    alloc: Global,
    desk: &Desk<'a, B>,
    mut passes: Vec<Pass<'a, B>>,
    artefacts: &ArtefactBook,
    bench: &B,
) -> Result<Vec<Record>, NoMemory>
    requires many { 1 < length passes.items }
    requires fit { (number : ℕ) (pass : Known (Opened B)) → slice_get passes.items number ≡ Some pass → IsFit bench.now artefacts.now desk.now pass }
    ensures { IfOk result (λ records. AreClosed
        (λ opening ask answer. B.gives opening.bench.now opening.artefacts.now ask answer)
        (λ opening ask fault. B.fails opening.bench.now opening.artefacts.now ask fault)
        (λ opening ask. B.starves opening.bench.now opening.artefacts.now ask)
        (length desk.now)
        passes.entry.items
        records.items) }
{
    let Some(mut closer) = passes.pop() else {
        unreachable!()
    };
    run(
        rt,
        alloc,
        desk,
        artefacts,
        bench,
        passes.as_mut_slice(),
        &mut closer,
    )
}
