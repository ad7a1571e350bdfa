//! The audit of the transcript that a job has as its bundle.
ghost use Rattle.std.specs.Prelude.{◌≡◌, MatchResult};
ghost use Rattle.job_reader.specs.Accepted.{HasCheckedSessions, job_view};
ghost use Rattle.copland_cli.specs.Audited.{HasNoAudit, IsAuditRefusal, IsOfAudit, SaysRecord};
ghost use Rattle.copland_cli.specs.Offered.{IsForAppraisal, StarvedOr};

use crate::ending::Ending;
use crate::offer::offered_in;
use crate::outcome::Report;
use bench_trait::Bench;
use job_reader::Job;
use report_text::{Refusal, record_text};
use session_model::Record;
use std::alloc::Global;
use transcript::{AuditError, audit};

/// The record of the session whose transcript the bundle of a job is, or why it isn't accepted: the bytes are read,
/// each entry must be legal, and the bench is asked for each result again.
pub fn audit_bundle<B: Bench>(alloc: Global, job: &Job, bench: &B) -> Result<Report, Refusal>
    requires needed { IsForAppraisal (job_view job.now) }
    requires checked { HasCheckedSessions job.now }
    ensures { MatchResult result
        (λ report. IsOfAudit (B.gives bench.now) (B.fails bench.now) (B.starves bench.now) (job_view job.now) report.text report.ending)
        (StarvedOr (HasNoAudit (B.gives bench.now) (B.fails bench.now) (B.starves bench.now) (job_view job.now))) }
{
    let offered = offered_in(job);
    match audit(
        alloc,
        offered.checked,
        &job.places,
        &job.artefacts,
        bench,
        offered.bundle.bytes.items(),
    ) {
        Ok(found) => report_of(alloc, offered.bundle.session, &found),
        Err(error) => Err(refusal_for(error)),
    }
}

/// The report of the record of the session of this number.
fn report_of(alloc: Global, number: u32, found: &Record) -> Result<Report, Refusal>
    ensures { MatchResult result
        (λ report. SaysRecord number found.now report.text report.ending)
        (λ why. why ≡ Refusal.NoMemory) }
{
    match record_text(alloc, number, found) {
        Ok(text) => Ok(Report {
            text,
            ending: Ending::of_sessions(found.is_failed()),
        }),
        Err(_) => Err(Refusal::NoMemory),
    }
}

/// The refusal of a run, for the error of its audit.
fn refusal_for(error: AuditError) -> Refusal
    ensures { IsAuditRefusal error result }
{
    match error {
        AuditError::NoMemory => Refusal::NoMemory,
        _ => Refusal::Transcript(error),
    }
}
