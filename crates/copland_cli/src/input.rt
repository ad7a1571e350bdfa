ghost use Rattle.std.specs.Prelude.{◌≡◌, ◌≤◌, IfOk, MatchResult, length};
ghost use Rattle.job_reader.specs.Accepted.{HasCheckedSessions, job_view};
ghost use Rattle.job_reader.specs.Finding.{accepted};
ghost use Rattle.copland_cli.specs.Input.{IsReadAs, IsRefusalFor, IsRefusedOver, IsSolely, IsUnreadable, is_required};
ghost use Rattle.copland_cli.specs.Offered.{HasNeeded};
ghost use Rattle.copland_cli.specs.Port.{port};

use byte_ports::{ReadAllError, Source, read_all};
use job_reader::{Job, JobError, accepted_job_has_few_sessions, job_of};
use report_text::Refusal;
use std::alloc::Global;

/// The greatest length of an input, in bytes.
const INPUT_LIMIT: u32 = 4194304;

/// What a command reads before it does anything.
#[derive(Clone, Copy, Debug, PartialEq, Eq)]
pub enum Input {
    Nothing,
    Job(BundleNeed),
}

/// Whether a job must have a bundle.
#[derive(Clone, Copy, Debug, PartialEq, Eq)]
pub enum BundleNeed {
    Optional,
    Required,
}

impl BundleNeed {
    fn is_required(self) -> bool
        ensures { result ≡ is_required self }
    {
        match self {
            BundleNeed::Optional => false,
            BundleNeed::Required => true,
        }
    }
}

/// Reads a source to its end, and the job that its bytes are.
pub fn read_job<S: Source>(alloc: Global, source: &mut S, need: BundleNeed) -> Result<Job, Refusal>
    ensures job { MatchResult result
        (λ job. IsReadAs need (port S.left S.faults source.old source.new) (accepted (job_view job)))
        (λ why. IsUnreadable need (port S.left S.faults source.old source.new) why) }
    ensures checked { IfOk result HasCheckedSessions }
    ensures needed { IfOk result (λ job. HasNeeded need (job_view job)) }
    ensures few { IfOk result (λ job. length job.sessions.items ≤ 256) }
{
    match read_all(alloc, source, INPUT_LIMIT) {
        Ok(bytes) => job_over(alloc, bytes.items(), need),
        Err(ReadAllError::ReadFault) => Err(Refusal::ReadFault),
        Err(ReadAllError::TooLong) => Err(Refusal::TooLong),
        Err(ReadAllError::NoMemory) => Err(Refusal::NoMemory),
    }
}

/// The job that these bytes are.
fn job_over(alloc: Global, bytes: &[u8], need: BundleNeed) -> Result<Job, Refusal>
    ensures job { MatchResult result
        (λ job. IsSolely bytes.now need (accepted (job_view job)))
        (λ why. IsRefusedOver bytes.now need why) }
    ensures checked { IfOk result HasCheckedSessions }
    ensures needed { IfOk result (λ job. HasNeeded need (job_view job)) }
    ensures few { IfOk result (λ job. length job.sessions.items ≤ 256) }
{
    accepted_job_has_few_sessions();
    match job_of(alloc, bytes, need.is_required()) {
        Ok(job) => Ok(job),
        Err(error) => Err(refusal_for(error)),
    }
}

/// The refusal of a run, for the refusal of its job.
fn refusal_for(error: JobError) -> Refusal
    ensures { IsRefusalFor error result }
{
    match error {
        JobError::NoMemory => Refusal::NoMemory,
        _ => Refusal::Job(error),
    }
}
