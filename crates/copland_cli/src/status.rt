ghost use Rattle.std.specs.Prelude.{◌≡◌};
ghost use Rattle.copland_cli.specs.Status.{audit_status, code_of, job_status, status_of};

use job_reader::JobError;
use report_text::Refusal;
use transcript::AuditError;

/// How a run ended. Each has its own exit status; several refusals share one.
#[derive(Clone, Copy, Debug, PartialEq, Eq)]
pub enum Status {
    /// The report was written whole.
    Good,
    /// The report was written whole, and a session in it failed, or one of a made job isn't accepted.
    SomeFailed,
    /// The report was written whole, and a claim in it is broken.
    ClaimBroken,
    /// The report was written whole, and no session is chosen.
    Denied,
    /// The report was written whole, and its verdicts aren't all good.
    Rejected,
    /// The words are not a command.
    BadWords,
    /// The source met a fault.
    ReadFault,
    /// The input is longer than 4,194,304 bytes.
    TooLong,
    /// The input is not a JSON text.
    NotJson,
    /// The job does not have its form.
    BadJob,
    RepeatedPlace,
    RepeatedArtefact,
    RepeatedReference,
    /// A session's root is not a place of the job.
    BadRoot,
    RepeatedNonce,
    /// A phrase is refused.
    BadPhrase,
    /// An event breaks a rule of its place.
    Misplaced,
    /// The evidence at an event weighs too much or nests too deep.
    Oversize,
    /// A measurement has no reference.
    NoReference,
    /// A measurement under a hash has several references.
    Ambiguous,
    /// The bytes are not a bundle, or its value does not have the phrase's shape.
    BadBundle,
    /// The bytes are not the transcript of a session that is done or failed, or the bench gives another result.
    BadTranscript,
    /// The sink met a fault while the report was written.
    WriteFault,
    NoMemory,
}

impl Status {
    /// The exit status.
    pub fn code(&self) -> u8
        ensures { result ≡ code_of self.now }
    {
        match self {
            Status::Good => 0,
            Status::SomeFailed | Status::ClaimBroken | Status::Denied | Status::Rejected => 1,
            Status::BadWords => 2,
            Status::ReadFault => 3,
            Status::TooLong => 4,
            Status::NotJson => 5,
            Status::BadJob
            | Status::RepeatedPlace
            | Status::RepeatedArtefact
            | Status::RepeatedReference
            | Status::BadRoot
            | Status::RepeatedNonce => 6,
            Status::BadPhrase => 7,
            Status::Misplaced | Status::Oversize => 8,
            Status::NoReference => 9,
            Status::Ambiguous => 14,
            Status::BadBundle => 10,
            Status::BadTranscript => 15,
            Status::WriteFault => 11,
            Status::NoMemory => 12,
        }
    }
}

/// How a run with this refusal ends.
pub fn status_of(refusal: &Refusal) -> Status
    ensures { result ≡ status_of refusal.now }
{
    match refusal {
        Refusal::Words => Status::BadWords,
        Refusal::ReadFault => Status::ReadFault,
        Refusal::TooLong => Status::TooLong,
        Refusal::Job(error) => job_status(error),
        Refusal::NoReference { .. } => Status::NoReference,
        Refusal::Ambiguous { .. } => Status::Ambiguous,
        Refusal::BadBundle { .. } | Refusal::BadShape { .. } => Status::BadBundle,
        Refusal::Transcript(error) => audit_status(error),
        Refusal::NoMemory => Status::NoMemory,
    }
}

fn audit_status(error: &AuditError) -> Status
    ensures { result ≡ audit_status error.now }
{
    match error {
        AuditError::Bad { .. } | AuditError::Illegal { .. } => Status::BadTranscript,
        AuditError::Differs { .. } | AuditError::Unfinished => Status::BadTranscript,
        AuditError::NoMemory => Status::NoMemory,
    }
}

fn job_status(error: &JobError) -> Status
    ensures { result ≡ job_status error.now }
{
    match error {
        JobError::NotJson => Status::NotJson,
        JobError::BadJob { .. } => Status::BadJob,
        JobError::RepeatedPlace { .. } => Status::RepeatedPlace,
        JobError::RepeatedArtefact { .. } => Status::RepeatedArtefact,
        JobError::RepeatedReference { .. } => Status::RepeatedReference,
        JobError::BadRoot { .. } => Status::BadRoot,
        JobError::RepeatedNonce { .. } => Status::RepeatedNonce,
        JobError::BadPhrase { .. } => Status::BadPhrase,
        JobError::Misplaced { .. } => Status::Misplaced,
        JobError::Oversize { .. } => Status::Oversize,
        JobError::NoMemory => Status::NoMemory,
    }
}
