//! The verdicts on the bundle of a job.
ghost use Rattle.std.specs.Prelude.{◌≡◌, ◌≤◌, ◌++◌, ℕ, List, MatchOption, MatchResult, OnOk, length};
ghost use Rattle.evidence_types.specs.Shape.{Form, form};
ghost use Rattle.place_check.specs.declared.entry.PlaceEntry.{PlaceEntry};
ghost use Rattle.job_reader.specs.Accepted.{HasCheckedSessions, job_view};
ghost use Rattle.appraiser.specs.Appraised.{CanAppraise, HasReferences, basis_of};
ghost use Rattle.appraiser.specs.Expected.{Basis};
ghost use Rattle.stream_appraiser.specs.Fed.{Fed, IsReady};
ghost use Rattle.stream_appraiser.specs.Stream.{Appraises};
ghost use Rattle.copland_cli.specs.Appraised.{HasNoValue, HasNoVerdicts, IsOfVerdicts, LacksReferences, SaysVerdicts, basis_in, shape_in};
ghost use Rattle.copland_cli.specs.Offered.{IsForAppraisal, IsJudged, IsReported, IsRunnableOffer, StarvedOr, offer_of};

use crate::ending::Ending;
use crate::offer::{Offered, offered_in, shape_for, shape_is_fit};
use crate::outcome::Report;
use appraiser::Verdicts;
use evidence_types::Shape;
use job_reader::Job;
use phrase_tree::NoMemory;
use reference_book::References;
use report_text::{Refusal, verdicts_text};
use std::alloc::Global;
use stream_appraiser::{StreamAppraiser, StreamError};

/// How many bytes of a bundle are handed to the appraiser at a time.
const PIECE: usize = 4096;

/// The verdicts on the bundle of a job, or why there are none. The bundle's value is not built: its bytes go to
/// the appraiser in pieces.
pub fn appraise_bundle(alloc: Global, job: &Job) -> Result<Report, Refusal>
    requires needed { IsForAppraisal (job_view job.now) }
    requires checked { HasCheckedSessions job.now }
    ensures { MatchResult result
        (λ report. IsOfVerdicts (job_view job.now) report.text report.ending)
        (StarvedOr (HasNoVerdicts (job_view job.now))) }
{
    let offered = offered_in(job);
    let Ok(shape) = shape_for(alloc, offered) else {
        return Err(Refusal::NoMemory);
    };
    match lacking(&job.references, &shape) {
        Some(why) => Err(why),
        None => appraise_by(alloc, job, offered, &shape),
    }
}

/// Why the references of a job don't do for a shape, if they don't.
fn lacking(references: &References, shape: &Shape) -> Option<Refusal>
    ensures { MatchOption result
        (HasReferences references.now (form shape.now))
        (LacksReferences references.now (form shape.now)) }
{
    match references.check_for(shape) {
        Ok(()) => match references.ambiguous(shape) {
            Some(event) => Some(Refusal::Ambiguous { event }),
            None => None,
        },
        Err(missing) => Some(Refusal::NoReference {
            event: missing.event,
        }),
    }
}

/// The same where the references do for the shape.
fn appraise_by(
    alloc: Global,
    job: &Job,
    offered: Offered<'_>,
    shape: &Shape,
) -> Result<Report, Refusal>
    requires runnable { IsRunnableOffer job.now.places (offer_of offered) }
    requires places { length job.now.places ≤ 64 }
    requires shape { form shape.now ≡ shape_in (offer_of offered) }
    requires references { HasReferences job.now.references (form shape.now) }
    ensures { MatchResult result
        (λ report. IsReported job.now.places (basis_in (job_view job.now) (offer_of offered.entry)) offered.entry.bundle.now.bytes (shape_in (offer_of offered.entry)) offered.entry.bundle.now.session report.text report.ending)
        (StarvedOr (HasNoValue job.now.places offered.entry.bundle.now.bytes (shape_in (offer_of offered.entry)))) }
{
    shape_is_fit(job, offered);
    match judge(
        alloc,
        job,
        shape,
        offered.checked.nonce(),
        offered.bundle.bytes.items(),
    ) {
        Ok(found) => report_of(alloc, offered.bundle.session, &found),
        Err(why) => Err(why),
    }
}

/// The report of verdicts on the bundle of the session of this number.
fn report_of(alloc: Global, number: u32, found: &Verdicts) -> Result<Report, Refusal>
    ensures { MatchResult result
        (λ report. SaysVerdicts number found.now report.text report.ending)
        (λ why. why ≡ Refusal.NoMemory) }
{
    match verdicts_text(alloc, number, found) {
        Ok(text) => Ok(Report {
            text,
            ending: Ending::of_verdicts(found.accepted()),
        }),
        Err(_) => Err(Refusal::NoMemory),
    }
}

/// The verdicts on the value whose bundle the bytes are, or why there are none.
fn judge(
    alloc: Global,
    job: &Job,
    shape: &Shape,
    nonce: &[u8; 16],
    bytes: &[u8],
) -> Result<Verdicts, Refusal>
    requires { CanAppraise (basis_of job.now.places job.now.references nonce.now) (form shape.now) }
    ensures { IsJudged job.now.places (basis_of job.now.places job.now.references nonce.now) bytes.now (form shape.now) result }
{
    match StreamAppraiser::open(alloc, shape, &job.references, &job.places, nonce) {
        Ok(mut appraiser) => match feed_all(&mut appraiser, bytes) {
            Ok(()) => refused(appraiser.finish()),
            Err(_) => Err(Refusal::NoMemory),
        },
        Err(_) => Err(Refusal::NoMemory),
    }
}

/// Hands bytes to an appraiser in pieces.
fn feed_all(appraiser: &mut StreamAppraiser<'_>, bytes: &[u8]) -> Result<(), NoMemory>
    requires { IsReady appraiser.old }
    ensures ready { IsReady appraiser.new }
    ensures fed { OnOk result ((places : List PlaceEntry) (basis : Basis) (shape : Form) (before : List ℕ) →
        Fed places basis shape before appraiser.old → Fed places basis shape (before ++ bytes.now) appraiser.new) }
{
    for piece in bytes.chunks(PIECE) {
        appraiser.feed(piece)?;
    }
    Ok(())
}

/// What an appraiser finds, as a run would say it.
fn refused(found: Result<Verdicts, StreamError>) -> Result<Verdicts, Refusal>
    ensures { (places : List PlaceEntry) (basis : Basis) (bytes : List ℕ) (shape : Form) →
        Appraises places basis bytes shape found → IsJudged places basis bytes shape result }
{
    match found {
        Ok(verdicts) => Ok(verdicts),
        Err(StreamError::Bad { at, kind }) => Err(Refusal::BadBundle { at, kind }),
        Err(StreamError::WrongShape { node }) => Err(Refusal::BadShape { node }),
        Err(StreamError::NoMemory) => Err(Refusal::NoMemory),
    }
}
