//! The bundle of version 2 of the value whose bundle a job has.
ghost use Rattle.std.specs.Prelude.{◌≡◌, ◌<◌, ◌≤◌, ◌^◌, ℕ, List, IfOk, MatchResult, length};
ghost use Rattle.evidence_types.specs.Evidence.{evidence};
ghost use Rattle.evidence_types.specs.Shape.{Form, form};
ghost use Rattle.evidence_codec.specs.Decoding.{Names};
ghost use Rattle.evidence_codec.specs.Reading.{first_fault_of_either};
ghost use Rattle.place_check.specs.declared.entry.PlaceEntry.{PlaceEntry};
ghost use Rattle.job_reader.specs.Accepted.{HasCheckedSessions, job_view};
ghost use Rattle.appraiser.specs.Fit.{nodes};
ghost use Rattle.report_text.specs.Verdicts.{upgrade_text as text_of_upgrade};
ghost use Rattle.copland_cli.specs.Appraised.{HasNoUpgrade, HasNoValue, IsOfUpgrade, shape_in};
ghost use Rattle.copland_cli.specs.Offered.{IsDecodedFrom, IsForAppraisal, IsMarkedIn, IsRunnableOffer, StarvedOr, offer_of};

use crate::ending::Ending;
use crate::offer::{Offered, offered_in, shape_for, shape_is_fit};
use crate::outcome::Report;
use appraiser::{fits_at, marks_of};
use byte_ports::Bytes;
use evidence_codec::{DecodeError, Decoded, decode_any, encode_marked};
use evidence_types::Shape;
use job_reader::Job;
use phrase_tree::NoMemory;
use place_check::Places;
use report_text::{Refusal, upgrade_text};
use std::alloc::Global;
use stream_appraiser::upgrade_law;

/// The bundle of version 2 of the value whose bundle a job has, or why there is none. The references of the job
/// are not looked at.
pub fn upgrade_bundle(alloc: Global, job: &Job) -> Result<Report, Refusal>
    requires needed { IsForAppraisal (job_view job.now) }
    requires checked { HasCheckedSessions job.now }
    ensures { MatchResult result
        (λ report. IsOfUpgrade (job_view job.now) report.text report.ending)
        (StarvedOr (HasNoUpgrade (job_view job.now))) }
{
    let offered = offered_in(job);
    let Ok(shape) = shape_for(alloc, offered) else {
        return Err(Refusal::NoMemory);
    };
    shape_is_fit(job, offered);
    match value_in(alloc, &job.places, &shape, offered.bundle.bytes.items()) {
        Ok(found) => match upgraded(alloc, job, offered, &shape, &found) {
            Ok(text) => Ok(Report {
                text,
                ending: Ending::Good,
            }),
            Err(_) => Err(Refusal::NoMemory),
        },
        Err(why) => Err(why),
    }
}

/// The value whose bundle the bytes are, which fits the shape, with its marks; or why there is none.
fn value_in(alloc: Global, places: &Places, shape: &Shape, bytes: &[u8]) -> Result<Decoded, Refusal>
    requires { length (nodes (form shape.now)) < 2 ^ 32 }
    ensures { MatchResult result
        (IsDecodedFrom places.now bytes.now (form shape.now))
        (StarvedOr (HasNoValue places.now bytes.now (form shape.now))) }
{
    match decode_any(alloc, bytes) {
        Ok(found) => match fits_at(shape, &found.value, found.marks.as_ref(), places) {
            Some(node) => Err(Refusal::BadShape { node }),
            None => Ok(found),
        },
        Err(error) => Err(refusal_of(error)),
    }
}

/// The refusal for bytes that were not decoded.
fn refusal_of(error: DecodeError) -> Refusal
    ensures { (places : List PlaceEntry) (bytes : List ℕ) (shape : Form) →
        Names error (first_fault_of_either bytes) → StarvedOr (HasNoValue places bytes shape) result }
{
    match error {
        DecodeError::Bad { at, kind } => Refusal::BadBundle { at, kind },
        DecodeError::NoMemory => Refusal::NoMemory,
    }
}

/// The report of the bundle of version 2 of what was decoded, with the marks of the shape.
fn upgraded(
    alloc: Global,
    job: &Job,
    offered: Offered<'_>,
    shape: &Shape,
    found: &Decoded,
) -> Result<Bytes, NoMemory>
    requires runnable { IsRunnableOffer job.now.places (offer_of offered) }
    requires places { length job.now.places ≤ 64 }
    requires shape { form shape.now ≡ shape_in (offer_of offered) }
    requires decoded { IsDecodedFrom job.now.places offered.bundle.now.bytes (form shape.now) found.now }
    ensures { IfOk result (λ text. (bytes : List ℕ) × IsMarkedIn job.now.places (shape_in (offer_of offered.entry)) (evidence found.now.value) bytes × (text ≡ text_of_upgrade offered.entry.bundle.now.session bytes)) }
{
    shape_is_fit(job, offered);
    upgrade_law();
    let marks = marks_of(alloc, shape, &job.places)?;
    let bytes = encode_marked(alloc, &found.value, marks.items())?;
    upgrade_text(alloc, offered.bundle.session, bytes.items())
}
