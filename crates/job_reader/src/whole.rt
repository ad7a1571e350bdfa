ghost use Rattle.job_reader.specs.Texts.{IsFew, written};
ghost use Rattle.job_reader.specs.Accepted.{Accepts};

use crate::accepted::Job;
use crate::books::{book_of, places_of, references_of};
use crate::checks::check_sessions;
use crate::nonces::check_nonces;
use crate::phrases::read_all_sessions;
use crate::refusal::JobError;
use crate::roots::check_roots;
use crate::written::JobText;
use std::alloc::Global;

/// The job that is written, if no test over the whole of it finds anything; otherwise what is found by
/// the first test that finds something.
pub(crate) fn accept(alloc: Global, text: JobText<'_>) -> Result<Job, JobError>
    requires { IsFew text }
    ensures { Accepts (written text.entry) result }
{
    let places = places_of(alloc, text.places)?;
    let artefacts = book_of(alloc, text.artefacts)?;
    let references = references_of(text.references)?;
    check_roots(&places, &text.sessions)?;
    check_nonces(alloc, &text.sessions)?;
    let read = read_all_sessions(alloc, &text.sessions)?;
    let sessions = check_sessions(alloc, &places, read)?;
    Ok(Job {
        places,
        artefacts,
        sessions,
        references,
        bundle: text.bundle,
    })
}
