ghost use Rattle.std.specs.Prelude.{◌≡◌, IfOk, length};
ghost use Rattle.evidence_types.specs.Bundle.{IsBundleOf};
ghost use Rattle.evidence_types.specs.Bytes.{bundle};
ghost use Rattle.evidence_types.specs.Shape.{Fits, shape_at};
ghost use Rattle.phrase_tree.specs.Term.{term};
ghost use Rattle.place_check.specs.Session.{session_of};
ghost use Rattle.plain_eval.specs.AllShort.{AllShort};
ghost use Rattle.session_model.specs.Recorded.{recorded};
ghost use Rattle.appraiser.specs.Appraised.{CanAppraise, basis_of};
ghost use Rattle.appraiser.specs.Verdicts.{all_good, verdicts};
ghost use Rattle.job_reader.specs.Accepted.{job_view};
ghost use Rattle.load_runner.specs.Bundled.{IsBundled, IsFit};
ghost use Rattle.load_runner.specs.Figures.{is_accepted, value_with};

use crate::feeding::verdicts_on;
use appraiser::shape_law;
use evidence_types::{Answer, shape_of};
use job_reader::Job;
use phrase_tree::NoMemory;
use place_check::{Checked, checked_session_has_keys};
use session_model::{DoneRecord, Record};
use std::alloc::Global;

/// Whether a session is done, and each verdict on its bundle is good.
pub(crate) fn is_accepted(
    alloc: Global,
    job: &Job,
    checked: &Checked,
    found: &Record,
) -> Result<bool, NoMemory>
    requires fit { IsFit (job_view job.now) (session_of checked.now) }
    requires bundled { IsBundled (job_view job.now) (session_of checked.now) (recorded found.now) }
    ensures { IfOk result (λ good. good ≡ is_accepted (job_view job.now) (session_of checked.now) (recorded found.now)) }
{
    match found {
        Record::Done(done) => is_good(alloc, job, checked, done),
        Record::Failed(_) => Ok(false),
    }
}

/// Whether each verdict on the bundle of a session that is done is good.
fn is_good(alloc: Global, job: &Job, checked: &Checked, done: &DoneRecord) -> Result<bool, NoMemory>
    requires fit { IsFit (job_view job.now) (session_of checked.now) }
    requires bundled { done.now.bundle ≡ bundle (value_with (job_view job.now) (session_of checked.now) done.now.answers) }
    ensures { IfOk result (λ good. good ≡ all_good (verdicts
        (basis_of job.now.places job.now.references checked.now.nonce)
        (value_with (job_view job.now) (session_of checked.now) done.now.answers)
        (shape_at (term checked.now.phrase) checked.now.root))) }
{
    can_be_appraised(job, checked);
    has_a_bundle(job, checked, done);
    let shape = shape_of(alloc, checked.phrase(), checked.root())?;
    let found = verdicts_on(alloc, job, &shape, checked.nonce(), done.bundle.items())?;
    Ok(found.accepted())
}

/// Values can be appraised by the shape of such a session.
fn can_be_appraised(job: &Job, checked: &Checked)
    requires { IsFit (job_view job.now) (session_of checked.now) }
    ensures { CanAppraise
        (basis_of job.now.places job.now.references checked.now.nonce)
        (shape_at (term checked.now.phrase) checked.now.root) }
{
    shape_law();
    checked_session_has_keys(&job.places, checked);
    let _ = checked.phrase();
}

/// The bundle of such a session is one, and its value has the session's shape.
fn has_a_bundle(job: &Job, checked: &Checked, done: &DoneRecord)
    requires { done.now.bundle ≡ bundle (value_with (job_view job.now) (session_of checked.now) done.now.answers) }
    ensures bundle { IsBundleOf done.now.bundle (value_with (job_view job.now) (session_of checked.now) done.now.answers) }
    ensures fits { Fits
        (value_with (job_view job.now) (session_of checked.now) done.now.answers)
        (shape_at (term checked.now.phrase) checked.now.root) }
{
    let _ = checked.phrase();
    are_sixteen(checked.nonce());
    are_short(done.answers.items());
}

/// A nonce has 16 bytes, as it is of its type.
fn are_sixteen(_nonce: &[u8; 16])
    ensures { length _nonce.now ≡ 16 }
{}

/// Each answer is short, as it is of its type. It only goes over them.
fn are_short(pairs: &[(u32, Answer)])
    ensures { AllShort pairs.now }
{
    for pair in pairs {
        let _ = pair.1.bytes();
    }
}
