//! Laws of appraisal after a run, which the functions of this module carry. They do nothing.

ghost use Rattle.std.specs.Prelude.{◌≡◌, ℕ, List, None, Some, IsTrue};
ghost use Rattle.bench_trait.specs.Digest.{LacksArtefact, digest_answer};
ghost use Rattle.evidence_types.specs.Bytes.{bundle};
ghost use Rattle.evidence_types.specs.Shape.{shape_at};
ghost use Rattle.place_check.specs.Places.{keys_of};
ghost use Rattle.reference_book.specs.Leaves.{has_several, hashed_leaves, least_event};
ghost use Rattle.session_model.specs.Record.{AreAnswers};
ghost use Rattle.session_model.specs.RightRecord.{IsRightDone};
ghost use Rattle.session_model.specs.Session.{Session, session_questions};
ghost use Rattle.appraiser.specs.Appraised.{basis_of};
ghost use Rattle.appraiser.specs.Verdicts.{all_good, verdicts};
ghost use Rattle.job_reader.specs.Finding.{JobView};
ghost use Rattle.load_maker.specs.Job.{made_job};
ghost use Rattle.load_runner.specs.Accepted.{AreDigestsReferred, IsReferred};
ghost use Rattle.load_runner.specs.Figures.{value_with};
ghost use Rattle.load_runner.specs.Run.{IsRunOf};
ghost use Rattle.load_runner.specs.declared.figures.Figures.{Figures};

use appraiser::session_law;
use load_maker::made_questions_are_answered;

/// The value of a session of a job is accepted, whoever measured it, if each of its answers is one of the
/// references of its measurement, and no measurement under a hash has several.
pub fn done_with_references_is_accepted()
    ensures { (job : JobView) (session : Session) (answers : List (ℕ × List ℕ)) →
        AreAnswers (IsReferred job.references) (session_questions session) answers →
        least_event (has_several job.references) (hashed_leaves (shape_at session.phrase session.root)) ≡ None →
        IsTrue (all_good (verdicts
        (basis_of job.places job.references session.nonce)
        (value_with job session answers)
        (shape_at session.phrase session.root))) }
{
    session_law();
}

/// What a walk or a run by workers records as done over `DigestBench`, in whatever order its events happened, is
/// accepted: its bundle is that of a value on which each verdict is good, if the references of the job have the
/// digest of each measurement, and no measurement under a hash has several.
pub fn done_over_digests_is_accepted()
    ensures { (job : JobView) (session : Session) (trace : List ℕ) (answers : List (ℕ × List ℕ)) (bytes : List ℕ) →
        AreDigestsReferred job session →
        least_event (has_several job.references) (hashed_leaves (shape_at session.phrase session.root)) ≡ None →
        IsRightDone (λ ask answer. digest_answer job.artefacts ask ≡ Some answer) session (keys_of job.places) trace answers bytes →
        (bytes ≡ bundle (value_with job session answers)) × IsTrue (all_good (verdicts
        (basis_of job.places job.references session.nonce)
        (value_with job session answers)
        (shape_at session.phrase session.root))) }
{
    session_law();
}

/// Over `DigestBench`, each of the 256 sessions of a made job is done and accepted.
pub fn made_jobs_are_accepted()
    ensures { (number : ℕ) (figures : Figures) →
        IsRunOf
        (λ ask answer. digest_answer (made_job number).artefacts ask ≡ Some answer)
        (λ ask fault. LacksArtefact (made_job number).artefacts ask fault)
        (made_job number)
        figures →
        (figures.sessions ≡ 256) × (figures.done ≡ 256) × (figures.accepted ≡ 256) }
{
    session_law();
    made_questions_are_answered();
}
