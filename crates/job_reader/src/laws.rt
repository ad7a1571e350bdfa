ghost use Rattle.std.specs.Prelude.{◌≡◌, ◌≤◌, ℕ, Bool, List, Some, length, slice_get};
ghost use Rattle.session_model.specs.Session.{Session};
ghost use Rattle.std.specs.Result.{result_err};
ghost use Rattle.serde_json.specs.Data.{Data};
ghost use Rattle.job_reader.specs.Accepted.{AskApart};
ghost use Rattle.job_reader.specs.Faults.{first, job_faults};
ghost use Rattle.job_reader.specs.Finding.{Finding, IsAccepted, IsFinding, JobView};
ghost use Rattle.job_reader.specs.Form.{written_in};

/// A law: a tree has no fault of form exactly when a job is written in it, and otherwise the walk over
/// it stops at the first of its faults. It does nothing.
pub fn walk_stops_at_the_first_fault(_appraise: bool)
    ensures { (tree : Data) → first (job_faults _appraise tree) ≡ result_err (written_in _appraise tree) }
{}

/// A law: the bytes of a job have one finding, with or without an appraisal. It does nothing.
pub fn one_finding(_bytes: &[u8], _appraise: bool)
    ensures { (one other : Finding) → IsFinding _bytes.now _appraise one → IsFinding _bytes.now _appraise other → one ≡ other }
{}

/// A law: two sessions of an accepted job have different nonces, so that no question of the one is a
/// question of the other. It does nothing.
pub fn sessions_ask_apart(_bytes: &[u8], _appraise: bool)
    ensures { (job : JobView) (one two : ℕ) (session other : Session) → IsAccepted _bytes.now _appraise job → slice_get job.sessions one ≡ Some session → slice_get job.sessions two ≡ Some other → ¬ (one ≡ two) → ¬ (session.nonce ≡ other.nonce) × AskApart session other }
{}

/// A law: an accepted job has at most 256 sessions. It does nothing.
pub fn accepted_job_has_few_sessions()
    ensures { (bytes : List ℕ) (appraise : Bool) (job : JobView) → IsAccepted bytes appraise job → length job.sessions ≤ 256 }
{}
