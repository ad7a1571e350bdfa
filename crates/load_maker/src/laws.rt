ghost use Rattle.std.specs.Prelude.{ℕ};
ghost use Rattle.load_maker.specs.Answered.{HaveAnswers};
ghost use Rattle.load_maker.specs.Job.{made_job};

/// A law: the program's own bench answers each question of each session of a made job, and the references
/// for its measurement have that answer alone. It does nothing.
#[tactic(auto, using(crate::proofs::AnsweredLemmas::each_answered))]
pub fn made_questions_are_answered()
    ensures { (number : ℕ) → HaveAnswers (made_job number) }
{}
