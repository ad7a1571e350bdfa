ghost use Rattle.std.specs.Prelude.{◌≡◌, ◌<◌, ◌^◌};
ghost use Rattle.phrase_tree.specs.Term.{term};
ghost use Rattle.phrase_tree.specs.Numbering.{event_count};
ghost use Rattle.session_core.specs.Counted.{question_count};

use phrase_tree::Phrase;

/// The number of questions of a phrase. Takes no memory, and time linear in the phrase.
#[tactic(auto, using(crate::proofs::Counts::count_below))]
pub(crate) fn question_count(phrase: &Phrase) -> u32
    requires { event_count (term phrase.now) < 2 ^ 32 }
    ensures { result ≡ question_count (term phrase.now) }
{
    match phrase {
        Phrase::Cpy => 0,
        Phrase::Sig => 0,
        Phrase::Hsh => 0,
        Phrase::Nul => 0,
        Phrase::Usm(_) => 1,
        Phrase::Kim(_, _) => 1,
        Phrase::At(_, body) => question_count(body),
        Phrase::Then(left, right) => question_count(left) + question_count(right),
        Phrase::Seq(_, left, right) | Phrase::Par(_, left, right) => {
            question_count(left) + question_count(right)
        }
    }
}
