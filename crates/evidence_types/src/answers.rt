ghost use Rattle.std.specs.Prelude.{◌≡◌, [], ◌∷◌, ◌++◌, OnOk, IfErr, OnErr};
ghost use Rattle.evidence_types.specs.Answers.{IsRising};

use crate::answer::Answer;
use std::marker::Model;

/// The answers to a phrase's measurements: pairs of an event's number and its answer, events rising.
#[derive(Debug, Drop)]
pub struct Answers {
    pairs: Vec<(u32, Answer)>,
}

impl Model for Answers {
    ghost use Rattle.std.specs.Prelude.{ℕ, List};
    ghost use Rattle.evidence_types.specs.Answers.{IsRising};

    ghost Value = { List (ℕ × List ℕ) };

    ghost view = { λ answers. answers.pairs.items };

    ghost invariant = { λ answers. IsRising answers.pairs.items };
}

impl Answers {
    /// The list of these pairs.
    pub fn of(items: Vec<(u32, Answer)>) -> Answers
        requires { IsRising items.items }
        ensures { result ≡ items.items }
    {
        Answers { pairs: items }
    }

    pub fn items(&self) -> &[(u32, Answer)]
        ensures items { result.now ≡ self.now }
        ensures rising { IsRising self.now }
    {
        &self.pairs
    }

    /// Appends a pair. An error is want of memory: it hands the pair back, and the list is unchanged.
    pub fn push(&mut self, item: (u32, Answer)) -> Result<(), (u32, Answer)>
        requires { IsRising (self.old ++ item ∷ []) }
        ensures ok { OnOk result (self.new ≡ self.old ++ item ∷ []) }
        ensures handed_back { IfErr result (λ pair. pair ≡ item) }
        ensures err { OnErr result (self.new ≡ self.old) }
    {
        match self.pairs.push(item) {
            Ok(()) => Ok(()),
            Err(refused) => Err(refused.value),
        }
    }
}
