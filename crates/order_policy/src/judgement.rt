ghost use Rattle.std.specs.Prelude.{◌≡◌, ◌↔◌, All, IsTrue};

use phrase_tree::Trace;
use std::marker::Model;

/// What is found of a claim.
#[derive(Debug, Drop)]
pub enum Judgement {
    /// Every trace has the claim. There are so many measurements of its later service.
    Holds { count: u32 },
    /// Some trace hasn't. This is the least measurement of the later service at which one breaks the claim,
    /// with a trace that does: the events before it in rising order, then it, then the others in rising
    /// order.
    Broken { event: u32, trace: Trace },
}

impl Judgement {
    ghost use Rattle.order_policy.specs.Judged.{is_holding};

    /// Whether every trace has the claim.
    pub fn is_holding(&self) -> bool
        ensures { result ≡ is_holding self.now }
    {
        match self {
            Judgement::Holds { count: _ } => true,
            Judgement::Broken { event: _, trace: _ } => false,
        }
    }
}

/// What is found of each claim, in their order.
#[derive(Debug, Drop)]
pub struct Judgements {
    judgements: Vec<Judgement>,
}

impl Model for Judgements {
    ghost use Rattle.std.specs.Prelude.{List};
    ghost use Rattle.order_policy.specs.declared.judgement.Judgement.{Judgement};

    ghost Value = { List Judgement };

    ghost view = { λ list. list.judgements.items };
}

impl Judgements {
    ghost use Rattle.order_policy.specs.Judged.{is_holding};

    /// The list of these.
    pub fn of(items: Vec<Judgement>) -> Judgements
        ensures { result ≡ items.items }
    {
        Judgements { judgements: items }
    }

    pub fn items(&self) -> &[Judgement]
        ensures { result.now ≡ self.now }
    {
        &self.judgements
    }

    /// Whether every trace has every claim.
    pub fn all_hold(&self) -> bool
        ensures { IsTrue result ↔ All (λ judgement. IsTrue (is_holding judgement)) self.now }
    {
        self.judgements
            .iter()
            .all(|judgement| judgement.is_holding())
    }
}
