ghost use Rattle.std.specs.Prelude.{◌≡◌, [], ◌∷◌, ◌++◌, OnOk, IfErr, OnErr};
ghost use Rattle.appraiser.specs.Verdicts.{all_good, verdict};

use std::marker::Model;

/// What a verdict is of. The number is that of the event.
#[derive(Clone, Copy, Debug, PartialEq, Eq)]
pub enum VerdictOf {
    Nonce,
    /// An answer of a measurement.
    Leaf(u32),
    Seal(u32),
    Hash(u32),
}

/// Whether a node of a value is what is expected of it.
#[derive(Clone, Copy, Debug, PartialEq, Eq)]
pub struct Verdict {
    pub of: VerdictOf,
    pub good: bool,
}

/// The verdicts of a value, a node before its parts and left before right.
#[derive(Debug, Drop)]
pub struct Verdicts {
    verdicts: Vec<Verdict>,
}

impl Model for Verdicts {
    ghost use Rattle.std.specs.Prelude.{List};
    ghost use Rattle.appraiser.specs.declared.verdict.Verdict.{Verdict};

    ghost Value = { List Verdict };

    ghost view = { λ list. list.verdicts.items };
}

impl Verdicts {
    /// The list of these verdicts.
    pub fn of(items: Vec<Verdict>) -> Verdicts
        ensures { result ≡ items.items }
    {
        Verdicts { verdicts: items }
    }

    pub fn items(&self) -> &[Verdict]
        ensures { result.now ≡ self.now }
    {
        &self.verdicts
    }

    /// Appends a verdict. An error is want of memory: it hands the verdict back, and the list is unchanged.
    pub fn push(&mut self, item: Verdict) -> Result<(), Verdict>
        ensures ok { OnOk result (self.new ≡ self.old ++ item ∷ []) }
        ensures handed_back { IfErr result (λ verdict. verdict ≡ item) }
        ensures err { OnErr result (self.new ≡ self.old) }
    {
        match self.verdicts.push(item) {
            Ok(()) => Ok(()),
            Err(refused) => Err(refused.value),
        }
    }

    /// Whether all of them are good.
    pub fn accepted(&self) -> bool
        ensures { result ≡ all_good self.now }
    {
        self.verdicts.iter().all(|verdict| verdict.good)
    }
}
