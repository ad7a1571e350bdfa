ghost use Rattle.std.specs.Prelude.{◌≡◌, ◌≤◌, length};

use crate::rule::Rule;
use std::marker::Model;

/// The greatest number of rules of a policy.
pub const RULES: u32 = 256;

/// Why a text is not that of a policy.
#[derive(Clone, Copy, Debug, PartialEq, Eq)]
pub enum ReleaseError {
    /// The index of the first part between semicolons that is no rule, or 256 if so many rules stand
    /// before one more part.
    Bad { rule: u32 },
    NoMemory,
}

/// A release policy: 1 to 256 rules, of which the first that is for a disclosure decides over it.
#[derive(Debug, Drop)]
pub struct ReleasePolicy {
    rules: Vec<Rule>,
}

impl Model for ReleasePolicy {
    ghost use Rattle.std.specs.Prelude.{List, ◌≤◌, length};
    ghost use Rattle.release_policy.specs.declared.policy.TheConstants.{RULES};
    ghost use Rattle.release_policy.specs.declared.rule.Rule.{Rule};

    ghost Value = { List Rule };

    ghost view = { λ policy. policy.rules.items };

    ghost invariant = { λ policy. length policy.rules.items ≤ RULES };
}

impl ReleasePolicy {
    /// The policy of these rules.
    pub(crate) fn of(rules: Vec<Rule>) -> ReleasePolicy
        requires { length rules.items ≤ RULES }
        ensures { result ≡ rules.items }
    {
        ReleasePolicy { rules }
    }

    /// Its rules in order.
    pub(crate) fn rules(&self) -> &[Rule]
        ensures rules { result.now ≡ self.now }
        ensures few { length self.now ≤ RULES }
    {
        &self.rules
    }
}
