ghost use Rattle.std.specs.Prelude.{◌≡◌, None, Some};
ghost use Rattle.release_policy.specs.Patterns.{matches};

use phrase_tree::Name;
use std::marker::Model;

/// Which names a rule is for: every name, or one alone.
#[derive(Clone, Copy, Debug, PartialEq, Eq)]
pub struct Pattern {
    only: Option<Name>,
}

impl Model for Pattern {
    ghost use Rattle.std.specs.Prelude.{ℕ, List, Option};

    ghost Value = { Option (List ℕ) };

    ghost view = { λ pattern. pattern.only };

    ghost inverse = { λ only. record { only = only } };
}

impl Pattern {
    /// The pattern for every name.
    pub fn any() -> Pattern
        ensures { result ≡ None }
    {
        Pattern { only: None }
    }

    /// The pattern for this name alone.
    pub fn only(name: Name) -> Pattern
        ensures { result ≡ Some name }
    {
        Pattern { only: Some(name) }
    }

    pub fn matches(&self, name: &Name) -> bool
        ensures { result ≡ matches self.now name.now }
    {
        match &self.only {
            None => true,
            Some(only) => *only == *name,
        }
    }
}
