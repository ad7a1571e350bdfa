ghost use Rattle.std.specs.Prelude.{◌≡◌, [], ◌∷◌, ◌++◌, OnOk, IfErr, OnErr};

use crate::name::Name;
use std::marker::Model;

/// The numbers of events in the order in which they happened.
#[derive(Debug, Drop)]
pub struct Trace {
    events: Vec<u32>,
}

impl Model for Trace {
    ghost use Rattle.std.specs.Prelude.{ℕ, List};

    ghost Value = { List ℕ };

    ghost view = { λ trace. trace.events.items };
}

impl Trace {
    /// The trace with these numbers.
    pub fn of(items: Vec<u32>) -> Trace
        ensures { result ≡ items.items }
    {
        Trace { events: items }
    }

    pub fn items(&self) -> &[u32]
        ensures { result.now ≡ self.now }
    {
        &self.events
    }

    /// Appends a number. An error is want of memory: it hands the number back, and the trace is
    /// unchanged.
    pub fn push(&mut self, item: u32) -> Result<(), u32>
        ensures ok { OnOk result (self.new ≡ self.old ++ item ∷ []) }
        ensures handed_back { IfErr result (λ event. event ≡ item) }
        ensures err { OnErr result (self.new ≡ self.old) }
    {
        match self.events.push(item) {
            Ok(()) => Ok(()),
            Err(refused) => Err(refused.value),
        }
    }
}

/// Names in the order in which they were given.
#[derive(Debug, Drop)]
pub struct Names {
    names: Vec<Name>,
}

impl Model for Names {
    ghost use Rattle.std.specs.Prelude.{ℕ, List};

    ghost Value = { List (List ℕ) };

    ghost view = { λ list. list.names.items };
}

impl Names {
    /// The list of these names.
    pub fn of(items: Vec<Name>) -> Names
        ensures { result ≡ items.items }
    {
        Names { names: items }
    }

    pub fn items(&self) -> &[Name]
        ensures { result.now ≡ self.now }
    {
        &self.names
    }

    /// Appends a name. An error is want of memory: it hands the name back, and the list is unchanged.
    pub fn push(&mut self, item: Name) -> Result<(), Name>
        ensures ok { OnOk result (self.new ≡ self.old ++ item ∷ []) }
        ensures handed_back { IfErr result (λ name. name ≡ item) }
        ensures err { OnErr result (self.new ≡ self.old) }
    {
        match self.names.push(item) {
            Ok(()) => Ok(()),
            Err(refused) => Err(refused.value),
        }
    }
}
