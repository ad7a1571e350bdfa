ghost use Rattle.std.specs.Prelude.{◌≡◌, ◌↔◌, ◌≤◌, ◌+◌, [], ◌∷◌, ◌++◌, length, IsErr, OnOk, IfErr, OnErr};

use crate::name::Name;
use arrayvec::ArrayVec;
use std::marker::Model;

/// An argument of a measurement: a name, or a number of 32 bits.
#[derive(Clone, Copy, Debug, PartialEq, Eq)]
pub enum Arg {
    Word(Name),
    Number(u32),
}

impl Default for Arg {
    ghost use Rattle.phrase_tree.specs.declared.measurement.Arg.{Arg};

    ghost is_default = { λ arg. arg ≡ Arg.Number 0 };

    fn default() -> Arg {
        Arg::Number(0)
    }
}

/// The arguments of a measurement in order, at most four. They lie in the value itself.
#[derive(Debug, Drop, PartialEq, Eq)]
pub struct Args {
    items: ArrayVec<Arg, 4>,
}

impl Model for Args {
    ghost use Rattle.std.specs.Prelude.{List, ◌≤◌, length};
    ghost use Rattle.phrase_tree.specs.declared.measurement.Arg.{Arg};

    ghost Value = { List Arg };

    ghost view = { λ args. args.items.items };

    ghost invariant = { λ args. length args.items.items ≤ 4 };

    ghost inverse = { λ items. record { items = record { items = items } } };
}

impl Args {
    /// No arguments.
    pub fn none() -> Args
        ensures { result ≡ [] }
    {
        Args {
            items: ArrayVec::new(),
        }
    }

    pub fn items(&self) -> &[Arg]
        ensures items { result.now ≡ self.now }
        ensures few { length self.now ≤ 4 }
    {
        &self.items
    }

    /// Appends an argument. It is handed back, and the list is unchanged, exactly when there are four
    /// already.
    pub fn push(&mut self, arg: Arg) -> Result<(), Arg>
        ensures ok { OnOk result (self.new ≡ self.old ++ arg ∷ []) }
        ensures full { IsErr result ↔ (length self.old ≡ 4) }
        ensures handed_back { IfErr result (λ refused. refused ≡ arg) }
        ensures err { OnErr result (self.new ≡ self.old) }
    {
        if self.items.is_full() {
            return Err(arg);
        }
        self.items.push(arg);
        Ok(())
    }

    /// The same arguments again. Takes no memory.
    pub fn copy(&self) -> Args
        ensures { result ≡ self.now }
    {
        let mut items = ArrayVec::new();
        for arg in self.items() {
            items.push(*arg);
        }
        Args { items }
    }
}

/// A measurement: an attestation service provider by name, with its arguments.
#[derive(Debug, Drop, PartialEq, Eq)]
pub struct Asp {
    pub name: Name,
    pub args: Args,
}

impl Asp {
    /// The same measurement again. Takes no memory.
    pub fn copy(&self) -> Asp
        ensures { result ≡ self.now }
    {
        Asp {
            name: self.name,
            args: self.args.copy(),
        }
    }
}
