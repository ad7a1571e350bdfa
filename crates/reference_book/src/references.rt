ghost use Rattle.std.specs.Prelude.{◌≡◌, ◌<◌, ◌^◌, length, slice_get};
ghost use Rattle.std.specs.Option.{option_copied};
ghost use Rattle.phrase_tree.specs.Repeats.{AreDistinct};
ghost use Rattle.reference_book.specs.References.{answers_for, repeats};

use crate::index::{count_of, in_order, nth_of};
use crate::reference::Reference;
use crate::repeat::first_repeat;
use crate::sought::Sought;
use crate::walk;
use bench_trait::AskKind;
use evidence_types::Answer;
use phrase_tree::{Asp, Place};
use std::marker::Model;

/// Why a list of references was refused.
#[derive(Clone, Copy, Debug, PartialEq, Eq)]
pub enum ReferencesError {
    /// The second is the least index whose reference has the place, kind with target, measurement and
    /// answer of an earlier one, and the first is the least index that it repeats.
    Repeated { first: u32, second: u32 },
}

/// References in the order in which they were given, none of them twice. A measurement may have
/// several. Looking one up takes time in the logarithm of their number, by an index of them in the
/// order of place, kind with target, measurement and number. If there was no memory for the index, a
/// look-up checks each in turn.
#[derive(Debug, Drop)]
pub struct References {
    entries: Vec<Reference>,
    order: Option<Vec<u32>>,
}

impl Model for References {
    ghost use Rattle.std.specs.Prelude.{List};
    ghost use Rattle.reference_book.specs.declared.reference.Reference.{Reference};
    ghost use Rattle.reference_book.specs.Order.{IsIndexed};

    ghost Value = { List Reference };

    ghost view = { λ references. references.entries.items };

    ghost invariant = { λ references. IsIndexed references.entries.items references.order };
}

impl References {
    ghost use Rattle.reference_book.specs.References.{IsKept};

    /// The references of a list, or its first repeat. It has no answer for want of memory: it can do
    /// without memory what it does with it, in time in the square of their number.
    pub fn of(entries: Vec<Reference>) -> Result<References, ReferencesError>
        requires { length entries.items < 2 ^ 32 }
        ensures { IsKept entries.items result }
    {
        let alloc = *entries.allocator();
        let order = in_order(alloc, false, &entries);
        if let Some((first, second)) = first_repeat(alloc, &entries, &order) {
            return Err(ReferencesError::Repeated { first, second });
        }
        Ok(References { entries, order })
    }

    pub fn items(&self) -> &[Reference]
        ensures items { result.now ≡ self.now }
        ensures distinct { AreDistinct (repeats self.now) }
    {
        &self.entries
    }

    /// How many references there are for this measurement. Takes no memory.
    pub fn count(&self, place: Place, kind: &AskKind, asp: &Asp) -> u32
        ensures { result ≡ length (answers_for self.now place kind.now asp.now) }
    {
        let sought = &Sought::of_measurement(place, kind, asp);
        match &self.order {
            Some(indices) => count_of(&self.entries, indices, sought),
            None => walk::count(&self.entries, sought),
        }
    }

    /// The answer of the reference for this measurement at an index among those for it, in the order in
    /// which they were given; none exactly when the index is not below their count. Takes no memory.
    pub fn nth(&self, place: Place, kind: &AskKind, asp: &Asp, index: u32) -> Option<&Answer>
        ensures { option_copied result ≡ slice_get (answers_for self.now place kind.now asp.now) index }
    {
        let sought = &Sought::of_measurement(place, kind, asp);
        match &self.order {
            Some(indices) => nth_of(&self.entries, indices, sought, index),
            None => walk::nth(&self.entries, sought, index),
        }
    }
}
