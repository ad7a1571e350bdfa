ghost use Rattle.std.specs.Prelude.{◌≡◌, ◌<◌, ◌^◌, length, IfOk};
ghost use Rattle.phrase_tree.specs.Repeats.{AreDistinct};
ghost use Rattle.place_check.specs.Places.{keys_of, place_index, repeats};

use crate::entry::{PlaceEntry, PlacesError};
use crate::repeat::{first_repeat, place_index};
use phrase_tree::{NoMemory, Place};
use seal_hmac::{Key, KeyRing};
use std::alloc::Global;
use std::marker::Model;

/// The places of a job in the order in which they were given, no two of one name.
#[derive(Drop)]
pub struct Places {
    entries: Vec<PlaceEntry>,
    keys: KeyRing,
}

impl Model for Places {
    ghost use Rattle.std.specs.Prelude.{List};
    ghost use Rattle.place_check.specs.declared.entry.PlaceEntry.{PlaceEntry};
    ghost use Rattle.place_check.specs.Places.{IsKeyed};

    ghost Value = { List PlaceEntry };

    ghost view = { λ places. places.entries.items };

    ghost invariant = { λ places. IsKeyed places.entries.items places.keys };
}

impl Places {
    ghost use Rattle.place_check.specs.Places.{IsKept};

    /// The places of a list, or its first repeat if two have one name. It makes a ring of their keys,
    /// and takes time in the square of their number.
    pub fn of(alloc: Global, entries: Vec<PlaceEntry>) -> Result<Places, PlacesError>
        requires { length entries.items < 2 ^ 32 }
        ensures { IsKept entries.items result }
    {
        if let Some((first, second)) = first_repeat(&entries) {
            return Err(PlacesError::Repeated { first, second });
        }
        match ring_of(alloc, &entries) {
            Ok(keys) => Ok(Places { entries, keys }),
            Err(_) => Err(PlacesError::NoMemory),
        }
    }

    /// The index of the place with this name; none exactly when there is none. It checks each in turn.
    pub fn find(&self, place: Place) -> Option<u32>
        ensures { result ≡ place_index self.now place }
    {
        place_index(&self.entries, place)
    }

    /// The number of places.
    pub fn count(&self) -> u32
        ensures { result ≡ length self.now }
    {
        self.entries.len() as u32
    }

    /// The keys of the places, in their order.
    pub fn keys(&self) -> &KeyRing
        ensures { result.now ≡ keys_of self.now }
    {
        &self.keys
    }

    pub fn items(&self) -> &[PlaceEntry]
        ensures items { result.now ≡ self.now }
        ensures distinct { AreDistinct (repeats self.now) }
    {
        &self.entries
    }
}

fn ring_of(alloc: Global, entries: &[PlaceEntry]) -> Result<KeyRing, NoMemory>
    ensures { IfOk result (λ keys. keys ≡ keys_of entries.now) }
{
    let mut pairs: Vec<(Place, Key)> = Vec::new(alloc);
    for entry in entries {
        pairs.push((entry.name, entry.key))?;
    }
    Ok(KeyRing::of(pairs))
}
