ghost use Rattle.std.specs.Prelude.{◌≡◌};
ghost use Rattle.std.specs.Option.{option_copied};
ghost use Rattle.seal_hmac.specs.Keys.{key_of};

use crate::key::Key;
use phrase_tree::Place;
use std::marker::Model;

/// The keys of places, in the order in which they were given.
#[derive(Drop)]
pub struct KeyRing {
    pairs: Vec<(Place, Key)>,
}

impl Model for KeyRing {
    ghost use Rattle.std.specs.Prelude.{ℕ, List};

    ghost Value = { List (List ℕ × List ℕ) };

    ghost view = { λ ring. ring.pairs.items };
}

impl KeyRing {
    /// The ring of these pairs of a place and its key.
    pub fn of(pairs: Vec<(Place, Key)>) -> KeyRing
        ensures { result ≡ pairs.items }
    {
        KeyRing { pairs }
    }

    /// The pairs, in the order in which they were given.
    pub fn items(&self) -> &[(Place, Key)]
        ensures { result.now ≡ self.now }
    {
        &self.pairs
    }

    /// The first key of this place; none exactly when the ring has none. It checks each pair in turn.
    pub fn find(&self, place: Place) -> Option<&Key>
        ensures { option_copied result ≡ key_of self.now place }
    {
        for pair in &self.pairs {
            if pair.0 == place {
                return Some(&pair.1);
            }
        }
        None
    }
}
