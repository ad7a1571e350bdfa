ghost use Rattle.std.specs.Prelude.{◌≡◌};

use std::marker::Model;

/// Stands for one value of the store that gave it, for good.
#[derive(Clone, Copy, Debug, Default, PartialEq, Eq)]
pub struct EvId {
    place: usize,
}

impl Model for EvId {
    ghost use Rattle.std.specs.Prelude.{ℕ};

    ghost Value = { ℕ };

    ghost view = { λ id. id.place };

    ghost inverse = { λ place. record { place = place } };
}

impl EvId {
    pub(crate) fn of(place: usize) -> EvId
        ensures { result ≡ place }
    {
        EvId { place }
    }

    pub(crate) fn index(self) -> usize
        ensures { result ≡ self }
    {
        self.place
    }
}
