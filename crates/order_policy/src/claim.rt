ghost use Rattle.std.specs.Prelude.{◌≡◌};
ghost use Rattle.order_policy.specs.Claims.{is_same};

use phrase_tree::{Name, Place};

/// A measurement at a place, whatever its arguments.
#[derive(Clone, Copy, Debug, PartialEq, Eq)]
pub struct Service {
    /// The name of the measurement.
    pub name: Name,
    /// The place where it runs.
    pub place: Place,
}

impl Service {
    /// Whether the other has the same name and the same place.
    pub(crate) fn is_same(&self, other: &Service) -> bool
        ensures { result ≡ is_same self.now other.now }
    {
        self.name == other.name && self.place == other.place
    }
}

/// How many measurements of the earlier service are ahead of each one of the later service.
#[derive(Clone, Copy, Debug, PartialEq, Eq)]
pub enum Ahead {
    /// One of them at least; written `<`.
    One,
    /// Every one; written `<<`.
    Every,
}

/// A claim about the order in which measurements happen.
#[derive(Clone, Copy, Debug, PartialEq, Eq)]
pub struct Claim {
    pub earlier: Service,
    pub ahead: Ahead,
    pub later: Service,
}
