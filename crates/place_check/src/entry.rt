ghost use Rattle.std.specs.Prelude.{◌≡◌};
ghost use Rattle.place_check.specs.Words.{place_word};

use phrase_tree::{Names, Place};
use seal_hmac::Key;

/// A place of a job: its key, the places that it may ask, the targets that it may measure, and the
/// measurements that it offers.
#[derive(Drop)]
pub struct PlaceEntry {
    pub name: Place,
    pub key: Key,
    pub asks: Names,
    pub sees: Names,
    pub offers: Names,
}

/// Why a list of places was refused.
#[derive(Clone, Copy, Debug, PartialEq, Eq)]
pub enum PlacesError {
    /// The second is the least index whose place has an earlier one's name, and the first is the least
    /// index that it repeats.
    Repeated { first: u32, second: u32 },
    NoMemory,
}

/// The rule that an event breaks.
#[derive(Clone, Copy, Debug, PartialEq, Eq)]
pub enum PlaceKind {
    /// A request to something that is not a place, or a measurement of it.
    UnknownPlace,
    /// A request to a place that the asking place may not ask.
    MayNotAsk,
    /// A measurement that the place does not offer.
    NotOffered,
    /// A measurement of a target that the place may not see.
    MayNotSee,
}

impl PlaceKind {
    /// The word for it in the line of a refusal.
    pub fn word(self) -> &'static str
        ensures { result.now ≡ place_word self }
    {
        match self {
            PlaceKind::UnknownPlace => "unknown-place",
            PlaceKind::MayNotAsk => "may-not-ask",
            PlaceKind::NotOffered => "not-offered",
            PlaceKind::MayNotSee => "may-not-see",
        }
    }
}

/// Why a session was refused.
#[derive(Clone, Copy, Debug, PartialEq, Eq)]
pub enum PlaceFault {
    /// The first broken rule, by event and then in the order of the rules for that event, as in
    /// `PlaceKind`.
    Misplaced { event: u32, kind: PlaceKind },
    /// No rule is broken, and this is the least event at which the weight passes 262,144 or the
    /// nest 1,025.
    Oversize { event: u32 },
}
