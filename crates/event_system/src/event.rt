use phrase_tree::{Asp, Place};

/// What happens at an event: a leaf of the phrase, a request to a place or its reply, or the split
/// or the join of a branch.
#[derive(Debug, Drop, PartialEq, Eq)]
pub enum EventKind {
    Cpy,
    Usm(Asp),
    /// The target, and the measurement.
    Kim(Place, Asp),
    Sig,
    Hsh,
    Nul,
    Req(Place),
    Rpl(Place),
    Split,
    Join,
}

/// An event of a phrase: its number, what happens, and the place where it happens.
#[derive(Debug, Drop, PartialEq, Eq)]
pub struct Event {
    pub number: u32,
    pub kind: EventKind,
    pub place: Place,
}
