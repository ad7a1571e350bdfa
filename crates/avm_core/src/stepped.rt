use evidence_store::EvId;
use phrase_tree::Place;

/// What a step of a machine did, or what it needs.
#[derive(Debug, Drop)]
pub enum Stepped {
    /// The event happened.
    Event(u32),
    /// The instruction has no event.
    Silent,
    /// The event happened, and a request named by it goes to the place.
    Sent {
        name: u32,
        place: Place,
        evidence: EvId,
    },
    /// The event happened, and the block named by it starts.
    Forked {
        name: u32,
        evidence: EvId,
    },
    /// Nothing yet: the answer of this event is needed.
    NeedsAnswer {
        event: u32,
    },
    /// Nothing yet: the event needs the reply to the request of that name.
    NeedsReply {
        event: u32,
        name: u32,
    },
    /// Nothing yet: the event needs the result of the block of that name.
    NeedsChild {
        event: u32,
        name: u32,
    },
    /// The block ended with this result.
    Ended(EvId),
}
