use evidence_store::EvId;

/// What a block did.
#[derive(Clone, Copy, Debug, PartialEq, Eq)]
pub enum Moved {
    /// Nothing: it doesn't run, or it waits for an answer, a reply or the result of another block.
    Waits,
    /// The instruction has no event.
    Silent,
    /// The event happened.
    Happened(u32),
    /// The event happened, and a request of its number waits at the place of this index, with this
    /// evidence.
    Sent {
        event: u32,
        place: u32,
        evidence: EvId,
    },
    /// The event happened, and the block of its number runs.
    Forked(u32),
    /// The block is over, with this result.
    Ended(EvId),
}

/// What a block can do next.
#[derive(Clone, Copy, Debug, PartialEq, Eq)]
pub enum Ready {
    /// Nothing: it doesn't run, or it waits for a reply or the result of another block.
    Waits,
    /// It can go on, and this event happens, if the instruction has one.
    Runs(Option<u32>),
    /// It waits for the answer of this event, which is asked for once.
    Asks(u32),
}

/// Which request or reply a block's next instruction sends, with the evidence that goes with it, or needs;
/// by the number of the request.
#[derive(Clone, Copy, Debug, PartialEq, Eq)]
pub enum Touched {
    Nothing,
    SendsRequest { number: u32, evidence: EvId },
    SendsReply { number: u32, evidence: EvId },
    NeedsReply(u32),
}
