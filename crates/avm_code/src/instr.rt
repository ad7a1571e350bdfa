use phrase_tree::{Asp, Place, Split};

/// The name of a block: the root of a session, or the number of the event that starts it, which is a
/// request or the split of a parallel branch.
#[derive(Clone, Copy, Debug, PartialEq, Eq)]
pub enum BlockName {
    Root,
    Of(u32),
}

/// One step of a machine, which has one evidence and a stack of evidence. The first number of an
/// instruction is that of its event.
#[derive(Debug, Drop)]
pub enum Instr {
    /// The evidence stays as it is.
    Copy(u32),
    /// The evidence under the answer of a measurement.
    Usm(u32, Asp),
    /// The evidence under the answer of a measurement of a target place.
    Kim(u32, Place, Asp),
    /// The evidence under the seal of the block's place.
    Sign(u32),
    /// The hash of the evidence.
    Hash(u32),
    /// No evidence.
    Null(u32),
    /// Pushes what the right arm of a sequential branch gets; what the left arm gets becomes the
    /// evidence.
    Split(u32, Split),
    /// The evidence and the top of the stack change places. No event.
    Swap,
    /// The pair of the top of the stack, which is popped, and the evidence.
    JoinSeq(u32),
    /// Sends the evidence to a place, as a request named by its event.
    Send(u32, Place),
    /// The reply to the request of the second number.
    Recv(u32, u32),
    /// Starts the block of the event's number on what the right arm of a parallel branch gets; what the
    /// left arm gets becomes the evidence.
    Fork(u32, Split),
    /// The pair of the evidence and the result of the block of the second number, once that block has
    /// ended.
    JoinPar(u32, u32),
    /// The end of the block: its evidence is its result. No event.
    End,
}
