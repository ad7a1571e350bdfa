use bench_trait::{Ask, MeasureError};
use evidence_types::Answer;

/// The right to record the result of one ask of a session, which the pass that asked was handed. It can't
/// be copied or dropped: it ends in `Desk::record`.
pub struct Hand {
    pub(crate) session: u32,
    pub(crate) event: u32,
}

/// What a turn came to.
pub enum Turned {
    /// The first possible move was made. It asks nothing.
    Moved,
    /// The first possible move was made. It asks this, and the result is recorded by the hand.
    ToMeasure(Ask, Hand),
    /// The session is open, and no move is possible: an ask is in flight.
    Waiting,
    /// The session isn't open any more.
    Finished,
    /// Another pass had the session's turn, or the turn is worn out.
    Busy,
}

/// What a record came to.
pub enum Recorded {
    Kept,
    /// The session had failed or starved. The result is dropped.
    Ended,
    /// Another pass had the session's turn, or the turn is worn out. The hand and the result come back.
    Busy(Hand, Result<Answer, MeasureError>),
}

/// Why a desk has no record of a session.
#[derive(Clone, Copy, Debug, PartialEq, Eq)]
pub enum DeskError {
    /// The session is open.
    NotFinished,
    /// Another pass had the session's turn, or the turn is worn out.
    Busy,
    NoMemory,
}
