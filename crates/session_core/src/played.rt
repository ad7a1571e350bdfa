use bench_trait::Ask;

/// What a move tells the pass that made it.
#[derive(Debug, Drop, PartialEq, Eq)]
pub enum Played {
    Moved,
    /// The move asks: the session's own question, whose answer is recorded by the same pass.
    Asked(Ask),
}

/// Why a move wasn't made.
#[derive(Clone, Copy, Debug, PartialEq, Eq)]
pub enum PlayError {
    /// It isn't possible now.
    NotNow,
}

/// Why a result wasn't recorded.
#[derive(Clone, Copy, Debug, PartialEq, Eq)]
pub enum RecordError {
    /// The session had failed or starved.
    Ended,
}

/// Why a session has no record.
#[derive(Clone, Copy, Debug, PartialEq, Eq)]
pub enum OutcomeError {
    /// It is open.
    NotFinished,
    NoMemory,
}

/// Which request or reply a move sends or needs, by its number.
#[derive(Clone, Copy, Debug, PartialEq, Eq)]
pub enum Touch {
    Nothing,
    SendsRequest(u32),
    SendsReply(u32),
    NeedsRequest(u32),
    NeedsReply(u32),
}
