/// Why a move wasn't made.
#[derive(Clone, Copy, Debug, PartialEq, Eq)]
pub enum WireError {
    /// It isn't possible now, or the request or reply that it needs has not arrived.
    NotNow,
    NoMemory,
}

/// Why a message wasn't sent again.
#[derive(Clone, Copy, Debug, PartialEq, Eq)]
pub enum ResendError {
    /// It was never sent.
    NotSent,
    NoMemory,
}

/// What a frame was that arrived.
#[derive(Clone, Copy, Debug, PartialEq, Eq)]
pub enum Arrived {
    /// A message of the session that had not arrived before.
    Kept,
    /// One that had. If it is a request whose reply was sent, the reply is sent once more.
    Repeated,
    /// A frame of another session, or one that was never sent.
    Strange,
}
