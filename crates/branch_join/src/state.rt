use evidence_store::EvId;

/// How a block stands.
#[derive(Clone, Copy, Debug, PartialEq, Eq)]
pub enum BlockState {
    NotStarted,
    Running,
    /// It is over, with this result.
    Ended(EvId),
}
