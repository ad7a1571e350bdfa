use evidence_store::EvId;

/// The start of a block at another place, with the evidence on which it runs.
#[derive(Clone, Copy, Debug, PartialEq, Eq)]
pub struct Request {
    /// The number of the request.
    pub name: u32,
    pub evidence: EvId,
}
