use crate::denied::Denial;

/// What was chosen of several sessions.
#[derive(Debug, Drop)]
pub struct Choice {
    /// The first denial of each session before the chosen one; of every session if none is chosen.
    pub denials: Vec<Denial>,
    /// The index of the first session of which nothing is denied; none if there is no such session.
    pub chosen: Option<u32>,
}
