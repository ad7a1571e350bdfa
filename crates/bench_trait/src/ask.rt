use phrase_tree::{Asp, Place};

/// Whether a place measures itself or a target.
#[derive(Clone, Copy, Debug, PartialEq, Eq)]
pub enum AskKind {
    /// A measurement by a service of the place.
    Usm,
    /// A measurement of this target by a service of the place.
    Kim(Place),
}

/// The question of one measurement event of one session: it holds the session's nonce, so no two
/// sessions with different nonces ask the same.
#[derive(Debug, Drop, PartialEq, Eq)]
pub struct Ask {
    pub nonce: [u8; 16],
    pub event: u32,
    pub place: Place,
    pub kind: AskKind,
    pub asp: Asp,
}
