use phrase_tree::{Name, Place};

/// How a measurement is covered in evidence.
#[derive(Clone, Copy, Debug, PartialEq, Eq)]
pub enum Cover {
    Bare,
    /// It stands under a seal, and under no hash.
    Sealed,
    /// It stands under a hash.
    Hashed,
}

/// A measurement that evidence holds: its event, its place, its name, and how it is covered.
#[derive(Clone, Copy, Debug)]
pub struct Held {
    pub event: u32,
    pub place: Place,
    pub measurement: Name,
    pub cover: Cover,
}
