//! What a session that was checked against places brings to those that run it: its phrase asks only
//! these places, which have different names, and each block of its program has its key. Laws alone, for
//! the crates that know places, programs and running sessions together.
#![tactic(auto)]

mod laws;
#[cfg(test)]
mod tests;

pub use laws::{blocks_have_keys, checked_session_asks_places, places_are_apart};
