//! The places of a job and what each may do: which places it asks, which it sees, and which
//! measurements it offers. A session is checked against them: its phrase runs only if the places allow
//! it, and its evidence stays within the limits. The rules are this project's own.
//!
//! Clauses see a checked session as a record, and `session_of` gives the session of `session_model` that
//! it is. That it was checked against a list of places is the fact `IsCheckedAgainst` of the session
//! and the places, in `specs/Session.antt`.
#![tactic(auto)]

mod checking;
mod entry;
mod laws;
mod places;
mod repeat;
mod session;
#[cfg(test)]
mod tests;
mod walk;

pub use checking::check;
pub use entry::{PlaceEntry, PlaceFault, PlaceKind, PlacesError};
pub use laws::checked_session_has_keys;
pub use places::Places;
pub use session::Checked;
