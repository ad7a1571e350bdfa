//! A desk: sessions that several passes, on whichever threads, move on in turns.
//!
//! A desk keeps each session in a cell of its own, and a pass takes the turn of a cell for one call and
//! gives it back. Nobody waits. Clauses see a desk as the identities of its cells, and a pass as its
//! number and what it knows of each session (`Known` of `specs/Views.antt`): after every call but one that
//! is busy that is a legal history, with all that the pass had seen before and just its own entries.
#![tactic(auto)]

mod advance;
mod among;
mod desk;
mod hand;
mod laws;
mod opening;
mod pass;
mod seat;
mod threads;

pub use desk::Desk;
pub use hand::{DeskError, Hand, Recorded, Turned};
pub use laws::{measured_law, opened_law, stays_law};
pub use pass::Pass;
