//! The walk of a number over the sessions of a job, on one thread: what the number's schedule draws, which
//! of the sessions are still open, the laws by which a loop that measures as it goes plays them as the
//! schedule does, and that loop over sessions with a bench (`walk_sessions`).
#![tactic(auto)]

mod draws;
mod fixed;
mod going;
mod laws;
mod playing;
mod records;
mod rounds;
#[cfg(test)]
mod tests;
mod turns;
mod walk;
#[cfg(test)]
mod walk_tests;

pub use draws::Draws;
pub use fixed::digests_make_one_walk;
pub use going::Going;
pub use laws::walk_law;
pub use records::records_law;
pub use turns::{all_ask_places, finish_in_turn, turns_law};
pub use walk::{finish_together, walk_sessions};
