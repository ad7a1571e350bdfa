//! Workers that move the sessions of a desk on to their end, each on a thread of its own.
//!
//! `drive` is the work of one pass: after it the pass has seen of each session a legal history that isn't
//! open. `run` drives many passes at once and then hands out the records of the sessions. Clauses see a
//! desk and its passes as `session_desk` does. Nothing is promised of time, progress or who does what.
#![tactic(auto)]

mod bell;
mod fan;
mod laws;
mod rounds;
#[cfg(test)]
mod tests;
mod workers;

pub use laws::workers_law;
pub use rounds::drive;
pub use workers::run;
