//! Sessions that are run. A `Session` is opened over a bench with a session that was checked, its places
//! and the artefacts. Each move and each result that can come next is one more entry of its history, which
//! is legal at every moment. It is a chronicle of `turn_cell`: what it was opened with, and its entries.
//!
//! Below it stands its `Core`: the machines, the possible moves, and what is kept of the history. It knows
//! no bench, and holds no reference. A core is one of a session, with keys, among places, after the history
//! of its book (`IsCore` of `specs/Core.antt`). Each step requires that its entry can come next, appends
//! it, and keeps the core one of that session. All room is taken when a core is opened, and no step takes
//! memory.
#![tactic(auto)]

mod chronicle;
mod counting;
mod laws;
mod opened;
mod opening;
mod places;
mod played;
mod playing;
mod reading;
mod reading_laws;
#[cfg(test)]
mod run_table;
mod session;
mod steps;
mod telling;
#[cfg(test)]
mod tests;
mod threads;
mod touching;

pub use opened::Opened;
pub use played::{OutcomeError, PlayError, Played, RecordError, Touch};
pub use session::Session;
pub use session_book::{Entry, Move, State};
pub use steps::Core;
