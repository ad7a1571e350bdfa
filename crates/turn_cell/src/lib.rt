// The lock of a session. A cell keeps one state. Whoever takes the turn has the state in hand until it is put back.
// Nobody waits: a pass that finds the turn taken is told so, and can tell that another had it.
// What a pass takes continues all that it has seen, and its own entries stand in the history once each.
#![tactic(auto)]

mod cell;
mod chronicle;
mod diary;
mod laws;
mod pass;
mod rule;
#[cfg(test)]
mod tests;
mod threads;

pub use cell::{TurnCell, Unopened};
pub use chronicle::{Chronicle, Entry};
pub use laws::made_by_law;
pub use pass::CellPass;
