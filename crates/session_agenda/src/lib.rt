//! What the blocks of a session can do next, kept up to date: the agenda of its possible moves, as three
//! rising lists in the order in which they are listed. A move changes what few blocks can do next, and
//! each change takes time in the logarithm of what is kept, beside one shift of the entries behind it.
//!
//! Clauses see an agenda as what it keeps of each block (`next_by` of `specs/Kept.antt`), of each place
//! (`waits_by`), and as its moves in order (`listed`). It knows no store, machine or session.
//!
//! After each entry of a history it is told what the blocks that the entry touches can do next, and where
//! a request waits (`follow`; `Tells` of `specs/Told.antt` says what is to be told). Laws say that it then
//! goes on to say what the tables of the session's machines say, and that its moves are the possible ones.
#![tactic(auto)]

mod agenda;
mod laws;
mod moves;
#[cfg(test)]
mod tests;
mod updates;

pub use agenda::Agenda;
pub use laws::{followed_law, listed_law, opening_law, told_law};
pub use moves::{Move, Mover, PlaceUpdate, Task, Update};
