//! What a session keeps beside its machines: the entries of its history, its answers, the events that
//! happened, the asks in flight, and its state. Each answer is kept once; an entry holds its index.
//!
//! Clauses see a book as a history (`history_of` of `specs/Entries.antt`) and, with the values of the
//! session's store, as the `Book` of `machine_world` (`book_of` of `specs/Kept.antt`). All room is taken
//! when a book is opened, and no other call takes memory but those that copy out.
#![tactic(auto)]

mod book;
mod entry;
mod laws;
#[cfg(test)]
mod tests;

pub use book::SessionBook;
pub use entry::{Ending, Entry, Flight, Move, State};
pub use laws::asked_law;
