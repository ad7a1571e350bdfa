//! The machines of a session together: one for each block of its program, over one store of evidence,
//! with the states of blocks and the mail between places.
//!
//! A `World` stands for the tables of values of `machine_tables` (`tables_of` of `specs/Cells.antt`):
//! each call is one step of these tables, with ids in the code alone. Laws of the mail and of the blocks
//! on values, by the names of places and blocks, say what each change leaves.
//!
//! The tables say what a call is given leave for (`MayRun`, `MayDeliver` and `MayAnswer` of
//! `machine_tables`). Room for all that can come is taken when a world is opened.
//!
//! A call takes constant time, apart from hashing and from finding blocks by binary search; a send also
//! looks through the places, of which a session has few.
#![tactic(auto)]

mod laws;
mod moved;
mod places;
mod play;
mod reading;
mod runner;
#[cfg(test)]
mod tests;
mod waiters;
mod world;

pub use laws::{a_block_has_one_index, mail_on_values, one_block_changes};
pub use moved::{Moved, Ready, Touched};
pub use play::phrases_play;
pub use runner::Runner;
pub use world::World;
