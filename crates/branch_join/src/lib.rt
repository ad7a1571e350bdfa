//! How the blocks of a program stand: not started, running, or ended with a result. A parallel branch
//! waits for its right arm by the name of the arm's block.
//!
//! Clauses see the table as a function from names to states: `Blocks` and `state_of` of
//! `specs/Blocks.antt`. Each change is one equation on it, so every other block stays as it is. A call
//! finds its block by binary search, and only `of` takes memory.
#![tactic(auto)]

mod laws;
mod state;
mod table;
#[cfg(test)]
mod tests;

pub use laws::{no_block_is_started, one_block_changes};
pub use state::BlockState;
pub use table::BlockTable;
