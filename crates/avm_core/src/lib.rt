//! Attestation machines, after Petz and Alexander, NFM 2021: a machine runs the code of one block of a
//! program, with one evidence and a stack of evidence, all kept as ids of a store.
//!
//! Each call is one row of the table of instructions in `machine_tables`, read on the values for which
//! the ids stand: `Steps` and `Gives` of `specs/Steps.antt`. All that a caller needs to know of a machine
//! is that it `Stands` (`specs/Machine.antt`): `start` ensures this if the program can be run, and every
//! call requires it and ensures it again. A step adds at most one value to the store, and none if no
//! event happens; if the store has room, it takes no memory.
//!
//! A step takes constant time, apart from hashing and from finding its block by binary search.
#![tactic(auto)]

mod arms;
mod laws;
mod machine;
mod stack;
mod stepped;
#[cfg(test)]
mod tests;

pub use laws::programs_run;
pub use machine::Machine;
pub use stepped::Stepped;
