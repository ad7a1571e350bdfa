//! Phrases of Copland, the language of layered attestation, as trees: names, measurements, the
//! ten forms of a phrase, and the numbers of their events. After Ramsdell et al., Orchestrating
//! Layered Attestations, POST 2019; the numbers that count from 0 are this project's own.
//!
//! Clauses see a phrase as its pointer-free twin, `term phrase` of `specs/Term.antt`, and everything
//! that is said about phrases, here and above, goes by cases on the twin.
#![tactic(auto)]

mod copying;
pub mod keyword;
mod lists;
mod measurement;
mod memory;
mod name;
mod phrase;
#[cfg(test)]
mod tests;
mod text;

pub use lists::{Names, Trace};
pub use measurement::{Arg, Args, Asp};
pub use memory::NoMemory;
pub use name::{Name, Place};
pub use phrase::{BRACKETS, EVENTS, Phrase, Split};
pub use text::{push_asp, push_bytes, push_decimal};
