//! Benches, which measure, the questions that they are asked, and the artefacts of a job. A bench is
//! known by three relations that its value fixes: which answers it gives, which faults it fails with,
//! and which questions it may leave unanswered for want of memory. Code that is generic over a bench
//! can show none of them except by asking the bench, so it can't make up an answer.
#![tactic(auto)]

mod artefacts;
mod ask;
mod asking;
mod bench;
mod digest;
mod table;
#[cfg(test)]
mod tests;

pub use artefacts::{Artefact, ArtefactBook, BookError};
pub use ask::{Ask, AskKind};
pub use asking::ask_of;
pub use bench::{Bench, BenchFault, MeasureError};
pub use digest::DigestBench;
pub use table::{TableBench, TableResult, TableRow};
