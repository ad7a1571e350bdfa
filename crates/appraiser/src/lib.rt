//! Appraisal: whether a value is the one that is expected of a shape. A value that does not fit the shape is
//! refused at the first node that does not; of one that fits there is a verdict for each nonce, answer, seal
//! and hash. What lies under a hash is not in the value, so it is expected from the references alone. The
//! rules are this project's own.
//!
//! Clauses see what a session is appraised by as a record: `Basis` of `specs/Expected.antt`.
#![tactic(auto)]

mod appraising;
mod digesting;
mod expecting;
mod fitting;
mod judging;
mod laws;
mod marking;
#[cfg(test)]
mod tests;
mod verdict;

pub use appraising::{AppraiseError, appraise};
pub use expecting::{Given, hash_of_expected};
pub use fitting::{fits_at, is_mark};
pub use judging::is_expected;
pub use laws::{accepted_law, fits_law, session_law, shape_law};
pub use marking::marks_of;
pub use verdict::{Verdict, VerdictOf, Verdicts};
