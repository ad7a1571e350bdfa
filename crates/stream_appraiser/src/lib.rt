//! Appraisal of a bundle that comes in pieces: however it is cut, what comes out is what decoding the whole and
//! appraising its value gives. No value is built: the position in the shape, the open seals, the answers and the
//! verdicts so far are kept, and the bytes of one head.
#![tactic(auto)]

mod error;
mod forms;
mod laws;
mod seals;
mod stream;
#[cfg(test)]
mod tests;
mod walk;

pub use error::StreamError;
pub use laws::{acceptance_law, heads_law, upgrade_law};
pub use stream::StreamAppraiser;
