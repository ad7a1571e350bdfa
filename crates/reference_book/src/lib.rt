//! The answers that an appraiser expects of measurements: references by place, kind and measurement. A
//! measurement may have several, but no reference is repeated. The crate looks these answers up, and
//! finds the measurements of a shape that have no reference, or too many for a hash. That a list with a
//! repeated reference is refused is this project's own rule.
#![tactic(auto)]

mod index;
mod leaves;
mod order;
mod reference;
mod references;
mod repeat;
mod sought;
#[cfg(test)]
mod tests;
mod walk;

pub use leaves::NoReference;
pub use reference::Reference;
pub use references::{References, ReferencesError};
