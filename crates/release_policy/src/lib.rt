//! Release policies: to which places the measurements of a place may go, and how well covered. A policy
//! is a list of rules, read from a text. At each request of a session's phrase the evidence goes to the
//! place that is asked, and at its reply the result goes to the place that asked; each measurement that
//! it holds has to be allowed by the first rule that is for it, or be at its own place. Of several
//! sessions the first is chosen of which nothing is denied. All of this is this project's own.
//!
//! Clauses see a policy as the list of its rules. What a session discloses is defined over the shapes of
//! its evidence, in `specs/Disclosures.antt`, and what is denied of it in `specs/Denials.antt`.
#![tactic(auto)]

mod choosing;
mod chosen;
mod denied;
mod denying;
mod evidence;
mod flow;
mod held;
mod judge;
mod laws;
mod pattern;
mod policy;
mod reading;
mod rule;
#[cfg(test)]
mod tests;
mod walk;

pub use choosing::choose;
pub use chosen::Choice;
pub use denied::Denial;
pub use denying::denial;
pub use laws::{choice_law, reading_law, release_law};
pub use policy::{RULES, ReleaseError, ReleasePolicy};
pub use reading::bad_part;
