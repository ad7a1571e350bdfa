//! A store of evidence: values are added and never change, each under an id that stands for it for
//! good, and values share their parts. Seals and hashes are made while a value is walked, so none
//! of its bytes are gathered; only its bundle is.
//!
//! Clauses see a store as the list of its values, in the order in which they were added, and the number
//! of additions for which it has room: `Kept` of `specs/Kept.antt`. They see an id as the position of
//! its value in that list.
#![tactic(auto)]

mod bundle;
mod digest;
mod id;
mod laws;
mod node;
mod nodes;
mod store;
#[cfg(test)]
mod tests;
mod walk;

pub use id::EvId;
pub use laws::growth_is_transitive;
pub use store::Store;
