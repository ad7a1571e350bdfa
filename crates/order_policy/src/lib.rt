//! Claims about the order in which measurements happen, and whether a phrase has them in every trace.
//! The order is that of event systems, after Ramsdell et al., Orchestrating Layered Attestations, POST
//! 2019; claims, their text and the labels by which they are judged are this project's own.
#![tactic(auto)]

mod bounds;
mod claim;
mod judgement;
mod judging;
mod label;
mod laws;
mod lines;
mod measured;
mod policy;
mod reading;
#[cfg(test)]
mod tests;

pub use claim::{Ahead, Claim, Service};
pub use judgement::{Judgement, Judgements};
pub use judging::judge;
pub use label::{Label, Labels};
pub use laws::{judged_law, label_law, policy_law};
pub use lines::push_judgements;
pub use policy::{CLAIMS, OrderPolicy, PolicyError, bad_claim};
