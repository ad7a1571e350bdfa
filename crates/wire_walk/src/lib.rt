//! The walk of a number over the sessions of a job whose requests and replies travel over links: the number's
//! schedule draws which ask is measured, which move is made, and which frame in flight is lost, arrives and
//! stays, or arrives. Sessions are played one after another (`wire_walk`).
#![tactic(auto)]

mod fates;
mod flight;
mod flying;
mod reading;
#[cfg(test)]
mod tests;
mod turns;
mod walk;

pub use walk::{Told, wire_walk};
