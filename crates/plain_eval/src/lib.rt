//! Sessions on one thread: `eval` is the value of a phrase for the answers that are given, by recursion
//! over the phrase, and `eval_bundle` the bundle of that value, made from its end to its front without the
//! value. Neither uses a store or a machine, so they are what every other way to run a session is compared
//! with.
//!
//! The value is `value_of` of the crate `session_model` (POST 2019, the evidence of a phrase).
#![tactic(auto)]

mod answering;
mod asks;
mod bundling;
mod copying;
mod digesting;
mod evaluating;
mod fixed;
#[cfg(test)]
mod gather_tests;
mod gathering;
mod given;
mod keyed;
mod laws;
mod leaves;
mod nodes;
mod pending;
mod putting;
mod right;
#[cfg(test)]
mod tests;

pub use bundling::eval_bundle;
pub use evaluating::eval;
pub use fixed::{
    digests_are_fixed, digests_make_one_record, done_where_artefacts_are_there,
    fixed_bench_makes_one_record, nonces_keep_questions_apart,
};
pub use gathering::{Gathered, gather, gather_session};
pub use laws::{events_have_the_keys_of_seals, value_fits_bundle, value_is_well_formed};
pub use right::rising_records_are_right;
