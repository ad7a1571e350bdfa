//! The commands of Cerealspit, which carries out phrases of Copland, the language of layered attestation,
//! and appraises the bundles that they make. `top` is the whole program except for the ports and the
//! bench: from the words and the bytes that come in to the bytes that go out and the exit status.
//! `plain_top` is the same without threads, and so without `attest`. A program with measurements of its
//! own implements `Bench`, calls `top`, and ends with the code of the status.
#![tactic(auto)]

mod appraise;
#[cfg(test)]
mod appraise_tests;
mod attest;
#[cfg(test)]
mod attest_tests;
mod audit;
#[cfg(test)]
mod audit_tests;
mod choose;
#[cfg(test)]
mod choose_tests;
mod ending;
mod evaluate;
mod input;
#[cfg(test)]
mod job_tests;
mod laws;
mod load;
#[cfg(test)]
mod load_tests;
mod offer;
mod order;
#[cfg(test)]
mod order_tests;
mod outcome;
mod plain;
mod record;
#[cfg(test)]
mod refusal_tests;
mod session;
mod status;
#[cfg(test)]
mod test_runs;
#[cfg(test)]
mod tests;
mod threaded;
mod upgrade;
mod walk;
#[cfg(test)]
mod walk_tests;
mod words;

pub use laws::{
    attested_reports_differ_in_traces, commands_are_decisive, loads_are_accepted,
    reports_follow_from_bytes, sessions_are_done_where_artefacts_are_there,
    upgrades_have_the_same_verdicts,
};
pub use plain::{plain_top, refuse};
pub use status::Status;
pub use threaded::top;
