//! The run of a made job: each of its sessions is played to its end by itself, as the schedule of 0 plays
//! sessions, its bundle is appraised in pieces, and what is counted of them is kept. So one session and one
//! record are held at a time. What is counted is `figures_of` in `specs/Figures.antt`; it is this project's
//! own.
#![tactic(auto)]

mod alone;
mod appraisal;
mod feeding;
mod figures;
mod laws;
mod run;
mod tally;

pub use figures::Figures;
pub use laws::{
    done_over_digests_is_accepted, done_with_references_is_accepted, made_jobs_are_accepted,
};
pub use run::run_load;
