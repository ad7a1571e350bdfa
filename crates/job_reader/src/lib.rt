//! Reads a job: turns one JSON text into places, artefacts, sessions, references and a bundle, or into
//! its first refusal. `specs/Faults.antt` lists the faults of form of a tree, the first of which
//! refuses the job; `specs/Form.antt` has the job that is written in a tree without one;
//! `specs/Whole.antt` the seven tests over the whole job, in their order; `specs/Finding.antt` what the
//! bytes of a job turn out to be. The format is this project's own.
#![tactic(auto)]

mod accepted;
mod artefacts;
mod books;
mod bundle;
mod checks;
mod field;
mod form;
mod laws;
mod nonces;
mod path;
mod phrases;
mod places;
mod reading;
mod references;
mod refusal;
mod roots;
mod sessions;
#[cfg(test)]
mod tests;
mod whole;
mod written;

pub use accepted::{BundleIn, Job};
pub use laws::{
    accepted_job_has_few_sessions, one_finding, sessions_ask_apart, walk_stops_at_the_first_fault,
};
pub use reading::job_of;
pub use refusal::JobError;
