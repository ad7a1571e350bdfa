//! Makes the job of a number: eight places, artefacts of drawn bytes, 256 sessions with drawn phrases, and
//! a reference for each measurement, with the answer of the program's own bench. The numbers that are drawn
//! are those of the schedules of walks. `specs/Job.antt` has the whole job. It is this project's own.
#![tactic(auto)]

mod artefacts;
mod draws;
mod job;
mod laws;
mod names;
mod phrases;
mod places;
mod references;
mod sessions;
#[cfg(test)]
mod tests;

pub use job::load_job;
pub use laws::made_questions_are_answered;
