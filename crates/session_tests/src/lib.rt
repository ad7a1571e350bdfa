//! Sessions and desks from outside. No code: tests of what the calls of `session_core` and `session_desk`
//! come to over a bench, by one pass, by three in turns, by two threads, and by the workers of
//! `manager_runner` over made jobs.
#![tactic(auto)]

#[cfg(test)]
mod desks;
#[cfg(test)]
mod fixture;
#[cfg(test)]
mod interleavings;
#[cfg(test)]
mod made_jobs;
#[cfg(test)]
mod messages;
#[cfg(test)]
mod records;
#[cfg(test)]
mod threads;
