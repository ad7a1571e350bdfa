//! The mail between the places of a session: the requests that wait at each place, first in, first
//! out, and the replies to them, by the number of the request.
//!
//! Clauses see the lists of requests and of replies, and how many posts and replies there is room for:
//! `Mail` of `specs/Mail.antt`. Each call that changes them is one equation on that record, so every
//! other list and name stays as it is. A call for which there is room takes no memory.
#![tactic(auto)]

mod mailboxes;
mod queue;
mod replies;
mod request;
#[cfg(test)]
mod tests;

pub use mailboxes::Mailboxes;
pub use request::Request;
