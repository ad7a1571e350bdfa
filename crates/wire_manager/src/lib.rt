//! Sessions over links. A `WireSession` is a session whose requests and replies travel as frames, which may be
//! lost, repeated and put in another order: a request or a reply takes effect only once its frame has arrived.
//!
//! Its messages are kept in a `Link`, each once, and found by kind and number; what was sent is a list of their
//! indices. `specs/Linked.antt` says what holds after every list of calls, which `WireSession::linked` tells.
#![tactic(auto)]

mod answers;
mod arriving;
mod laws;
mod link;
mod listing;
mod playing;
mod sending;
mod session;
#[cfg(test)]
mod tests;
mod touching;

pub use answers::{Arrived, ResendError, WireError};
pub use laws::{link_law, request_law, stage_law, wire_progress_law};
pub use session::WireSession;
