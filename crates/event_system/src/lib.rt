//! The events of a phrase of Copland and their order, after Ramsdell et al., Orchestrating Layered
//! Attestations, POST 2019: the event list, the event system, which events are before which, and
//! what is wrong with a list of events that should be a trace. The numbers are this project's own.
#![tactic(auto)]

mod building;
mod direct;
mod event;
mod fault;
mod laws;
mod list;
mod order;
mod predecessors;
mod system;
#[cfg(test)]
mod tests;
mod trace;

pub use direct::Needs;
pub use event::{Event, EventKind};
pub use fault::TraceFault;
pub use laws::{list_law, needs_law, order_law, rising_law, system_law, trace_law};
pub use list::{EventList, list_of};
pub use order::before;
pub use predecessors::needs;
pub use system::{EventSystem, system_of};
pub use trace::trace_fault;
