//! The outside world as bytes: sources that are read to their end, and sinks that take all that is
//! written, with a count of faults that never falls. Code above is generic over both, and proved once,
//! for every way in which a source cuts its bytes and a sink takes them.
//!
//! A port may tell its bytes: then clauses say which bytes were given and taken. Whether it tells
//! them never changes. The ports of standard input and output tell nothing; those in memory do.
#![tactic(auto)]

mod bytes;
mod memory;
mod port;
mod reading;
mod standard;
#[cfg(test)]
mod tests;
mod writing;

pub use bytes::Bytes;
pub use memory::{Behaviour, MemSink, MemSource};
pub use port::{PortFailed, Sink, Source};
pub use reading::{ReadAllError, read_all};
pub use standard::{StdSink, StdSource};
pub use writing::{WriteFault, write_all_of};
