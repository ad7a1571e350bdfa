//! Readers and writers that make a call again which a signal interrupted.
//!
//! The system ends a read or a write early, with nothing read or written, where a signal comes that the
//! process handles. This is no fault of what is read or written. A [`RetryingReader`] and a
//! [`RetryingWriter`] make such a call again, at most [`RETRIES`] times in a row, and give the error of
//! the last try after that.
#![tactic(auto)]

mod reader;
#[cfg(test)]
mod tests;
mod writer;

pub use reader::RetryingReader;
pub use writer::RetryingWriter;

/// How often a call is made again, at most, since a signal interrupted it.
pub const RETRIES: u32 = 64;
