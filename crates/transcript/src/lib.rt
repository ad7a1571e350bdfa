//! The transcript of a session: its history as bytes, one spelling for each history.
//!
//! `write_transcript` writes it. Which bytes are the transcript of which history is `IsTranscriptOf` of
//! `specs/Bytes.antt`; what reading from the left gives, and which fault is the first, is `read_transcript`
//! of `specs/Reading.antt`, and a law says that they agree. `record_sessions` plays the sessions of a job and
//! writes the transcript of each. The format is this project's own.
#![tactic(auto)]

mod auditing;
mod digests;
mod fault;
mod fields;
mod flights;
mod laws;
mod reading;
mod recording;
mod replay;
#[cfg(test)]
mod tests;
mod writing;
mod written;

pub use auditing::{AuditError, audit};
pub use digests::audit_by_digests;
pub use fault::{Stop, TranscriptKind};
pub use laws::{one_spelling, starved_has_none, transcript_or_fault};
pub use recording::{RecordedSession, record_sessions, recordings_law};
pub use writing::{TranscriptError, write_transcript};
