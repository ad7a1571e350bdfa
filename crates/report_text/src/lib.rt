//! The texts in which sessions are reported. They are this project's own; each is a definition in
//! `specs/`, and the call that makes it gives exactly that text.
#![tactic(auto)]

mod events;
mod inline_line;
mod line;
mod record;
mod refusal;
mod session;
#[cfg(test)]
mod tests;
mod transcripts;
mod verdicts;

pub use events::events_text;
pub use inline_line::Line;
pub use record::{push_value, record_text, records_text, values_text};
pub use refusal::{Refusal, refusal_line};
pub use session::{push_check, push_code, push_events, push_shape};
pub use transcripts::transcripts_text;
pub use verdicts::{upgrade_text, verdicts_text};
