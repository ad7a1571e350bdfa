//! What a session means: the value that a phrase makes of a nonce and answers, and which records of a
//! session are right. Definitions, for the crates that evaluate, run and report sessions; they recurse
//! over phrases and speak of whole lists, and know no stack, store or thread. The only code is the type
//! of a record, which those crates share.
#![tactic(auto)]

mod laws;
mod record;

pub use laws::{value_fits_shape, value_is_within};
pub use record::{DoneRecord, FailRecord, Record};
