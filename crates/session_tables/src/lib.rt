//! What the tables of a session's machines say of its phrase: at every moment they show how far the
//! phrase is, entry by entry. Definitions and laws alone, for the crate that runs sessions; they know no
//! store, id or lock.
#![tactic(auto)]

mod allowed;
mod bounds;
mod events;
mod laws;
mod light;
mod played;
mod taken;
#[cfg(test)]
mod tests;
mod touched;
mod touches;

pub use allowed::allowed_law;
pub use bounds::{bounds_law, over_law};
pub use events::{free_law, own_question_law};
pub use laws::{agenda_law, entry_law, question_law, ready_law, start_law, tables_law};
pub use light::fits_law;
pub use played::played_law;
pub use taken::{results_law, steps_law};
pub use touched::touched_law;
pub use touches::touches_law;
