//! Reads and prints the text of a phrase. The whole grammar, the tokens and the nine refusals are in
//! `specs/`, as relations on whole texts and lists of tokens; the code goes over the bytes once, with a
//! stack of open brackets, in time linear in the text. Two laws say that each text has only one
//! reading, a phrase or a refusal, and that the canonical text of a phrase is read as that phrase.
#![tactic(auto)]

mod laws;
mod lexeme;
mod piece;
mod printer;
mod reader;
mod refusal;
mod state;
#[cfg(test)]
mod tests;
mod token;

pub use laws::{print_law, reading_law, spelling_law};
pub use printer::print;
pub use reader::{TEXT_BYTES, read};
pub use refusal::{Kind, ReadError};
