//! Code of attestation machines, after Petz and Alexander, NFM 2021: instructions, blocks and
//! programs, and the text in which a program is listed. The instructions and their numbers are this
//! project's own.
//!
//! Instructions, blocks and programs contain no pointers, so clauses and definitions, here and above, go
//! by cases on these types themselves: code is a list of `Instr`, a program a list of `Block`.
#![tactic(auto)]

mod instr;
mod lines;
mod program;
mod text;

pub use instr::{BlockName, Instr};
pub use lines::listing;
pub use program::{Block, Code, Program};
pub use text::push_signs;
