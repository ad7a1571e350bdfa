//! A list of bytes that grows at its front. Whatever is made of parts by putting a few bytes ahead of them
//! is made in it from its end to its front: each part then stands whole behind the next one, and is
//! digested in one run or taken away again.
//!
//! Clauses see such a list as its bytes in order. A mark is the number of bytes that stand at some time, and
//! means the place ahead of them for as long as they stand.
#![tactic(auto)]

mod list;
#[cfg(test)]
mod tests;
mod writing;

pub use list::FrontBytes;
