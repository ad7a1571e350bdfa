//! A list of entries, each with a number, that rises strictly by these numbers, all below a bound. It
//! has at most as many entries as the bound says, so all room is taken when it is opened, and none is
//! needed after that. What lies at a number is found by binary search; an entry is put in or taken out
//! by one shift of those behind it.
//!
//! Clauses see such a list as its bound and its entries in order: `Rising` of `specs/Rising.antt`.
#![tactic(auto)]

mod entries;
mod laws;
mod list;
#[cfg(test)]
mod tests;

pub use entries::{find_in, insert_in, remove_in, replace_in};
pub use laws::what_is_found;
pub use list::RisingList;
