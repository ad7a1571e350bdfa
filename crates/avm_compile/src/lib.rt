//! The compiler of phrases, after Petz and Alexander, NFM 2021. It gives the one program that a phrase
//! has by a recursive definition. Machines and sessions rest on the laws of such programs.
#![tactic(auto)]

mod compiler;
mod laws;
#[cfg(test)]
mod tests;

pub use compiler::compile;
pub use laws::{
    blocks_are_awaited_once, blocks_are_where_events_are, code_ends_once, code_is_short,
    each_event_is_made_once, named_blocks_are_there, names_are_in_order, phrases_have_blocks,
    remote_blocks_are_requests, stacks_fit,
};
