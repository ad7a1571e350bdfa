//! Bundles as bytes: `encode` and `encode_marked` write the one spelling of a value, `decode` and
//! `decode_any` read it again, or name the first fault of bytes that are not a bundle, with its offset, and
//! `Reader` reads a bundle that comes byte by byte, and hands on its heads.
//!
//! What is read, and which fault is the first, is `read_bundle` of `specs/Reading.antt`; the bytes
//! of a value are those of the crate `evidence_types`. The format is this project's own.
#![tactic(auto)]

mod decoding;
mod encoding;
mod fault;
mod fields;
mod head;
mod laws;
mod nodes;
mod reader;
#[cfg(test)]
mod tests;
mod version;
mod waits;

pub use decoding::{Decoded, decode, decode_any};
pub use encoding::{encode, encode_marked};
pub use fault::{BadKind, DecodeError, Fault};
pub use laws::{
    fault_of_every_extension, fault_or_bundle, one_marked_spelling, one_spelling, one_value,
    scan_law,
};
pub use reader::Reader;
pub use version::Version;
