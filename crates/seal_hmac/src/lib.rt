//! Keys of places and HMAC-SHA-256 (RFC 2104, FIPS 198-1): the code of a message under a key,
//! however the message was cut, and the seal and hash that stand in evidence. Nothing here takes
//! memory.
#![tactic(auto)]

mod bytes;
mod code;
mod digester;
mod hashers;
mod key;
mod ring;
#[cfg(test)]
mod tests;

pub use bytes::same;
pub use code::mac;
pub use digester::{Digester, hash, seal, seal_mac};
pub use hashers::Mac;
pub use key::{KEY_BYTES, Key, LEAST_KEY_BYTES};
pub use ring::KeyRing;
