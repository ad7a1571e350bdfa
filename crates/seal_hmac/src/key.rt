ghost use Rattle.std.specs.Prelude.{◌≡◌};
ghost use Rattle.std.specs.Option.{SomeIff};
ghost use Rattle.seal_hmac.specs.Keys.{IsKey};

use crate::bytes::padded;
use std::marker::Model;

/// The least length of a key, in bytes.
pub const LEAST_KEY_BYTES: usize = 16;

/// The greatest length of a key, in bytes.
pub const KEY_BYTES: usize = 128;

/// A key of 16 to 128 bytes, kept inline. It has no text form, so that no key is printed.
#[derive(Clone, Copy)]
pub struct Key {
    padded: [u8; 128],
    len: u8,
}

impl Model for Key {
    ghost use Rattle.std.specs.Prelude.{ℕ, List, ◌++◌, ◌-◌, length, replicate, take};
    ghost use Rattle.seal_hmac.specs.Keys.{IsPaddedKey, padded_again, length_again};

    ghost Value = { List ℕ };

    ghost view = { λ key. take key.len key.padded };

    ghost invariant = { λ key. IsPaddedKey key.len key.padded };

    ghost inverse = { λ bytes. record { padded = bytes ++ replicate (128 - length bytes) 0; len = length bytes } };

    ghost inverse_ok = { λ key h i. record {
      padded = padded_again key.len key.padded h i;
      len = length_again key.len key.padded h i;
    } };
}

impl Key {
    /// The key of these bytes; none exactly when they are not 16 to 128.
    pub fn read(bytes: &[u8]) -> Option<Key>
        ensures { SomeIff result (IsKey bytes.now) bytes.now }
    {
        if bytes.len() < LEAST_KEY_BYTES {
            return None;
        }
        if bytes.len() > KEY_BYTES {
            return None;
        }
        Some(Key {
            padded: padded(bytes),
            len: bytes.len() as u8,
        })
    }

    /// The key's bytes.
    pub fn bytes(&self) -> &[u8]
        ensures bytes { result.now ≡ self.now }
        ensures key { IsKey self.now }
    {
        &self.padded[..self.len as usize]
    }
}
