ghost use Rattle.std.specs.Prelude.{◌≡◌, ℕ, List, [], ◌++◌};
ghost use Rattle.seal_hmac.specs.Hmac.{hmac, key_block};
ghost use Rattle.seal_hmac.specs.Fed.{Feeds};

use crate::bytes::{masked, padded};
use sha2::{Digest, Sha256};

/// The length of a block of SHA-256, in bytes.
const BLOCK_BYTES: usize = 64;

/// The code of a message in the making: it is fed the message piece by piece, and keeps none of it.
///
/// Its two hashers are keyed once, when it is made: that hashes two blocks, and a key of more than
/// 64 bytes before them.
#[derive(Drop)]
pub struct Mac {
    inner: Sha256,
    outer: Sha256,
}

fn key_block(key: &[u8]) -> [u8; 64]
    ensures { result ≡ key_block key.now }
{
    if key.len() > BLOCK_BYTES {
        return padded(&Sha256::digest(key));
    }
    padded(key)
}

fn copy_of(hasher: &Sha256) -> Sha256
    ensures { result ≡ hasher.now }
{
    let Ok(copied) = hasher.clone() else {
        unreachable!()
    };
    copied
}

impl Mac {
    /// Keyed with these bytes, of any number, and fed nothing yet.
    pub fn new(key: &[u8]) -> Mac
        ensures { Feeds key.now [] result }
    {
        let block = key_block(key);
        Mac {
            inner: Sha256::new_with_prefix(masked(0x36, block)),
            outer: Sha256::new_with_prefix(masked(0x5c, block)),
        }
    }

    /// Another one that was keyed with the same key and fed the same. It copies some 200 bytes and
    /// hashes nothing, so a caller that makes many codes under one key keys once.
    pub fn copy(&self) -> Mac
        ensures { result ≡ self.now }
    {
        Mac {
            inner: copy_of(&self.inner),
            outer: copy_of(&self.outer),
        }
    }

    /// Feeds the next bytes of the message.
    pub fn update(&mut self, bytes: &[u8])
        ensures { (key message : List ℕ) →
            Feeds key message self.old → Feeds key (message ++ bytes.now) self.new }
    {
        self.inner.update(bytes);
    }

    /// The code of all that was fed (RFC 2104), however it was cut.
    #[tactic(auto, unfolding(crate::specs::Hmac::hmac))]
    pub fn finish(self) -> [u8; 32]
        ensures { (key message : List ℕ) → Feeds key message self → result ≡ hmac key message }
    {
        let mut outer = self.outer;
        outer.update(self.inner.finalize());
        outer.finalize()
    }
}
