ghost use Rattle.std.specs.Prelude.{◌≡◌, ℕ, List, [], ◌++◌};
ghost use Rattle.seal_hmac.specs.Fed.{Feeds};
ghost use Rattle.seal_hmac.specs.Seal.{sealed_message, seal_of, hash_of};
ghost use Rattle.seal_hmac.specs.Digests.{Kind, Digests, sealing, hashing};

use crate::hashers::Mac;
use crate::key::Key;
use phrase_tree::Place;
use sha2::{Digest, Sha256};

/// The first byte of every message under a seal.
const SEAL_TAG: u8 = 0x53;

/// The first byte of every message under a hash.
const HASH_TAG: u8 = 0x48;

#[derive(Drop)]
enum Making {
    Seal(Mac),
    Hash(Sha256),
}

/// A seal or a hash of a value in the making: it is fed the value's bytes piece by piece, and keeps
/// none of them.
#[derive(Drop)]
pub struct Digester {
    making: Making,
}

/// A freshly keyed code, fed all that stands before the value's bytes in the message under a seal:
/// the byte 53, the place's name behind its length, the nonce, and the event's number.
pub fn seal_mac(mut keyed: Mac, place: Place, nonce: &[u8; 16], event: u32) -> Mac
    ensures { (key : List ℕ) →
        Feeds key [] keyed → Feeds key (sealed_message place nonce.now event []) result }
{
    let name = place.bytes();
    keyed.update(&[SEAL_TAG, name.len() as u8]);
    keyed.update(name);
    keyed.update(nonce);
    keyed.update(&event.to_be_bytes());
    keyed
}

impl Digester {
    /// Begins a seal at this event of a session with that nonce, under the place's key. It hashes
    /// the key, two blocks or more: a caller that seals more than once at a place keys a `Mac` once,
    /// and gives copies of it to `seal_with`.
    pub fn seal(key: &Key, place: Place, nonce: &[u8; 16], event: u32) -> Digester
        ensures { Digests (sealing key.now place nonce.now event) [] result }
    {
        Digester::seal_with(Mac::new(key.bytes()), place, nonce, event)
    }

    /// Begins a seal under the key with which that `Mac` was freshly made.
    #[tactic(auto, unfolding(crate::specs::Digests::IsMaking))]
    pub fn seal_with(keyed: Mac, place: Place, nonce: &[u8; 16], event: u32) -> Digester
        ensures { (key : List ℕ) →
            Feeds key [] keyed → Digests (sealing key place nonce.now event) [] result }
    {
        Digester {
            making: Making::Seal(seal_mac(keyed, place, nonce, event)),
        }
    }

    /// Begins a hash.
    #[tactic(auto, unfolding(crate::specs::Digests::IsMaking))]
    pub fn hash() -> Digester
        ensures { Digests hashing [] result }
    {
        Digester {
            making: Making::Hash(Sha256::new_with_prefix([HASH_TAG])),
        }
    }

    /// Feeds the next bytes of the value.
    #[tactic(auto, unfolding(crate::specs::Digests::IsMaking))]
    pub fn update(&mut self, bytes: &[u8])
        ensures { (kind : Kind) (fed : List ℕ) →
            Digests kind fed self.old → Digests kind (fed ++ bytes.now) self.new }
    {
        match &mut self.making {
            Making::Seal(mac) => mac.update(bytes),
            Making::Hash(hasher) => hasher.update(bytes),
        }
    }

    /// The seal or hash of all that was fed, however it was cut.
    #[tactic(auto, unfolding(crate::specs::Digests::IsMaking))]
    pub fn finish(self) -> [u8; 32]
        ensures seal { (key place nonce : List ℕ) (event : ℕ) (fed : List ℕ) →
            Digests (sealing key place nonce event) fed self →
            result ≡ seal_of key place nonce event fed }
        ensures hash { (fed : List ℕ) → Digests hashing fed self → result ≡ hash_of fed }
    {
        match self.making {
            Making::Seal(mac) => mac.finish(),
            Making::Hash(hasher) => hasher.finalize(),
        }
    }
}

/// The seal over these bytes of a value.
pub fn seal(key: &Key, place: Place, nonce: &[u8; 16], event: u32, bytes: &[u8]) -> [u8; 32]
    ensures { result ≡ seal_of key.now place nonce.now event bytes.now }
{
    let mut digester = Digester::seal(key, place, nonce, event);
    digester.update(bytes);
    digester.finish()
}

/// The hash of these bytes of a value.
pub fn hash(bytes: &[u8]) -> [u8; 32]
    ensures { result ≡ hash_of bytes.now }
{
    let mut digester = Digester::hash();
    digester.update(bytes);
    digester.finish()
}
