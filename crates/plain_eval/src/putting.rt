ghost use Rattle.std.specs.Prelude.{◌≡◌, ◌≤◌, ℕ, List, [], ◌++◌, length, OnOk};
ghost use Rattle.evidence_types.specs.Bytes.{encoding};
ghost use Rattle.evidence_types.specs.Evidence.{Evidence, empty, hash as hash_alone, seal as sealed_over};
ghost use Rattle.evidence_types.specs.Heads.{IsHead, head_bytes, head_of};
ghost use Rattle.seal_hmac.specs.Fed.{Feeds};
ghost use Rattle.seal_hmac.specs.Seal.{hash_of, seal_of};
ghost use Rattle.session_model.specs.Value.{part};

use evidence_types::Head;
use front_bytes::FrontBytes;
use phrase_tree::{NoMemory, Place};
use seal_hmac::{Digester, Mac, hash};

/// The same bytes, of which there are `N`.
fn sized<const N: usize>(bytes: &[u8; N]) -> &[u8; N]
    ensures bytes { result.now ≡ bytes.now }
    ensures count { length result.now ≡ N }
{
    bytes
}

/// Puts a head ahead of what stands.
pub(crate) fn put_head(made: &mut FrontBytes, head: &Head<'_>) -> Result<(), NoMemory>
    requires { IsHead (head_of head.now) }
    ensures { OnOk result (made.new ≡ head_bytes (head_of head.now) ++ made.old) }
{
    let (prefix, tail) = head.bytes();
    made.put_ahead(tail)?;
    made.put_ahead(&prefix)
}

/// The seal over the bytes of a value, by the code of the place that was keyed and fed nothing.
fn seal_over(mac: Mac, place: Place, nonce: &[u8; 16], event: u32, bytes: &[u8]) -> [u8; 32]
    ensures { (key : List ℕ) → Feeds key [] mac → result ≡ seal_of key place nonce.now event bytes.now }
{
    let mut digester = Digester::seal_with(mac, place, nonce, event);
    digester.update(bytes);
    digester.finish()
}

/// Puts a seal ahead of the value that stands ahead of a mark. It is one run over the value's bytes.
pub(crate) fn put_seal(
    made: &mut FrontBytes,
    mark: usize,
    mac: Mac,
    place: Place,
    nonce: &[u8; 16],
    event: u32,
) -> Result<(), NoMemory>
    requires { mark ≤ length made.old }
    ensures { (key : List ℕ) (before : Evidence) (under : List ℕ) → Feeds key [] mac →
        made.old ≡ encoding before ++ under → mark ≡ length under →
        OnOk result (made.new ≡ encoding (sealed_over event (seal_of key place nonce.now event (encoding before)) before) ++ under) }
{
    let seal = seal_over(mac, place, nonce, event, made.since(mark));
    put_head(made, &Head::Seal(event, sized(&seal)))
}

/// Puts the hash of the value that stands ahead of a mark in its place.
pub(crate) fn put_hash(made: &mut FrontBytes, mark: usize, event: u32) -> Result<(), NoMemory>
    requires { mark ≤ length made.old }
    ensures { (before : Evidence) (under : List ℕ) →
        made.old ≡ encoding before ++ under → mark ≡ length under →
        OnOk result (made.new ≡ encoding (hash_alone event (hash_of (encoding before))) ++ under) }
{
    let hash = hash(made.since(mark));
    made.reset(mark);
    put_head(made, &Head::Hash(event, sized(&hash)))
}

/// Puts no evidence in place of the value that stands ahead of a mark.
pub(crate) fn put_nothing(made: &mut FrontBytes, mark: usize) -> Result<(), NoMemory>
    requires { mark ≤ length made.old }
    ensures { (top under : List ℕ) → made.old ≡ top ++ under → mark ≡ length under →
        OnOk result (made.new ≡ encoding empty ++ under) }
{
    made.reset(mark);
    put_head(made, &Head::Empty)
}

/// Leaves what an arm gets of the value that stands ahead of a mark: all, or none.
pub(crate) fn put_part(made: &mut FrontBytes, mark: usize, all: bool) -> Result<(), NoMemory>
    requires { mark ≤ length made.old }
    ensures { (before : Evidence) (under : List ℕ) →
        made.old ≡ encoding before ++ under → mark ≡ length under →
        OnOk result (made.new ≡ encoding (part all before) ++ under) }
{
    if all {
        return Ok(());
    }
    put_nothing(made, mark)
}

/// Puts what an arm gets of the value that stands ahead of a mark ahead of what is kept for arms to come.
pub(crate) fn keep_part(
    kept: &mut FrontBytes,
    made: &FrontBytes,
    mark: usize,
    all: bool,
) -> Result<(), NoMemory>
    requires { mark ≤ length made.now }
    ensures { (before : Evidence) (under : List ℕ) →
        made.now ≡ encoding before ++ under → mark ≡ length under →
        OnOk result (kept.new ≡ encoding (part all before) ++ kept.old) }
{
    if all {
        return kept.put_ahead(made.since(mark));
    }
    put_head(kept, &Head::Empty)
}
