ghost use Rattle.std.specs.Prelude.{◌≡◌, ℕ, List, ◌++◌};
ghost use Rattle.evidence_types.specs.Evidence.{evidence};
ghost use Rattle.evidence_types.specs.Bytes.{encoding};
ghost use Rattle.evidence_types.specs.Heads.{IsHead, head_bytes, head_of};
ghost use Rattle.seal_hmac.specs.Seal.{seal_of};
ghost use Rattle.seal_hmac.specs.Digests.{Kind, Digests};

use evidence_types::{Head, Value};
use phrase_tree::Place;
use seal_hmac::{Digester, Key};

/// Feeds the bytes of a head.
fn feed_head(digester: &mut Digester, head: &Head<'_>)
    requires { IsHead (head_of head.now) }
    ensures { (kind : Kind) (fed : List ℕ) → Digests kind fed digester.old → Digests kind (fed ++ head_bytes (head_of head.now)) digester.new }
{
    let (prefix, tail) = head.bytes();
    digester.update(&prefix);
    digester.update(tail);
}

/// Feeds the bytes of a value, head by head: they are not gathered.
fn feed(digester: &mut Digester, value: &Value)
    ensures { (kind : Kind) (fed : List ℕ) → Digests kind fed digester.old → Digests kind (fed ++ encoding (evidence value.now)) digester.new }
{
    feed_head(digester, &value.head(None));
    match value {
        Value::Empty => {}
        Value::Nonce(_) => {}
        Value::Usm(_, _, under) => feed(digester, under),
        Value::Kim(_, _, under) => feed(digester, under),
        Value::Seal(_, _, under) => feed(digester, under),
        Value::Hash(_, _) => {}
        Value::SeqPair(left, right) => {
            feed(digester, left);
            feed(digester, right);
        }
        Value::ParPair(left, right) => {
            feed(digester, left);
            feed(digester, right);
        }
    }
}

/// The seal over a value. Takes no memory, and time linear in the value's bytes.
pub(crate) fn seal_over(
    key: &Key,
    place: Place,
    nonce: &[u8; 16],
    event: u32,
    value: &Value,
) -> [u8; 32]
    ensures { result ≡ seal_of key.now place nonce.now event (encoding (evidence value.now)) }
{
    let mut digester = Digester::seal(key, place, nonce, event);
    feed(&mut digester, value);
    digester.finish()
}
