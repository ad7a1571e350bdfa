ghost use Rattle.std.specs.Prelude.{◌<◌, length};
ghost use Rattle.evidence_types.specs.Bytes.{encoding};
ghost use Rattle.evidence_types.specs.Heads.{IsHead, head_bytes, head_of};
ghost use Rattle.evidence_store.specs.Kept.{value_at};
ghost use Rattle.evidence_store.specs.Nodes.{AreKept, kept_values};
ghost use Rattle.evidence_store.specs.Feeding.{IsFed, IsFedUpTo};

use crate::node::Node;
use crate::walk::{leaf_at, link_at, next, walk_from};
use evidence_types::Head;
use seal_hmac::Digester;

/// Feeds the bytes of a head.
fn feed_head(digester: &mut Digester, head: Head<'_>)
    requires { IsHead (head_of head) }
    ensures { IsFed digester.old (head_bytes (head_of head.entry)) digester.new }
{
    let (prefix, tail) = head.bytes();
    digester.update(&prefix);
    digester.update(tail);
}

/// Feeds the bytes of a value down to the first that has not one part alone, and answers its position.
fn feed_chain(digester: &mut Digester, nodes: &[Node], answers: &[u8], place: usize) -> usize
    requires kept { AreKept answers.now nodes.now }
    requires place { place < length nodes.now }
    ensures within { result < length nodes.now }
    ensures fed { IsFedUpTo (kept_values answers.now nodes.now) place digester.old result digester.new }
{
    let mut here = place;
    while let Some(step) = link_at(nodes, answers, here) {
        feed_head(digester, step.head);
        here = step.under;
    }
    here
}

/// Feeds the bytes of a value, with a stack of the positions that wait.
fn feed_branches(digester: &mut Digester, nodes: &[Node], answers: &[u8], place: usize)
    requires kept { AreKept answers.now nodes.now }
    requires place { place < length nodes.now }
    ensures { IsFed digester.old (encoding (value_at (kept_values answers.now nodes.now) place)) digester.new }
{
    let mut waiting = walk_from(place);
    while let Some(head) = next(nodes, answers, &mut waiting) {
        feed_head(digester, head);
    }
}

fn feed_end(digester: &mut Digester, nodes: &[Node], answers: &[u8], place: usize)
    requires kept { AreKept answers.now nodes.now }
    requires place { place < length nodes.now }
    ensures { IsFed digester.old (encoding (value_at (kept_values answers.now nodes.now) place)) digester.new }
{
    match leaf_at(nodes, answers, place) {
        Some(head) => feed_head(digester, head),
        None => feed_branches(digester, nodes, answers, place),
    }
}

/// Feeds the bytes of the value at this position. It visits the value's nodes, each as often as the
/// value has it, in time linear in the value's bytes, and takes no memory. Positions wait only below the
/// first pair, so no stack is made for a value without one.
pub fn feed_value(digester: &mut Digester, nodes: &[Node], answers: &[u8], place: usize)
    requires kept { AreKept answers.now nodes.now }
    requires place { place < length nodes.now }
    ensures { IsFed digester.old (encoding (value_at (kept_values answers.now nodes.now) place)) digester.new }
{
    let end = feed_chain(digester, nodes, answers, place);
    feed_end(digester, nodes, answers, end);
}
