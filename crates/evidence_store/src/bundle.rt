ghost use Rattle.std.specs.Prelude.{◌≡◌, ◌++◌, ◌<◌, ◌≤◌, length, IfOk, OnOk};
ghost use Rattle.evidence_types.specs.declared.measure.TheConstants.{VALUE_BYTES};
ghost use Rattle.evidence_types.specs.Bytes.{encoding, bundle};
ghost use Rattle.evidence_store.specs.Kept.{value_at};
ghost use Rattle.evidence_types.specs.Heads.{IsHead, head_bytes, head_of};
ghost use Rattle.evidence_store.specs.Nodes.{AreKept, kept_values};

use crate::node::Node;
use crate::walk::{next, walk_from};
use byte_ports::Bytes;
use evidence_types::Head;
use phrase_tree::NoMemory;
use std::alloc::Global;

/// The first bytes of every bundle: "CPLB", and the version 1.
const HEAD: [u8; 5] = [67, 80, 76, 66, 1];

/// The number of a head's bytes.
fn head_size(head: Head<'_>) -> usize
    requires { IsHead (head_of head) }
    ensures { result ≡ length (head_bytes (head_of head.entry)) }
{
    let (prefix, tail) = head.bytes();
    prefix.len() + tail.len()
}

/// The number of bytes of the value at this position.
fn size(nodes: &[Node], answers: &[u8], place: usize) -> usize
    requires kept { AreKept answers.now nodes.now }
    requires place { place < length nodes.now }
    ensures size { result ≡ length (encoding (value_at (kept_values answers.now nodes.now) place)) }
    ensures few { result ≤ VALUE_BYTES }
{
    let mut waiting = walk_from(place);
    let mut total = 0;
    while let Some(head) = next(nodes, answers, &mut waiting) {
        total += head_size(head);
    }
    total
}

fn push_bytes(out: &mut Vec<u8>, bytes: &[u8]) -> Result<(), NoMemory>
    ensures { OnOk result (out.new.items ≡ out.old.items ++ bytes.now) }
{
    match out.extend_from_slice(bytes) {
        Ok(()) => Ok(()),
        Err(_) => Err(NoMemory),
    }
}

/// Appends the bytes of a head.
fn push_head(out: &mut Vec<u8>, head: Head<'_>) -> Result<(), NoMemory>
    requires { IsHead (head_of head) }
    ensures { OnOk result (out.new.items ≡ out.old.items ++ head_bytes (head_of head.entry)) }
{
    let (prefix, tail) = head.bytes();
    push_bytes(out, &prefix)?;
    push_bytes(out, tail)
}

/// Appends the bytes of the value at this position.
fn push_value(
    out: &mut Vec<u8>,
    nodes: &[Node],
    answers: &[u8],
    place: usize,
) -> Result<(), NoMemory>
    requires kept { AreKept answers.now nodes.now }
    requires place { place < length nodes.now }
    ensures { OnOk result (out.new.items ≡ out.old.items ++ encoding (value_at (kept_values answers.now nodes.now) place)) }
{
    let mut waiting = walk_from(place);
    while let Some(head) = next(nodes, answers, &mut waiting) {
        match push_head(out, head) {
            Ok(()) => {}
            Err(_) => return Err(NoMemory),
        }
    }
    Ok(())
}

/// The bundle of the value at this position, made in one allocation of its size.
pub fn bundle(
    alloc: Global,
    nodes: &[Node],
    answers: &[u8],
    place: usize,
) -> Result<Bytes, NoMemory>
    requires kept { AreKept answers.now nodes.now }
    requires place { place < length nodes.now }
    ensures { IfOk result (λ bytes. bytes ≡ bundle (value_at (kept_values answers.now nodes.now) place)) }
{
    let len = size(nodes, answers, place);
    let mut out = match Vec::with_capacity(alloc, 9 + len) {
        Ok(out) => out,
        Err(_) => return Err(NoMemory),
    };
    push_bytes(&mut out, &HEAD)?;
    push_bytes(&mut out, &(len as u32).to_be_bytes())?;
    push_value(&mut out, nodes, answers, place)?;
    Ok(Bytes::of(out))
}
