ghost use Rattle.std.specs.Prelude.{◌≡◌, ◌≤◌, ◌∷◌, ◌++◌, [], drop, take, length, IfOk, OnOk};
ghost use Rattle.evidence_types.specs.declared.measure.TheConstants.{MARKED_BYTES};
ghost use Rattle.evidence_types.specs.Bundle.{IsBundleOf, IsMarkedBundleOf};
ghost use Rattle.evidence_types.specs.Bytes.{be32, bundle, FitsBundle};
ghost use Rattle.evidence_types.specs.Evidence.{evidence};
ghost use Rattle.evidence_types.specs.Heads.{IsHead, head_bytes, head_of, mark_byte, next_mark};
ghost use Rattle.evidence_types.specs.Marked.{marked_bundle, marked_encoding, measurements, FitsMarkedBundle};
ghost use Rattle.evidence_types.specs.WellFormed.{IsWellFormed};
ghost use Rattle.evidence_codec.specs.Reading.{first_bytes};
ghost use Rattle.evidence_codec.specs.Versions.{version_byte};

use crate::version::Version;
use byte_ports::Bytes;
use evidence_types::{Head, Value, heads_make_the_bytes};
use phrase_tree::NoMemory;
use std::alloc::Global;

/// The first bytes of every bundle: "CPLB".
pub const FIRST_BYTES: [u8; 4] = [67, 80, 76, 66];

/// The first of the marks.
fn first_of(marks: &[u8]) -> Option<u8>
    ensures mark { result ≡ next_mark marks.now }
    ensures byte { mark_byte result ≡ take 1 marks.now }
{
    match marks {
        [mark, ..] => Some(*mark),
        [] => None,
    }
}

/// The marks behind the first.
fn behind_first(marks: &[u8]) -> &[u8]
    ensures { result.now ≡ drop 1 marks.now }
{
    match marks {
        [_, rest @ ..] => rest,
        [] => marks,
    }
}

/// The number of a head's bytes.
fn head_size(head: &Head<'_>) -> usize
    requires { IsHead (head_of head.now) }
    ensures { result ≡ length (head_bytes (head_of head.now)) }
{
    let (prefix, tail) = head.bytes();
    prefix.len() + tail.len()
}

/// The number of a value's bytes without marks.
fn size(value: &Value) -> usize
    requires { length (marked_encoding (evidence value.now) []) ≤ MARKED_BYTES }
    ensures { result ≡ length (marked_encoding (evidence value.now) []) }
{
    let own = head_size(&value.head(None));
    match value {
        Value::Usm(_, _, under) => own + size(under),
        Value::Kim(_, _, under) => own + size(under),
        Value::Seal(_, _, under) => own + size(under),
        Value::SeqPair(left, right) => own + size(left) + size(right),
        Value::ParPair(left, right) => own + size(left) + size(right),
        Value::Empty => own,
        Value::Nonce(_) => own,
        Value::Hash(_, _) => own,
    }
}

fn push_bytes(out: &mut Vec<u8>, bytes: &[u8]) -> Result<(), NoMemory>
    ensures { OnOk result (out.new.items ≡ out.old.items ++ bytes.now) }
{
    match out.extend_from_slice(bytes) {
        Ok(()) => Ok(()),
        Err(_) => Err(NoMemory),
    }
}

/// Appends the bytes of a head.
fn push_head(out: &mut Vec<u8>, head: &Head<'_>) -> Result<(), NoMemory>
    requires { IsHead (head_of head.now) }
    ensures { OnOk result (out.new.items ≡ out.old.items ++ head_bytes (head_of head.now)) }
{
    let (prefix, tail) = head.bytes();
    push_bytes(out, &prefix)?;
    push_bytes(out, tail)
}

/// Appends the bytes of a value, whose measurements take the next marks. What is returned are the marks
/// that are left.
fn push_value<'a>(out: &mut Vec<u8>, value: &Value, marks: &'a [u8]) -> Result<&'a [u8], NoMemory>
    ensures bytes { OnOk result (out.new.items ≡ out.old.items ++ marked_encoding (evidence value.now) marks.now) }
    ensures left { IfOk result (λ left. left.now ≡ drop (measurements (evidence value.now)) marks.now) }
    ensures well_formed { OnOk result (IsWellFormed (evidence value.now)) }
{
    push_head(out, &value.head(first_of(marks)))?;
    match value {
        Value::Usm(_, _, under) => push_value(out, under, behind_first(marks)),
        Value::Kim(_, _, under) => push_value(out, under, behind_first(marks)),
        Value::Seal(_, _, under) => push_value(out, under, marks),
        Value::SeqPair(left, right) => {
            let rest = push_value(out, left, marks)?;
            push_value(out, right, rest)
        }
        Value::ParPair(left, right) => {
            let rest = push_value(out, left, marks)?;
            push_value(out, right, rest)
        }
        Value::Empty => Ok(marks),
        Value::Nonce(_) => Ok(marks),
        Value::Hash(_, _) => Ok(marks),
    }
}

/// The bundle of this version of a value of so many bytes, made in one allocation of its size.
fn bundle_of(
    alloc: Global,
    version: Version,
    len: usize,
    value: &Value,
    marks: &[u8],
) -> Result<Bytes, NoMemory>
    requires { len ≤ MARKED_BYTES }
    ensures bytes { IfOk result (λ bytes. bytes ≡ first_bytes ++ (version_byte version ∷ (be32 len ++ marked_encoding (evidence value.now) marks.now))) }
    ensures well_formed { OnOk result (IsWellFormed (evidence value.now)) }
{
    let mut out = match Vec::with_capacity(alloc, 9 + len) {
        Ok(out) => out,
        Err(_) => return Err(NoMemory),
    };
    push_bytes(&mut out, &FIRST_BYTES)?;
    push_bytes(&mut out, &[version.byte()])?;
    push_bytes(&mut out, &(len as u32).to_be_bytes())?;
    push_value(&mut out, value, marks)?;
    Ok(Bytes::of(out))
}

/// The bundle of version 1 of a value: five bytes that never change, the length of the value's bytes, and
/// these bytes. It is made in one allocation of its size. It goes over the value twice, in time linear
/// in its bytes. The format is this project's own.
pub fn encode(alloc: Global, value: &Value) -> Result<Bytes, NoMemory>
    requires { FitsBundle (evidence value.now) }
    ensures bundle { IfOk result (λ bytes. bytes ≡ bundle (evidence value.now)) }
    // It is one that `decode` reads again.
    ensures readable { IfOk result (λ bytes. IsBundleOf bytes (evidence value.now)) }
{
    heads_make_the_bytes();
    let len = size(value);
    bundle_of(alloc, Version::Plain, len, value, &[])
}

/// The bundle of version 2 of a value, in which each measurement carries the next of the marks, a node
/// before its parts and left before right. It is made as `encode` makes one of version 1.
pub fn encode_marked(alloc: Global, value: &Value, marks: &[u8]) -> Result<Bytes, NoMemory>
    requires { FitsMarkedBundle (evidence value.now) marks.now }
    ensures bundle { IfOk result (λ bytes. bytes ≡ marked_bundle (evidence value.now) marks.now) }
    // It is one that `decode_any` reads again.
    ensures readable { IfOk result (λ bytes. IsMarkedBundleOf bytes (evidence value.now) marks.now) }
{
    let len = size(value) + marks.len();
    bundle_of(alloc, Version::Marked, len, value, marks)
}
