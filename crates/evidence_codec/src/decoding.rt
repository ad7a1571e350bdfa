ghost use Rattle.std.specs.Prelude.{◌≡◌, ◌∷◌, ◌++◌, [], ℕ, List, IfOk, IfErr, OnOk, Ok, Option, Bool, false, true};
ghost use Rattle.evidence_types.specs.Bundle.{IsBundleOf, IsEitherBundleOf};
ghost use Rattle.evidence_types.specs.Evidence.{Evidence, evidence};
ghost use Rattle.evidence_types.specs.Heads as heads_of;
ghost use Rattle.evidence_types.specs.Heads.{IsHead, head_of, marks_of};
ghost use Rattle.evidence_codec.specs.Decoding.{Decodes, DecodesTo, Fails, Names};
ghost use Rattle.evidence_codec.specs.Making.{Goes, IsMade, IsRead};
ghost use Rattle.evidence_codec.specs.Scanned.{IsReader};
ghost use Rattle.evidence_codec.specs.Reading.{first_fault, first_fault_of_either, read_bundle};

use crate::fault::{DecodeError, Fault};
use crate::nodes::{Open, take};
use crate::reader::Reader;
use crate::version::Version;
use byte_ports::Bytes;
use evidence_types::{Head, Value};
use phrase_tree::NoMemory;
use std::alloc::Global;

/// A value that was decoded. From a bundle of version 2 it has the marks of its measurements, a node before
/// its parts and left before right.
#[derive(Debug, Drop)]
pub struct Decoded {
    pub value: Value,
    pub marks: Option<Bytes>,
}

/// What was made of the heads that came: the open nodes or the whole value, and the marks.
#[derive(Debug, Drop)]
pub struct Made {
    nodes: Vec<Open>,
    whole: Option<Value>,
    marks: Vec<u8>,
}

/// A whole bundle: its version, its value, and the marks.
#[derive(Debug, Drop)]
pub struct Whole {
    version: Version,
    value: Value,
    marks: Vec<u8>,
}

fn bad(first: Fault) -> DecodeError
    ensures { result ≡ DecodeError.Bad first.at first.kind }
{
    DecodeError::Bad {
        at: first.at,
        kind: first.kind,
    }
}

fn mark_of(head: &Head<'_>) -> Option<u8>
    ensures { marks_of (head_of head.now ∷ []) ≡ heads_of.mark_byte result }
{
    match head {
        Head::Usm(_, mark, _) => *mark,
        Head::Kim(_, mark, _) => *mark,
        Head::Empty => None,
        Head::Nonce(_) => None,
        Head::Seal(_, _) => None,
        Head::Hash(_, _) => None,
        Head::SeqPair => None,
        Head::ParPair => None,
    }
}

fn push_mark(marks: &mut Vec<u8>, head: &Head<'_>) -> Result<(), NoMemory>
    ensures { OnOk result (marks.new.items ≡ marks.old.items ++ marks_of (head_of head.now ∷ [])) }
{
    let Some(mark) = mark_of(head) else {
        return Ok(());
    };
    match marks.push(mark) {
        Ok(()) => Ok(()),
        Err(_) => Err(NoMemory),
    }
}

/// Puts the next head into what was made.
fn put(alloc: Global, made: &mut Made, head: &Head<'_>) -> Result<(), NoMemory>
    requires { IsHead (head_of head.now) }
    ensures { OnOk result ((read : List heads_of.Head) → IsMade read made.old → IsMade (read ++ head_of head.now ∷ []) made.new) }
{
    push_mark(&mut made.marks, head)?;
    match take(alloc, &mut made.nodes, head) {
        Ok(whole) => {
            made.whole = whole;
            Ok(())
        }
        Err(_) => Err(NoMemory),
    }
}

/// Takes one more byte.
fn go_on(alloc: Global, reader: &mut Reader, made: &mut Made, byte: u8) -> Result<(), NoMemory>
    requires { IsReader reader.old }
    ensures ready { OnOk result (IsReader reader.new) }
    ensures goes { OnOk result ((either : Bool) (bytes : List ℕ) → Goes either bytes reader.old made.old → Goes either (bytes ++ byte ∷ []) reader.new made.new) }
{
    reader.take(byte);
    match reader.head() {
        Some(head) => put(alloc, made, &head),
        None => Ok(()),
    }
}

fn nothing(alloc: Global) -> Made
    ensures { IsMade [] result }
{
    Made {
        nodes: Vec::new(alloc),
        whole: None,
        marks: Vec::new(alloc),
    }
}

/// The bundle that these bytes are, of version 1 or of either version.
fn read(alloc: Global, either: bool, bytes: &[u8]) -> Result<Whole, DecodeError>
    ensures whole { IfOk result (λ whole. IsRead either bytes.now whole.version (evidence whole.value) whole.marks.items) }
    ensures first { IfErr result (λ error. Fails error (read_bundle either bytes.now)) }
{
    let mut reader = Reader::open(either);
    let mut made = nothing(alloc);
    for byte in bytes {
        match go_on(alloc, &mut reader, &mut made, *byte) {
            Ok(()) => {}
            Err(_) => return Err(DecodeError::NoMemory),
        }
    }
    let version = match reader.finish() {
        Ok(version) => version,
        Err(first) => return Err(bad(first)),
    };
    let Made {
        nodes: _,
        whole,
        marks,
    } = made;
    let Some(value) = whole else { unreachable!() };
    Ok(Whole {
        version,
        value,
        marks,
    })
}

/// The value whose bundle of version 1 these bytes are. If they are not one, the first fault from the left,
/// with its offset; or want of memory.
///
/// The bytes are read once from the left, by a reader of some two kilobytes, and hostile bytes cost no
/// stack. The nodes that are open, at most 1,025, are kept in a list, and the value takes about a kilobyte
/// for each of its nodes. Each byte may be a node, as in pairs of pairs of empty evidence, so 262,144
/// bytes can make it take some 280 megabytes, also if they turn out to be no bundle.
pub fn decode(alloc: Global, bytes: &[u8]) -> Result<Value, DecodeError>
    // What is read is spelled so.
    ensures value { IfOk result (λ value. IsBundleOf bytes.now (evidence value)) }
    // What is spelled so is read, unless memory runs out.
    ensures only { (value : Evidence) → IsBundleOf bytes.now value → Decodes evidence result (Ok value) }
    // Which fault it is.
    ensures first { IfErr result (λ error. Names error (first_fault bytes.now)) }
{
    match read(alloc, false, bytes) {
        Ok(whole) => Ok(whole.value),
        Err(error) => Err(error),
    }
}

/// The same for a bundle of version 1 or of version 2, with the marks, which take a byte each.
pub fn decode_any(alloc: Global, bytes: &[u8]) -> Result<Decoded, DecodeError>
    // What is read is spelled so.
    ensures value { IfOk result (λ found. IsEitherBundleOf bytes.now (evidence found.value) found.marks) }
    // What is spelled so is read, unless memory runs out.
    ensures only { (value : Evidence) (marks : Option (List ℕ)) → IsEitherBundleOf bytes.now value marks →
        DecodesTo value marks (λ found. evidence found.value) (λ found. found.marks) result }
    // Which fault it is.
    ensures first { IfErr result (λ error. Names error (first_fault_of_either bytes.now)) }
{
    match read(alloc, true, bytes) {
        Ok(whole) => Ok(with_marks(whole)),
        Err(error) => Err(error),
    }
}

fn with_marks(whole: Whole) -> Decoded
    ensures { (either : Bool) (bytes : List ℕ) → IsRead either bytes whole.version (evidence whole.value) whole.marks.items →
        IsEitherBundleOf bytes (evidence result.value) result.marks }
{
    let Whole {
        version,
        value,
        marks,
    } = whole;
    match version {
        Version::Plain => Decoded { value, marks: None },
        Version::Marked => Decoded {
            value,
            marks: Some(Bytes::of(marks)),
        },
    }
}
