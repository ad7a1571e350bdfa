ghost use Rattle.std.specs.Prelude.{◌≡◌, ◌≤◌, ◌∷◌, ◌++◌, [], length};
ghost use Rattle.evidence_types.specs.Bytes.{be16, be32};
ghost use Rattle.evidence_types.specs.Evidence.{evidence};
ghost use Rattle.evidence_types.specs.Heads.{IsHead, head, head_bytes, head_of, mark_byte};

use crate::value::Value;
use arrayvec::ArrayVec;

/// The first byte of empty evidence.
pub const EMPTY_TAG: u8 = 0;

/// The first byte of a nonce.
pub const NONCE_TAG: u8 = 1;

/// The first byte of a measurement.
pub const USM_TAG: u8 = 2;

/// The first byte of a measurement of a target.
pub const KIM_TAG: u8 = 3;

/// The first byte of a seal.
pub const SEAL_TAG: u8 = 4;

/// The first byte of a hash.
pub const HASH_TAG: u8 = 5;

/// The first byte of a pair of a sequential branch.
pub const SEQ_TAG: u8 = 6;

/// The first byte of a pair of a parallel branch.
pub const PAR_TAG: u8 = 7;

/// A node of a value without its parts. A measurement has its event, its mark where it carries one, and
/// its answer; a seal and a hash have their event and their bytes.
#[derive(Clone, Copy, Debug)]
pub enum Head<'a> {
    Empty,
    Nonce(&'a [u8; 16]),
    Usm(u32, Option<u8>, &'a [u8]),
    Kim(u32, Option<u8>, &'a [u8]),
    Seal(u32, &'a [u8; 32]),
    Hash(u32, &'a [u8; 32]),
    SeqPair,
    ParPair,
}

/// The bytes of a head that stand before its answer, nonce, seal or hash: a tag, the number of an event, a
/// mark, and the length of an answer at most.
pub type HeadPrefix = ArrayVec<u8, 8>;

fn tag_alone(tag: u8) -> HeadPrefix
    ensures { result.items ≡ tag ∷ [] }
{
    let mut prefix = ArrayVec::new();
    prefix.push(tag);
    prefix
}

fn with_event(tag: u8, event: u32) -> HeadPrefix
    ensures { result.items ≡ tag ∷ be32 event }
{
    let mut prefix = tag_alone(tag);
    prefix.try_extend_from_slice(&event.to_be_bytes()).unwrap();
    prefix
}

fn with_mark(tag: u8, event: u32, mark: Option<u8>) -> HeadPrefix
    ensures { result.items ≡ tag ∷ (be32 event ++ mark_byte mark) }
{
    let mut prefix = with_event(tag, event);
    if let Some(mark) = mark {
        prefix.push(mark);
    }
    prefix
}

fn with_length(tag: u8, event: u32, mark: Option<u8>, count: u16) -> HeadPrefix
    ensures { result.items ≡ tag ∷ (be32 event ++ (mark_byte mark ++ be16 count)) }
{
    let mut prefix = with_mark(tag, event, mark);
    prefix.try_extend_from_slice(&count.to_be_bytes()).unwrap();
    prefix
}

impl<'a> Head<'a> {
    /// The bytes of this head: those before its longest field, and that field's. They are the one table
    /// of a value's bytes in code: whatever writes or digests a value goes over its heads.
    pub fn bytes(self) -> (HeadPrefix, &'a [u8])
        requires { IsHead (head_of self) }
        ensures { result.0.items ++ result.1.now ≡ head_bytes (head_of self.entry) }
    {
        match self {
            Head::Empty => (tag_alone(EMPTY_TAG), &[]),
            Head::Nonce(nonce) => (tag_alone(NONCE_TAG), nonce),
            Head::Usm(event, mark, answer) => (
                with_length(USM_TAG, event, mark, answer.len() as u16),
                answer,
            ),
            Head::Kim(event, mark, answer) => (
                with_length(KIM_TAG, event, mark, answer.len() as u16),
                answer,
            ),
            Head::Seal(event, seal) => (with_event(SEAL_TAG, event), seal),
            Head::Hash(event, hash) => (with_event(HASH_TAG, event), hash),
            Head::SeqPair => (tag_alone(SEQ_TAG), &[]),
            Head::ParPair => (tag_alone(PAR_TAG), &[]),
        }
    }
}

/// The same bytes, of which there are `N`.
fn sized<const N: usize>(bytes: &[u8; N]) -> &[u8; N]
    ensures bytes { result.now ≡ bytes.now }
    ensures count { length result.now ≡ N }
{
    bytes
}

impl Value {
    /// The head of the value itself. If it is a measurement, it carries this mark.
    pub fn head(&self, mark: Option<u8>) -> Head<'_>
        ensures head { head_of result ≡ head mark (evidence self.now) }
        ensures well_formed { IsHead (head_of result) }
    {
        match self {
            Value::Empty => Head::Empty,
            Value::Nonce(nonce) => Head::Nonce(sized(nonce)),
            Value::Usm(event, answer, _) => Head::Usm(*event, mark, answer.bytes()),
            Value::Kim(event, answer, _) => Head::Kim(*event, mark, answer.bytes()),
            Value::Seal(event, seal, _) => Head::Seal(*event, sized(seal)),
            Value::Hash(event, hash) => Head::Hash(*event, sized(hash)),
            Value::SeqPair(_, _) => Head::SeqPair,
            Value::ParPair(_, _) => Head::ParPair,
        }
    }
}
