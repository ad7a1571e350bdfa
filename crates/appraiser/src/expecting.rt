ghost use Rattle.std.specs.Prelude.{◌≡◌, ◌≤◌, ℕ, List, ◌++◌, length, OnOk, IfOk, IsSome};
ghost use Rattle.evidence_types.specs.Answer.{FitsAnswer};
ghost use Rattle.evidence_types.specs.Bytes.{encoding};
ghost use Rattle.evidence_types.specs.Heads.{IsHead, head_bytes, head_of, hash_head, seal_head};
ghost use Rattle.evidence_types.specs.Shape.{form};
ghost use Rattle.seal_hmac.specs.Keys.{key_of, key_at};
ghost use Rattle.seal_hmac.specs.Seal.{seal_of, hash_of};
ghost use Rattle.appraiser.specs.Expected.{HasKeys, expected, reference_at};
ghost use Rattle.appraiser.specs.Given.{basis_in};

use bench_trait::AskKind;
use evidence_types::{Head, Shape};
use front_bytes::FrontBytes;
use phrase_tree::{Asp, NoMemory, Place};
use place_check::Places;
use reference_book::References;
use seal_hmac::{hash, seal};
use std::alloc::Global;

/// What a session is appraised by.
#[derive(Clone, Copy)]
pub struct Given<'a> {
    pub places: &'a Places,
    pub references: &'a References,
    pub nonce: &'a [u8; 16],
}

/// The same bytes, of which there are `N`.
fn sized<const N: usize>(bytes: &[u8; N]) -> &[u8; N]
    ensures bytes { result.now ≡ bytes.now }
    ensures count { length result.now ≡ N }
{
    bytes
}

/// The answer of the first reference for a measurement; no bytes if there is none.
pub(crate) fn reference_at<'a>(
    references: &'a References,
    event: u32,
    place: Place,
    kind: &AskKind,
    asp: &Asp,
) -> &'a [u8]
    ensures answer { result.now ≡ reference_at references.now (record { event = event; place = place; kind = kind.now; asp = asp.now }) }
    ensures few { FitsAnswer result.now }
{
    match references.nth(place, kind, asp, 0) {
        Some(answer) => answer.bytes(),
        None => &[],
    }
}

/// Puts a head ahead of what was made.
fn put_head(made: &mut FrontBytes, head: &Head<'_>) -> Result<(), NoMemory>
    requires { IsHead (head_of head.now) }
    ensures { OnOk result (made.new ≡ head_bytes (head_of head.now) ++ made.old) }
{
    let (prefix, tail) = head.bytes();
    made.put_ahead(tail)?;
    made.put_ahead(&prefix)
}

/// Puts the seal of a place over what was made since a mark ahead of it.
fn put_seal(
    given: &Given<'_>,
    event: u32,
    place: Place,
    mark: usize,
    made: &mut FrontBytes,
) -> Result<(), NoMemory>
    requires key { IsSome (key_of (basis_in given.now).keys place) }
    requires mark { mark ≤ length made.old }
    ensures { (top under : List ℕ) → made.old ≡ top ++ under → mark ≡ length under →
        OnOk result (made.new ≡ head_bytes (seal_head event (seal_of (key_at (basis_in given.now).keys place) place (basis_in given.now).nonce event top)) ++ (top ++ under)) }
{
    let Some(key) = given.places.keys().find(place) else {
        unreachable!()
    };
    let seal = seal(key, place, given.nonce, event, made.since(mark));
    put_head(made, &Head::Seal(event, sized(&seal)))
}

/// Puts the hash of what was made since a mark in its place.
fn put_hash(event: u32, mark: usize, made: &mut FrontBytes) -> Result<(), NoMemory>
    requires { mark ≤ length made.old }
    ensures { (top under : List ℕ) → made.old ≡ top ++ under → mark ≡ length under →
        OnOk result (made.new ≡ head_bytes (hash_head event (hash_of top)) ++ under) }
{
    let hash = hash(made.since(mark));
    made.reset(mark);
    put_head(made, &Head::Hash(event, sized(&hash)))
}

/// Makes the bytes of the value that is expected of a shape, from their end to their front, ahead of what was
/// made before.
fn make(given: &Given<'_>, shape: &Shape, made: &mut FrontBytes) -> Result<(), NoMemory>
    requires { HasKeys (basis_in given.now).keys (form shape.now) }
    ensures { OnOk result (made.new ≡ encoding (expected (basis_in given.now) (reference_at given.now.references.now) (form shape.now)) ++ made.old) }
{
    match shape {
        Shape::Empty => put_head(made, &Head::Empty),
        Shape::Nonce => put_head(made, &Head::Nonce(sized(given.nonce))),
        Shape::Usm(event, place, asp, under) => {
            make(given, under, made)?;
            let answer = reference_at(given.references, *event, *place, &AskKind::Usm, asp);
            put_head(made, &Head::Usm(*event, None, answer))
        }
        Shape::Kim(event, place, target, asp, under) => {
            make(given, under, made)?;
            let answer = reference_at(
                given.references,
                *event,
                *place,
                &AskKind::Kim(*target),
                asp,
            );
            put_head(made, &Head::Kim(*event, None, answer))
        }
        Shape::Sig(event, place, under) => {
            let mark = made.len();
            make(given, under, made)?;
            put_seal(given, *event, *place, mark, made)
        }
        Shape::Hsh(event, _, under) => {
            let mark = made.len();
            make(given, under, made)?;
            put_hash(*event, mark, made)
        }
        Shape::SeqPair(left, right) => {
            make(given, right, made)?;
            make(given, left, made)?;
            put_head(made, &Head::SeqPair)
        }
        Shape::ParPair(left, right) => {
            make(given, right, made)?;
            make(given, left, made)?;
            put_head(made, &Head::ParPair)
        }
    }
}

/// The hash of the value that is expected of a shape, on the first reference of each measurement. Its bytes
/// are made in one block of memory from their end to their front, so each seal and each hash in it is one run
/// over what stands behind it.
pub fn hash_of_expected(
    alloc: Global,
    given: &Given<'_>,
    shape: &Shape,
) -> Result<[u8; 32], NoMemory>
    requires { HasKeys (basis_in given.now).keys (form shape.now) }
    ensures { IfOk result (λ found. found ≡ hash_of (encoding (expected (basis_in given.now) (reference_at given.now.references.now) (form shape.now)))) }
{
    let mut made = FrontBytes::new(alloc);
    make(given, shape, &mut made)?;
    Ok(hash(made.bytes()))
}
