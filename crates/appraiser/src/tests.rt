ghost use Rattle.std.specs.Prelude.{◌≡◌, ◌<◌, ◌^◌, IfSome, length, true};
ghost use Rattle.evidence_types.specs.Shape.{form};
ghost use Rattle.place_check.specs.Places.{keys_of, place_index};
ghost use Rattle.appraiser.specs.Expected.{HasKeys};
ghost use Rattle.appraiser.specs.Fit.{CanMark, IsBelow, nodes};

use super::*;
use bench_trait::AskKind;
use byte_ports::Bytes;
use evidence_types::{Answer, Shape, Value};
use phrase_tree::{Args, Asp, Name, Names};
use place_check::{PlaceEntry, Places};
use reference_book::{Reference, References};
use seal_hmac::Key;
use std::alloc::Global;
use std::process::Abort;
use std::test::Fail;

/// The nonce of every session here, and the key of its place.
const COUNTED: [u8; 16] = [0, 1, 2, 3, 4, 5, 6, 7, 8, 9, 10, 11, 12, 13, 14, 15];

/// The seal of `bank` at event 1 over the answer aabb of event 0 on the nonce.
const SEAL: [u8; 32] = [
    191, 61, 75, 240, 89, 225, 57, 148, 158, 187, 246, 122, 60, 221, 244, 203, 148, 145, 128, 11,
    85, 90, 3, 103, 193, 242, 255, 228, 186, 102, 41, 49,
];

/// The hash of the answer aabb of event 0 on the nonce.
const HASH: [u8; 32] = [
    219, 98, 234, 62, 3, 46, 226, 54, 158, 167, 95, 197, 76, 21, 227, 205, 15, 175, 121, 115, 207,
    37, 144, 97, 255, 152, 56, 153, 115, 220, 58, 98,
];

/// The hash of that seal over that answer.
const HASH_OF_SEAL: [u8; 32] = [
    49, 48, 115, 132, 73, 182, 30, 171, 120, 56, 142, 5, 113, 68, 20, 71, 135, 200, 198, 91, 183,
    135, 211, 163, 121, 227, 145, 210, 154, 85, 200, 55,
];

fn name(rt: &impl Abort, text: &str) -> Name {
    Name::read(text).expect(rt, "a name")
}

fn scan(rt: &impl Abort) -> Asp {
    Asp {
        name: name(rt, "scan"),
        args: Args::none(),
    }
}

fn answer(rt: &impl Abort, bytes: &[u8]) -> Answer {
    Answer::of(bytes).expect(rt, "an answer")
}

/// The places `q` and `bank`, in this order.
fn places(rt: &impl Abort, alloc: Global) -> Result<Places, Fail> {
    let mut entries = Vec::new(alloc);
    for text in ["q", "bank"] {
        entries.push(PlaceEntry {
            name: name(rt, text),
            key: Key::read(&COUNTED).expect(rt, "a key"),
            asks: Names::of(Vec::new(alloc)),
            sees: Names::of(Vec::new(alloc)),
            offers: Names::of(Vec::new(alloc)),
        })?;
    }
    if entries.len() > 2 {
        return Err("two places".into());
    }
    Places::of(alloc, entries).map_err(|_| "places".into())
}

/// References with these answers for `USM scan` at `bank`.
fn references(rt: &impl Abort, alloc: Global, answers: &[&[u8]]) -> Result<References, Fail> {
    let mut entries = Vec::new(alloc);
    for bytes in answers {
        entries.push(Reference {
            place: name(rt, "bank"),
            kind: AskKind::Usm,
            asp: scan(rt),
            answer: answer(rt, bytes),
        })?;
    }
    if entries.len() > 5 {
        return Err("few references".into());
    }
    References::of(entries).map_err(|_| "references".into())
}

fn shape_of_scan(rt: &impl Abort, alloc: Global) -> Result<Box<Shape>, Fail> {
    let nonce = Box::new(alloc, Shape::Nonce)?;
    Ok(Box::new(alloc, Shape::Usm(0, name(rt, "bank"), scan(rt), nonce))?)
}

fn scanned(rt: &impl Abort, alloc: Global, bytes: &[u8]) -> Result<Box<Value>, Fail> {
    let nonce = Box::new(alloc, Value::Nonce(COUNTED))?;
    Ok(Box::new(alloc, Value::Usm(0, answer(rt, bytes), nonce))?)
}

/// How many nodes a shape has that a value shows, if they can be counted.
fn node_count(shape: &Shape) -> Option<u32>
    ensures { IfSome result (λ count. count ≡ length (nodes (form shape.now))) }
{
    match shape {
        Shape::Empty => Some(1),
        Shape::Nonce => Some(1),
        Shape::Hsh(_, _, _) => Some(1),
        Shape::Usm(_, _, _, under) => node_count(under)?.checked_add(1),
        Shape::Kim(_, _, _, _, under) => node_count(under)?.checked_add(1),
        Shape::Sig(_, _, under) => node_count(under)?.checked_add(1),
        Shape::SeqPair(left, right) => {
            let first = node_count(left)?;
            let second = node_count(right)?;
            first.checked_add(second)?.checked_add(1)
        }
        Shape::ParPair(left, right) => {
            let first = node_count(left)?;
            let second = node_count(right)?;
            first.checked_add(second)?.checked_add(1)
        }
    }
}

/// Whether each place at which a shape is sealed has a key.
fn has_keys(places: &Places, shape: &Shape) -> bool
    ensures { result ≡ true → HasKeys (keys_of places.now) (form shape.now) }
{
    match shape {
        Shape::Empty => true,
        Shape::Nonce => true,
        Shape::Usm(_, _, _, under) => has_keys(places, under),
        Shape::Kim(_, _, _, _, under) => has_keys(places, under),
        Shape::Hsh(_, _, under) => has_keys(places, under),
        Shape::Sig(_, place, under) => {
            if places.keys().find(*place).is_none() {
                return false;
            }
            has_keys(places, under)
        }
        Shape::SeqPair(left, right) => {
            if !has_keys(places, left) {
                return false;
            }
            has_keys(places, right)
        }
        Shape::ParPair(left, right) => {
            if !has_keys(places, left) {
                return false;
            }
            has_keys(places, right)
        }
    }
}

/// Whether the places of a shape's measurements are among the first 256.
fn can_mark(places: &Places, shape: &Shape) -> bool
    ensures { result ≡ true → CanMark places.now (form shape.now) }
{
    match shape {
        Shape::Empty => true,
        Shape::Nonce => true,
        Shape::Hsh(_, _, _) => true,
        Shape::Usm(_, place, _, under) => {
            if !is_early(places, *place) {
                return false;
            }
            can_mark(places, under)
        }
        Shape::Kim(_, place, _, _, under) => {
            if !is_early(places, *place) {
                return false;
            }
            can_mark(places, under)
        }
        Shape::Sig(_, _, under) => can_mark(places, under),
        Shape::SeqPair(left, right) => {
            if !can_mark(places, left) {
                return false;
            }
            can_mark(places, right)
        }
        Shape::ParPair(left, right) => {
            if !can_mark(places, left) {
                return false;
            }
            can_mark(places, right)
        }
    }
}

fn is_early(places: &Places, place: Name) -> bool
    ensures { result ≡ true → IsBelow 256 (place_index places.now place) }
{
    match places.find(place) {
        Some(index) => index < 256,
        None => false,
    }
}

/// The verdicts, if the shape can be appraised by, without marks.
fn judged(
    alloc: Global,
    shape: &Shape,
    value: &Value,
    places: &Places,
    references: &References,
) -> Option<Result<Verdicts, AppraiseError>> {
    let Ok(()) = references.check_for(shape) else {
        return None;
    };
    let None = references.ambiguous(shape) else {
        return None;
    };
    let Some(_) = node_count(shape) else {
        return None;
    };
    if !has_keys(places, shape) {
        return None;
    }
    Some(appraise(alloc, shape, value, None, places, references, &COUNTED))
}

/// The verdicts in short: a letter for what it is of, and a sign for whether it is good.
fn told(alloc: Global, verdicts: &Verdicts) -> Result<Vec<u8>, Fail> {
    let mut text = Vec::new(alloc);
    for verdict in verdicts.items() {
        text.push(match verdict.of {
            VerdictOf::Nonce => b'n',
            VerdictOf::Leaf(_) => b'l',
            VerdictOf::Seal(_) => b's',
            VerdictOf::Hash(_) => b'h',
        })?;
        text.push(if verdict.good { b'+' } else { b'-' })?;
    }
    text.push(if verdicts.accepted() { b'!' } else { b'?' })?;
    Ok(text)
}

/// What is said of a value on a shape, with these answers as references.
fn said(
    rt: &impl Abort,
    alloc: Global,
    shape: &Shape,
    value: &Value,
    answers: &[&[u8]],
) -> Result<Vec<u8>, Fail> {
    let places = places(rt, alloc)?;
    let references = references(rt, alloc, answers)?;
    match judged(alloc, shape, value, &places, &references) {
        Some(Ok(verdicts)) => told(alloc, &verdicts),
        Some(Err(AppraiseError::WrongShape { node })) => {
            assert!(rt; node < 10, "a node");
            Ok(vec![in alloc; b'w'; 1]?)
        }
        Some(Err(AppraiseError::NoMemory)) => Err("memory".into()),
        None => Ok(Vec::new(alloc)),
    }
}

#[test]
fn answers_are_among_their_references(rt: HostRuntime) -> Result<(), Fail> {
    let alloc = rt.alloc();
    let shape = shape_of_scan(&rt, alloc)?;
    let value = scanned(&rt, alloc, &[0xaa, 0xbb])?;
    let cases: [(&[&[u8]], &[u8]); 4] = [
        (&[&[0xaa, 0xbb]], b"l+n+!"),
        (&[&[0xaa, 0xbc]], b"l-n+?"),
        (&[&[0xaa, 0xbc], &[0xaa, 0xbb]], b"l+n+!"),
        (&[], b""),
    ];
    for (answers, text) in cases {
        let found = said(&rt, alloc, &shape, &value, answers)?;
        assert_eq!(rt; found.as_slice(), text);
    }
    Ok(())
}

#[test]
fn a_seal_is_over_what_stands_and_a_hash_over_what_is_expected(
    rt: HostRuntime,
) -> Result<(), Fail> {
    let alloc = rt.alloc();
    let bank = name(&rt, "bank");
    let aabb: &[&[u8]] = &[&[0xaa, 0xbb]];
    let sealed = Shape::Sig(1, bank, shape_of_scan(&rt, alloc)?);
    let right = Value::Seal(1, SEAL, scanned(&rt, alloc, &[0xaa, 0xbb])?);
    let changed = Value::Seal(1, SEAL, scanned(&rt, alloc, &[0xaa, 0xbc])?);
    assert_eq!(rt;
        said(&rt, alloc, &sealed, &right, aabb)?.as_slice(),
        b"s+l+n+!".as_slice()
    );
    assert_eq!(rt;
        said(&rt, alloc, &sealed, &changed, aabb)?.as_slice(),
        b"s-l-n+?".as_slice()
    );
    let aabc: &[&[u8]] = &[&[0xaa, 0xbc]];
    assert_eq!(rt;
        said(&rt, alloc, &sealed, &right, aabc)?.as_slice(),
        b"s+l-n+?".as_slice()
    );
    let hashed = Shape::Hsh(1, bank, shape_of_scan(&rt, alloc)?);
    let hash = Value::Hash(1, HASH);
    assert_eq!(rt;
        said(&rt, alloc, &hashed, &hash, aabb)?.as_slice(),
        b"h+!".as_slice()
    );
    assert_eq!(rt;
        said(&rt, alloc, &hashed, &hash, aabc)?.as_slice(),
        b"h-?".as_slice()
    );
    let sealed_under = Shape::Hsh(2, bank, Box::new(alloc, sealed)?);
    let over_seal = Value::Hash(2, HASH_OF_SEAL);
    assert_eq!(rt;
        said(&rt, alloc, &sealed_under, &over_seal, aabb)?.as_slice(),
        b"h+!".as_slice()
    );
    let both: &[&[u8]] = &[&[0xaa, 0xbb], &[0xaa, 0xbc]];
    assert_eq!(rt;
        said(&rt, alloc, &hashed, &hash, both)?.as_slice(),
        b"".as_slice()
    );
    Ok(())
}

#[test]
fn one_event_has_one_answer(rt: HostRuntime) -> Result<(), Fail> {
    let alloc = rt.alloc();
    let shape = Shape::SeqPair(shape_of_scan(&rt, alloc)?, shape_of_scan(&rt, alloc)?);
    let both: &[&[u8]] = &[&[0xaa, 0xbc], &[0xaa, 0xbb]];
    let apart = Value::SeqPair(
        scanned(&rt, alloc, &[0xaa, 0xbb])?,
        scanned(&rt, alloc, &[0xaa, 0xbc])?,
    );
    assert_eq!(rt;
        said(&rt, alloc, &shape, &apart, both)?.as_slice(),
        b"l+n+l-n+?".as_slice()
    );
    let alike = Value::SeqPair(
        scanned(&rt, alloc, &[0xaa, 0xbb])?,
        scanned(&rt, alloc, &[0xaa, 0xbb])?,
    );
    assert_eq!(rt;
        said(&rt, alloc, &shape, &alike, both)?.as_slice(),
        b"l+n+l+n+!".as_slice()
    );
    Ok(())
}

#[test]
fn what_does_not_fit_is_named(rt: HostRuntime) -> Result<(), Fail> {
    let alloc = rt.alloc();
    let places = places(&rt, alloc)?;
    let shape = shape_of_scan(&rt, alloc)?;
    let value = scanned(&rt, alloc, &[0xaa, 0xbb])?;
    assert_eq!(rt;
        said(&rt, alloc, &shape, &Value::Nonce(COUNTED), &[&[0xaa]])?.as_slice(),
        b"w".as_slice()
    );
    assert_eq!(rt;
        said(&rt, alloc, &Shape::Empty, &Value::Empty, &[])?.as_slice(),
        b"!".as_slice()
    );
    let Some(_) = node_count(&shape) else {
        return Err("nodes".into());
    };
    assert_eq!(rt; fits_at(&shape, &value, None, &places), None);
    let deeper = Value::Usm(0, answer(&rt, &[]), Box::new(alloc, Value::Empty)?);
    assert_eq!(rt; fits_at(&shape, &deeper, None, &places), Some(1));
    Ok(())
}

#[test]
fn marks_are_the_indices_of_places(rt: HostRuntime) -> Result<(), Fail> {
    let alloc = rt.alloc();
    let places = places(&rt, alloc)?;
    assert!(rt; is_mark(&places, Some(1), name(&rt, "bank")));
    assert!(rt; !is_mark(&places, Some(0), name(&rt, "bank")));
    assert!(rt; !is_mark(&places, Some(0), name(&rt, "us")));
    assert!(rt; is_mark(&places, None, name(&rt, "us")));
    let under = Box::new(
        alloc,
        Shape::Hsh(2, name(&rt, "bank"), shape_of_scan(&rt, alloc)?),
    )?;
    let shape = Shape::SeqPair(
        shape_of_scan(&rt, alloc)?,
        Box::new(alloc, Shape::Usm(3, name(&rt, "q"), scan(&rt), under))?,
    );
    if !can_mark(&places, &shape) {
        return Err("a place".into());
    }
    let marks = marks_of(alloc, &shape, &places).map_err(|_| "memory")?;
    assert_eq!(rt; marks.items(), [1, 0].as_slice());
    Ok(())
}
