ghost use Rattle.std.specs.Prelude.{◌≡◌, ◌<◌, ◌^◌, IfSome, length, true};
ghost use Rattle.evidence_types.specs.Shape.{form};
ghost use Rattle.place_check.specs.Places.{keys_of};
ghost use Rattle.appraiser.specs.Expected.{HasKeys};
ghost use Rattle.appraiser.specs.Fit.{nodes};

use super::*;
use appraiser::{AppraiseError, VerdictOf, Verdicts, appraise};
use bench_trait::AskKind;
use evidence_codec::{BadKind, DecodeError, decode_any};
use evidence_types::{Answer, Shape};
use phrase_tree::{Arg, Args, Asp, Name, Names};
use place_check::{PlaceEntry, Places};
use reference_book::{Reference, References};
use seal_hmac::Key;
use std::alloc::Global;
use std::process::Abort;
use std::test::Fail;

/// The nonce of the session of `bank` alone, and the key of its place.
const COUNTED: [u8; 16] = [0, 1, 2, 3, 4, 5, 6, 7, 8, 9, 10, 11, 12, 13, 14, 15];

/// The nonce of the session of three places.
const HIGH: [u8; 16] = [
    240, 241, 242, 243, 244, 245, 246, 247, 248, 249, 250, 251, 252, 253, 254, 255,
];

/// The bundle of the answer aabb of event 0 on the nonce, in both versions.
const SCANNED: [u8; 35] = [
    67, 80, 76, 66, 1, 0, 0, 0, 26, 2, 0, 0, 0, 0, 0, 2, 170, 187, 1, 0, 1, 2, 3, 4, 5, 6, 7, 8, 9,
    10, 11, 12, 13, 14, 15,
];

const MARKED: [u8; 36] = [
    67, 80, 76, 66, 2, 0, 0, 0, 27, 2, 0, 0, 0, 0, 0, 0, 2, 170, 187, 1, 0, 1, 2, 3, 4, 5, 6, 7, 8,
    9, 10, 11, 12, 13, 14, 15,
];

/// The bundle of that answer under the seal of event 1, with the answer changed to aabc.
const CHANGED: [u8; 72] = [
    67, 80, 76, 66, 1, 0, 0, 0, 63, 4, 0, 0, 0, 1, 191, 61, 75, 240, 89, 225, 57, 148, 158, 187,
    246, 122, 60, 221, 244, 203, 148, 145, 128, 11, 85, 90, 3, 103, 193, 242, 255, 228, 186, 102,
    41, 49, 2, 0, 0, 0, 0, 0, 2, 170, 188, 1, 0, 1, 2, 3, 4, 5, 6, 7, 8, 9, 10, 11, 12, 13, 14, 15,
];

/// The answers of the three measurements.
const KERNEL: [u8; 32] = [
    29, 94, 196, 252, 207, 119, 216, 148, 137, 3, 239, 205, 81, 36, 111, 98, 249, 78, 130, 113,
    240, 203, 24, 217, 182, 159, 121, 120, 124, 221, 214, 118,
];

const SCANNER: [u8; 32] = [
    150, 107, 160, 246, 95, 249, 195, 177, 82, 181, 94, 187, 193, 143, 41, 212, 185, 149, 5, 126,
    182, 62, 194, 220, 192, 62, 78, 134, 195, 190, 227, 41,
];

const FILES: [u8; 32] = [
    155, 43, 200, 105, 156, 53, 223, 28, 58, 16, 126, 30, 243, 105, 137, 41, 109, 90, 28, 171, 99,
    112, 231, 28, 170, 170, 165, 160, 196, 161, 84, 105,
];

/// The bundle of the session of three places.
const BANK: [u8; 235] = [
    67, 80, 76, 66, 1, 0, 0, 0, 226, 6, 4, 0, 0, 0, 3, 239, 25, 94, 76, 101, 56, 85, 218, 122, 29,
    145, 176, 217, 232, 48, 163, 193, 43, 47, 148, 237, 149, 1, 6, 112, 3, 187, 110, 52, 89, 11,
    30, 3, 0, 0, 0, 2, 0, 32, 29, 94, 196, 252, 207, 119, 216, 148, 137, 3, 239, 205, 81, 36, 111,
    98, 249, 78, 130, 113, 240, 203, 24, 217, 182, 159, 121, 120, 124, 221, 214, 118, 1, 240, 241,
    242, 243, 244, 245, 246, 247, 248, 249, 250, 251, 252, 253, 254, 255, 4, 0, 0, 0, 8, 35, 97,
    91, 130, 33, 177, 160, 146, 12, 132, 170, 170, 50, 66, 180, 10, 66, 121, 238, 203, 204, 4, 24,
    190, 197, 177, 134, 126, 114, 21, 223, 196, 2, 0, 0, 0, 7, 0, 32, 155, 43, 200, 105, 156, 53,
    223, 28, 58, 16, 126, 30, 243, 105, 137, 41, 109, 90, 28, 171, 99, 112, 231, 28, 170, 170, 165,
    160, 196, 161, 84, 105, 2, 0, 0, 0, 6, 0, 32, 150, 107, 160, 246, 95, 249, 195, 177, 82, 181,
    94, 187, 193, 143, 41, 212, 185, 149, 5, 126, 182, 62, 194, 220, 192, 62, 78, 134, 195, 190,
    227, 41, 1, 240, 241, 242, 243, 244, 245, 246, 247, 248, 249, 250, 251, 252, 253, 254, 255,
];

fn name(rt: &impl Abort, text: &str) -> Name {
    Name::read(text).expect(rt, "a name")
}

fn asp(rt: &impl Abort, text: &str, arg: Option<&str>) -> Asp {
    let mut args = Args::none();
    if let Some(word) = arg {
        assert!(rt; args.push(Arg::Word(name(rt, word))).is_ok());
    }
    Asp {
        name: name(rt, text),
        args,
    }
}

/// Places of these names; each byte of a key is more by one than the one before it, and the first is as given.
fn places(rt: &impl Abort, alloc: Global, entries: &[(&str, u8)]) -> Result<Places, Fail> {
    let mut list = Vec::new(alloc);
    for (text, first) in entries {
        let mut bytes = COUNTED;
        for byte in bytes.iter_mut() {
            *byte = byte.wrapping_add(*first);
        }
        list.push(PlaceEntry {
            name: name(rt, text),
            key: Key::read(&bytes).expect(rt, "a key"),
            asks: Names::of(Vec::new(alloc)),
            sees: Names::of(Vec::new(alloc)),
            offers: Names::of(Vec::new(alloc)),
        })?;
    }
    if list.len() > 3 {
        return Err("three places".into());
    }
    Places::of(alloc, list).map_err(|_| "places".into())
}

fn reference(rt: &impl Abort, place: &str, kind: AskKind, asp: Asp, bytes: &[u8]) -> Reference {
    Reference {
        place: name(rt, place),
        kind,
        asp,
        answer: Answer::of(bytes).expect(rt, "an answer"),
    }
}

fn book(entries: Vec<Reference>) -> Result<References, Fail> {
    if entries.len() > 3 {
        return Err("three references".into());
    }
    References::of(entries).map_err(|_| "references".into())
}

fn nonce_shape(alloc: Global) -> Result<Box<Shape>, Fail> {
    Ok(Box::new(alloc, Shape::Nonce)?)
}

/// The shape of `USM scan` at `bank`.
fn scan_shape(rt: &impl Abort, alloc: Global) -> Result<Shape, Fail> {
    Ok(Shape::Usm(
        0,
        name(rt, "bank"),
        asp(rt, "scan", None),
        nonce_shape(alloc)?,
    ))
}

/// The shape of `@ks [KIM us kernel -> SIG] +<+ @us [USM scanner -> USM files etc -> SIG]`.
fn bank_shape(rt: &impl Abort, alloc: Global) -> Result<Shape, Fail> {
    let ks = name(rt, "ks");
    let us = name(rt, "us");
    let kernel = Shape::Kim(2, ks, us, asp(rt, "kernel", None), nonce_shape(alloc)?);
    let left = Shape::Sig(3, ks, Box::new(alloc, kernel)?);
    let scanner = Shape::Usm(6, us, asp(rt, "scanner", None), nonce_shape(alloc)?);
    let files = Shape::Usm(
        7,
        us,
        asp(rt, "files", Some("etc")),
        Box::new(alloc, scanner)?,
    );
    let right = Shape::Sig(8, us, Box::new(alloc, files)?);
    Ok(Shape::SeqPair(Box::new(alloc, left)?, Box::new(alloc, right)?))
}

fn bank_references(rt: &impl Abort, alloc: Global) -> Result<References, Fail> {
    let us = name(rt, "us");
    let mut entries = Vec::new(alloc);
    entries.push(reference(rt, "ks", AskKind::Kim(us), asp(rt, "kernel", None), &KERNEL))?;
    entries.push(reference(rt, "us", AskKind::Usm, asp(rt, "scanner", None), &SCANNER))?;
    entries.push(reference(
        rt,
        "us",
        AskKind::Usm,
        asp(rt, "files", Some("etc")),
        &FILES,
    ))?;
    book(entries)
}

/// How many nodes a shape has that a value shows, if they can be counted.
fn node_count(shape: &Shape) -> Option<u32>
    ensures { IfSome result (λ count. count ≡ length (nodes (form shape.now))) }
{
    match shape {
        Shape::Empty => Some(1),
        Shape::Nonce => Some(1),
        Shape::Hsh(_, _, _) => Some(1),
        Shape::Usm(_, _, _, under) => node_count(under)?.checked_add(1),
        Shape::Kim(_, _, _, _, under) => node_count(under)?.checked_add(1),
        Shape::Sig(_, _, under) => node_count(under)?.checked_add(1),
        Shape::SeqPair(left, right) => {
            let first = node_count(left)?;
            let second = node_count(right)?;
            first.checked_add(second)?.checked_add(1)
        }
        Shape::ParPair(left, right) => {
            let first = node_count(left)?;
            let second = node_count(right)?;
            first.checked_add(second)?.checked_add(1)
        }
    }
}

/// Whether each place at which a shape is sealed has a key.
fn has_keys(places: &Places, shape: &Shape) -> bool
    ensures { result ≡ true → HasKeys (keys_of places.now) (form shape.now) }
{
    match shape {
        Shape::Empty => true,
        Shape::Nonce => true,
        Shape::Usm(_, _, _, under) => has_keys(places, under),
        Shape::Kim(_, _, _, _, under) => has_keys(places, under),
        Shape::Hsh(_, _, under) => has_keys(places, under),
        Shape::Sig(_, place, under) => {
            if places.keys().find(*place).is_none() {
                return false;
            }
            has_keys(places, under)
        }
        Shape::SeqPair(left, right) => {
            if !has_keys(places, left) {
                return false;
            }
            has_keys(places, right)
        }
        Shape::ParPair(left, right) => {
            if !has_keys(places, left) {
                return false;
            }
            has_keys(places, right)
        }
    }
}

/// The verdicts in short: a letter for what each is of, and a sign for whether it is good.
fn told(alloc: Global, verdicts: &Verdicts) -> Result<Vec<u8>, Fail> {
    let mut text = Vec::new(alloc);
    for verdict in verdicts.items() {
        text.push(match verdict.of {
            VerdictOf::Nonce => b'n',
            VerdictOf::Leaf(_) => b'l',
            VerdictOf::Seal(_) => b's',
            VerdictOf::Hash(_) => b'h',
        })?;
        text.push(if verdict.good { b'+' } else { b'-' })?;
    }
    text.push(if verdicts.accepted() { b'!' } else { b'?' })?;
    Ok(text)
}

/// A fault in short: its offset, of which only the last eight bits are told, and its kind.
fn told_fault(alloc: Global, at: u32, kind: BadKind) -> Result<Vec<u8>, Fail> {
    let mut text = Vec::new(alloc);
    text.push(match kind {
        BadKind::Short => b'S',
        BadKind::Tag => b'T',
        BadKind::Length => b'L',
        BadKind::Rest => b'R',
        BadKind::Deep => b'D',
    })?;
    text.push((at % 256) as u8)?;
    Ok(text)
}

fn told_node(alloc: Global, node: u32) -> Result<Vec<u8>, Fail> {
    let mut text = Vec::new(alloc);
    text.push(b'w')?;
    text.push((node % 256) as u8)?;
    Ok(text)
}

/// What is appraised here.
#[derive(Clone, Copy)]
struct Case<'a> {
    shape: &'a Shape,
    places: &'a Places,
    references: &'a References,
    nonce: &'a [u8; 16],
}

/// What is said of a bundle that comes in pieces of so many bytes; nothing if the shape can't be appraised by.
fn said(alloc: Global, case: &Case<'_>, bytes: &[u8], size: usize) -> Result<Vec<u8>, Fail> {
    let nothing = Vec::new(alloc);
    let Ok(()) = case.references.check_for(case.shape) else {
        return Ok(nothing);
    };
    let None = case.references.ambiguous(case.shape) else {
        return Ok(nothing);
    };
    let Some(_) = node_count(case.shape) else {
        return Ok(nothing);
    };
    if !has_keys(case.places, case.shape) {
        return Ok(nothing);
    }
    let Ok(mut appraiser) = StreamAppraiser::open(
        alloc,
        case.shape,
        case.references,
        case.places,
        case.nonce,
    ) else {
        return Err("memory".into());
    };
    if size == 0 {
        return Err("a size".into());
    }
    for piece in bytes.chunks(size) {
        if appraiser.feed(piece).is_err() {
            return Err("memory".into());
        }
    }
    match appraiser.finish() {
        Ok(verdicts) => told(alloc, &verdicts),
        Err(StreamError::Bad { at, kind }) => told_fault(alloc, at, kind),
        Err(StreamError::WrongShape { node }) => told_node(alloc, node),
        Err(StreamError::NoMemory) => Err("memory".into()),
    }
}

/// What decoding the whole and appraising its value says, of version 1.
fn said_of_whole(alloc: Global, case: &Case<'_>, bytes: &[u8]) -> Result<Vec<u8>, Fail> {
    let nothing = Vec::new(alloc);
    let Ok(()) = case.references.check_for(case.shape) else {
        return Ok(nothing);
    };
    let None = case.references.ambiguous(case.shape) else {
        return Ok(nothing);
    };
    let Some(_) = node_count(case.shape) else {
        return Ok(nothing);
    };
    if !has_keys(case.places, case.shape) {
        return Ok(nothing);
    }
    let found = match decode_any(alloc, bytes) {
        Ok(found) => found,
        Err(DecodeError::Bad { at, kind }) => return told_fault(alloc, at, kind),
        Err(DecodeError::NoMemory) => return Err("memory".into()),
    };
    if found.marks.is_some() {
        return Err("version 1".into());
    }
    match appraise(
        alloc,
        case.shape,
        &found.value,
        None,
        case.places,
        case.references,
        case.nonce,
    ) {
        Ok(verdicts) => told(alloc, &verdicts),
        Err(AppraiseError::WrongShape { node }) => told_node(alloc, node),
        Err(AppraiseError::NoMemory) => Err("memory".into()),
    }
}

#[test]
fn pieces_of_every_size_come_to_the_same(rt: HostRuntime) -> Result<(), Fail> {
    let alloc = rt.alloc();
    let places = places(&rt, alloc, &[("bank", 0)])?;
    let mut entries = Vec::new(alloc);
    entries.push(reference(
        &rt,
        "bank",
        AskKind::Usm,
        asp(&rt, "scan", None),
        &[0xaa, 0xbb],
    ))?;
    let references = book(entries)?;
    let scan = scan_shape(&rt, alloc)?;
    let case = Case {
        shape: &scan,
        places: &places,
        references: &references,
        nonce: &COUNTED,
    };
    let mut moved = MARKED;
    moved[14] = 1;
    let short: &[u8] = &SCANNED[..34];
    for size in 1..40 {
        assert_eq!(rt;
            said(alloc, &case, &SCANNED, size)?.as_slice(),
            b"l+n+!".as_slice()
        );
        assert_eq!(rt;
            said(alloc, &case, &MARKED, size)?.as_slice(),
            b"l+n+!".as_slice()
        );
        assert_eq!(rt;
            said(alloc, &case, &moved, size)?.as_slice(),
            [b'w', 0].as_slice()
        );
        assert_eq!(rt;
            said(alloc, &case, short, size)?.as_slice(),
            [b'S', 34].as_slice()
        );
    }
    let sealed = Shape::Sig(
        1,
        name(&rt, "bank"),
        Box::new(alloc, scan_shape(&rt, alloc)?)?,
    );
    let over = Case {
        shape: &sealed,
        ..case
    };
    for size in 1..73 {
        assert_eq!(rt;
            said(alloc, &over, &CHANGED, size)?.as_slice(),
            b"s-l-n+?".as_slice()
        );
    }
    assert_eq!(rt;
        said(alloc, &over, &SCANNED, 4096)?.as_slice(),
        [b'w', 0].as_slice()
    );
    Ok(())
}

#[test]
fn a_bundle_of_three_places_is_accepted_as_it_is_alone(rt: HostRuntime) -> Result<(), Fail> {
    let alloc = rt.alloc();
    let places = places(&rt, alloc, &[("bank", 0), ("ks", 16), ("us", 32)])?;
    let references = bank_references(&rt, alloc)?;
    let shape = bank_shape(&rt, alloc)?;
    let case = Case {
        shape: &shape,
        places: &places,
        references: &references,
        nonce: &HIGH,
    };
    let good = b"s+l+n+s+l+l+n+!".as_slice();
    assert_eq!(rt; said(alloc, &case, &BANK, 4096)?.as_slice(), good);
    assert_eq!(rt; said_of_whole(alloc, &case, &BANK)?.as_slice(), good);
    for count in 0..235 {
        let cut: &[u8] = &BANK[..count];
        let text = said(alloc, &case, cut, 7)?;
        assert_eq!(rt;
            text.as_slice(),
            [b'S', count as u8].as_slice(),
            "at {count}"
        );
    }
    for at in 0..235 {
        let mut changed = BANK;
        changed[at] ^= 1;
        let text = said(alloc, &case, &changed, 5)?;
        assert!(rt; text.as_slice().last() != Some(&b'!'), "at {at}");
        if at != 4 {
            assert_eq!(rt;
                text.as_slice(),
                said_of_whole(alloc, &case, &changed)?.as_slice()
            );
        }
    }
    Ok(())
}
