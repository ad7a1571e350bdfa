use super::*;
use bench_trait::AskKind;
use evidence_types::{Answer, Shape};
use phrase_tree::{Arg, Args, Asp, Name};
use std::alloc::Global;
use std::process::Abort;
use std::test::Fail;

fn name(rt: &impl Abort, text: &str) -> Name {
    Name::read(text).expect(rt, "a name")
}

fn scan(rt: &impl Abort, arg: Option<u32>) -> Asp {
    let mut args = Args::none();
    if let Some(number) = arg {
        assert!(rt; args.push(Arg::Number(number)).is_ok());
    }
    Asp {
        name: name(rt, "scan"),
        args,
    }
}

fn reference(rt: &impl Abort, place: &str, kind: AskKind, arg: Option<u32>, byte: u8) -> Reference {
    Reference {
        place: name(rt, place),
        kind,
        asp: scan(rt, arg),
        answer: Answer::of(&[byte]).expect(rt, "an answer"),
    }
}

/// The first byte of each answer that the references for this measurement have, in order; their count
/// agrees.
fn found(
    rt: &impl Abort,
    alloc: Global,
    book: &References,
    place: &str,
    kind: AskKind,
    arg: Option<u32>,
) -> Result<Vec<u8>, Fail> {
    let asp = scan(rt, arg);
    let count = book.count(name(rt, place), &kind, &asp);
    let mut bytes = Vec::new(alloc);
    for index in 0..count {
        match book.nth(name(rt, place), &kind, &asp, index) {
            Some(answer) => match answer.bytes().first() {
                Some(byte) => bytes.push(*byte)?,
                None => assert!(rt; false, "an empty answer at {index}"),
            },
            None => assert!(rt; false, "none at {index}"),
        }
    }
    assert!(rt; book.nth(name(rt, place), &kind, &asp, count).is_none());
    assert!(rt; book.nth(name(rt, place), &kind, &asp, u32::MAX).is_none());
    Ok(bytes)
}

/// The book of these references, if they are no more than a test makes.
fn book_of(entries: Vec<Reference>) -> Option<Result<References, ReferencesError>> {
    if entries.len() > 5000 {
        return None;
    }
    Some(References::of(entries))
}

/// References of each kind and place, with two for one measurement that stand apart.
fn book_of_six(rt: &impl Abort, alloc: Global) -> Result<References, Fail> {
    let q = name(rt, "q");
    let mut entries = Vec::new(alloc);
    entries.push(reference(rt, "q", AskKind::Usm, None, 9))?;
    entries.push(reference(rt, "bank", AskKind::Usm, None, 4))?;
    entries.push(reference(rt, "bank", AskKind::Kim(q), None, 2))?;
    entries.push(reference(rt, "bank", AskKind::Usm, Some(7), 3))?;
    entries.push(reference(rt, "bank", AskKind::Usm, None, 1))?;
    entries.push(reference(rt, "q", AskKind::Kim(q), Some(7), 5))?;
    Ok(References::of(entries)?)
}

#[test]
fn answers_for_one_measurement_are_kept_in_their_order(rt: HostRuntime) -> Result<(), Fail> {
    let alloc = rt.alloc();
    let q = name(&rt, "q");
    let book = book_of_six(&rt, alloc)?;
    let cases: [(&str, AskKind, Option<u32>, &[u8]); 7] = [
        ("bank", AskKind::Usm, None, &[4, 1]),
        ("bank", AskKind::Kim(q), None, &[2]),
        ("bank", AskKind::Usm, Some(7), &[3]),
        ("q", AskKind::Usm, None, &[9]),
        ("q", AskKind::Kim(q), None, &[]),
        ("q", AskKind::Kim(q), Some(7), &[5]),
        ("us", AskKind::Usm, None, &[]),
    ];
    for (place, kind, arg, bytes) in cases {
        let answers = found(&rt, alloc, &book, place, kind, arg)?;
        assert_eq!(rt; answers.as_slice(), bytes);
    }
    assert_eq!(rt; book.items().len(), 6);
    Ok(())
}

#[test]
fn a_reference_that_stands_twice_is_refused(rt: HostRuntime) -> Result<(), Fail> {
    let mut entries = Vec::new(rt.alloc());
    let places = [
        ("us", 1),
        ("q", 1),
        ("bank", 1),
        ("q", 2),
        ("bank", 2),
        ("bank", 1),
        ("q", 1),
    ];
    for (place, byte) in places {
        entries.push(reference(&rt, place, AskKind::Usm, None, byte))?;
    }
    match book_of(entries) {
        None => assert!(rt; false, "too many"),
        Some(Ok(_)) => assert!(rt; false, "accepted"),
        Some(Err(error)) => assert_eq!(rt;
            error,
            ReferencesError::Repeated {
                first: 2,
                second: 5
            }
        ),
    }
    Ok(())
}

/// 4,096 references for one measurement, whose answers differ at their ends, from the greatest down.
fn many(rt: &impl Abort, alloc: Global) -> Result<Vec<Reference>, Fail> {
    let mut entries = Vec::new(alloc);
    for number in 0..4096u32 {
        let left = 4095 - number;
        let bytes = [7, (left / 256) as u8, (left % 256) as u8];
        let mut entry = reference(rt, "bank", AskKind::Usm, None, 0);
        entry.answer = Answer::of(&bytes).expect(rt, "an answer");
        entries.push(entry)?;
    }
    Ok(entries)
}

#[test]
fn a_measurement_may_have_all_references(rt: HostRuntime) -> Result<(), Fail> {
    let alloc = rt.alloc();
    let Some(Ok(book)) = book_of(many(&rt, alloc)?) else {
        assert!(rt; false, "refused");
        return Ok(());
    };
    let (bank, asp) = (name(&rt, "bank"), scan(&rt, None));
    assert_eq!(rt; book.count(bank, &AskKind::Usm, &asp), 4096);
    for index in 0..4096u32 {
        let Some(answer) = book.nth(bank, &AskKind::Usm, &asp, index) else {
            assert!(rt; false, "none at {index}");
            continue;
        };
        let left = 4095 - index;
        assert!(rt; answer.bytes() == [7, (left / 256) as u8, (left % 256) as u8].as_slice());
    }
    assert!(rt; book.nth(bank, &AskKind::Usm, &asp, 4096).is_none());
    let mut entries = many(&rt, alloc)?;
    let mut last = reference(&rt, "bank", AskKind::Usm, None, 0);
    last.answer = Answer::of(&[7, 0, 1]).expect(&rt, "an answer");
    entries.push(last)?;
    match book_of(entries) {
        None => assert!(rt; false, "too many"),
        Some(Ok(_)) => assert!(rt; false, "accepted"),
        Some(Err(ReferencesError::Repeated { first, second })) => {
            assert_eq!(rt; (first, second), (4094, 4096))
        }
    }
    Ok(())
}

/// A measurement of `bank` over what stands before it.
fn measured(
    rt: &impl Abort,
    alloc: Global,
    event: u32,
    arg: Option<u32>,
    under: Shape,
) -> Result<Shape, Fail> {
    let bank = name(rt, "bank");
    Ok(Shape::Usm(event, bank, scan(rt, arg), Box::new(alloc, under)?))
}

fn hashed(rt: &impl Abort, alloc: Global, event: u32, under: Shape) -> Result<Shape, Fail> {
    Ok(Shape::Hsh(event, name(rt, "bank"), Box::new(alloc, under)?))
}

fn pair(alloc: Global, left: Shape, right: Shape) -> Result<Shape, Fail> {
    Ok(Shape::SeqPair(Box::new(alloc, left)?, Box::new(alloc, right)?))
}

#[test]
fn the_least_event_without_a_reference_is_named(rt: HostRuntime) -> Result<(), Fail> {
    let alloc = rt.alloc();
    let book = book_of_six(&rt, alloc)?;
    let known = measured(&rt, alloc, 1, Some(7), Shape::Nonce)?;
    assert_eq!(rt; book.check_for(&known), Ok(()));
    let hidden = hashed(&rt, alloc, 5, measured(&rt, alloc, 4, Some(8), known)?)?;
    assert_eq!(rt; book.check_for(&hidden), Err(NoReference { event: 4 }));
    let later = measured(&rt, alloc, 6, Some(9), Shape::Empty)?;
    let both = pair(alloc, later, hidden)?;
    assert_eq!(rt; book.check_for(&both), Err(NoReference { event: 4 }));
    Ok(())
}

#[test]
fn a_measurement_is_ambiguous_under_a_hash_alone(rt: HostRuntime) -> Result<(), Fail> {
    let alloc = rt.alloc();
    let book = book_of_six(&rt, alloc)?;
    let bare = measured(
        &rt,
        alloc,
        3,
        None,
        measured(&rt, alloc, 2, None, Shape::Nonce)?,
    )?;
    assert_eq!(rt; book.ambiguous(&bare), None);
    let one = hashed(
        &rt,
        alloc,
        5,
        measured(&rt, alloc, 4, Some(7), Shape::Nonce)?,
    )?;
    assert_eq!(rt; book.ambiguous(&one), None);
    let two = hashed(&rt, alloc, 7, bare)?;
    let both = pair(alloc, measured(&rt, alloc, 0, None, two)?, one)?;
    assert_eq!(rt; book.ambiguous(&both), Some(2));
    Ok(())
}
