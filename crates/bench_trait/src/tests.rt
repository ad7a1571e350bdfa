ghost use Rattle.std.specs.Prelude.{◌+◌, ◌^◌, ◌<◌, ◌≤◌, length};

use crate::artefacts::{ArtefactBook, BookError};
use crate::ask::{Ask, AskKind};
use crate::asking::ask_of;
use crate::bench::{Bench, BenchFault, MeasureError};
use crate::digest::DigestBench;
use crate::table::{TableBench, TableResult, TableRow};
use byte_ports::Bytes;
use evidence_types::Answer;
use phrase_tree::{Arg, Args, Asp, Name, Phrase};
use std::process::Abort;
use std::test::Fail;

const NONCE: [u8; 16] = [1, 2, 3, 4, 5, 6, 7, 8, 9, 10, 11, 12, 13, 14, 15, 16];

// Made with Python's hashlib: SHA-256 of `kernel`, a zero byte and 6b31; and of `files`, `etc` and `7`
// with a zero byte behind each, and 6631.
const KERNEL: [u8; 32] = [
    0x1d, 0x5e, 0xc4, 0xfc, 0xcf, 0x77, 0xd8, 0x94, 0x89, 0x03, 0xef, 0xcd, 0x51, 0x24, 0x6f, 0x62,
    0xf9, 0x4e, 0x82, 0x71, 0xf0, 0xcb, 0x18, 0xd9, 0xb6, 0x9f, 0x79, 0x78, 0x7c, 0xdd, 0xd6, 0x76,
];

const FILES: [u8; 32] = [
    0x56, 0xe8, 0x29, 0xf8, 0x2f, 0xf7, 0x30, 0x95, 0xa8, 0x10, 0x0c, 0xce, 0x3c, 0x6a, 0x9d, 0x9f,
    0x82, 0x6d, 0x66, 0x10, 0x28, 0x39, 0x16, 0xe1, 0xc7, 0x84, 0x89, 0x8f, 0xf8, 0x24, 0xdb, 0x50,
];

fn name(rt: &impl Abort, text: &str) -> Name {
    Name::read(text).expect(rt, "a name")
}

fn plain(rt: &impl Abort, text: &str) -> Asp {
    Asp {
        name: name(rt, text),
        args: Args::none(),
    }
}

fn files_etc_7(rt: &impl Abort) -> Asp {
    let mut asp = plain(rt, "files");
    let _ = asp.args.push(Arg::Word(name(rt, "etc")));
    let _ = asp.args.push(Arg::Number(7));
    asp
}

fn ask(rt: &impl Abort, event: u32, place: &str, kind: AskKind, asp: Asp) -> Ask {
    Ask {
        nonce: NONCE,
        event,
        place: name(rt, place),
        kind,
        asp,
    }
}

fn added(book: &mut ArtefactBook, place: Name, name: Name, bytes: Bytes) -> Result<(), BookError>
    requires { length book.old + 1 < 2 ^ 32 }
    ensures { length book.new ≤ length book.old + 1 }
{
    match book.add(place, name, bytes) {
        Ok(()) => Ok(()),
        Err(BookError::Repeated { first }) => Err(BookError::Repeated { first }),
        Err(BookError::NoMemory) => Err(BookError::NoMemory),
    }
}

#[test]
fn only_measurements_have_questions(rt: HostRuntime) -> Result<(), Fail> {
    let bank = name(&rt, "bank");
    let usm = Phrase::usm(rt.alloc(), files_etc_7(&rt))?;
    let asked = ask_of(&usm, bank, &NONCE, 0);
    assert!(rt; asked == Some(ask(&rt, 0, "bank", AskKind::Usm, files_etc_7(&rt))));
    assert!(rt; ask_of(&usm, bank, &NONCE, 1).is_none());
    let target = name(&rt, "q");
    let kim = Phrase::kim(rt.alloc(), target, plain(&rt, "kernel"))?;
    let asked = ask_of(&kim, bank, &NONCE, 0);
    assert!(rt; asked == Some(ask(&rt, 0, "bank", AskKind::Kim(target), plain(&rt, "kernel"))));
    assert!(rt; ask_of(&Phrase::Sig, bank, &NONCE, 0).is_none());
    Ok(())
}

#[test]
fn digests_are_those_of_another_program(rt: HostRuntime) -> Result<(), Fail> {
    let alloc = rt.alloc();
    let us = name(&rt, "us");
    let kernel = Bytes::of(Vec::from_slice(alloc, b"\x6b\x31")?);
    let files = Bytes::of(Vec::from_slice(alloc, b"\x66\x31")?);
    let again = Bytes::of(Vec::from_slice(alloc, b"\x00")?);
    let mut book = ArtefactBook::empty(alloc);
    assert_eq!(rt; added(&mut book, us, name(&rt, "kernel"), kernel), Ok(()));
    assert_eq!(rt; added(&mut book, us, name(&rt, "files"), files), Ok(()));
    let repeated = added(&mut book, us, name(&rt, "files"), again);
    assert_eq!(rt; repeated, Err(BookError::Repeated { first: 1 }));
    assert_eq!(rt;
        book.find(us, name(&rt, "files")),
        Some(b"\x66\x31".as_slice())
    );
    assert_eq!(rt; book.find(name(&rt, "ks"), name(&rt, "files")), None);

    let target = AskKind::Kim(us);
    for (question, want) in [
        (
            ask(&rt, 0, "ks", target, plain(&rt, "kernel")),
            KERNEL.as_slice(),
        ),
        (
            ask(&rt, 1, "us", AskKind::Usm, files_etc_7(&rt)),
            FILES.as_slice(),
        ),
        (
            ask(&rt, 2, "ks", AskKind::Usm, plain(&rt, "kernel")),
            b"".as_slice(),
        ),
    ] {
        let found = match DigestBench.measure(&book, &question) {
            Ok(answer) => answer.bytes() == want,
            Err(MeasureError::Fault(BenchFault::NoArtefact)) => want.is_empty(),
            Err(_) => false,
        };
        assert!(rt; found);
    }
    Ok(())
}

#[test]
fn the_first_row_answers(rt: HostRuntime) -> Result<(), Fail> {
    let alloc = rt.alloc();
    let row = |event: u32, outcome: TableResult| TableRow {
        nonce: NONCE,
        event,
        outcome,
    };
    let bytes = Answer::of(b"\xaa\xbb").expect(&rt, "a short answer");
    let mut rows = Vec::new(alloc);
    rows.push(row(0, TableResult::Answer(bytes)))?;
    rows.push(row(0, TableResult::Starve))?;
    rows.push(row(1, TableResult::Fault(BenchFault::Broken(7))))?;
    rows.push(row(2, TableResult::Starve))?;
    let bench = TableBench::of(rows);
    let book = ArtefactBook::empty(alloc);
    let at = |event: u32| bench.measure(
        &book,
        &ask(&rt, event, "bank", AskKind::Usm, plain(&rt, "a")),
    );
    assert!(rt; at(0).is_ok_and(|answer| answer.bytes() == b"\xaa\xbb".as_slice()));
    assert!(rt; matches!(at(1), Err(MeasureError::Fault(BenchFault::Broken(7)))));
    assert!(rt; matches!(at(2), Err(MeasureError::NoMemory)));
    assert!(rt; matches!(at(3), Err(MeasureError::Fault(BenchFault::NoArtefact))));
    Ok(())
}
