ghost use Rattle.phrase_tree.specs.Term.{term};
ghost use Rattle.phrase_tree.specs.Numbering.{IsSized};
ghost use Rattle.std.specs.Prelude.{◌≡◌, ℕ, Some, IfOk, length, slice_get};
ghost use Rattle.place_check.specs.Session.{CheckedSession, IsCheckedAgainst, session_of};

use super::*;
use bench_trait::{
    ArtefactBook, Bench, BenchFault, DigestBench, TableBench, TableResult, TableRow,
};
use evidence_types::Answer;
use phrase_tree::{Args, Asp, Name, Names, NoMemory, Phrase, Split};
use place_check::{Checked, PlaceEntry, Places, check};
use seal_hmac::Key;
use session_core::Session;
use session_model::Record;
use std::alloc::Global;
use std::process::Abort;
use std::test::Fail;

// The bytes were put together by hand from the page on transcripts.

const NONCE: [u8; 16] = [0, 1, 2, 3, 4, 5, 6, 7, 8, 9, 10, 11, 12, 13, 14, 15];

/// Of a session that did nothing yet.
const NONE_YET: &[u8] = &[67, 80, 76, 84, 1, 0, 0, 0, 0];

/// Of `CPY`: by one pass; cut; with one entry; one too few counted; one too many; by other passes; no bytes;
/// another letter.
const OF_CPY: [(&[u8], (u32, u32)); 8] = [
    (
        &[
            67, 80, 76, 84, 1, 0, 0, 0, 2, 0, 0, 0, 0, 0, 0, 0, 0, 0, 0, 0, 0,
        ],
        (0, 0),
    ),
    (&[67, 80, 76, 84, 1, 0, 0, 0, 2, 0, 0, 0, 0, 0, 0], (10, 15)),
    (&[67, 80, 76, 84, 1, 0, 0, 0, 1, 0, 0, 0, 0, 0, 0], (2, 0)),
    (
        &[
            67, 80, 76, 84, 1, 0, 0, 0, 1, 0, 0, 0, 0, 0, 0, 0, 0, 0, 0, 0, 0,
        ],
        (14, 15),
    ),
    (
        &[
            67, 80, 76, 84, 1, 0, 0, 0, 3, 0, 0, 0, 0, 0, 0, 0, 0, 0, 0, 0, 0, 0, 0, 0, 0, 0, 0,
        ],
        (4, 2),
    ),
    (
        &[
            67, 80, 76, 84, 1, 0, 0, 0, 2, 0, 0, 0, 0, 9, 0, 0, 0, 0, 0, 4, 0,
        ],
        (0, 0),
    ),
    (&[], (10, 0)),
    (&[67, 80, 76, 85], (11, 3)),
];

/// Of `USM scan`, answered with aabb: as it is; another answer; a fault in its place; ahead of its ask; twice;
/// by another pass; a block that runs though it asks; without its answer; a delivery at no place.
const OF_SCAN: [(&[u8], (u32, u32)); 9] = [
    (
        &[
            67, 80, 76, 84, 1, 0, 0, 0, 3, 1, 0, 0, 0, 0, 0, 3, 0, 0, 0, 0, 0, 0, 0, 0, 0, 2, 170,
            187, 0, 0, 0, 0, 0, 0,
        ],
        (0, 0),
    ),
    (
        &[
            67, 80, 76, 84, 1, 0, 0, 0, 3, 1, 0, 0, 0, 0, 0, 3, 0, 0, 0, 0, 0, 0, 0, 0, 0, 2, 170,
            188, 0, 0, 0, 0, 0, 0,
        ],
        (5, 1),
    ),
    (
        &[
            67, 80, 76, 84, 1, 0, 0, 0, 2, 1, 0, 0, 0, 0, 0, 4, 0, 0, 0, 0, 0, 0, 0, 0, 0,
        ],
        (5, 1),
    ),
    (
        &[
            67, 80, 76, 84, 1, 0, 0, 0, 1, 3, 0, 0, 0, 0, 0, 0, 0, 0, 0, 2, 170, 187,
        ],
        (4, 0),
    ),
    (
        &[
            67, 80, 76, 84, 1, 0, 0, 0, 3, 1, 0, 0, 0, 0, 0, 3, 0, 0, 0, 0, 0, 0, 0, 0, 0, 2, 170,
            187, 3, 0, 0, 0, 0, 0, 0, 0, 0, 0, 2, 170, 187,
        ],
        (4, 2),
    ),
    (
        &[
            67, 80, 76, 84, 1, 0, 0, 0, 3, 1, 0, 0, 0, 0, 0, 3, 0, 0, 0, 1, 0, 0, 0, 0, 0, 2, 170,
            187, 0, 0, 0, 0, 0, 0,
        ],
        (4, 1),
    ),
    (&[67, 80, 76, 84, 1, 0, 0, 0, 1, 0, 0, 0, 0, 0, 0], (4, 0)),
    (&[67, 80, 76, 84, 1, 0, 0, 0, 1, 1, 0, 0, 0, 0, 0], (2, 0)),
    (
        &[67, 80, 76, 84, 1, 0, 0, 0, 1, 2, 0, 0, 0, 0, 1, 97],
        (4, 0),
    ),
];

/// Of `USM a +~- USM b`, answered with 11 and 22: the left first; the right first; joined too early; asked
/// twice; answered by the other pass.
const OF_ARMS: [(&[u8], (u32, u32)); 5] = [
    (
        &[
            67, 80, 76, 84, 1, 0, 0, 0, 8, 0, 0, 0, 0, 7, 0, 1, 0, 0, 0, 7, 0, 1, 0, 0, 0, 8, 1, 0,
            0, 0, 0, 3, 0, 0, 0, 7, 0, 0, 0, 1, 0, 1, 17, 3, 0, 0, 0, 8, 0, 0, 0, 2, 0, 1, 34, 0,
            0, 0, 0, 7, 1, 0, 0, 0, 0, 0, 0, 0, 0, 7, 0, 0, 0, 0, 0, 7, 0,
        ],
        (0, 0),
    ),
    (
        &[
            67, 80, 76, 84, 1, 0, 0, 0, 8, 0, 0, 0, 0, 7, 0, 1, 0, 0, 0, 7, 0, 1, 0, 0, 0, 8, 1, 0,
            0, 0, 0, 3, 0, 0, 0, 8, 0, 0, 0, 2, 0, 1, 34, 0, 0, 0, 0, 3, 1, 0, 0, 0, 0, 3, 0, 0, 0,
            7, 0, 0, 0, 1, 0, 1, 17, 0, 0, 0, 0, 7, 0, 0, 0, 0, 0, 7, 0,
        ],
        (0, 0),
    ),
    (
        &[
            67, 80, 76, 84, 1, 0, 0, 0, 6, 0, 0, 0, 0, 7, 0, 1, 0, 0, 0, 7, 0, 1, 0, 0, 0, 8, 1, 0,
            0, 0, 0, 3, 0, 0, 0, 7, 0, 0, 0, 1, 0, 1, 17, 3, 0, 0, 0, 8, 0, 0, 0, 2, 0, 1, 34, 0,
            0, 0, 0, 7, 0,
        ],
        (4, 5),
    ),
    (
        &[
            67, 80, 76, 84, 1, 0, 0, 0, 4, 0, 0, 0, 0, 7, 0, 1, 0, 0, 0, 7, 0, 1, 0, 0, 0, 8, 1, 0,
            0, 0, 0, 1, 0, 0, 0, 7, 0,
        ],
        (4, 3),
    ),
    (
        &[
            67, 80, 76, 84, 1, 0, 0, 0, 4, 0, 0, 0, 0, 7, 0, 1, 0, 0, 0, 7, 0, 1, 0, 0, 0, 8, 1, 0,
            0, 0, 0, 3, 0, 0, 0, 8, 0, 0, 0, 1, 0, 1, 17,
        ],
        (4, 3),
    ),
];

/// Of the same, where the second fails with code 7: behind an answer; at once; ahead of an answer; with
/// another code.
const OF_FAULTS: [(&[u8], (u32, u32)); 4] = [
    (
        &[
            67, 80, 76, 84, 1, 0, 0, 0, 5, 0, 0, 0, 0, 7, 0, 1, 0, 0, 0, 7, 0, 1, 0, 0, 0, 8, 1, 0,
            0, 0, 0, 3, 0, 0, 0, 7, 0, 0, 0, 1, 0, 1, 17, 4, 0, 0, 0, 8, 0, 0, 0, 2, 1, 0, 7,
        ],
        (1, 0),
    ),
    (
        &[
            67, 80, 76, 84, 1, 0, 0, 0, 3, 0, 0, 0, 0, 7, 0, 1, 0, 0, 0, 8, 1, 0, 0, 0, 0, 4, 0, 0,
            0, 8, 0, 0, 0, 2, 1, 0, 7,
        ],
        (1, 0),
    ),
    (
        &[
            67, 80, 76, 84, 1, 0, 0, 0, 5, 0, 0, 0, 0, 7, 0, 1, 0, 0, 0, 7, 0, 1, 0, 0, 0, 8, 1, 0,
            0, 0, 0, 4, 0, 0, 0, 8, 0, 0, 0, 2, 1, 0, 7, 3, 0, 0, 0, 7, 0, 0, 0, 1, 0, 1, 17,
        ],
        (4, 4),
    ),
    (
        &[
            67, 80, 76, 84, 1, 0, 0, 0, 4, 0, 0, 0, 0, 7, 0, 1, 0, 0, 0, 7, 0, 1, 0, 0, 0, 8, 1, 0,
            0, 0, 0, 4, 0, 0, 0, 8, 0, 0, 0, 2, 1, 0, 8,
        ],
        (5, 3),
    ),
];

// The transcripts by schedules were made by an independent program in another language.

/// By the schedule of 0: of `USM a +~- USM b`, and of `USM scan`.
const ARMS_BY_0: [(&[u8], (u32, u32)); 2] = [
    (
        &[
            67, 80, 76, 84, 1, 0, 0, 0, 8, 0, 0, 0, 0, 0, 0, 1, 0, 0, 0, 0, 0, 3, 0, 0, 0, 0, 0, 0,
            0, 1, 0, 1, 17, 1, 0, 0, 0, 0, 1, 0, 0, 0, 0, 3, 0, 0, 0, 0, 0, 0, 0, 2, 0, 1, 34, 0,
            0, 0, 0, 0, 1, 0, 0, 0, 0, 0, 0, 0, 0, 0, 0, 0, 0, 0, 0, 0, 0,
        ],
        (0, 0),
    ),
    (
        &[
            67, 80, 76, 84, 1, 0, 0, 0, 3, 1, 0, 0, 0, 0, 0, 3, 0, 0, 0, 0, 0, 0, 0, 0, 0, 2, 170,
            187, 0, 0, 0, 0, 0, 0,
        ],
        (0, 0),
    ),
];

/// The same by the schedule of 3.
const ARMS_BY_3: [(&[u8], (u32, u32)); 2] = [
    (
        &[
            67, 80, 76, 84, 1, 0, 0, 0, 8, 0, 0, 0, 0, 0, 0, 1, 0, 0, 0, 0, 1, 0, 0, 0, 0, 3, 0, 0,
            0, 0, 0, 0, 0, 2, 0, 1, 34, 1, 0, 0, 0, 0, 0, 0, 0, 0, 0, 0, 1, 0, 0, 0, 0, 3, 0, 0, 0,
            0, 0, 0, 0, 1, 0, 1, 17, 0, 0, 0, 0, 0, 0, 0, 0, 0, 0, 0, 0,
        ],
        (0, 0),
    ),
    (
        &[
            67, 80, 76, 84, 1, 0, 0, 0, 3, 1, 0, 0, 0, 0, 0, 3, 0, 0, 0, 0, 0, 0, 0, 0, 0, 2, 170,
            187, 0, 0, 0, 0, 0, 0,
        ],
        (0, 0),
    ),
];

/// By the schedule of 0, where `b` fails with code 7.
const FAULT_BY_0: [(&[u8], (u32, u32)); 2] = [
    (
        &[
            67, 80, 76, 84, 1, 0, 0, 0, 5, 0, 0, 0, 0, 0, 0, 1, 0, 0, 0, 0, 0, 3, 0, 0, 0, 0, 0, 0,
            0, 1, 0, 1, 17, 1, 0, 0, 0, 0, 1, 0, 0, 0, 0, 4, 0, 0, 0, 0, 0, 0, 0, 2, 1, 0, 7,
        ],
        (1, 0),
    ),
    (
        &[
            67, 80, 76, 84, 1, 0, 0, 0, 3, 1, 0, 0, 0, 0, 0, 3, 0, 0, 0, 0, 0, 0, 0, 0, 0, 2, 170,
            187, 0, 0, 0, 0, 0, 0,
        ],
        (0, 0),
    ),
];

/// The same by the schedule of 3.
const FAULT_BY_3: [(&[u8], (u32, u32)); 2] = [
    (
        &[
            67, 80, 76, 84, 1, 0, 0, 0, 3, 0, 0, 0, 0, 0, 0, 1, 0, 0, 0, 0, 1, 0, 0, 0, 0, 4, 0, 0,
            0, 0, 0, 0, 0, 2, 1, 0, 7,
        ],
        (1, 0),
    ),
    (
        &[
            67, 80, 76, 84, 1, 0, 0, 0, 3, 1, 0, 0, 0, 0, 0, 3, 0, 0, 0, 0, 0, 0, 0, 0, 0, 2, 170,
            187, 0, 0, 0, 0, 0, 0,
        ],
        (0, 0),
    ),
];

fn name(rt: &impl Abort, text: &str) -> Name {
    Name::read(text).expect(rt, "a name")
}

/// The place `bank`, which offers `a`, `b` and `scan`.
fn one_place(rt: &impl Abort, alloc: Global) -> Result<Places, Fail> {
    let mut offers = Vec::new(alloc);
    offers.push(name(rt, "a"))?;
    offers.push(name(rt, "b"))?;
    offers.push(name(rt, "scan"))?;
    let bank = PlaceEntry {
        name: name(rt, "bank"),
        key: Key::read(&[1; 16]).expect(rt, "a key"),
        asks: Names::of(Vec::new(alloc)),
        sees: Names::of(Vec::new(alloc)),
        offers: Names::of(offers),
    };
    let mut entries = Vec::new(alloc);
    entries.push(bank)?;
    Ok(Places::of(alloc, entries)?)
}

fn usm(rt: &impl Abort, alloc: Global, text: &str) -> Result<Phrase, NoMemory>
    ensures { IfOk result (λ phrase. IsSized (term phrase)) }
{
    let asp = Asp {
        name: name(rt, text),
        args: Args::none(),
    };
    Phrase::usm(alloc, asp)
}

/// `USM a +~- USM b`.
fn two_arms(rt: &impl Abort, alloc: Global) -> Result<Phrase, NoMemory>
    ensures { IfOk result (λ phrase. IsSized (term phrase)) }
{
    let split = Split {
        left: true,
        right: false,
    };
    let asp = |text| Asp {
        name: name(rt, text),
        args: Args::none(),
    };
    let left = Phrase::usm(alloc, asp("a"))?;
    let right = Phrase::usm(alloc, asp("b"))?;
    Ok(Phrase::Par(split, Box::new(alloc, left)?, Box::new(alloc, right)?))
}

fn copy() -> Phrase
    ensures { IsSized (term result) }
{
    Phrase::Cpy
}

fn answer(rt: &impl Abort, event: u32, bytes: &[u8]) -> TableRow {
    TableRow {
        nonce: NONCE,
        event,
        outcome: TableResult::Answer(Answer::of(bytes).expect(rt, "an answer")),
    }
}

/// A bench that answers event 0 with aabb and event 1 with 11; what it has for event 2 is given.
fn table(rt: &impl Abort, alloc: Global, last: TableResult) -> Result<TableBench, Fail> {
    let mut rows = Vec::new(alloc);
    rows.push(answer(rt, 0, &[170, 187]))?;
    rows.push(answer(rt, 1, &[17]))?;
    rows.push(TableRow {
        nonce: NONCE,
        event: 2,
        outcome: last,
    })?;
    Ok(TableBench::of(rows))
}

/// A number for an answer, with the index of its entry or its offset.
fn code_of(found: &Result<Record, AuditError>) -> (u32, u32) {
    match found {
        Ok(Record::Done(_)) => (0, 0),
        Ok(Record::Failed(_)) => (1, 0),
        Err(AuditError::Unfinished) => (2, 0),
        Err(AuditError::NoMemory) => (3, 0),
        Err(AuditError::Illegal { entry }) => (4, *entry),
        Err(AuditError::Differs { entry, .. }) => (5, *entry),
        Err(AuditError::Bad { at, kind }) => match kind {
            TranscriptKind::Short => (10, *at),
            TranscriptKind::Tag => (11, *at),
            TranscriptKind::Length => (12, *at),
            TranscriptKind::Name => (13, *at),
            TranscriptKind::Rest => (14, *at),
        },
    }
}

/// Audits each row for the session of a phrase, over a bench.
fn expect<B: Bench>(
    rt: &impl Abort,
    alloc: Global,
    phrase: Phrase,
    bench: &B,
    rows: &[(&[u8], (u32, u32))],
) -> Result<(), Fail>
    requires { IsSized (term phrase) }
{
    let places = one_place(rt, alloc)?;
    let bank = name(rt, "bank");
    let Some(_) = places.find(bank) else {
        return Err(Fail::from("no bank"));
    };
    let Ok(checked) = check(&places, bank, NONCE, phrase) else {
        return Err(Fail::from("refused"));
    };
    let book = ArtefactBook::empty(alloc);
    for row in rows {
        let found = audit(alloc, &checked, &places, &book, bench, row.0);
        assert_eq!(rt; code_of(&found), row.1);
    }
    Ok(())
}

#[test]
fn an_audit_answers_by_the_entries(rt: HostRuntime) -> Result<(), Fail> {
    let alloc = rt.alloc();
    let last = TableResult::Answer(Answer::of(&[34]).expect(&rt, "an answer"));
    let bench = table(&rt, alloc, last)?;
    expect(&rt, alloc, copy(), &bench, &OF_CPY)?;
    expect(&rt, alloc, usm(&rt, alloc, "scan")?, &bench, &OF_SCAN)?;
    expect(&rt, alloc, two_arms(&rt, alloc)?, &bench, &OF_ARMS)?;
    let bench = table(&rt, alloc, TableResult::Fault(BenchFault::Broken(7)))?;
    expect(&rt, alloc, two_arms(&rt, alloc)?, &bench, &OF_FAULTS)
}

/// A copy of bytes, with the lowest bit of one of them turned.
fn turned(alloc: Global, bytes: &[u8], at: usize) -> Result<Vec<u8>, Fail> {
    let mut copy = Vec::new(alloc);
    let mut index = 0usize;
    for byte in bytes {
        copy.push(if index == at { byte ^ 1 } else { *byte })?;
        index = index.wrapping_add(1);
    }
    Ok(copy)
}

#[test]
fn each_byte_of_a_transcript_tells(rt: HostRuntime) -> Result<(), Fail> {
    let alloc = rt.alloc();
    let last = TableResult::Answer(Answer::of(&[34]).expect(&rt, "an answer"));
    let bench = table(&rt, alloc, last)?;
    let places = one_place(&rt, alloc)?;
    let bank = name(&rt, "bank");
    let Some(_) = places.find(bank) else {
        return Err(Fail::from("no bank"));
    };
    let Ok(checked) = check(&places, bank, NONCE, usm(&rt, alloc, "scan")?) else {
        return Err(Fail::from("refused"));
    };
    let book = ArtefactBook::empty(alloc);
    let bytes = OF_SCAN[0].0;
    for at in 0..bytes.len() {
        let other = turned(alloc, bytes, at)?;
        let found = audit(alloc, &checked, &places, &book, &bench, &other);
        // The pass of the last move is free.
        let free = 29 <= at && at <= 32;
        assert_eq!(rt; code_of(&found) == (0, 0), free, "at {at}");
    }
    // Without its artefact the program's own bench has another result.
    let found = audit_by_digests(alloc, &checked, &places, &book, bytes);
    assert_eq!(rt; code_of(&found), (5, 1));
    Ok(())
}

// A session as far as it goes is written as far as it goes.
#[test]
fn a_history_is_written_so_far(rt: HostRuntime) -> Result<(), Fail> {
    let alloc = rt.alloc();
    let places = one_place(&rt, alloc)?;
    let bank = name(&rt, "bank");
    let Some(_) = places.find(bank) else {
        return Err(Fail::from("no bank"));
    };
    let Ok(checked) = check(&places, bank, NONCE, copy()) else {
        return Err(Fail::from("refused"));
    };
    let book = ArtefactBook::empty(alloc);
    let mut session = Session::open(alloc, &checked, &places, &book, &DigestBench)?;
    for wanted in [NONE_YET, OF_CPY[2].0, OF_CPY[0].0] {
        let Ok(bytes) = write_transcript(alloc, &session) else {
            return Err(Fail::from("no transcript"));
        };
        assert_eq!(rt; bytes.items(), wanted);
        if let Some(step) = session.nth_move(0) {
            assert!(rt; session.play(0, step).is_ok());
        }
    }
    Ok(())
}

/// A list of two sessions.
fn two_sessions(
    alloc: Global,
    places: &Places,
    first: Checked,
    second: Checked,
) -> Result<Vec<Checked>, NoMemory>
    requires first { IsCheckedAgainst (session_of first) places.now }
    requires second { IsCheckedAgainst (session_of second) places.now }
    ensures few { IfOk result (λ all. length all.items ≡ 2) }
    ensures checked { IfOk result (λ all. (index : ℕ) (found : CheckedSession) → slice_get all.items index ≡ Some found → IsCheckedAgainst (session_of found) places.now) }
{
    let mut all = Vec::with_capacity(alloc, 2)?;
    all.push(first)?;
    all.push(second)?;
    Ok(all)
}

/// Compares the recording of the session at an index with a transcript and with whether it failed, and audits
/// it.
fn expect_recording<B: Bench>(
    rt: &impl Abort,
    alloc: Global,
    places: &Places,
    sessions: &Vec<Checked>,
    at: usize,
    bench: &B,
    one: &RecordedSession,
    wanted: (&[u8], (u32, u32)),
) -> Result<(), Fail>
    requires { (index : ℕ) (found : CheckedSession) → slice_get sessions.now.items index ≡ Some found → IsCheckedAgainst (session_of found) places.now }
{
    let Some(checked) = sessions.get(at) else {
        return Err(Fail::from("no session"));
    };
    assert_eq!(rt; one.bytes.items(), wanted.0, "session {at}");
    assert_eq!(rt; one.has_failed, wanted.1.0 == 1, "session {at}");
    let book = ArtefactBook::empty(alloc);
    let found = audit(alloc, checked, places, &book, bench, one.bytes.items());
    assert_eq!(rt; code_of(&found), wanted.1, "session {at}");
    Ok(())
}

/// Records sessions by a number, and compares each recording.
fn expect_all<B: Bench>(
    rt: &impl Abort,
    alloc: Global,
    places: &Places,
    sessions: &Vec<Checked>,
    bench: &B,
    number: u32,
    wanted: &[(&[u8], (u32, u32))],
) -> Result<(), Fail>
    requires few { length sessions.now.items ≡ 2 }
    requires checked { (index : ℕ) (found : CheckedSession) → slice_get sessions.now.items index ≡ Some found → IsCheckedAgainst (session_of found) places.now }
{
    let book = ArtefactBook::empty(alloc);
    let recordings = record_sessions(alloc, number, sessions.as_slice(), places, &book, bench)?;
    assert_eq!(rt; recordings.len(), wanted.len());
    for (at, row) in wanted.iter().enumerate() {
        let Some(one) = recordings.get(at) else {
            return Err(Fail::from("no recording"));
        };
        expect_recording(rt, alloc, places, sessions, at, bench, one, *row)?;
    }
    Ok(())
}

/// Records the sessions of two phrases by a number, and compares each recording.
fn expect_recordings<B: Bench>(
    rt: &impl Abort,
    alloc: Global,
    phrases: (Phrase, Phrase),
    bench: &B,
    number: u32,
    wanted: &[(&[u8], (u32, u32))],
) -> Result<(), Fail>
    requires first { IsSized (term phrases.0) }
    requires second { IsSized (term phrases.1) }
{
    let places = one_place(rt, alloc)?;
    let bank = name(rt, "bank");
    let Some(_) = places.find(bank) else {
        return Err(Fail::from("no bank"));
    };
    let Ok(first) = check(&places, bank, NONCE, phrases.0) else {
        return Err(Fail::from("refused"));
    };
    let Ok(second) = check(&places, bank, NONCE, phrases.1) else {
        return Err(Fail::from("refused"));
    };
    let sessions = two_sessions(alloc, &places, first, second)?;
    expect_all(rt, alloc, &places, &sessions, bench, number, wanted)
}

// The first and the second session are recorded as what they are, and what was written is accepted.
#[test]
fn sessions_are_recorded_by_a_schedule(rt: HostRuntime) -> Result<(), Fail> {
    let alloc = rt.alloc();
    let last = TableResult::Answer(Answer::of(&[34]).expect(&rt, "an answer"));
    let bench = table(&rt, alloc, last)?;
    let rows = [OF_CPY[0], OF_SCAN[0]];
    for number in [0, 1, 20] {
        let phrases = (copy(), usm(&rt, alloc, "scan")?);
        expect_recordings(&rt, alloc, phrases, &bench, number, &rows)?;
    }
    let phrases = (two_arms(&rt, alloc)?, usm(&rt, alloc, "scan")?);
    expect_recordings(&rt, alloc, phrases, &bench, 0, &ARMS_BY_0)?;
    let phrases = (two_arms(&rt, alloc)?, usm(&rt, alloc, "scan")?);
    expect_recordings(&rt, alloc, phrases, &bench, 3, &ARMS_BY_3)?;
    let bench = table(&rt, alloc, TableResult::Fault(BenchFault::Broken(7)))?;
    let phrases = (two_arms(&rt, alloc)?, usm(&rt, alloc, "scan")?);
    expect_recordings(&rt, alloc, phrases, &bench, 0, &FAULT_BY_0)?;
    let phrases = (two_arms(&rt, alloc)?, usm(&rt, alloc, "scan")?);
    expect_recordings(&rt, alloc, phrases, &bench, 3, &FAULT_BY_3)
}
