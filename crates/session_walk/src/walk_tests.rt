ghost use Rattle.std.specs.Prelude.{◌≡◌, ◌≤◌, ◌+◌, ℕ, Some, IfOk, length, slice_get};
ghost use Rattle.phrase_tree.specs.Term.{term};
ghost use Rattle.phrase_tree.specs.Numbering.{IsSized};
ghost use Rattle.place_check.specs.Session.{CheckedSession, IsCheckedAgainst, session_of};

use super::*;
use bench_trait::{ArtefactBook, DigestBench};
use byte_ports::Bytes;
use phrase_tree::{Args, Asp, Name, Names, NoMemory, Phrase, Split};
use place_check::{Checked, PlaceEntry, Places, check};
use seal_hmac::Key;
use session_model::Record;
use std::alloc::Global;
use std::process::Abort;
use std::test::Fail;

fn name(rt: &impl Abort, text: &str) -> Name {
    Name::read(text).expect(rt, "a name")
}

/// The place `bank`, which offers `a` and `b`.
fn one_place(rt: &impl Abort, alloc: Global) -> Result<Places, Fail> {
    let mut offers = Vec::new(alloc);
    offers.push(name(rt, "a"))?;
    offers.push(name(rt, "b"))?;
    let bank = PlaceEntry {
        name: name(rt, "bank"),
        key: Key::read(&[1; 16]).expect(rt, "a key"),
        asks: Names::of(Vec::new(alloc)),
        sees: Names::of(Vec::new(alloc)),
        offers: Names::of(offers),
    };
    let mut entries = Vec::new(alloc);
    entries.push(bank)?;
    Ok(Places::of(alloc, entries)?)
}

fn asp(rt: &impl Abort, text: &str) -> Asp {
    Asp {
        name: name(rt, text),
        args: Args::none(),
    }
}

/// `USM a +~- USM b`.
fn two_arms(rt: &impl Abort, alloc: Global) -> Result<Phrase, NoMemory>
    ensures { IfOk result (λ phrase. IsSized (term phrase)) }
{
    let split = Split {
        left: true,
        right: false,
    };
    let left = Phrase::usm(alloc, asp(rt, "a"))?;
    let right = Phrase::usm(alloc, asp(rt, "b"))?;
    Ok(Phrase::Par(split, Box::new(alloc, left)?, Box::new(alloc, right)?))
}

/// Puts an artefact of a name at `bank` behind at most one other.
fn put(rt: &impl Abort, alloc: Global, book: &mut ArtefactBook, text: &str)
    requires { length book.old ≤ 1 }
    ensures { length book.new ≤ length book.old + 1 }
{
    let bytes = Bytes::of(Vec::new(alloc));
    assert!(rt; book.add(name(rt, "bank"), name(rt, text), bytes).is_ok());
}

/// A list of one session.
fn one_session(alloc: Global, places: &Places, one: Checked) -> Result<Vec<Checked>, NoMemory>
    requires { IsCheckedAgainst (session_of one) places.now }
    ensures few { IfOk result (λ all. length all.items ≡ 1) }
    ensures checked { IfOk result (λ all. (index : ℕ) (found : CheckedSession) → slice_get all.items index ≡ Some found → IsCheckedAgainst (session_of found) places.now) }
{
    let mut all = Vec::with_capacity(alloc, 1)?;
    all.push(one)?;
    Ok(all)
}

/// The trace of a session, and the event at which it failed, if it did.
fn is_of(found: &Record, trace: &[u32], failed: Option<u32>) -> bool {
    match found {
        Record::Done(done) => done.trace.items() == trace && failed.is_none(),
        Record::Failed(fault) => fault.trace.items() == trace && failed == Some(fault.event),
    }
}

fn expect_walk(
    rt: &impl Abort,
    alloc: Global,
    places: &Places,
    sessions: &Vec<Checked>,
    book: &ArtefactBook,
    row: (u32, &[u32], Option<u32>),
) -> Result<(), Fail>
    requires few { length sessions.now.items ≡ 1 }
    requires checked { (index : ℕ) (found : CheckedSession) → slice_get sessions.now.items index ≡ Some found → IsCheckedAgainst (session_of found) places.now }
{
    let records = walk_sessions(
        alloc,
        sessions.as_slice(),
        places,
        book,
        &DigestBench,
        row.0,
    )?;
    assert_eq!(rt; records.len(), 1, "at walk {}", row.0);
    for found in &records {
        assert!(rt; is_of(found, row.1, row.2), "at walk {}", row.0);
    }
    Ok(())
}

/// Walks the session by each of these numbers.
fn expect_walks(
    rt: &impl Abort,
    alloc: Global,
    book: &ArtefactBook,
    table: &[(u32, &[u32], Option<u32>)],
) -> Result<(), Fail> {
    let places = one_place(rt, alloc)?;
    let bank = name(rt, "bank");
    let Some(_) = places.find(bank) else {
        assert!(rt; false, "no bank");
        return Ok(());
    };
    let phrase = two_arms(rt, alloc)?;
    match check(&places, bank, [7; 16], phrase) {
        Ok(checked) => {
            let sessions = one_session(alloc, &places, checked)?;
            for row in table {
                expect_walk(rt, alloc, &places, &sessions, book, *row)?;
            }
        }
        Err(_) => assert!(rt; false, "refused"),
    }
    Ok(())
}

// The traces were made by an independent program in another language.
#[test]
fn a_walk_measures_in_the_order_of_its_number(rt: HostRuntime) -> Result<(), Fail> {
    let alloc = rt.alloc();
    let mut book = ArtefactBook::empty(alloc);
    let neither = [(0, &[0][..], Some(1)), (3, &[0][..], Some(2))];
    expect_walks(&rt, alloc, &book, &neither)?;
    put(&rt, alloc, &mut book, "a");
    let left = [(0, &[0, 1][..], Some(2)), (3, &[0][..], Some(2))];
    expect_walks(&rt, alloc, &book, &left)?;
    put(&rt, alloc, &mut book, "b");
    let both = [
        (0, &[0, 1, 2, 3][..], None),
        (3, &[0, 2, 1, 3][..], None),
        (4294967295, &[0, 1, 2, 3][..], None),
    ];
    expect_walks(&rt, alloc, &book, &both)
}
