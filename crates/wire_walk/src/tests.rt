ghost use Rattle.std.specs.Prelude.{◌≡◌, ℕ, IfOk, Some, slice_get};
ghost use Rattle.phrase_tree.specs.Term.{term};
ghost use Rattle.phrase_tree.specs.Numbering.{IsSized};
ghost use Rattle.place_check.specs.Session.{CheckedSession, IsCheckedAgainst, session_of};

use super::*;
use bench_trait::{ArtefactBook, DigestBench};
use byte_ports::Bytes;
use phrase_tree::{Args, Asp, Name, Names, NoMemory, Phrase, Split};
use place_check::{Checked, PlaceEntry, Places, check};
use seal_hmac::Key;
use session_model::Record;
use std::alloc::Global;
use std::process::Abort;
use std::test::Fail;

fn name(rt: &impl Abort, text: &str) -> Name {
    Name::read(text).expect(rt, "a name")
}

fn names(rt: &impl Abort, alloc: Global, texts: &[&str]) -> Result<Names, NoMemory> {
    let mut found = Vec::new(alloc);
    for text in texts {
        found.push(name(rt, text))?;
    }
    Ok(Names::of(found))
}

/// The places `bank` and `q`, each of which may ask and see both; `q` offers `scan`.
fn two_places(rt: &impl Abort, alloc: Global) -> Result<Places, Fail> {
    let mut entries = Vec::new(alloc);
    for (text, key) in [("bank", 1), ("q", 2)] {
        entries.push(PlaceEntry {
            name: name(rt, text),
            key: Key::read(&[key; 16]).expect(rt, "a key"),
            asks: names(rt, alloc, &["bank", "q"])?,
            sees: names(rt, alloc, &["bank", "q"])?,
            offers: names(rt, alloc, &["scan"])?,
        })?;
    }
    assert!(rt; entries.len() == 2);
    Ok(Places::of(alloc, entries)?)
}

/// `@q [USM scan -> SIG]`.
fn asked(rt: &impl Abort, alloc: Global) -> Result<Phrase, NoMemory>
    ensures { IfOk result (λ phrase. IsSized (term phrase)) }
{
    let scan = Asp {
        name: name(rt, "scan"),
        args: Args::none(),
    };
    let left = Phrase::usm(alloc, scan)?;
    let body = Phrase::Then(Box::new(alloc, left)?, Box::new(alloc, Phrase::Sig)?);
    Ok(Phrase::At(name(rt, "q"), Box::new(alloc, body)?))
}

/// `@q [@bank [@q [CPY]]]`.
fn nested(rt: &impl Abort, alloc: Global) -> Result<Phrase, NoMemory>
    ensures { IfOk result (λ phrase. IsSized (term phrase)) }
{
    let inner = Phrase::At(name(rt, "q"), Box::new(alloc, Phrase::Cpy)?);
    let middle = Phrase::At(name(rt, "bank"), Box::new(alloc, inner)?);
    Ok(Phrase::At(name(rt, "q"), Box::new(alloc, middle)?))
}

/// `@q [CPY] +~- @q [HSH]`.
fn at_once(rt: &impl Abort, alloc: Global) -> Result<Phrase, NoMemory>
    ensures { IfOk result (λ phrase. IsSized (term phrase)) }
{
    let split = Split {
        left: true,
        right: false,
    };
    let left = Phrase::At(name(rt, "q"), Box::new(alloc, Phrase::Cpy)?);
    let right = Phrase::At(name(rt, "q"), Box::new(alloc, Phrase::Hsh)?);
    Ok(Phrase::Par(split, Box::new(alloc, left)?, Box::new(alloc, right)?))
}

/// What is expected of the walk of a number: the trace, and how many frames were sent, lost and repeated.
type Row = (u32, &'static [u32], u32, u32, u32);

fn expect_walk(
    rt: &impl Abort,
    alloc: Global,
    places: &Places,
    sessions: &Vec<Checked>,
    book: &ArtefactBook,
    row: Row,
) -> Result<(), Fail>
    requires checked { (index : ℕ) (found : CheckedSession) → slice_get sessions.now.items index ≡ Some found → IsCheckedAgainst (session_of found) places.now }
{
    let told = wire_walk(
        alloc,
        sessions.as_slice(),
        places,
        book,
        &DigestBench,
        row.0,
    )?;
    assert_eq!(rt; told.len(), 1, "at walk {}", row.0);
    for one in &told {
        match &one.record {
            Record::Done(done) => assert_eq!(rt; done.trace.items(), row.1, "at walk {}", row.0),
            Record::Failed(_) => assert!(rt; false, "failed at walk {}", row.0),
        }
        assert_eq!(rt;
            (one.sent, one.lost, one.repeated),
            (row.2, row.3, row.4),
            "at walk {}",
            row.0
        );
    }
    Ok(())
}

fn expect_walks(rt: &impl Abort, alloc: Global, phrase: Phrase, rows: &[Row]) -> Result<(), Fail>
    requires { IsSized (term phrase) }
{
    let places = two_places(rt, alloc)?;
    let mut book = ArtefactBook::empty(alloc);
    assert!(rt;
        book.add(name(rt, "q"), name(rt, "scan"), Bytes::of(Vec::new(alloc)))
            .is_ok()
    );
    let bank = name(rt, "bank");
    let Some(_) = places.find(bank) else {
        return Err(Fail::from("no bank"));
    };
    match check(&places, bank, [7; 16], phrase) {
        Ok(checked) => {
            let mut sessions = Vec::with_capacity(alloc, 1)?;
            sessions.push(checked)?;
            for row in rows {
                expect_walk(rt, alloc, &places, &sessions, &book, *row)?;
            }
            Ok(())
        }
        Err(_) => Err(Fail::from("a refused phrase")),
    }
}

// The rows were made by an independent program in another language.
#[test]
fn sessions_are_played_over_links_as_the_schedule_of_a_number_says(
    rt: HostRuntime,
) -> Result<(), Fail> {
    let alloc = rt.alloc();
    let asked_rows: [Row; 7] = [
        (0, &[0, 1, 2, 3], 2, 0, 0),
        (1, &[0, 1, 2, 3], 4, 2, 1),
        (2, &[0, 1, 2, 3], 4, 2, 0),
        (3, &[0, 1, 2, 3], 2, 0, 2),
        (4, &[0, 1, 2, 3], 2, 0, 1),
        (5, &[0, 1, 2, 3], 3, 2, 2),
        (6, &[0, 1, 2, 3], 2, 0, 1),
    ];
    expect_walks(&rt, alloc, asked(&rt, alloc)?, &asked_rows)?;
    let nested_rows: [Row; 7] = [
        (0, &[0, 1, 2, 3, 4, 5, 6], 6, 0, 0),
        (1, &[0, 1, 2, 3, 4, 5, 6], 9, 3, 5),
        (2, &[0, 1, 2, 3, 4, 5, 6], 11, 6, 1),
        (3, &[0, 1, 2, 3, 4, 5, 6], 9, 3, 2),
        (4, &[0, 1, 2, 3, 4, 5, 6], 10, 4, 1),
        (5, &[0, 1, 2, 3, 4, 5, 6], 9, 5, 2),
        (6, &[0, 1, 2, 3, 4, 5, 6], 9, 3, 3),
    ];
    expect_walks(&rt, alloc, nested(&rt, alloc)?, &nested_rows)?;
    let at_once_rows: [Row; 7] = [
        (0, &[0, 1, 4, 2, 5, 3, 6, 7], 4, 0, 0),
        (1, &[0, 1, 4, 2, 5, 6, 3, 7], 5, 0, 6),
        (2, &[0, 1, 4, 2, 5, 3, 6, 7], 5, 1, 2),
        (3, &[0, 4, 1, 5, 2, 3, 6, 7], 4, 0, 1),
        (4, &[0, 4, 5, 1, 6, 2, 3, 7], 5, 2, 3),
        (5, &[0, 1, 2, 4, 5, 3, 6, 7], 4, 2, 3),
        (6, &[0, 4, 1, 5, 2, 6, 3, 7], 4, 0, 1),
    ];
    expect_walks(&rt, alloc, at_once(&rt, alloc)?, &at_once_rows)
}
