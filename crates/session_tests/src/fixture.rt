//! Places, phrases and artefacts that the tests share.
ghost use Rattle.std.specs.Prelude.{IfOk};
ghost use Rattle.phrase_tree.specs.Term.{term};
ghost use Rattle.phrase_tree.specs.Numbering.{IsSized};
ghost use Rattle.place_check.specs.Session.{IsCheckedAgainst, session_of};

use bench_trait::ArtefactBook;
use byte_ports::Bytes;
use phrase_tree::{Args, Asp, Name, Names, NoMemory, Phrase, Split};
use place_check::{Checked, PlaceEntry, Places, check};
use seal_hmac::Key;
use std::alloc::Global;
use std::process::Abort;
use std::test::Fail;

pub(crate) const NONCE: [u8; 16] = [0, 1, 2, 3, 4, 5, 6, 7, 8, 9, 10, 11, 12, 13, 14, 15];

pub(crate) const OTHER_NONCE: [u8; 16] = [9; 16];

/// The bundles of two measurements in the arms of a branch, where each is answered with the number of its event:
/// with the first nonce if both arms run at once, with the other if one runs after the other.
pub(crate) const OF_PARALLEL: &[u8] = &[
    67, 80, 76, 66, 1, 0, 0, 0, 35, 7, 2, 0, 0, 0, 1, 0, 1, 1, 1, 0, 1, 2, 3, 4, 5, 6, 7, 8, 9, 10,
    11, 12, 13, 14, 15, 2, 0, 0, 0, 2, 0, 1, 2, 0,
];

pub(crate) const OF_SEQUENCE: &[u8] = &[
    67, 80, 76, 66, 1, 0, 0, 0, 35, 6, 2, 0, 0, 0, 1, 0, 1, 1, 1, 9, 9, 9, 9, 9, 9, 9, 9, 9, 9, 9,
    9, 9, 9, 9, 9, 2, 0, 0, 0, 2, 0, 1, 2, 0,
];

pub(crate) fn name(rt: &impl Abort, text: &str) -> Name {
    Name::read(text).expect(rt, "a name")
}

fn asp(rt: &impl Abort, text: &str) -> Asp {
    Asp {
        name: name(rt, text),
        args: Args::none(),
    }
}

/// A place that may ask `q`, and offers these.
fn entry(rt: &impl Abort, alloc: Global, text: &str, offered: &[&str]) -> Result<PlaceEntry, Fail> {
    let mut asks = Vec::new(alloc);
    asks.push(name(rt, "q"))?;
    let mut offers = Vec::new(alloc);
    for one in offered {
        offers.push(name(rt, *one))?;
    }
    Ok(PlaceEntry {
        name: name(rt, text),
        key: Key::read(&[1; 16]).expect(rt, "a key"),
        asks: Names::of(asks),
        sees: Names::of(Vec::new(alloc)),
        offers: Names::of(offers),
    })
}

/// The place `bank`, which offers `a` and `b`, and `q`, which offers `scan`.
pub(crate) fn bank_and_q(rt: &impl Abort, alloc: Global) -> Result<Places, Fail> {
    let bank = entry(rt, alloc, "bank", &["a", "b"])?;
    let q = entry(rt, alloc, "q", &["scan"])?;
    let mut entries = Vec::new(alloc);
    entries.push(bank)?;
    entries.push(q)?;
    Ok(Places::of(alloc, entries)?)
}

/// The one artefact `s1`, of this at that place.
pub(crate) fn artefact_of(
    rt: &impl Abort,
    alloc: Global,
    place: &str,
    measured: &str,
) -> Result<ArtefactBook, Fail> {
    let mut artefacts = ArtefactBook::empty(alloc);
    let bytes = Bytes::of(Vec::from_slice(alloc, b"s1")?);
    let added = artefacts.add(name(rt, place), name(rt, measured), bytes);
    assert!(rt; added.is_ok());
    Ok(artefacts)
}

/// `USM` of this.
pub(crate) fn measures(rt: &impl Abort, alloc: Global, text: &str) -> Result<Phrase, NoMemory>
    ensures { IfOk result (λ phrase. IsSized (term phrase)) }
{
    Phrase::usm(alloc, asp(rt, text))
}

/// `@q [USM scan]`.
pub(crate) fn q_measures(rt: &impl Abort, alloc: Global) -> Result<Phrase, NoMemory>
    ensures { IfOk result (λ phrase. IsSized (term phrase)) }
{
    let body = Box::new(alloc, Phrase::usm(alloc, asp(rt, "scan"))?)?;
    Ok(Phrase::At(name(rt, "q"), body))
}

/// `USM a +~- USM b`, or `USM a +<- USM b`.
pub(crate) fn two_arms(
    rt: &impl Abort,
    alloc: Global,
    is_parallel: bool,
) -> Result<Phrase, NoMemory>
    ensures { IfOk result (λ phrase. IsSized (term phrase)) }
{
    let left = Box::new(alloc, Phrase::usm(alloc, asp(rt, "a"))?)?;
    let right = Box::new(alloc, Phrase::usm(alloc, asp(rt, "b"))?)?;
    let split = Split {
        left: true,
        right: false,
    };
    if is_parallel {
        Ok(Phrase::Par(split, left, right))
    } else {
        Ok(Phrase::Seq(split, left, right))
    }
}

/// A phrase at a root, checked.
pub(crate) fn checked(
    rt: &impl Abort,
    places: &Places,
    root: &str,
    nonce: [u8; 16],
    phrase: Phrase,
) -> Result<Checked, Fail>
    requires { IsSized (term phrase) }
    ensures { IfOk result (λ checked. IsCheckedAgainst (session_of checked) places.now) }
{
    let root = name(rt, root);
    let Some(_) = places.find(root) else {
        return Err(Fail::from("no root"));
    };
    match check(places, root, nonce, phrase) {
        Ok(checked) => Ok(checked),
        Err(_) => Err(Fail::from("a refused phrase")),
    }
}
