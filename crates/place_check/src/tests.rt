ghost use Rattle.std.specs.Prelude.{◌≡◌, IfOk};
ghost use Rattle.phrase_tree.specs.Term.{term, at, chain, seq};
ghost use Rattle.phrase_tree.specs.Numbering.{IsSized};

use super::*;
use phrase_tree::{Args, Asp, Name, Names, NoMemory, Phrase, Split};
use seal_hmac::Key;
use std::alloc::Global;
use std::process::Abort;
use std::test::Fail;

fn name(rt: &impl Abort, text: &str) -> Name {
    Name::read(text).expect(rt, "a name")
}

fn names(rt: &impl Abort, alloc: Global, texts: &[&str]) -> Result<Names, Fail> {
    let mut list = Vec::new(alloc);
    for text in texts {
        list.push(name(rt, text))?;
    }
    Ok(Names::of(list))
}

fn entry(
    rt: &impl Abort,
    alloc: Global,
    text: &str,
    key: u8,
    peers: &[&str],
    offers: &[&str],
) -> Result<PlaceEntry, Fail> {
    Ok(PlaceEntry {
        name: name(rt, text),
        key: Key::read(&[key; 16]).expect(rt, "a key"),
        asks: names(rt, alloc, peers)?,
        sees: names(rt, alloc, peers)?,
        offers: names(rt, alloc, offers)?,
    })
}

fn asp(rt: &impl Abort, text: &str) -> Asp {
    Asp {
        name: name(rt, text),
        args: Args::none(),
    }
}

fn asked(alloc: Global, place: Name, body: Phrase) -> Result<Phrase, NoMemory>
    ensures { IfOk result (λ phrase. term phrase ≡ at place (term body)) }
{
    Ok(Phrase::At(place, Box::new(alloc, body)?))
}

/// `@q [USM ..]`.
fn q_measures(rt: &impl Abort, alloc: Global, text: &str) -> Result<Phrase, NoMemory>
    ensures { IfOk result (λ phrase. IsSized (term phrase)) }
{
    asked(alloc, name(rt, "q"), Phrase::usm(alloc, asp(rt, text))?)
}

/// `@q [@bank [CPY]]`.
fn q_asks_back(rt: &impl Abort, alloc: Global) -> Result<Phrase, NoMemory>
    ensures { IfOk result (λ phrase. IsSized (term phrase)) }
{
    let inner = asked(alloc, name(rt, "bank"), Phrase::Cpy)?;
    asked(alloc, name(rt, "q"), inner)
}

fn then(alloc: Global, left: Phrase, right: Phrase) -> Result<Phrase, NoMemory>
    ensures { IfOk result (λ phrase. term phrase ≡ chain (term left) (term right)) }
{
    Ok(Phrase::Then(Box::new(alloc, left)?, Box::new(alloc, right)?))
}

/// `@zz [CPY] -> USM x`.
fn bank_asks_no_place(rt: &impl Abort, alloc: Global) -> Result<Phrase, NoMemory>
    ensures { IfOk result (λ phrase. IsSized (term phrase)) }
{
    let first = asked(alloc, name(rt, "zz"), Phrase::Cpy)?;
    then(alloc, first, Phrase::usm(alloc, asp(rt, "x"))?)
}

/// `KIM bank scan`.
fn bank_measures_itself(rt: &impl Abort, alloc: Global) -> Result<Phrase, NoMemory>
    ensures { IfOk result (λ phrase. IsSized (term phrase)) }
{
    Phrase::kim(alloc, name(rt, "bank"), asp(rt, "scan"))
}

fn in_sequence(alloc: Global, split: Split, left: Phrase, right: Phrase) -> Result<Phrase, NoMemory>
    ensures { IfOk result (λ phrase. term phrase ≡ seq split (term left) (term right)) }
{
    Ok(Phrase::Seq(split, Box::new(alloc, left)?, Box::new(alloc, right)?))
}

/// `USM a +<- USM c`.
fn right_arm_is_wrong(rt: &impl Abort, alloc: Global) -> Result<Phrase, NoMemory>
    ensures { IfOk result (λ phrase. IsSized (term phrase)) }
{
    let split = Split {
        left: true,
        right: false,
    };
    let left = Phrase::usm(alloc, asp(rt, "a"))?;
    let right = Phrase::usm(alloc, asp(rt, "c"))?;
    in_sequence(alloc, split, left, right)
}

/// Checks a phrase at `bank`: the fault must be this one, or none.
fn expect(rt: &impl Abort, places: &Places, phrase: Phrase, fault: Option<PlaceFault>)
    requires { IsSized (term phrase) }
{
    let bank = name(rt, "bank");
    let Some(_) = places.find(bank) else {
        assert!(rt; false, "no bank");
        return;
    };
    match check(places, bank, [7; 16], phrase) {
        Ok(checked) => {
            assert!(rt; checked.root() == bank);
            assert_eq!(rt; *checked.nonce(), [7; 16]);
            assert!(rt; fault.is_none());
        }
        Err(found) => assert_eq!(rt; Some(found), fault),
    }
}

fn misplaced(event: u32, kind: PlaceKind) -> Option<PlaceFault> {
    Some(PlaceFault::Misplaced { event, kind })
}

/// The bank asks, sees and is not asked; q offers `scan` alone.
fn two_places(rt: &impl Abort, alloc: Global) -> Result<Places, Fail> {
    let bank = entry(rt, alloc, "bank", 1, &["q"], &["scan", "a", "b"])?;
    let q = entry(rt, alloc, "q", 2, &[], &["scan"])?;
    let mut entries = Vec::new(alloc);
    entries.push(bank)?;
    entries.push(q)?;
    Ok(Places::of(alloc, entries)?)
}

#[test]
fn places_are_found_by_name(rt: HostRuntime) -> Result<(), Fail> {
    let places = two_places(&rt, rt.alloc())?;
    assert_eq!(rt; places.count(), 2);
    assert_eq!(rt; places.find(name(&rt, "bank")), Some(0));
    assert_eq!(rt; places.find(name(&rt, "q")), Some(1));
    assert_eq!(rt; places.find(name(&rt, "zz")), None);
    assert_eq!(rt; places.keys().items().len(), 2);
    Ok(())
}

// The faults were worked by hand from the rules.
#[test]
fn the_first_broken_rule_is_named(rt: HostRuntime) -> Result<(), Fail> {
    let alloc = rt.alloc();
    let places = two_places(&rt, alloc)?;
    expect(&rt, &places, q_measures(&rt, alloc, "scan")?, None);
    let offered = misplaced(1, PlaceKind::NotOffered);
    expect(&rt, &places, q_measures(&rt, alloc, "a")?, offered);
    let asks = misplaced(1, PlaceKind::MayNotAsk);
    expect(&rt, &places, q_asks_back(&rt, alloc)?, asks);
    let unknown = misplaced(0, PlaceKind::UnknownPlace);
    expect(&rt, &places, bank_asks_no_place(&rt, alloc)?, unknown);
    let sees = misplaced(0, PlaceKind::MayNotSee);
    expect(&rt, &places, bank_measures_itself(&rt, alloc)?, sees);
    let late = misplaced(2, PlaceKind::NotOffered);
    expect(&rt, &places, right_arm_is_wrong(&rt, alloc)?, late);
    Ok(())
}

#[test]
fn two_places_of_one_name_are_refused(rt: HostRuntime) -> Result<(), Fail> {
    let alloc = rt.alloc();
    let mut entries = Vec::new(alloc);
    for text in ["q", "bank", "us", "bank", "bank"] {
        entries.push(entry(&rt, alloc, text, 1, &[], &[])?)?;
    }
    assert!(rt; entries.len() == 5);
    match Places::of(alloc, entries) {
        Ok(_) => assert!(rt; false, "accepted"),
        Err(error) => assert_eq!(rt;
            error,
            PlacesError::Repeated {
                first: 1,
                second: 3
            }
        ),
    }
    Ok(())
}
