ghost use Rattle.std.specs.Prelude.{◌≤◌, ◌+◌, ◌*◌, IfOk};
ghost use Rattle.phrase_tree.specs.Term.{term};
ghost use Rattle.phrase_tree.specs.Numbering.{IsSized};

use super::*;
use phrase_tree::{Args, Asp, BRACKETS, EVENTS, Name, NoMemory, Phrase, Place, Split};
use std::alloc::Global;
use std::process::Abort;
use std::test::Fail;

const BOTH: Split = Split {
    left: true,
    right: true,
};

fn asp(name: Name) -> Asp {
    Asp {
        name,
        args: Args::none(),
    }
}

// @q [USM scan -> SIG]
fn remote(alloc: Global, q: Place, scan: Name) -> Result<Phrase, NoMemory>
    ensures { IfOk result (λ phrase. IsSized (term phrase)) }
{
    let left = Box::new(alloc, Phrase::usm(alloc, asp(scan))?)?;
    let right = Box::new(alloc, Phrase::Sig)?;
    let body = Box::new(alloc, Phrase::Then(left, right))?;
    Ok(Phrase::At(q, body))
}

// @q [@bank [@q [CPY]]]
fn to_and_fro(alloc: Global, q: Place, bank: Place) -> Result<Phrase, NoMemory>
    ensures { IfOk result (λ phrase. IsSized (term phrase)) }
{
    let leaf = Box::new(alloc, Phrase::Cpy)?;
    let inner = Box::new(alloc, Phrase::At(q, leaf))?;
    let middle = Box::new(alloc, Phrase::At(bank, inner))?;
    Ok(Phrase::At(q, middle))
}

// USM a +~- USM b
fn fork(alloc: Global, a: Name, b: Name) -> Result<Phrase, NoMemory>
    ensures { IfOk result (λ phrase. IsSized (term phrase)) }
{
    let left = Box::new(alloc, Phrase::usm(alloc, asp(a))?)?;
    let right = Box::new(alloc, Phrase::usm(alloc, asp(b))?)?;
    let split = Split {
        left: true,
        right: false,
    };
    Ok(Phrase::Par(split, left, right))
}

// @ks [KIM us ks -> SIG] +~+ @us [USM us -> USM ks -> SIG], or the same with +<+
fn two_places(alloc: Global, ks: Place, us: Place, parallel: bool) -> Result<Phrase, NoMemory>
    ensures { IfOk result (λ phrase. IsSized (term phrase)) }
{
    let first = Box::new(alloc, Phrase::kim(alloc, us, asp(ks))?)?;
    let second = Box::new(alloc, Phrase::Sig)?;
    let body = Box::new(alloc, Phrase::Then(first, second))?;
    let left = Box::new(alloc, Phrase::At(ks, body))?;
    let first = Box::new(alloc, Phrase::usm(alloc, asp(us))?)?;
    let second = Box::new(alloc, Phrase::usm(alloc, asp(ks))?)?;
    let both = Box::new(alloc, Phrase::Then(first, second))?;
    let third = Box::new(alloc, Phrase::Sig)?;
    let body = Box::new(alloc, Phrase::Then(both, third))?;
    let right = Box::new(alloc, Phrase::At(us, body))?;
    if parallel {
        return Ok(Phrase::Par(BOTH, left, right));
    }
    Ok(Phrase::Seq(BOTH, left, right))
}

#[test]
fn lists_are_those_worked_by_hand(rt: HostRuntime) -> Result<(), Fail> {
    let bank = Name::read("bank").ok_or("bank")?;
    let q = Name::read("q").ok_or("q")?;
    let scan = Name::read("scan").ok_or("scan")?;
    let phrase = remote(rt.alloc(), q, scan)?;
    let rows = [
        (EventKind::Req(q), bank),
        (EventKind::Usm(asp(scan)), q),
        (EventKind::Sig, q),
        (EventKind::Rpl(q), bank),
    ];
    expect_list(&rt, list_of(rt.alloc(), &phrase, bank)?.items(), &rows);
    let phrase = to_and_fro(rt.alloc(), q, bank)?;
    let rows = [
        (EventKind::Req(q), bank),
        (EventKind::Req(bank), q),
        (EventKind::Req(q), bank),
        (EventKind::Cpy, q),
        (EventKind::Rpl(q), bank),
        (EventKind::Rpl(bank), q),
        (EventKind::Rpl(q), bank),
    ];
    expect_list(&rt, list_of(rt.alloc(), &phrase, bank)?.items(), &rows);
    Ok(())
}

fn expect_list(rt: &impl Abort, events: &[Event], rows: &[(EventKind, Place)]) {
    assert_eq!(rt; events.len(), rows.len());
    for (event, (kind, place)) in events.iter().zip(rows) {
        assert!(rt; event.kind == *kind, "event {}", event.number);
        assert!(rt; event.place == *place, "event {}", event.number);
    }
}

fn early(at: u32, event: u32, needs: u32) -> Option<TraceFault> {
    Some(TraceFault::Early { at, event, needs })
}

// The answers are those of another program.
#[test]
fn two_of_the_orders_of_a_fork_are_traces(rt: HostRuntime) -> Result<(), Fail> {
    let a = Name::read("a").ok_or("a")?;
    let b = Name::read("b").ok_or("b")?;
    let phrase = fork(rt.alloc(), a, b)?;
    let rows: [(&[u32], Option<TraceFault>); 34] = [
        (&[0, 1, 2, 3], None),
        (&[0, 1, 3, 2], early(2, 3, 2)),
        (&[0, 2, 1, 3], None),
        (&[0, 2, 3, 1], early(2, 3, 1)),
        (&[0, 3, 1, 2], early(1, 3, 1)),
        (&[0, 3, 2, 1], early(1, 3, 1)),
        (&[1, 0, 2, 3], early(0, 1, 0)),
        (&[1, 0, 3, 2], early(0, 1, 0)),
        (&[1, 2, 0, 3], early(0, 1, 0)),
        (&[1, 2, 3, 0], early(0, 1, 0)),
        (&[1, 3, 0, 2], early(0, 1, 0)),
        (&[1, 3, 2, 0], early(0, 1, 0)),
        (&[2, 0, 1, 3], early(0, 2, 0)),
        (&[2, 0, 3, 1], early(0, 2, 0)),
        (&[2, 1, 0, 3], early(0, 2, 0)),
        (&[2, 1, 3, 0], early(0, 2, 0)),
        (&[2, 3, 0, 1], early(0, 2, 0)),
        (&[2, 3, 1, 0], early(0, 2, 0)),
        (&[3, 0, 1, 2], early(0, 3, 1)),
        (&[3, 0, 2, 1], early(0, 3, 1)),
        (&[3, 1, 0, 2], early(0, 3, 1)),
        (&[3, 1, 2, 0], early(0, 3, 1)),
        (&[3, 2, 0, 1], early(0, 3, 1)),
        (&[3, 2, 1, 0], early(0, 3, 1)),
        (&[], Some(TraceFault::Missing { event: 0 })),
        (&[0], Some(TraceFault::Missing { event: 1 })),
        (&[0, 2], Some(TraceFault::Missing { event: 1 })),
        (&[0, 2, 1], Some(TraceFault::Missing { event: 3 })),
        (&[1], early(0, 1, 0)),
        (&[0, 1, 2, 2], Some(TraceFault::Repeated { at: 3 })),
        (&[0, 0, 1, 9], Some(TraceFault::Repeated { at: 1 })),
        (&[0, 9], Some(TraceFault::Strange { at: 1 })),
        (&[0, 2, 1, 3, 3], Some(TraceFault::Repeated { at: 4 })),
        (&[0, 2, 1, 3, 4], Some(TraceFault::Strange { at: 4 })),
    ];
    for (trace, fault) in rows {
        assert_eq!(rt; trace_fault(&phrase, trace), fault, "of {trace:?}");
    }
    Ok(())
}

fn one(first: u32) -> Needs {
    Needs {
        first: Some(first),
        second: None,
    }
}

fn expect_order(rt: &impl Abort, phrase: &Phrase, rows: &[(&[u8; 12], Needs); 12])
    requires { IsSized (term phrase.now) }
{
    for (at, (row, needed)) in rows.iter().enumerate() {
        let event = at as u32;
        assert_eq!(rt; needs(phrase, event), *needed, "{event}");
        for (second, ordered) in row.iter().enumerate() {
            let ordered = *ordered == b'1';
            assert_eq!(rt;
                before(phrase, event, second as u32),
                ordered,
                "{event} and {second}"
            );
        }
    }
}

// A row is an event with the events that it is before, and its direct predecessors; there is no
// event 11. The answers are those of another program.
#[test]
fn orders_are_those_of_another_program(rt: HostRuntime) -> Result<(), Fail> {
    let ks = Name::read("ks").ok_or("ks")?;
    let us = Name::read("us").ok_or("us")?;
    let none = Needs {
        first: None,
        second: None,
    };
    let join = Needs {
        first: Some(4),
        second: Some(9),
    };
    let rows = [
        (b"011111111110", none),
        (b"001111111110", one(0)),
        (b"000111111110", one(1)),
        (b"000011111110", one(2)),
        (b"000001111110", one(3)),
        (b"000000111110", one(4)),
        (b"000000011110", one(5)),
        (b"000000001110", one(6)),
        (b"000000000110", one(7)),
        (b"000000000010", one(8)),
        (b"000000000000", one(9)),
        (b"000000000000", none),
    ];
    expect_order(&rt, &two_places(rt.alloc(), ks, us, false)?, &rows);
    let rows = [
        (b"011111111110", none),
        (b"001110000010", one(0)),
        (b"000110000010", one(1)),
        (b"000010000010", one(2)),
        (b"000000000010", one(3)),
        (b"000000111110", one(0)),
        (b"000000011110", one(5)),
        (b"000000001110", one(6)),
        (b"000000000110", one(7)),
        (b"000000000010", one(8)),
        (b"000000000000", join),
        (b"000000000000", none),
    ];
    expect_order(&rt, &two_places(rt.alloc(), ks, us, true)?, &rows);
    Ok(())
}

#[test]
fn a_request_comes_first_in_its_system(rt: HostRuntime) -> Result<(), Fail> {
    let bank = Name::read("bank").ok_or("bank")?;
    let q = Name::read("q").ok_or("q")?;
    let phrase = to_and_fro(rt.alloc(), q, bank)?;
    match &system_of(rt.alloc(), &phrase, bank)? {
        EventSystem::Before(first, _) => match &**first {
            EventSystem::Leaf(event) => assert!(rt; event.kind == EventKind::Req(q)),
            _ => return Err("no leaf".into()),
        },
        _ => return Err("no order".into()),
    }
    Ok(())
}

// `CPY -> SIG -> SIG ..` with so many seals, in so many requests.
fn enclosed(alloc: Global, place: Place, seals: u32, requests: u32) -> Result<Phrase, NoMemory>
    requires few { 1 + seals + 2 * requests ≤ EVENTS }
    requires nested { requests ≤ BRACKETS }
    ensures { IfOk result (λ phrase. IsSized (term phrase)) }
{
    let mut phrase = Phrase::Cpy;
    for sealed in 0..seals {
        phrase = Phrase::Then(Box::new(alloc, phrase)?, Box::new(alloc, Phrase::Sig)?);
    }
    for open in 0..requests {
        phrase = Phrase::At(place, Box::new(alloc, phrase)?);
    }
    Ok(phrase)
}

// All calls that walk a phrase or a system, on phrases of the most events.
fn expect_walked(rt: &impl Abort, alloc: Global, phrase: &Phrase, place: Place) -> Result<(), Fail>
    requires { IsSized (term phrase.now) }
{
    let list = list_of(alloc, phrase, place)?;
    assert_eq!(rt; list.items().len(), EVENTS as usize);
    assert_eq!(rt; needs(phrase, EVENTS - 1), one(EVENTS - 2));
    assert!(rt; before(phrase, 0, EVENTS - 1));
    assert!(rt; !before(phrase, EVENTS - 1, 0));
    assert_eq!(rt; trace_fault(phrase, &[0, 2]), early(1, 2, 1));
    let system = system_of(alloc, phrase, place)?;
    assert!(rt; matches!(&system, EventSystem::Before(_, _)));
    Ok(())
}

// The longest chain, and the deepest nesting of brackets with the longest chain that goes with it.
#[test]
fn the_longest_and_the_deepest_phrases_are_walked(rt: HostRuntime) -> Result<(), Fail> {
    let alloc = rt.alloc();
    let bank = Name::read("bank").ok_or("bank")?;
    let longest = enclosed(alloc, bank, EVENTS - 1, 0)?;
    expect_walked(&rt, alloc, &longest, bank)?;
    let deepest = enclosed(alloc, bank, EVENTS - 1 - 2 * BRACKETS, BRACKETS)?;
    expect_walked(&rt, alloc, &deepest, bank)
}
