ghost use Rattle.std.specs.Prelude.{◌≡◌, ◌<◌, ◌+◌, ◌*◌, ◌^◌, IfOk};
ghost use Rattle.phrase_tree.specs.Term.{term, at, chain, seq, par};
ghost use Rattle.phrase_tree.specs.Numbering.{event_count};

use crate::{Arg, Args, Asp, BRACKETS, EVENTS, Name, Names, Phrase, Place, Split, Trace};
use std::alloc::{AllocFailed, Global};
use std::cmp::Ordering;
use std::process::Abort;
use std::test::Fail;

#[test]
fn names_are_read_and_refused(rt: HostRuntime) {
    for text in [
        "a",
        "bank",
        "a_1",
        "z9_",
        "us",
        "abcdefghijklmnopqrstuvwxyz_12345",
    ] {
        match Name::read(text) {
            Some(name) => assert_eq!(rt; name.bytes(), text.as_bytes(), "{text}"),
            None => assert!(rt; false, "refused {text}"),
        }
    }
    for text in [
        "",
        "A",
        "Scan",
        "sCan",
        "1a",
        "_a",
        " a",
        "a ",
        "a-b",
        "a.b",
        "{",
        "`",
        "a/",
        "a:",
        "a[",
        "é",
        "aé",
        "a\0",
        "abcdefghijklmnopqrstuvwxyz_123456",
    ] {
        assert!(rt; Name::read(text).is_none(), "accepted {text}");
    }
}

#[test]
fn names_stand_in_the_order_of_their_bytes(rt: HostRuntime) {
    for (left, right, want) in [
        ("a", "a", Ordering::Equal),
        ("a", "b", Ordering::Less),
        ("b", "aa", Ordering::Greater),
        ("ab", "a", Ordering::Greater),
        ("a_", "a0", Ordering::Greater),
        ("a_", "aa", Ordering::Less),
        ("a9", "aa", Ordering::Less),
    ] {
        let (Some(first), Some(second)) = (Name::read(left), Name::read(right)) else {
            assert!(rt; false, "{left} and {right} are names");
            return;
        };
        assert_eq!(rt; first.cmp(&second), want, "{left} to {right}");
        assert_eq!(rt; first.partial_cmp(&second), Some(want), "{left} to {right}");
        assert_eq!(rt;
            first == second,
            want == Ordering::Equal,
            "{left} to {right}"
        );
    }
}

fn name(rt: &impl Abort, text: &str) -> Name {
    Name::read(text).expect(rt, "a name")
}

fn measurement(rt: &impl Abort, text: &str) -> Asp {
    Asp {
        name: name(rt, text),
        args: Args::none(),
    }
}

#[test]
fn four_arguments_are_held_and_a_fifth_is_handed_back(rt: HostRuntime) {
    let all = [
        Arg::Word(name(&rt, "etc")),
        Arg::Number(0),
        Arg::Number(4294967295),
        Arg::Word(name(&rt, "x")),
    ];
    let mut args = Args::none();
    for (held, arg) in all.iter().enumerate() {
        assert_eq!(rt; args.items().len(), held);
        assert_eq!(rt; args.push(*arg), Ok(()));
    }
    assert_eq!(rt; args.items(), all.as_slice());
    assert_eq!(rt; args.push(Arg::Number(7)), Err(Arg::Number(7)));
    let measured = Asp {
        name: name(&rt, "files"),
        args: args.copy(),
    };
    assert_eq!(rt; measured.args.items(), all.as_slice());
    assert!(rt; measured.copy() == measured);
    assert!(rt; measured.copy() != measurement(&rt, "files"));
    assert_eq!(rt; Arg::default(), Arg::Number(0));
}

#[test]
fn lists_hold_what_they_are_given(rt: HostRuntime) -> Result<(), Fail> {
    let mut trace = Trace::of(vec![in rt.alloc(); 0, 2]?);
    assert_eq!(rt; trace.push(1), Ok(()));
    assert_eq!(rt; trace.items(), [0, 2, 1].as_slice());
    let (bank, q) = (name(&rt, "bank"), name(&rt, "q"));
    let mut names = Names::of(vec![in rt.alloc(); bank]?);
    assert_eq!(rt; names.push(q), Ok(()));
    assert_eq!(rt; names.items(), [bank, q].as_slice());
    Ok(())
}

fn asked(alloc: Global, place: Place, body: Phrase) -> Result<Phrase, AllocFailed<Phrase>>
    ensures { IfOk result (λ phrase. term phrase ≡ at place (term body)) }
{
    Ok(Phrase::At(place, Box::new(alloc, body)?))
}

fn chained(alloc: Global, left: Phrase, right: Phrase) -> Result<Phrase, AllocFailed<Phrase>>
    ensures { IfOk result (λ phrase. term phrase ≡ chain (term left) (term right)) }
{
    Ok(Phrase::Then(Box::new(alloc, left)?, Box::new(alloc, right)?))
}

fn in_sequence(
    alloc: Global,
    split: Split,
    left: Phrase,
    right: Phrase,
) -> Result<Phrase, AllocFailed<Phrase>>
    ensures { IfOk result (λ phrase. term phrase ≡ seq split (term left) (term right)) }
{
    Ok(Phrase::Seq(split, Box::new(alloc, left)?, Box::new(alloc, right)?))
}

fn in_parallel(
    alloc: Global,
    split: Split,
    left: Phrase,
    right: Phrase,
) -> Result<Phrase, AllocFailed<Phrase>>
    ensures { IfOk result (λ phrase. term phrase ≡ par split (term left) (term right)) }
{
    Ok(Phrase::Par(split, Box::new(alloc, left)?, Box::new(alloc, right)?))
}

#[test]
fn every_form_has_its_events_and_its_depth_and_is_copied(rt: HostRuntime) -> Result<(), Fail> {
    let alloc = rt.alloc();
    let both = Split {
        left: true,
        right: true,
    };
    assert_eq!(rt; Phrase::Cpy.events(), 1);
    assert_eq!(rt; Phrase::Sig.events(), 1);
    assert_eq!(rt; Phrase::Hsh.events(), 1);
    let measured = Phrase::usm(alloc, measurement(&rt, "scan"))?;
    assert_eq!(rt; measured.events(), 1);
    let watched = Phrase::kim(alloc, name(&rt, "q"), measurement(&rt, "scan"))?;
    assert_eq!(rt; watched.events(), 1);
    let signed = chained(alloc, measured, Phrase::Sig)?;
    assert_eq!(rt; signed.events(), 2);
    let there = asked(alloc, name(&rt, "q"), signed)?;
    assert_eq!(rt; there.events(), 4);
    let twice = in_sequence(alloc, both, Phrase::Cpy, Phrase::Cpy)?;
    assert_eq!(rt; twice.events(), 4);
    let hashed = chained(alloc, twice, Phrase::Hsh)?;
    assert_eq!(rt; hashed.events(), 5);
    let all = in_parallel(alloc, both, there, hashed)?;
    assert_eq!(rt; all.events(), 11);
    assert_eq!(rt; all.depth(), 1);
    assert_eq!(rt; Phrase::Nul.events(), 1);
    assert_eq!(rt; Phrase::Nul.depth(), 0);
    let emptied = chained(alloc, all, Phrase::Nul)?;
    assert_eq!(rt; emptied.events(), 12);
    assert_eq!(rt; emptied.depth(), 2);
    let behind = chained(
        alloc,
        Phrase::kim(alloc, name(&rt, "q"), measurement(&rt, "scan"))?,
        emptied,
    )?;
    assert_eq!(rt; behind.depth(), 3);
    let copy = behind.try_copy(alloc)?;
    let first = format!(in alloc; "{behind:?}")?;
    let again = format!(in alloc; "{copy:?}")?;
    assert_eq!(rt; first.as_str(), again.as_str());
    Ok(())
}

// The depths are the brackets of the canonical texts, which stand beside the phrases.
#[test]
fn depths_are_the_brackets_of_the_text(rt: HostRuntime) -> Result<(), Fail> {
    let alloc = rt.alloc();
    let q = name(&rt, "q");
    let both = Split {
        left: true,
        right: true,
    };
    // USM scan
    assert_eq!(rt; Phrase::usm(alloc, measurement(&rt, "scan"))?.depth(), 0);
    // CPY -> SIG -> HSH
    let chain = chained(alloc, Phrase::Cpy, Phrase::Sig)?;
    let left = chained(alloc, chain, Phrase::Hsh)?;
    assert_eq!(rt; left.depth(), 0);
    // CPY -> (CPY -> SIG)
    let chain = chained(alloc, Phrase::Cpy, Phrase::Sig)?;
    let right = chained(alloc, Phrase::Cpy, chain)?;
    assert_eq!(rt; right.depth(), 1);
    // @q [@q [CPY -> (CPY -> SIG)]]
    let inner = asked(alloc, q, right)?;
    let outer = asked(alloc, q, inner)?;
    assert_eq!(rt; outer.depth(), 3);
    // CPY +<+ CPY -> SIG -> HSH
    let arms = in_sequence(alloc, both, Phrase::Cpy, left)?;
    assert_eq!(rt; arms.depth(), 0);
    // (CPY +<+ CPY -> SIG -> HSH) +~+ CPY
    let wide = in_parallel(alloc, both, arms, Phrase::Cpy)?;
    assert_eq!(rt; wide.depth(), 1);
    // CPY +<+ ((CPY +<+ CPY -> SIG -> HSH) +~+ CPY)
    let last = in_sequence(alloc, both, Phrase::Cpy, wide)?;
    assert_eq!(rt; last.depth(), 2);
    // SIG -> (CPY +<+ ((CPY +<+ CPY -> SIG -> HSH) +~+ CPY))
    let behind = chained(alloc, Phrase::Sig, last)?;
    assert_eq!(rt; behind.depth(), 3);
    // (CPY +~+ CPY) -> SIG
    let branch = in_parallel(alloc, both, Phrase::Cpy, Phrase::Cpy)?;
    let signed = chained(alloc, branch, Phrase::Sig)?;
    assert_eq!(rt; signed.depth(), 1);
    Ok(())
}

#[test]
fn a_copy_is_equal_in_every_form(rt: HostRuntime) -> Result<(), Fail> {
    let alloc = rt.alloc();
    let mut files = measurement(&rt, "files");
    assert!(rt; files.args.push(Arg::Word(name(&rt, "etc"))).is_ok());
    assert!(rt; files.args.push(Arg::Number(7)).is_ok());
    let watched = Phrase::kim(alloc, name(&rt, "ks"), measurement(&rt, "kernel"))?;
    let measured = chained(alloc, Phrase::usm(alloc, files)?, watched)?;
    let hashed = chained(alloc, measured, Phrase::Hsh)?;
    let there = asked(alloc, name(&rt, "us"), hashed)?;
    let to_left = Split {
        left: true,
        right: false,
    };
    let to_right = Split {
        left: false,
        right: true,
    };
    let first = in_sequence(alloc, to_left, there, Phrase::Cpy)?;
    let second = chained(alloc, Phrase::Sig, Phrase::Cpy)?;
    let all = in_parallel(alloc, to_right, first, second)?;
    let copy = all.try_copy(alloc)?;
    let found = format!(in alloc; "{copy:?}")?;
    let wanted = format!(in alloc; "{all:?}")?;
    assert_eq!(rt; found.as_str(), wanted.as_str());
    Ok(())
}

// `CPY -> SIG -> SIG ..` with so many seals, in so many requests.
fn enclosed(
    alloc: Global,
    place: Place,
    seals: u32,
    requests: u32,
) -> Result<Phrase, AllocFailed<Phrase>>
    ensures { IfOk result (λ phrase. event_count (term phrase) ≡ 1 + seals + 2 * requests) }
{
    let mut phrase = Phrase::Cpy;
    for sealed in 0..seals {
        phrase = chained(alloc, phrase, Phrase::Sig)?;
    }
    for open in 0..requests {
        phrase = asked(alloc, place, phrase)?;
    }
    Ok(phrase)
}

fn expect_walked(rt: &impl Abort, alloc: Global, seals: u32, requests: u32) -> Result<(), Fail>
    requires { 1 + seals + 2 * requests < 2 ^ 32 }
{
    let phrase = enclosed(alloc, name(rt, "q"), seals, requests)?;
    let copy = phrase.try_copy(alloc)?;
    drop(phrase);
    assert_eq!(rt; copy.depth(), requests);
    assert_eq!(rt; copy.events(), 1 + seals + 2 * requests);
    Ok(())
}

// The longest chain, and the deepest nesting of brackets with the longest chain that goes with it.
#[test]
fn the_longest_and_the_deepest_phrases_are_walked(rt: HostRuntime) -> Result<(), Fail> {
    expect_walked(&rt, rt.alloc(), EVENTS - 1, 0)?;
    expect_walked(&rt, rt.alloc(), EVENTS - 1 - 2 * BRACKETS, BRACKETS)
}
