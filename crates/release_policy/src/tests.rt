ghost use Rattle.std.specs.Prelude.{◌≡◌, ◌≤◌, ◌+◌, ◌*◌, true, IfOk};
ghost use Rattle.phrase_tree.specs.Term.{term, at, chain, seq};
ghost use Rattle.phrase_tree.specs.Numbering.{IsSized};

use super::*;
use phrase_tree::{Args, Asp, BRACKETS, EVENTS, Name, Names, NoMemory, Phrase, Split};
use place_check::{Checked, PlaceEntry, Places, check};
use seal_hmac::Key;
use std::alloc::Global;
use std::process::Abort;
use std::test::Fail;

fn name(rt: &impl Abort, text: &str) -> Name {
    Name::read(text).expect(rt, "a name")
}

fn names(rt: &impl Abort, alloc: Global, texts: &[&str]) -> Result<Names, Fail> {
    let mut list = Vec::new(alloc);
    for text in texts {
        list.push(name(rt, text))?;
    }
    Ok(Names::of(list))
}

/// Places that may all ask and see each other, and offer all measurements of these tests.
fn four_places(rt: &impl Abort, alloc: Global) -> Result<Places, Fail> {
    let mut entries = Vec::new(alloc);
    for text in ["bank", "q", "ks", "us"] {
        entries.push(PlaceEntry {
            name: name(rt, text),
            key: Key::read(&[7; 16]).expect(rt, "a key"),
            asks: names(rt, alloc, &["bank", "q", "ks", "us"])?,
            sees: names(rt, alloc, &["us"])?,
            offers: names(rt, alloc, &["a", "scan", "kernel", "scanner", "files"])?,
        })?;
    }
    assert!(rt; entries.len() == 4);
    Ok(Places::of(alloc, entries)?)
}

/// The session of a phrase at `bank`.
fn session(rt: &impl Abort, places: &Places, phrase: Phrase) -> Result<Checked, Fail>
    requires { IsSized (term phrase) }
{
    let bank = name(rt, "bank");
    let Some(_) = places.find(bank) else {
        return Err(Fail::from("no bank"));
    };
    Ok(check(places, bank, [7; 16], phrase)?)
}

fn asp(rt: &impl Abort, text: &str) -> Asp {
    Asp {
        name: name(rt, text),
        args: Args::none(),
    }
}

fn asked(alloc: Global, place: Name, body: Phrase) -> Result<Phrase, NoMemory>
    ensures { IfOk result (λ phrase. term phrase ≡ at place (term body)) }
{
    Ok(Phrase::At(place, Box::new(alloc, body)?))
}

fn then(alloc: Global, left: Phrase, right: Phrase) -> Result<Phrase, NoMemory>
    ensures { IfOk result (λ phrase. term phrase ≡ chain (term left) (term right)) }
{
    Ok(Phrase::Then(Box::new(alloc, left)?, Box::new(alloc, right)?))
}

fn both(alloc: Global, left: Phrase, right: Phrase) -> Result<Phrase, NoMemory>
    ensures { IfOk result (λ phrase. term phrase ≡ seq (record { left = true; right = true }) (term left) (term right)) }
{
    let split = Split {
        left: true,
        right: true,
    };
    Ok(Phrase::Seq(split, Box::new(alloc, left)?, Box::new(alloc, right)?))
}

/// `@ks [KIM us kernel -> SIG] +<+ @us [USM scanner -> USM files -> SIG]`.
fn two_services(rt: &impl Abort, alloc: Global) -> Result<Phrase, NoMemory>
    ensures { IfOk result (λ phrase. IsSized (term phrase)) }
{
    let kernel = Phrase::kim(alloc, name(rt, "us"), asp(rt, "kernel"))?;
    let left = asked(alloc, name(rt, "ks"), then(alloc, kernel, Phrase::Sig)?)?;
    let scanner = Phrase::usm(alloc, asp(rt, "scanner"))?;
    let scanned = then(alloc, scanner, Phrase::usm(alloc, asp(rt, "files"))?)?;
    let right = asked(alloc, name(rt, "us"), then(alloc, scanned, Phrase::Sig)?)?;
    both(alloc, left, right)
}

/// `USM a`.
fn at_home(rt: &impl Abort, alloc: Global) -> Result<Phrase, NoMemory>
    ensures { IfOk result (λ phrase. IsSized (term phrase)) }
{
    Phrase::usm(alloc, asp(rt, "a"))
}

/// `@q [USM scan -> SIG -> HSH]`.
fn hash_of_a_seal(rt: &impl Abort, alloc: Global) -> Result<Phrase, NoMemory>
    ensures { IfOk result (λ phrase. IsSized (term phrase)) }
{
    let sealed = then(alloc, Phrase::usm(alloc, asp(rt, "scan"))?, Phrase::Sig)?;
    asked(alloc, name(rt, "q"), then(alloc, sealed, Phrase::Hsh)?)
}

/// `@q [USM scan -> HSH -> SIG]`.
fn seal_of_a_hash(rt: &impl Abort, alloc: Global) -> Result<Phrase, NoMemory>
    ensures { IfOk result (λ phrase. IsSized (term phrase)) }
{
    let hashed = then(alloc, Phrase::usm(alloc, asp(rt, "scan"))?, Phrase::Hsh)?;
    asked(alloc, name(rt, "q"), then(alloc, hashed, Phrase::Sig)?)
}

/// `USM a -> @q [USM scan]`.
fn sent_and_measured(rt: &impl Abort, alloc: Global) -> Result<Phrase, NoMemory>
    ensures { IfOk result (λ phrase. IsSized (term phrase)) }
{
    let there = asked(alloc, name(rt, "q"), Phrase::usm(alloc, asp(rt, "scan"))?)?;
    then(alloc, Phrase::usm(alloc, asp(rt, "a"))?, there)
}

/// `USM a -> @q [NUL]`.
fn sent_and_forgotten(rt: &impl Abort, alloc: Global) -> Result<Phrase, NoMemory>
    ensures { IfOk result (λ phrase. IsSized (term phrase)) }
{
    let there = asked(alloc, name(rt, "q"), Phrase::Nul)?;
    then(alloc, Phrase::usm(alloc, asp(rt, "a"))?, there)
}

/// The sessions of all of these, in this order.
fn six_sessions(rt: &impl Abort, alloc: Global) -> Result<Vec<Checked>, Fail> {
    let places = four_places(rt, alloc)?;
    let mut sessions = Vec::new(alloc);
    sessions.push(session(rt, &places, two_services(rt, alloc)?)?)?;
    sessions.push(session(rt, &places, at_home(rt, alloc)?)?)?;
    sessions.push(session(rt, &places, hash_of_a_seal(rt, alloc)?)?)?;
    sessions.push(session(rt, &places, seal_of_a_hash(rt, alloc)?)?)?;
    sessions.push(session(rt, &places, sent_and_measured(rt, alloc)?)?)?;
    sessions.push(session(rt, &places, sent_and_forgotten(rt, alloc)?)?)?;
    Ok(sessions)
}

fn denied(event: u32, leaf: u32, rule: Option<u32>) -> Option<Denial> {
    Some(Denial { event, leaf, rule })
}

// The denials were computed by another program.
#[test]
fn the_first_denial_is_that_of_worked_policies(rt: HostRuntime) -> Result<(), Fail> {
    let alloc = rt.alloc();
    let sessions = six_sessions(&rt, alloc)?;
    for (text, index, want) in [
        (
            "ks:kernel=seal>bank;us:scanner=seal>bank",
            0,
            denied(9, 7, None),
        ),
        ("ks:kernel=seal>bank;us:*=seal>*", 0, None),
        ("ks:kernel=hash>bank;*:*=bare>*", 0, denied(4, 2, Some(0))),
        ("*:*=none>*", 1, None),
        ("*:*=hash>*", 2, None),
        ("*:*=hash>*", 3, None),
        ("*:*=seal>*", 2, None),
        ("*:*=seal>*", 3, None),
        ("*:*=none>bank;*:*=bare>*", 3, denied(4, 1, Some(0))),
        ("q:scan=seal>*;*:*=bare>*", 4, denied(3, 2, Some(0))),
        (
            "bank:*=bare>q;*:*=none>*;q:*=bare>*",
            4,
            denied(3, 2, Some(1)),
        ),
        ("bank:a=none>bank;bank:a=bare>q;q:*=bare>*", 4, None),
        ("q:scan=hash>bank;bank:a=hash>q", 4, denied(1, 0, Some(1))),
        ("q:*=bare>*", 5, denied(1, 0, None)),
        ("bank:*=bare>*", 5, None),
    ] {
        let policy = ReleasePolicy::read(alloc, text)?;
        assert!(rt; index < sessions.len());
        let found = denial(alloc, &policy, &sessions[index])?;
        assert_eq!(rt; found, want, "{text} over session {index}");
    }
    Ok(())
}

#[test]
fn the_first_session_without_a_denial_is_chosen(rt: HostRuntime) -> Result<(), Fail> {
    let alloc = rt.alloc();
    let sessions = six_sessions(&rt, alloc)?;
    assert!(rt; sessions.len() == 6);
    for (text, first, denials, chosen) in [
        ("*:*=bare>*", 0, 0, Some(0)),
        ("*:*=none>*", 0, 1, Some(1)),
        ("*:*=none>*", 2, 4, None),
        ("*:*=hash>*", 2, 0, Some(0)),
        ("*:*=bare>q;*:*=bare>ks", 2, 3, Some(3)),
    ] {
        let policy = ReleasePolicy::read(alloc, text)?;
        assert!(rt; first < 6);
        let choice = choose(alloc, &policy, &sessions[first..])?;
        assert_eq!(rt; choice.denials.len(), denials, "{text}");
        assert_eq!(rt; choice.chosen, chosen, "{text}");
    }
    Ok(())
}

fn refused(rule: u32) -> Option<ReleaseError> {
    Some(ReleaseError::Bad { rule })
}

fn fault_of(alloc: Global, text: &str) -> Option<ReleaseError> {
    match ReleasePolicy::read(alloc, text) {
        Ok(_) => None,
        Err(error) => Some(error),
    }
}

fn fault_without_memory(text: &str) -> Option<ReleaseError> {
    match bad_part(text) {
        None => None,
        Some(rule) => refused(rule),
    }
}

// Which texts are policies was computed by another program, and which part is the first bad one by hand.
#[test]
fn texts_are_read_or_refused_at_their_first_bad_part(rt: HostRuntime) -> Result<(), Fail> {
    let alloc = rt.alloc();
    for (text, want) in [
        ("*:*=bare>*", None),
        ("ks:kernel=seal>bank;us:scanner=hash>b_2;*:*=none>*", None),
        ("a23456789_123456789_123456789_12:*=bare>*", None),
        ("a23456789_123456789_123456789_123:*=bare>*", refused(0)),
        ("", refused(0)),
        (";*:*=bare>*", refused(0)),
        ("*:*=bare>*;", refused(1)),
        ("*:*=bare>*;;*:*=bare>*", refused(1)),
        ("*:*=bare>*; *:*=bare>*", refused(1)),
        ("*:*=bare>*;*:*=seal>*;*:*=Hash>*;x", refused(2)),
        ("*:*=bare", refused(0)),
        ("*:*>bare=*", refused(0)),
        ("*=*:bare>*", refused(0)),
        ("*:*=bare>*>*", refused(0)),
        ("*:*:*=bare>*", refused(0)),
        ("*:*==bare>*", refused(0)),
        ("*:*=>*", refused(0)),
        (":*=bare>*", refused(0)),
        ("*:*=bare>", refused(0)),
        ("**:*=bare>*", refused(0)),
        ("A:*=bare>*", refused(0)),
        ("*:2a=bare>*", refused(0)),
        ("*:*=sealed>*", refused(0)),
    ] {
        assert_eq!(rt; fault_of(alloc, text), want, "{text}");
        assert_eq!(rt; fault_without_memory(text), want, "{text}");
    }
    Ok(())
}

#[test]
fn a_policy_has_at_most_256_rules(rt: HostRuntime) -> Result<(), Fail> {
    let alloc = rt.alloc();
    for (rules, last, want) in [
        (255, "*:*=none>*", None),
        (256, "*:*=none>*", refused(256)),
        (256, "x", refused(256)),
        (255, "x", refused(255)),
        (300, "x", refused(256)),
    ] {
        let mut text = String::new(alloc);
        for _ in 0..rules {
            text.push_str("*:*=bare>*;")?;
        }
        text.push_str(last)?;
        assert_eq!(rt; fault_of(alloc, text.as_str()), want, "{rules} and {last}");
        assert_eq!(rt;
            fault_without_memory(text.as_str()),
            want,
            "{rules} and {last}"
        );
    }
    Ok(())
}

/// `USM a -> CPY ..` with so many copies, in so many requests to `q`.
fn enclosed(rt: &impl Abort, alloc: Global, copies: u32, requests: u32) -> Result<Phrase, NoMemory>
    requires few { 1 + copies + 2 * requests ≤ EVENTS }
    requires nested { requests ≤ BRACKETS }
    ensures { IfOk result (λ phrase. IsSized (term phrase)) }
{
    let mut phrase = Phrase::usm(alloc, asp(rt, "a"))?;
    for copied in 0..copies {
        phrase = then(alloc, phrase, Phrase::Cpy)?;
    }
    for open in 0..requests {
        phrase = Phrase::At(name(rt, "q"), Box::new(alloc, phrase)?);
    }
    Ok(phrase)
}

// The longest chain, and the deepest nesting of brackets with the longest chain that goes with it.
#[test]
fn the_longest_and_the_deepest_phrases_are_judged(rt: HostRuntime) -> Result<(), Fail> {
    let alloc = rt.alloc();
    let places = four_places(&rt, alloc)?;
    let policy = ReleasePolicy::read(alloc, "*:*=none>*")?;
    let longest = session(&rt, &places, enclosed(&rt, alloc, 2047, 0)?)?;
    assert_eq!(rt; denial(alloc, &policy, &longest)?, None);
    let deepest = session(&rt, &places, enclosed(&rt, alloc, 1919, 64)?)?;
    assert_eq!(rt;
        denial(alloc, &policy, &deepest)?,
        denied(2047, 64, Some(0))
    );
    Ok(())
}
