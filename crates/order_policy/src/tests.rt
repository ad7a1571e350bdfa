ghost use Rattle.std.specs.Prelude.{◌≤◌, ◌+◌, ◌*◌, IfOk};
ghost use Rattle.phrase_tree.specs.Term.{term};
ghost use Rattle.phrase_tree.specs.Numbering.{IsSized};

use super::*;
use event_system::before;
use phrase_tree::{Arg, Args, Asp, BRACKETS, EVENTS, Name, NoMemory, Phrase, Place, Split};
use std::alloc::Global;
use std::process::Abort;
use std::test::Fail;

const BOTH: Split = Split {
    left: true,
    right: true,
};

fn name(rt: &impl Abort, text: &str) -> Name {
    Name::read(text).expect(rt, "a name")
}

fn asp(rt: &impl Abort, text: &str) -> Asp {
    Asp {
        name: name(rt, text),
        args: Args::none(),
    }
}

fn counted(rt: &impl Abort, text: &str, number: u32) -> Asp {
    let mut args = Args::none();
    assert!(rt; args.push(Arg::Number(number)).is_ok());
    Asp {
        name: name(rt, text),
        args,
    }
}

// USM a +~+ USM b, or the same with +<+
fn branch(rt: &impl Abort, alloc: Global, parallel: bool) -> Result<Phrase, NoMemory>
    ensures { IfOk result (λ phrase. IsSized (term phrase)) }
{
    let left = Box::new(alloc, Phrase::usm(alloc, asp(rt, "a"))?)?;
    let right = Box::new(alloc, Phrase::usm(alloc, asp(rt, "b"))?)?;
    if parallel {
        return Ok(Phrase::Par(BOTH, left, right));
    }
    Ok(Phrase::Seq(BOTH, left, right))
}

// @ks [KIM us kernel -> SIG] +~+ @us [USM scanner -> USM files -> SIG], or the same with +<+
fn two_places(rt: &impl Abort, alloc: Global, parallel: bool) -> Result<Phrase, NoMemory>
    ensures { IfOk result (λ phrase. IsSized (term phrase)) }
{
    let ks = name(rt, "ks");
    let us = name(rt, "us");
    let first = Box::new(alloc, Phrase::kim(alloc, us, asp(rt, "kernel"))?)?;
    let second = Box::new(alloc, Phrase::Sig)?;
    let body = Box::new(alloc, Phrase::Then(first, second))?;
    let left = Box::new(alloc, Phrase::At(ks, body))?;
    let first = Box::new(alloc, Phrase::usm(alloc, asp(rt, "scanner"))?)?;
    let second = Box::new(alloc, Phrase::usm(alloc, asp(rt, "files"))?)?;
    let both = Box::new(alloc, Phrase::Then(first, second))?;
    let third = Box::new(alloc, Phrase::Sig)?;
    let body = Box::new(alloc, Phrase::Then(both, third))?;
    let right = Box::new(alloc, Phrase::At(us, body))?;
    if parallel {
        return Ok(Phrase::Par(BOTH, left, right));
    }
    Ok(Phrase::Seq(BOTH, left, right))
}

// USM a 1 -> USM a 2 -> USM b
fn in_a_row(rt: &impl Abort, alloc: Global) -> Result<Phrase, NoMemory>
    ensures { IfOk result (λ phrase. IsSized (term phrase)) }
{
    let first = Box::new(alloc, Phrase::usm(alloc, counted(rt, "a", 1))?)?;
    let second = Box::new(alloc, Phrase::usm(alloc, counted(rt, "a", 2))?)?;
    let both = Box::new(alloc, Phrase::Then(first, second))?;
    let third = Box::new(alloc, Phrase::usm(alloc, asp(rt, "b"))?)?;
    Ok(Phrase::Then(both, third))
}

// USM a +~+ @q [USM a -> USM b]
fn across_places(rt: &impl Abort, alloc: Global) -> Result<Phrase, NoMemory>
    ensures { IfOk result (λ phrase. IsSized (term phrase)) }
{
    let left = Box::new(alloc, Phrase::usm(alloc, asp(rt, "a"))?)?;
    let first = Box::new(alloc, Phrase::usm(alloc, asp(rt, "a"))?)?;
    let second = Box::new(alloc, Phrase::usm(alloc, asp(rt, "b"))?)?;
    let body = Box::new(alloc, Phrase::Then(first, second))?;
    let right = Box::new(alloc, Phrase::At(name(rt, "q"), body))?;
    Ok(Phrase::Par(BOTH, left, right))
}

// The answers of another program.
#[test]
fn labels_are_those_of_another_program(rt: HostRuntime) -> Result<(), Fail> {
    let alloc = rt.alloc();
    let rows = [(0, 0), (1, 2), (2, 1), (3, 3)];
    expect_labels(&rt, alloc, &branch(&rt, alloc, true)?, &rows)?;
    let rows = [
        (0, 0),
        (1, 6),
        (2, 7),
        (3, 8),
        (4, 9),
        (5, 1),
        (6, 2),
        (7, 3),
        (8, 4),
        (9, 5),
        (10, 10),
    ];
    expect_labels(&rt, alloc, &two_places(&rt, alloc, true)?, &rows)?;
    let rows = [(0, 0), (1, 1), (2, 2), (3, 3)];
    expect_labels(&rt, alloc, &branch(&rt, alloc, false)?, &rows)
}

// The labels, and that they order just what the order of the phrase does.
fn expect_labels(
    rt: &impl Abort,
    alloc: Global,
    phrase: &Phrase,
    rows: &[(u32, u32)],
) -> Result<(), Fail>
    requires { IsSized (term phrase.now) }
{
    let labels = Labels::of(alloc, phrase)?;
    assert_eq!(rt; labels.items().len(), rows.len());
    for row in rows {
        let first = row.0;
        let second = row.1;
        assert_eq!(rt; labels.label(first), Some(Label { first, second }));
        for other in rows {
            let ordered = before(phrase, first, other.0);
            assert_eq!(rt;
                labels.before(first, other.0),
                ordered,
                "{first} and {}",
                other.0
            );
        }
    }
    assert_eq!(rt; labels.label(EVENTS), None);
    assert!(rt; !labels.before(0, EVENTS));
    assert!(rt; !labels.before(EVENTS, 0));
    Ok(())
}

// Texts with the part that is refused.
#[test]
fn a_text_has_one_policy_or_one_bad_part(rt: HostRuntime) -> Result<(), Fail> {
    let rows = [
        ("a@p<b@q", None),
        ("a@p<<b@q", None),
        ("a@p<b@q;c0@p_<<a@p", None),
        ("a@p<a@p;a@p<a@p", None),
        ("", Some(0)),
        (";", Some(0)),
        ("a@p<b@q;", Some(1)),
        (";a@p<b@q", Some(0)),
        ("a@p<b@q;;a@p<b@q", Some(1)),
        ("a@p<b@q;a@p>b@q;a", Some(1)),
        ("a@p<<<b@q", Some(0)),
        ("a@p< <b@q", Some(0)),
        ("a@p < b@q", Some(0)),
        ("a@p<b", Some(0)),
        ("a<b@q", Some(0)),
        ("a@p", Some(0)),
        ("<", Some(0)),
        ("@<@", Some(0)),
        ("a@<b@q", Some(0)),
        ("a@p<@q", Some(0)),
        ("a@p@p<b@q", Some(0)),
        ("a@p<b@q@q", Some(0)),
        ("a@p<b@q<c@p", Some(0)),
        ("A@p<b@q", Some(0)),
        ("0@p<b@q", Some(0)),
        ("a@p<b@q\n", Some(0)),
        ("a 1@p<b@q", Some(0)),
        ("\u{e9}@p<b@q", Some(0)),
        ("a@p<b@bcdefghijklmnopqrstuvwxyz0123456", None),
        ("a@p<b@bcdefghijklmnopqrstuvwxyz01234567", Some(0)),
    ];
    for (text, bad) in rows {
        assert_eq!(rt; bad_claim(text), bad, "of {text}");
        match OrderPolicy::read(rt.alloc(), text) {
            Ok(_) => assert_eq!(rt; bad, None, "of {text}"),
            Err(PolicyError::Bad { claim }) => assert_eq!(rt; bad, Some(claim), "of {text}"),
            Err(PolicyError::NoMemory) => return Err("memory".into()),
        }
    }
    Ok(())
}

#[test]
fn a_policy_has_at_most_64_claims(rt: HostRuntime) -> Result<(), Fail> {
    let mut text = String::new(rt.alloc());
    text.push_str("a@p<b@q")?;
    for _ in 1..64 {
        text.push_str(";a@p<b@q")?;
    }
    assert_eq!(rt; bad_claim(text.as_str()), None);
    let policy = OrderPolicy::read(rt.alloc(), text.as_str()).map_err(|_| "64 claims")?;
    assert_eq!(rt; policy.claims().len(), 64);
    text.push_str(";a@p<b@q")?;
    assert_eq!(rt; bad_claim(text.as_str()), Some(64));
    text.push_str(";")?;
    assert_eq!(rt; bad_claim(text.as_str()), Some(64));
    Ok(())
}

fn service(rt: &impl Abort, text: &str, place: &str) -> Service {
    Service {
        name: name(rt, text),
        place: name(rt, place),
    }
}

#[test]
fn a_claim_is_read_in_its_parts(rt: HostRuntime) -> Result<(), Fail> {
    let policy = OrderPolicy::read(rt.alloc(), "a@p<b@q;b@q<<a@p").map_err(|_| "two claims")?;
    let claims = [
        Claim {
            earlier: service(&rt, "a", "p"),
            ahead: Ahead::One,
            later: service(&rt, "b", "q"),
        },
        Claim {
            earlier: service(&rt, "b", "q"),
            ahead: Ahead::Every,
            later: service(&rt, "a", "p"),
        },
    ];
    assert_eq!(rt; policy.claims().len(), 2);
    for (at, claim) in policy.claims().iter().enumerate() {
        assert!(rt; *claim == claims[at % 2], "claim {at}");
    }
    Ok(())
}

// What is found of claims of a phrase that starts at bank, as lines.
fn expect_judged(
    rt: &impl Abort,
    alloc: Global,
    phrase: &Phrase,
    text: &str,
    lines: &str,
) -> Result<(), Fail>
    requires { IsSized (term phrase.now) }
{
    let policy = OrderPolicy::read(alloc, text).map_err(|_| "policy")?;
    let judgements = judge(alloc, &policy, phrase, name(rt, "bank"))?;
    assert_eq!(rt; judgements.items().len(), policy.claims().len());
    let mut found = Vec::new(alloc);
    push_judgements(&mut found, 0, &judgements)?;
    assert!(rt; found.as_slice() == lines.as_bytes(), "of {text}");
    assert_eq!(rt;
        judgements.all_hold(),
        !lines.contains("broken"),
        "of {text}"
    );
    Ok(())
}

// The answers of another program.
#[test]
fn branches_are_judged_as_by_another_program(rt: HostRuntime) -> Result<(), Fail> {
    let alloc = rt.alloc();
    let phrase = branch(&rt, alloc, true)?;
    expect_judged(
        &rt,
        alloc,
        &phrase,
        "a@bank<b@bank;b@bank<a@bank;b@bank<<b@bank",
        "session 0 claim 0 broken 2\ntrace 0 2 1 3\nsession 0 claim 1 broken 1\ntrace 0 1 2 3\nsession 0 claim 2 broken 2\ntrace 0 2 1 3\n",
    )?;
    let phrase = branch(&rt, alloc, false)?;
    expect_judged(
        &rt,
        alloc,
        &phrase,
        "a@bank<b@bank;b@bank<a@bank;a@bank<<b@bank",
        "session 0 claim 0 holds 1\nsession 0 claim 1 broken 1\ntrace 0 1 2 3\nsession 0 claim 2 holds 1\n",
    )?;
    let phrase = two_places(&rt, alloc, false)?;
    expect_judged(
        &rt,
        alloc,
        &phrase,
        "kernel@ks<scanner@us;scanner@us<kernel@ks;kernel@us<scanner@us;kernel@ks<<files@us",
        "session 0 claim 0 holds 1\nsession 0 claim 1 broken 2\ntrace 0 1 2 3 4 5 6 7 8 9 10\nsession 0 claim 2 broken 6\ntrace 0 1 2 3 4 5 6 7 8 9 10\nsession 0 claim 3 holds 1\n",
    )?;
    let phrase = two_places(&rt, alloc, true)?;
    expect_judged(
        &rt,
        alloc,
        &phrase,
        "kernel@ks<scanner@us;scanner@us<files@us",
        "session 0 claim 0 broken 6\ntrace 0 5 6 1 2 3 4 7 8 9 10\nsession 0 claim 1 holds 1\n",
    )
}

#[test]
fn chains_and_places_are_judged_as_by_another_program(rt: HostRuntime) -> Result<(), Fail> {
    let alloc = rt.alloc();
    let phrase = Phrase::usm(alloc, asp(&rt, "a"))?;
    expect_judged(
        &rt,
        alloc,
        &phrase,
        "x@bank<a@bank;a@bank<x@bank;x@bank<<a@bank;a@bank<<x@bank;a@q<a@bank;a@bank<<a@bank",
        "session 0 claim 0 broken 0\ntrace 0\nsession 0 claim 1 holds 0\nsession 0 claim 2 holds 1\nsession 0 claim 3 holds 0\nsession 0 claim 4 broken 0\ntrace 0\nsession 0 claim 5 broken 0\ntrace 0\n",
    )?;
    let phrase = in_a_row(&rt, alloc)?;
    expect_judged(
        &rt,
        alloc,
        &phrase,
        "a@bank<b@bank;a@bank<<b@bank;a@bank<a@bank;b@bank<<a@bank;a@bank<c@bank",
        "session 0 claim 0 holds 1\nsession 0 claim 1 holds 1\nsession 0 claim 2 broken 0\ntrace 0 1 2\nsession 0 claim 3 broken 0\ntrace 0 1 2\nsession 0 claim 4 holds 0\n",
    )?;
    let phrase = across_places(&rt, alloc)?;
    expect_judged(
        &rt,
        alloc,
        &phrase,
        "a@q<b@q;a@bank<b@q;b@q<a@bank;a@bank<a@q;b@q<<a@q",
        "session 0 claim 0 holds 1\nsession 0 claim 1 broken 4\ntrace 0 2 3 4 1 5 6\nsession 0 claim 2 broken 1\ntrace 0 1 2 3 4 5 6\nsession 0 claim 3 broken 3\ntrace 0 2 3 1 4 5 6\nsession 0 claim 4 broken 3\ntrace 0 2 3 1 4 5 6\n",
    )
}

// `CPY -> SIG -> SIG ..` with so many seals, in so many requests.
fn enclosed(alloc: Global, place: Place, seals: u32, requests: u32) -> Result<Phrase, NoMemory>
    requires few { 1 + seals + 2 * requests ≤ EVENTS }
    requires nested { requests ≤ BRACKETS }
    ensures { IfOk result (λ phrase. IsSized (term phrase)) }
{
    let mut phrase = Phrase::Cpy;
    for sealed in 0..seals {
        phrase = Phrase::Then(Box::new(alloc, phrase)?, Box::new(alloc, Phrase::Sig)?);
    }
    for open in 0..requests {
        phrase = Phrase::At(place, Box::new(alloc, phrase)?);
    }
    Ok(phrase)
}

// The longest chain, and the deepest nesting of brackets with the longest chain that goes with it.
#[test]
fn the_longest_and_the_deepest_phrases_are_judged(rt: HostRuntime) -> Result<(), Fail> {
    let alloc = rt.alloc();
    let bank = name(&rt, "bank");
    for requests in [0, BRACKETS] {
        let phrase = enclosed(alloc, bank, EVENTS - 1 - 2 * requests, requests)?;
        let labels = Labels::of(alloc, &phrase)?;
        assert_eq!(rt; labels.items().len(), EVENTS as usize);
        assert!(rt; labels.before(0, EVENTS - 1));
        let policy = OrderPolicy::read(alloc, "a@bank<b@bank").map_err(|_| "policy")?;
        let judgements = judge(alloc, &policy, &phrase, bank)?;
        assert!(rt; matches!(judgements.items(), [Judgement::Holds { count: 0 }]));
        assert!(rt; judgements.all_hold());
    }
    Ok(())
}
