ghost use Rattle.std.specs.Prelude.{◌≡◌, ◌≤◌, ◌+◌, ◌*◌, ◌<◌, ◌^◌, false, IfOk};
ghost use Rattle.phrase_tree.specs.Term.{term, at, chain, is_branch, is_chain, par, seq};
ghost use Rattle.phrase_tree.specs.Numbering.{IsSized, depth, event_count};

use crate::shaping::shape_of;
use crate::text::shape_text;
use crate::weight::{first_over, worst};
use phrase_tree::{Arg, Args, Asp, BRACKETS, EVENTS, Name, NoMemory, Phrase, Place, Split};
use std::alloc::Global;
use std::process::Abort;
use std::test::Fail;

fn name(rt: &impl Abort, text: &str) -> Name {
    Name::read(text).expect(rt, "a name")
}

fn asp(rt: &impl Abort, text: &str) -> Asp {
    Asp {
        name: name(rt, text),
        args: Args::none(),
    }
}

fn then(alloc: Global, left: Phrase, right: Phrase) -> Result<Phrase, NoMemory>
    ensures { IfOk result (λ phrase. term phrase ≡ chain (term left) (term right)) }
{
    Ok(Phrase::Then(Box::new(alloc, left)?, Box::new(alloc, right)?))
}

fn both_ways(alloc: Global, split: Split, left: Phrase, right: Phrase) -> Result<Phrase, NoMemory>
    ensures { IfOk result (λ phrase. term phrase ≡ seq split (term left) (term right)) }
{
    Ok(Phrase::Seq(split, Box::new(alloc, left)?, Box::new(alloc, right)?))
}

/// Checks the shape of a phrase at the place `bank`, and its greatest weight.
fn expect_shape(
    rt: &impl Abort,
    alloc: Global,
    phrase: &Phrase,
    text: &[u8],
    weight: u32,
) -> Result<(), NoMemory>
    requires { IsSized (term phrase.now) }
{
    assert_eq!(rt; worst(phrase), weight);
    let None = first_over(phrase) else {
        assert!(rt; false, "a weight is over");
        return Ok(());
    };
    let shape = shape_of(alloc, phrase, name(rt, "bank"))?;
    let found = shape_text(alloc, &shape)?;
    assert_eq!(rt; found.items(), text);
    Ok(())
}

// The shapes and weights were worked by hand from the rules, and compared with another program.
#[test]
fn shapes_and_weights_are_those_of_worked_phrases(rt: HostRuntime) -> Result<(), Fail> {
    let alloc = rt.alloc();
    let all = Split {
        left: true,
        right: true,
    };
    let to_left = Split {
        left: true,
        right: false,
    };
    let to_right = Split {
        left: false,
        right: true,
    };
    let sealed = then(alloc, Phrase::usm(alloc, asp(&rt, "scan"))?, Phrase::Sig)?;
    expect_shape(&rt, alloc, &sealed, b"G(bank,1,U(bank,0,scan,N))", 1085)?;
    let arms = Phrase::Par(
        to_left,
        Box::new(alloc, Phrase::usm(alloc, asp(&rt, "a"))?)?,
        Box::new(alloc, Phrase::usm(alloc, asp(&rt, "b"))?)?,
    );
    expect_shape(&rt, alloc, &arms, b"P(U(bank,1,a,N),U(bank,2,b,E))", 2081)?;
    let late = both_ways(alloc, to_right, Phrase::Cpy, Phrase::Cpy)?;
    expect_shape(&rt, alloc, &late, b"S(E,N)", 19)?;
    let pair = both_ways(alloc, all, Phrase::Cpy, Phrase::Cpy)?;
    let hashed = then(alloc, pair, Phrase::Hsh)?;
    expect_shape(&rt, alloc, &hashed, b"H(bank,4,S(N,N))", 72)?;
    let emptied = then(alloc, Phrase::usm(alloc, asp(&rt, "scan"))?, Phrase::Nul)?;
    expect_shape(&rt, alloc, &emptied, b"E", 1048)?;
    let mut files = asp(&rt, "files");
    assert!(rt; files.args.push(Arg::Word(name(&rt, "etc"))).is_ok());
    assert!(rt; files.args.push(Arg::Number(4294967295)).is_ok());
    let asked = Phrase::At(
        name(&rt, "us"),
        Box::new(
            alloc,
            then(
                alloc,
                Phrase::kim(alloc, name(&rt, "ks"), asp(&rt, "kernel"))?,
                Phrase::usm(alloc, files)?,
            )?,
        )?,
    );
    expect_shape(
        &rt,
        alloc,
        &asked,
        b"U(us,2,files etc 4294967295,K(us,1,ks,kernel,N))",
        2079,
    )?;
    Ok(())
}

/// A part that is repeated in a long chain.
#[derive(Clone, Copy)]
enum Part {
    Measured,
    Sealed,
    Emptied,
    Branched,
    Copied,
}

fn one_more(rt: &impl Abort, alloc: Global, part: Part) -> Result<Phrase, NoMemory>
    ensures few { IfOk result (λ phrase. event_count (term phrase) ≤ 4) }
    ensures flat { IfOk result (λ phrase. depth (term phrase) ≡ 0) }
    ensures no_chain { IfOk result (λ phrase. is_chain (term phrase) ≡ false) }
{
    match part {
        Part::Measured => Phrase::usm(alloc, asp(rt, "a")),
        Part::Sealed => Ok(Phrase::Sig),
        Part::Emptied => Ok(Phrase::Nul),
        Part::Branched => both_ways(
            alloc,
            Split {
                left: false,
                right: true,
            },
            Phrase::Cpy,
            Phrase::Cpy,
        ),
        Part::Copied => both_ways(
            alloc,
            Split {
                left: true,
                right: true,
            },
            Phrase::Cpy,
            Phrase::Cpy,
        ),
    }
}

/// A phrase, and then a part this many times.
fn followed(
    rt: &impl Abort,
    alloc: Global,
    first: Phrase,
    repeated: Part,
    times: u32,
) -> Result<Phrase, NoMemory>
    requires no_branch { is_branch (term first) ≡ false }
    requires flat { depth (term first) ≤ 1 }
    ensures no_branch { IfOk result (λ phrase. is_branch (term phrase) ≡ false) }
    ensures flat { IfOk result (λ phrase. depth (term phrase) ≤ 1) }
    ensures few { IfOk result (λ phrase. event_count (term phrase) ≤ event_count (term first) + 4 * times) }
{
    let mut phrase = first;
    for count in 0..times {
        let next = one_more(rt, alloc, repeated)?;
        phrase = then(alloc, phrase, next)?;
    }
    Ok(phrase)
}

/// `USM a`, and then the same so many times.
fn measured_again(rt: &impl Abort, alloc: Global, times: u32) -> Result<Phrase, NoMemory>
    ensures no_branch { IfOk result (λ phrase. is_branch (term phrase) ≡ false) }
    ensures flat { IfOk result (λ phrase. depth (term phrase) ≤ 1) }
    ensures few { IfOk result (λ phrase. event_count (term phrase) ≤ 1 + 4 * times) }
{
    let first = Phrase::usm(alloc, asp(rt, "a"))?;
    followed(rt, alloc, first, Part::Measured, times)
}

// 233 measurements with seals and branches behind them; the sums were done by another program.
#[test]
fn the_weight_of_long_chains_ends_at_its_limit(rt: HostRuntime) -> Result<(), Fail> {
    let alloc = rt.alloc();
    for (measured, sealed, branched, weight, over) in [
        (233, 592, 0, 262144, None),
        (233, 591, 19, 262145, Some(899)),
        (254, 0, 0, 261891, None),
        (255, 0, 0, 262145, Some(254)),
    ] {
        let many = measured_again(&rt, alloc, measured - 1)?;
        let under_seals = followed(&rt, alloc, many, Part::Sealed, sealed)?;
        let phrase = followed(&rt, alloc, under_seals, Part::Branched, branched)?;
        assert!(rt; phrase.events() <= EVENTS);
        assert_eq!(rt; worst(&phrase), weight);
        assert_eq!(rt; first_over(&phrase), over);
    }
    Ok(())
}

// Seals nest, whatever they weigh: with 1,025 the last one is over. A NUL starts anew, so the 254
// measurements before it and those behind it are light.
#[test]
fn the_nest_of_long_chains_ends_at_its_limit(rt: HostRuntime) -> Result<(), Fail> {
    let alloc = rt.alloc();
    for (measured, emptied, sealed, weight, over) in [
        (0, 0, 1024, 37905, None),
        (0, 0, 1025, 37942, Some(1025)),
        (254, 1, 1024, 261891, None),
        (254, 1, 1025, 261891, Some(1280)),
        (255, 1, 1025, 262145, Some(255)),
    ] {
        let many = followed(&rt, alloc, Phrase::Cpy, Part::Measured, measured)?;
        let none = followed(&rt, alloc, many, Part::Emptied, emptied)?;
        let phrase = followed(&rt, alloc, none, Part::Sealed, sealed)?;
        assert!(rt; phrase.events() <= EVENTS);
        assert_eq!(rt; worst(&phrase), weight);
        assert_eq!(rt; first_over(&phrase), over);
    }
    Ok(())
}

/// `CPY -> SIG .. -> CPY ..` with so many seals and so many more copies, in so many requests.
fn enclosed(
    alloc: Global,
    place: Place,
    seals: u32,
    copies: u32,
    requests: u32,
) -> Result<Phrase, NoMemory>
    requires few { 1 + seals + copies + 2 * requests ≤ EVENTS }
    requires nested { requests ≤ BRACKETS }
    ensures { IfOk result (λ phrase. IsSized (term phrase)) }
{
    let mut phrase = Phrase::Cpy;
    for sealed in 0..seals {
        phrase = then(alloc, phrase, Phrase::Sig)?;
    }
    for copied in 0..copies {
        phrase = then(alloc, phrase, Phrase::Cpy)?;
    }
    for open in 0..requests {
        phrase = Phrase::At(place, Box::new(alloc, phrase)?);
    }
    Ok(phrase)
}

/// Checks the greatest weight of a phrase, and how the text of its shape at the place `bank` begins.
fn expect_front(
    rt: &impl Abort,
    alloc: Global,
    phrase: &Phrase,
    weight: u32,
    front: &[u8],
) -> Result<(), NoMemory>
    requires { IsSized (term phrase.now) }
{
    assert_eq!(rt; worst(phrase), weight);
    let None = first_over(phrase) else {
        assert!(rt; false, "an event is over");
        return Ok(());
    };
    let shape = shape_of(alloc, phrase, name(rt, "bank"))?;
    let found = shape_text(alloc, &shape)?;
    assert!(rt; found.items().starts_with(front));
    Ok(())
}

// The longest chain, and the deepest nesting of brackets with the longest chain that goes with it, both
// with the deepest shape; and the deepest shape of which a branch takes a copy.
#[test]
fn the_longest_and_the_deepest_phrases_are_shaped(rt: HostRuntime) -> Result<(), Fail> {
    let alloc = rt.alloc();
    let bank = name(&rt, "bank");
    let longest = enclosed(alloc, bank, 1024, 1023, 0)?;
    expect_front(&rt, alloc, &longest, 37905, b"G(bank,1024,G(bank,1023,")?;
    let deepest = enclosed(alloc, bank, 1024, 895, BRACKETS)?;
    expect_front(&rt, alloc, &deepest, 37905, b"G(bank,1088,G(bank,1087,")?;
    let seals = followed(&rt, alloc, Phrase::Cpy, Part::Sealed, 1023)?;
    let copied = followed(&rt, alloc, seals, Part::Copied, 1)?;
    assert!(rt; copied.events() <= EVENTS);
    expect_front(&rt, alloc, &copied, 75737, b"S(G(bank,1023,G(bank,1022,")?;
    Ok(())
}
