ghost use Rattle.std.specs.Prelude.{◌≡◌, IfOk};
ghost use Rattle.phrase_tree.specs.Term.{term, at, chain, is_branch, is_chain, par, seq};
ghost use Rattle.phrase_tree.specs.Numbering.{IsSized, depth, event_count};

use crate::compiler::compile;
use avm_code::listing;
use phrase_tree::{Arg, Args, Asp, Name, NoMemory, Phrase, Place, Split};
use std::alloc::Global;
use std::process::Abort;
use std::test::Fail;

fn name(rt: &impl Abort, text: &str) -> Name {
    Name::read(text).expect(rt, "a name")
}

fn asp(rt: &impl Abort, text: &str) -> Asp {
    Asp {
        name: name(rt, text),
        args: Args::none(),
    }
}

fn asp_of(rt: &impl Abort, text: &str, arg: Arg) -> Asp {
    let mut args = Args::none();
    assert!(rt; args.push(arg).is_ok());
    Asp {
        name: name(rt, text),
        args,
    }
}

fn request(alloc: Global, asked: Place, body: Phrase) -> Result<Phrase, NoMemory>
    ensures { IfOk result (λ phrase. term phrase ≡ at asked (term body)) }
{
    Ok(Phrase::At(asked, Box::new(alloc, body)?))
}

fn then(alloc: Global, left: Phrase, right: Phrase) -> Result<Phrase, NoMemory>
    ensures { IfOk result (λ phrase. term phrase ≡ chain (term left) (term right)) }
{
    Ok(Phrase::Then(Box::new(alloc, left)?, Box::new(alloc, right)?))
}

fn in_sequence(alloc: Global, split: Split, left: Phrase, right: Phrase) -> Result<Phrase, NoMemory>
    ensures { IfOk result (λ phrase. term phrase ≡ seq split (term left) (term right)) }
{
    Ok(Phrase::Seq(split, Box::new(alloc, left)?, Box::new(alloc, right)?))
}

fn in_parallel(alloc: Global, split: Split, left: Phrase, right: Phrase) -> Result<Phrase, NoMemory>
    ensures { IfOk result (λ phrase. term phrase ≡ par split (term left) (term right)) }
{
    Ok(Phrase::Par(split, Box::new(alloc, left)?, Box::new(alloc, right)?))
}

/// Checks the listing of a phrase's program at the place `bank`, and whether block 0 is remote.
fn expect_code(
    rt: &impl Abort,
    alloc: Global,
    phrase: &Phrase,
    text: &[u8],
    remote: bool,
) -> Result<(), NoMemory>
    requires { IsSized (term phrase.now) }
{
    let program = compile(alloc, phrase, name(rt, "bank"))?;
    let found = listing(alloc, &program)?;
    assert_eq!(rt; found.items(), text);
    assert_eq!(rt; program.is_remote(0), remote);
    Ok(())
}

// The listings were worked by hand from the table of code.
#[test]
fn listings_are_those_of_worked_phrases(rt: HostRuntime) -> Result<(), Fail> {
    let alloc = rt.alloc();
    let both = Split {
        left: true,
        right: true,
    };
    let to_left = Split {
        left: true,
        right: false,
    };
    let to_right = Split {
        left: false,
        right: true,
    };
    let scanned = then(alloc, Phrase::usm(alloc, asp(&rt, "scan"))?, Phrase::Sig)?;
    let asked = request(alloc, name(&rt, "q"), scanned)?;
    expect_code(
        &rt,
        alloc,
        &asked,
        b"block root at bank\nsend 0 q\nrecv 3 0\nend\nblock 0 at q\nusm 1 scan\nsign 2\nend\n",
        true,
    )?;
    let arms = in_parallel(
        alloc,
        to_left,
        Phrase::usm(alloc, asp(&rt, "a"))?,
        Phrase::usm(alloc, asp(&rt, "b"))?,
    )?;
    expect_code(
        &rt,
        alloc,
        &arms,
        b"block root at bank\nfork 0 +-\nusm 1 a\njoinpar 3 0\nend\nblock 0 at bank\nusm 2 b\nend\n",
        false,
    )?;
    let steps = in_sequence(
        alloc,
        to_right,
        Phrase::usm(alloc, asp(&rt, "a"))?,
        Phrase::usm(alloc, asp(&rt, "b"))?,
    )?;
    expect_code(
        &rt,
        alloc,
        &steps,
        b"block root at bank\nsplit 0 -+\nusm 1 a\nswap\nusm 2 b\njoinseq 3\nend\n",
        false,
    )?;
    let kernel = then(
        alloc,
        Phrase::kim(alloc, name(&rt, "us"), asp(&rt, "kernel"))?,
        Phrase::Sig,
    )?;
    let files = asp_of(&rt, "files", Arg::Word(name(&rt, "etc")));
    let measured = then(
        alloc,
        Phrase::usm(alloc, asp(&rt, "scanner"))?,
        Phrase::usm(alloc, files)?,
    )?;
    let user = then(alloc, measured, Phrase::Sig)?;
    let kernel_there = request(alloc, name(&rt, "ks"), kernel)?;
    let user_there = request(alloc, name(&rt, "us"), user)?;
    let bank = in_sequence(alloc, both, kernel_there, user_there)?;
    expect_code(
        &rt,
        alloc,
        &bank,
        b"block root at bank\nsplit 0 ++\nsend 1 ks\nrecv 4 1\nswap\nsend 5 us\nrecv 9 5\njoinseq 10\nend\nblock 1 at ks\nkim 2 us kernel\nsign 3\nend\nblock 5 at us\nusm 6 scanner\nusm 7 files etc\nsign 8\nend\n",
        false,
    )?;
    Ok(())
}
