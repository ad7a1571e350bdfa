ghost use Rattle.std.specs.Prelude.{◌≡◌, ◌<◌, ◌^◌, length, true, false, IfOk, IsTrue};
ghost use Rattle.std.specs.List.{AllByRecursion};
ghost use Rattle.phrase_tree.specs.Term.{term, leaf, usm, at, par};
ghost use Rattle.phrase_tree.specs.Numbering.{IsSized, event_count};
ghost use Rattle.phrase_tree.specs.Events.{events_of};
ghost use Rattle.evidence_types.specs.Evidence as evidence;
ghost use Rattle.avm_compile.specs.Program.{program_of};
ghost use Rattle.avm_core.specs.Programs.{IsKeyed};
ghost use Rattle.machine_tables.specs.Tables.{opening_tables};
ghost use Rattle.machine_world.specs.Cells.{opening_book, tables_of};
ghost use Rattle.machine_world.specs.World.{HasRoom, IsWorld};
ghost use Rattle.machine_world.specs.Playable.{asks_listed};

use super::*;
use avm_code::BlockName;
use avm_compile::compile;
use bench_trait::AskKind;
use evidence_types::Answer;
use phrase_tree::{Args, Asp, Name, NoMemory, Phrase, Place, Split};
use seal_hmac::KeyRing;
use std::alloc::Global;
use std::process::Abort;
use std::test::Fail;

const NONCE: [u8; 16] = [0, 1, 2, 3, 4, 5, 6, 7, 8, 9, 10, 11, 12, 13, 14, 15];

#[test]
fn the_laws_of_mail_and_blocks_are_called() {
    mail_on_values();
    a_block_has_one_index();
    one_block_changes::<u32>();
    phrases_play();
}

/// The name of this text; a text that is none counts as want of memory, and so does an answer below.
fn name(text: &str) -> Result<Name, NoMemory>
    ensures { IfOk result (λ name. name ≡ text.now) }
{
    let Some(name) = Name::read(text) else {
        return Err(NoMemory);
    };
    Ok(name)
}

fn answer(bytes: &[u8]) -> Result<Answer, NoMemory>
    ensures { IfOk result (λ answer. answer ≡ bytes.now) }
{
    let Some(answer) = Answer::of(bytes) else {
        return Err(NoMemory);
    };
    Ok(answer)
}

fn asp(text: &str) -> Result<Asp, NoMemory> {
    Ok(Asp {
        name: name(text)?,
        args: Args::none(),
    })
}

/// The world of a phrase at a place, between these places, with room for so many events.
fn opened(
    alloc: Global,
    phrase: &Phrase,
    place: Place,
    places: Vec<Place>,
    nonce: &[u8; 16],
    events: u32,
    keys: &KeyRing,
) -> Result<World, NoMemory>
    requires sized { IsSized (term phrase.now) }
    requires keyed { AllByRecursion (IsKeyed keys.now) (program_of (term phrase.now) place) }
    requires asks { AllByRecursion (λ one. IsTrue (asks_listed places.items one.kind)) (events_of (term phrase.now) place 0) }
    requires few { length places.items < 2 ^ 32 }
    requires counted { event_count (term phrase.now) ≡ events }
    ensures program { IfOk result (λ world. world.program ≡ program_of (term phrase.now) place) }
    ensures places { IfOk result (λ world. world.places.items ≡ places.items) }
    ensures world { IfOk result (IsWorld keys.now) }
    ensures room { IfOk result HasRoom }
    ensures opens { IfOk result (λ world. tables_of world opening_book ≡ opening_tables (program_of (term phrase.now) place) (evidence.nonce nonce.now)) }
{
    phrases_play();
    let program = compile(alloc, phrase, place)?;
    World::open(alloc, program, places, nonce, events)
}

/// The measurement is asked for, and the bundle of its answer is made.
fn expect_measured(rt: &impl Abort, alloc: Global) -> Result<(), NoMemory> {
    let bank = name("bank")?;
    let keys = KeyRing::of(vec![in alloc]?);
    let scan = asp("scan")?;
    let phrase = Phrase::usm(alloc, scan)?;
    let places = vec![in alloc; bank]?;
    let given = answer(b"\xaa\xbb")?;
    let mut world = opened(alloc, &phrase, bank, places, &NONCE, 1, &keys)?;
    assert_eq!(rt; world.next(BlockName::Root), Ready::Asks(0));
    assert_eq!(rt; world.next(BlockName::Of(0)), Ready::Waits);
    assert_eq!(rt; world.root_result(), None);
    let ask = world.ask(BlockName::Root, &NONCE).expect(rt, "a question");
    assert_eq!(rt; ask.event, 0);
    assert_eq!(rt; ask.place, bank);
    assert_eq!(rt; ask.kind, AskKind::Usm);
    assert_eq!(rt; ask.asp, asp("scan")?);
    world.answer(BlockName::Root, &given);
    let moved = world.run(BlockName::Root, &keys, &NONCE);
    let Some(result) = world.root_result() else {
        return Err(NoMemory);
    };
    assert_eq!(rt; moved, Moved::Ended(result));
    let bundle = world.emit(result)?;
    assert_eq!(rt;
        bundle.items(),
        b"CPLB\x01\x00\x00\x00\x1a\x02\x00\x00\x00\x00\x00\x02\xaa\xbb\x01\x00\x01\x02\x03\x04\x05\x06\x07\x08\x09\x0a\x0b\x0c\x0d\x0e\x0f".as_slice(),
    );
    Ok(())
}

/// `USM a +~- USM b`.
fn two_arms(alloc: Global, first: Asp, second: Asp) -> Result<Phrase, NoMemory>
    ensures { IfOk result (λ phrase. term phrase ≡ par (record { left = true; right = false }) (leaf (usm first)) (leaf (usm second))) }
{
    let split = Split {
        left: true,
        right: false,
    };
    Ok(Phrase::Par(
        split,
        Box::new(alloc, Phrase::usm(alloc, first)?)?,
        Box::new(alloc, Phrase::usm(alloc, second)?)?,
    ))
}

/// The arms are measured, and the left one waits for the right.
fn expect_joined(rt: &impl Abort, alloc: Global) -> Result<(), NoMemory> {
    let bank = name("bank")?;
    let keys = KeyRing::of(vec![in alloc]?);
    let a = asp("a")?;
    let b = asp("b")?;
    let phrase = two_arms(alloc, a, b)?;
    let places = vec![in alloc; bank]?;
    let left = answer(b"\x11")?;
    let right = answer(b"\x22")?;
    let mut world = opened(alloc, &phrase, bank, places, &NONCE, 4, &keys)?;
    let forked = world.run(BlockName::Root, &keys, &NONCE);
    assert_eq!(rt; forked, Moved::Forked(0));
    assert_eq!(rt; world.waiter(0), BlockName::Root);
    world.answer(BlockName::Root, &left);
    assert_eq!(rt; world.next(BlockName::Root), Ready::Waits);
    world.answer(BlockName::Of(0), &right);
    let over = world.run(BlockName::Of(0), &keys, &NONCE);
    assert_eq!(rt; world.next(BlockName::Root), Ready::Runs(Some(3)));
    let joined = world.run(BlockName::Root, &keys, &NONCE);
    assert_eq!(rt; joined, Moved::Happened(3));
    let moved = world.run(BlockName::Root, &keys, &NONCE);
    let Some(result) = world.root_result() else {
        return Err(NoMemory);
    };
    assert_eq!(rt; moved, Moved::Ended(result));
    assert_eq!(rt; over == moved, false);
    let bundle = world.emit(result)?;
    assert_eq!(rt;
        bundle.items(),
        b"CPLB\x01\x00\x00\x00\x23\x07\x02\x00\x00\x00\x01\x00\x01\x11\x01\x00\x01\x02\x03\x04\x05\x06\x07\x08\x09\x0a\x0b\x0c\x0d\x0e\x0f\x02\x00\x00\x00\x02\x00\x01\x22\x00".as_slice(),
    );
    Ok(())
}

/// `@q [USM scan]`.
fn at_another(alloc: Global, place: Place, asked: Asp) -> Result<Phrase, NoMemory>
    ensures { IfOk result (λ phrase. term phrase ≡ at place (leaf (usm asked))) }
{
    Ok(Phrase::At(place, Box::new(alloc, Phrase::usm(alloc, asked)?)?))
}

/// The request is delivered, and its block replies.
fn expect_replied(rt: &impl Abort, alloc: Global) -> Result<(), NoMemory> {
    let bank = name("bank")?;
    let q = name("q")?;
    let keys = KeyRing::of(vec![in alloc]?);
    let scan = asp("scan")?;
    let phrase = at_another(alloc, q, scan)?;
    let places = vec![in alloc; bank, q]?;
    let given = answer(b"\x11")?;
    let mut world = opened(alloc, &phrase, bank, places, &NONCE, 3, &keys)?;
    let sent = world.run(BlockName::Root, &keys, &NONCE);
    assert_eq!(rt; world.front(1), Some(0));
    assert_eq!(rt; world.front(0), None);
    let number = world.deliver(1);
    assert_eq!(rt; number, Some(0));
    assert_eq!(rt; world.front(1), None);
    assert_eq!(rt; world.waiter(0), BlockName::Root);
    assert_eq!(rt; world.next(BlockName::Root), Ready::Waits);
    world.answer(BlockName::Of(0), &given);
    let over = world.run(BlockName::Of(0), &keys, &NONCE);
    assert_eq!(rt; over == sent, false);
    let replied = world.run(BlockName::Root, &keys, &NONCE);
    assert_eq!(rt; replied, Moved::Happened(2));
    let moved = world.run(BlockName::Root, &keys, &NONCE);
    let Some(result) = world.root_result() else {
        return Err(NoMemory);
    };
    assert_eq!(rt; moved, Moved::Ended(result));
    let bundle = world.emit(result)?;
    assert_eq!(rt;
        bundle.items(),
        b"CPLB\x01\x00\x00\x00\x19\x02\x00\x00\x00\x01\x00\x01\x11\x01\x00\x01\x02\x03\x04\x05\x06\x07\x08\x09\x0a\x0b\x0c\x0d\x0e\x0f".as_slice(),
    );
    Ok(())
}

// The bundles are those of the phrases' values, written out by hand.
#[test]
fn worlds_run_to_the_values_of_their_phrases(rt: HostRuntime) -> Result<(), Fail> {
    expect_measured(&rt, rt.alloc())?;
    expect_joined(&rt, rt.alloc())?;
    expect_replied(&rt, rt.alloc())?;
    Ok(())
}
