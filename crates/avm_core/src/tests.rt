ghost use Rattle.std.specs.Prelude.{◌≡◌, ◌≤◌, ◌<◌, ℕ, List, length, IfOk, OnOk, IsTrue, is_some};
ghost use Rattle.std.specs.List.{AllByRecursion};
ghost use Rattle.phrase_tree.specs.Term.{term};
ghost use Rattle.phrase_tree.specs.Numbering.{IsSized};
ghost use Rattle.seal_hmac.specs.Keys.{key_of};
ghost use Rattle.evidence_types.specs.Bytes.{encoding};
ghost use Rattle.avm_code.specs.Order.{HasBlock};
ghost use Rattle.avm_compile.specs.Program.{program_of};
ghost use Rattle.evidence_store.specs.Kept.{value_at};
ghost use Rattle.machine_tables.specs.Row.{top};
ghost use Rattle.avm_core.specs.Machine.{values_at, next_of, KnowsIds, Stands, Runs, AwaitsAnswer, AwaitsChild};
ghost use Rattle.avm_core.specs.Programs.{IsKeyed};
ghost use Rattle.avm_core.specs.Steps.{IsAwaited, NamesValue, deed_of};

use super::*;
use avm_code::{BlockName, Program};
use avm_compile::{compile, phrases_have_blocks};
use evidence_store::{EvId, Store};
use evidence_types::Answer;
use phrase_tree::{Args, Asp, Name, NoMemory, Phrase, Place, Split};
use seal_hmac::{Key, KeyRing};
use std::alloc::Global;
use std::process::Abort;
use std::test::Fail;

const NONCE: [u8; 16] = [0, 1, 2, 3, 4, 5, 6, 7, 8, 9, 10, 11, 12, 13, 14, 15];

/// Whether a value has at most some 1,000 bytes.
fn is_small(store: &Store, id: EvId) -> Result<bool, NoMemory>
    requires { id < length store.now.values }
    ensures { IfOk result (λ small. IsTrue small → length (encoding (value_at store.now.values id)) ≤ 1009) }
{
    let bundle = store.emit(id)?;
    Ok(bundle.items().len() <= 1009)
}

/// Whether the machine's evidence and the top of its stack are.
fn is_light(store: &Store, machine: &Machine) -> Result<bool, NoMemory>
    requires { KnowsIds (length store.now.values) machine.now }
    ensures { IfOk result (λ light. IsTrue light →
        (length (encoding (value_at store.now.values machine.now.evidence)) ≤ 1009)
        × (length (encoding (top (values_at store.now.values machine.now.stack))) ≤ 1009)) }
{
    let small = is_small(store, machine.evidence())?;
    if machine.stack.height() == 0 {
        return Ok(small);
    }
    let top_small = is_small(store, machine.stack.top())?;
    Ok(small && top_small)
}

fn stepped(
    machine: &mut Machine,
    program: &Program,
    store: &mut Store,
    keys: &KeyRing,
    nonce: &[u8; 16],
) -> Result<Stepped, NoMemory>
    requires { Stands program.now keys.now (length store.old.values) machine.old }
    ensures stands { OnOk result (Stands program.now keys.now (length store.new.values) machine.new) }
    ensures awaits { IfOk result (λ stepped. IsAwaited (deed_of store.new.values stepped) (next_of program.now machine.new)) }
    ensures named { IfOk result (NamesValue (length store.new.values)) }
    ensures grows { OnOk result (length store.old.values ≤ length store.new.values) }
{
    let light = is_light(store, machine)?;
    if !light {
        return Err(NoMemory);
    }
    machine.step(program, store, keys, nonce)
}

/// Gives the machine the number of the event as its answer.
fn answer(
    machine: &mut Machine,
    program: &Program,
    store: &mut Store,
    keys: &KeyRing,
    event: u32,
) -> Result<(), NoMemory>
    requires stands { Stands program.now keys.now (length store.old.values) machine.old }
    requires awaits { AwaitsAnswer (next_of program.now machine.old) }
    ensures stands { OnOk result (Stands program.now keys.now (length store.new.values) machine.new) }
    ensures grows { OnOk result (length store.old.values ≤ length store.new.values) }
{
    let light = is_light(store, machine)?;
    if !light {
        return Err(NoMemory);
    }
    let Some(answer) = Answer::of(&[(event % 256) as u8]) else {
        return Err(NoMemory);
    };
    machine.give_answer(program, store, &answer)
}

fn join(
    machine: &mut Machine,
    program: &Program,
    store: &mut Store,
    keys: &KeyRing,
    child: EvId,
) -> Result<(), NoMemory>
    requires stands { Stands program.now keys.now (length store.old.values) machine.old }
    requires awaits { AwaitsChild (next_of program.now machine.old) }
    requires child { child < length store.old.values }
    ensures stands { OnOk result (Stands program.now keys.now (length store.new.values) machine.new) }
    ensures grows { OnOk result (length store.old.values ≤ length store.new.values) }
{
    let light = is_light(store, machine)?;
    let small = is_small(store, child)?;
    if !light {
        return Err(NoMemory);
    }
    if !small {
        return Err(NoMemory);
    }
    machine.give_child(program, store, child)
}

/// Steps until the machine sends, forks or ends, and answers that evidence; what it waits for it is given.
fn drive(
    machine: &mut Machine,
    program: &Program,
    store: &mut Store,
    keys: &KeyRing,
    given: EvId,
) -> Result<EvId, NoMemory>
    requires stands { Stands program.now keys.now (length store.old.values) machine.old }
    requires given { given < length store.old.values }
    ensures stands { OnOk result (Stands program.now keys.now (length store.new.values) machine.new) }
    ensures named { IfOk result (λ id. id < length store.new.values) }
    ensures grows { OnOk result (length store.old.values ≤ length store.new.values) }
{
    for _ in 0..40 {
        match stepped(machine, program, store, keys, &NONCE)? {
            Stepped::Sent { evidence, .. } => return Ok(evidence),
            Stepped::Forked { evidence, .. } => return Ok(evidence),
            Stepped::Ended(evidence) => return Ok(evidence),
            Stepped::NeedsAnswer { event } => answer(machine, program, store, keys, event)?,
            Stepped::NeedsReply { .. } => machine.give_reply(program, given),
            Stepped::NeedsChild { .. } => join(machine, program, store, keys, given)?,
            Stepped::Event(_) => {}
            Stepped::Silent => {}
        }
    }
    Err(NoMemory)
}

fn has_key(keys: &KeyRing, place: Place) -> bool
    ensures { result ≡ is_some (key_of keys.now place) }
{
    keys.find(place).is_some()
}

fn has_keys(program: &Program, keys: &KeyRing) -> bool
    ensures { IsTrue result → AllByRecursion (IsKeyed keys.now) program.now }
{
    for block in program.items() {
        if !has_key(keys, block.place) {
            return false;
        }
    }
    true
}

fn name(rt: &impl Abort, text: &str) -> Name {
    Name::read(text).expect(rt, "a name")
}

fn asp(rt: &impl Abort, text: &str) -> Asp {
    Asp {
        name: name(rt, text),
        args: Args::none(),
    }
}

fn two_keys(rt: &impl Abort, alloc: Global) -> Result<KeyRing, NoMemory> {
    let bank = Key::read(&NONCE).expect(rt, "a key");
    let q = Key::read(
        b"\x10\x11\x12\x13\x14\x15\x16\x17\x18\x19\x1a\x1b\x1c\x1d\x1e\x1f\x20\x21\x22\x23\x24\x25\x26\x27\x28\x29\x2a\x2b\x2c\x2d\x2e\x2f",
    ).expect(rt, "a key");
    Ok(KeyRing::of(vec![in alloc; (name(rt, "bank"), bank), (name(rt, "q"), q)]?))
}

/// The phrase's program at the bank, and that it is one to run.
fn program(
    rt: &impl Abort,
    alloc: Global,
    phrase: &Phrase,
    keys: &KeyRing,
) -> Result<Program, NoMemory>
    requires { IsSized (term phrase.now) }
    ensures runs { IfOk result (λ program. Runs program keys.now) }
    ensures made { IfOk result (λ program. (place : List ℕ) × (program ≡ program_of (term phrase.now) place)) }
{
    programs_run();
    let place = name(rt, "bank");
    let program = compile(alloc, phrase, place)?;
    let keyed = has_keys(&program, keys);
    if !keyed {
        return Err(NoMemory);
    }
    Ok(program)
}

/// Runs the phrase's program, which is one block.
fn expect_alone(
    rt: &impl Abort,
    alloc: Global,
    phrase: &Phrase,
    bundle: &[u8],
) -> Result<(), NoMemory>
    requires { IsSized (term phrase.now) }
{
    let keys = two_keys(rt, alloc)?;
    let program = program(rt, alloc, phrase, &keys)?;
    let mut store = Store::open(alloc, 0)?;
    store.reserve(20)?;
    let nonce = store.nonce(&NONCE)?;
    let mut root = Machine::start(BlockName::Root, nonce);
    let result = drive(&mut root, &program, &mut store, &keys, nonce)?;
    assert_eq!(rt; store.emit(result)?.items(), bundle);
    Ok(())
}

/// Runs the phrase's program, with a machine for its request or its right arm.
fn expect_two(
    rt: &impl Abort,
    alloc: Global,
    phrase: &Phrase,
    bundle: &[u8],
) -> Result<(), NoMemory>
    requires sized { IsSized (term phrase.now) }
    requires child { (place : List ℕ) → HasBlock (program_of (term phrase.now) place) (BlockName.Of 0) }
{
    let keys = two_keys(rt, alloc)?;
    let program = program(rt, alloc, phrase, &keys)?;
    let mut store = Store::open(alloc, 20)?;
    let nonce = store.nonce(&NONCE)?;
    let mut root = Machine::start(BlockName::Root, nonce);
    let begun = drive(&mut root, &program, &mut store, &keys, nonce)?;
    let mut other = Machine::start(BlockName::Of(0), begun);
    let ended = drive(&mut other, &program, &mut store, &keys, begun)?;
    let result = drive(&mut root, &program, &mut store, &keys, ended)?;
    assert_eq!(rt; store.emit(result)?.items(), bundle);
    Ok(())
}

/// `(USM a -> SIG) +<- CPY`.
fn in_sequence(rt: &impl Abort, alloc: Global) -> Result<Phrase, NoMemory>
    ensures { IfOk result (λ phrase. IsSized (term phrase)) }
{
    let split = Split {
        left: true,
        right: false,
    };
    let sealed = Phrase::Then(
        Box::new(alloc, Phrase::usm(alloc, asp(rt, "a"))?)?,
        Box::new(alloc, Phrase::Sig)?,
    );
    Ok(Phrase::Seq(
        split,
        Box::new(alloc, sealed)?,
        Box::new(alloc, Phrase::Cpy)?,
    ))
}

/// `HSH -~+ USM b`.
fn in_parallel(rt: &impl Abort, alloc: Global) -> Result<Phrase, NoMemory>
    ensures sized { IfOk result (λ phrase. IsSized (term phrase)) }
    ensures child { IfOk result (λ phrase. (place : List ℕ) → HasBlock (program_of (term phrase) place) (BlockName.Of 0)) }
{
    phrases_have_blocks();
    let split = Split {
        left: false,
        right: true,
    };
    Ok(Phrase::Par(
        split,
        Box::new(alloc, Phrase::Hsh)?,
        Box::new(alloc, Phrase::usm(alloc, asp(rt, "b"))?)?,
    ))
}

/// `@q [KIM us a -> SIG]`.
fn at_another(rt: &impl Abort, alloc: Global) -> Result<Phrase, NoMemory>
    ensures sized { IfOk result (λ phrase. IsSized (term phrase)) }
    ensures child { IfOk result (λ phrase. (place : List ℕ) → HasBlock (program_of (term phrase) place) (BlockName.Of 0)) }
{
    phrases_have_blocks();
    let sealed = Phrase::Then(
        Box::new(alloc, Phrase::kim(alloc, name(rt, "us"), asp(rt, "a"))?)?,
        Box::new(alloc, Phrase::Sig)?,
    );
    Ok(Phrase::At(name(rt, "q"), Box::new(alloc, sealed)?))
}

// The bundles were made by Python's hmac and hashlib from the phrases' values, written out.
#[test]
fn machines_make_the_values_of_their_phrases(rt: HostRuntime) -> Result<(), Fail> {
    let alloc = rt.alloc();
    let phrase = in_sequence(&rt, alloc)?;
    expect_alone(
        &rt,
        alloc,
        &phrase,
        b"CPLB\x01\x00\x00\x00\x40\x06\x04\x00\x00\x00\x02\xa8\xe9\xf3\x3b\x32\x7c\x62\xb7\xcc\x02\xac\x38\xfc\x62\x4f\xf0\x1a\xe0\x3a\xa4\xdc\xd3\x9f\xc1\x10\x1b\x90\xd0\x45\x88\xa9\x17\x02\x00\x00\x00\x01\x00\x01\x01\x01\x00\x01\x02\x03\x04\x05\x06\x07\x08\x09\x0a\x0b\x0c\x0d\x0e\x0f\x00".as_slice(),
    )?;
    let phrase = in_parallel(&rt, alloc)?;
    expect_two(
        &rt,
        alloc,
        &phrase,
        b"CPLB\x01\x00\x00\x00\x3f\x07\x05\x00\x00\x00\x01\x70\xe5\x7a\x51\x6e\xf9\x1f\x0b\x07\x5e\xf5\x2c\x2a\x57\x42\x91\x25\x13\xee\x31\xc1\xca\xf3\x64\x3a\x32\x97\x2d\xf4\x03\xa4\x02\x02\x00\x00\x00\x02\x00\x01\x02\x01\x00\x01\x02\x03\x04\x05\x06\x07\x08\x09\x0a\x0b\x0c\x0d\x0e\x0f".as_slice(),
    )?;
    let phrase = at_another(&rt, alloc)?;
    expect_two(
        &rt,
        alloc,
        &phrase,
        b"CPLB\x01\x00\x00\x00\x3e\x04\x00\x00\x00\x02\xff\xd0\x5d\x8e\x7d\x59\x2f\xec\x6d\x7f\xee\x5a\x35\x4c\x07\x37\x4a\x1f\x50\xd3\xf7\x13\x14\x31\x3a\xb7\x4f\x39\x09\xf7\x5f\x8f\x03\x00\x00\x00\x01\x00\x01\x01\x01\x00\x01\x02\x03\x04\x05\x06\x07\x08\x09\x0a\x0b\x0c\x0d\x0e\x0f".as_slice(),
    )?;
    Ok(())
}
