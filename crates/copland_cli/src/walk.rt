ghost use Rattle.std.specs.Prelude.{◌≡◌, IfOk};
ghost use Rattle.phrase_tree.specs.Term.{term};
ghost use Rattle.place_check.specs.Session.{session_of};
ghost use Rattle.plain_eval.specs.Keyed.{HasKeys};
ghost use Rattle.session_model.specs.Record.{IsRisingRecord, numbers_below};
ghost use Rattle.session_model.specs.RightRecord.{IsRightRecord};
ghost use Rattle.session_model.specs.Recorded.{recorded};
ghost use Rattle.copland_cli.specs.Recorded.{done_with, failed_at};

use bench_trait::{ArtefactBook, Bench, BenchFault};
use evidence_types::Answers;
use phrase_tree::{NoMemory, Trace};
use place_check::Checked;
use plain_eval::{Gathered, eval_bundle, gather, rising_records_are_right};
use seal_hmac::KeyRing;
use session_model::{DoneRecord, FailRecord, Record};
use std::alloc::Global;

/// Walks one session to its end on one thread: asks its questions in the order of their events, and
/// evaluates its phrase. It goes over the phrase once for each of these, and takes time in the bytes of
/// the value and of what is sealed and hashed.
pub fn walk_rising<B: Bench>(
    alloc: Global,
    checked: &Checked,
    keys: &KeyRing,
    artefacts: &ArtefactBook,
    bench: &B,
) -> Result<Record, NoMemory>
    requires { HasKeys (term checked.now.phrase) checked.now.root keys.now }
    ensures right { IfOk result (λ record'. IsRightRecord
        (B.gives bench.now artefacts.now)
        (B.fails bench.now artefacts.now)
        (session_of checked.now)
        keys.now
        (recorded record')) }
    ensures rising { IfOk result (λ record'. IsRisingRecord
        (B.gives bench.now artefacts.now)
        (B.fails bench.now artefacts.now)
        (session_of checked.now)
        keys.now
        (recorded record')) }
{
    rising_records_are_right::<B>();
    in_rising_order(alloc, checked, keys, artefacts, bench)
}

fn in_rising_order<B: Bench>(
    alloc: Global,
    checked: &Checked,
    keys: &KeyRing,
    artefacts: &ArtefactBook,
    bench: &B,
) -> Result<Record, NoMemory>
    requires { HasKeys (term checked.now.phrase) checked.now.root keys.now }
    ensures { IfOk result (λ record'. IsRisingRecord
        (B.gives bench.now artefacts.now)
        (B.fails bench.now artefacts.now)
        (session_of checked.now)
        keys.now
        (recorded record')) }
{
    match gather(alloc, checked, artefacts, bench) {
        Ok(Gathered::All(answers)) => done(alloc, checked, keys, answers),
        Ok(Gathered::Failed { event, fault }) => failed(alloc, event, fault),
        Err(_) => Err(NoMemory),
    }
}

fn done(
    alloc: Global,
    checked: &Checked,
    keys: &KeyRing,
    answers: Answers,
) -> Result<Record, NoMemory>
    requires { HasKeys (term checked.now.phrase) checked.now.root keys.now }
    ensures { IfOk result (λ record'. recorded record' ≡ done_with (session_of checked.now) keys.now answers) }
{
    let phrase = checked.phrase();
    let bundle = eval_bundle(
        alloc,
        phrase,
        checked.root(),
        checked.nonce(),
        &answers,
        keys,
    )?;
    let trace = rising(alloc, phrase.events())?;
    Ok(Record::Done(DoneRecord {
        trace,
        answers,
        bundle,
    }))
}

fn failed(alloc: Global, event: u32, fault: BenchFault) -> Result<Record, NoMemory>
    ensures { IfOk result (λ record'. recorded record' ≡ failed_at event fault) }
{
    let trace = rising(alloc, event)?;
    Ok(Record::Failed(FailRecord {
        event,
        fault,
        trace,
    }))
}

/// The numbers below one, rising.
fn rising(alloc: Global, count: u32) -> Result<Trace, NoMemory>
    ensures { IfOk result (λ trace. trace ≡ numbers_below count) }
{
    let mut numbers = Vec::with_capacity(alloc, count as usize)?;
    for number in 0..count {
        numbers.push(number)?;
    }
    Ok(Trace::of(numbers))
}
