//! Writing the transcript of a session.

ghost use Rattle.std.specs.Prelude.{◌≡◌, ◌↔◌, ◌++◌, ◌<◌, ◌^◌, length, map, Err, IsTrue, IfOk, OnOk};
ghost use Rattle.std.specs.List.{AllByRecursion};
ghost use Rattle.evidence_types.specs.Answer.{FitsAnswer};
ghost use Rattle.evidence_types.specs.Bytes.{be16, be32};
ghost use Rattle.session_runs.specs.Standing.{played, run, ask, deliver, answered, failed, Standing};
ghost use Rattle.machine_world.specs.Cells.{block_of};
ghost use Rattle.session_book.specs.Entries.{entry_of};
ghost use Rattle.session_core.specs.Session.{history, StandsAt};
ghost use Rattle.transcript.specs.Bytes.{block_bytes, fault_bytes, entry_bytes, entries_bytes, BlockFits, FaultFits, CanBeWritten, CanAllBeWritten, transcript_head, IsTranscriptOf};
ghost use Rattle.transcript.specs.Starved.{HasStarved, IsWritten};

use crate::reading::HEAD;
use avm_code::BlockName;
use bench_trait::{Bench, BenchFault};
use byte_ports::Bytes;
use evidence_types::Answer;
use phrase_tree::{NoMemory, Place};
use session_book::{Entry, Move, State};
use session_core::Session;
use std::alloc::Global;

/// Why a session has no transcript.
#[derive(Clone, Copy, Debug, PartialEq, Eq)]
pub enum TranscriptError {
    /// It starved: want of memory isn't written.
    Starved,
    NoMemory,
}

fn push(out: &mut Vec<u8>, bytes: &[u8]) -> Result<(), NoMemory>
    ensures { OnOk result (out.new.items ≡ out.old.items ++ bytes.now) }
{
    match out.extend_from_slice(bytes) {
        Ok(()) => Ok(()),
        Err(_) => Err(NoMemory),
    }
}

fn push_block(out: &mut Vec<u8>, name: BlockName) -> Result<(), NoMemory>
    ensures bytes { OnOk result (out.new.items ≡ out.old.items ++ block_bytes (block_of name)) }
    ensures fits { BlockFits (block_of name) }
{
    match name {
        BlockName::Root => push(out, &[0]),
        BlockName::Of(number) => {
            push(out, &[1])?;
            push(out, &number.to_be_bytes())
        }
    }
}

fn push_fault(out: &mut Vec<u8>, fault: BenchFault) -> Result<(), NoMemory>
    ensures bytes { OnOk result (out.new.items ≡ out.old.items ++ fault_bytes fault) }
    ensures fits { FaultFits fault }
{
    match fault {
        BenchFault::NoArtefact => push(out, &[0]),
        BenchFault::Broken(code) => {
            push(out, &[1])?;
            push(out, &code.to_be_bytes())
        }
    }
}

fn push_run(out: &mut Vec<u8>, pass: u32, name: BlockName) -> Result<(), NoMemory>
    ensures bytes { OnOk result (out.new.items ≡ out.old.items ++ entry_bytes (played pass (run (block_of name)))) }
    ensures can { OnOk result (CanBeWritten (played pass (run (block_of name)))) }
{
    push(out, &[0])?;
    push(out, &pass.to_be_bytes())?;
    push_block(out, name)
}

fn push_ask(out: &mut Vec<u8>, pass: u32, name: BlockName) -> Result<(), NoMemory>
    ensures bytes { OnOk result (out.new.items ≡ out.old.items ++ entry_bytes (played pass (ask (block_of name)))) }
    ensures can { OnOk result (CanBeWritten (played pass (ask (block_of name)))) }
{
    push(out, &[1])?;
    push(out, &pass.to_be_bytes())?;
    push_block(out, name)
}

#[tactic(auto, using(crate::proofs::FieldLemmas::name_is_short))]
fn push_delivery(out: &mut Vec<u8>, pass: u32, place: Place) -> Result<(), NoMemory>
    ensures bytes { OnOk result (out.new.items ≡ out.old.items ++ entry_bytes (played pass (deliver place))) }
    ensures can { OnOk result (CanBeWritten (played pass (deliver place))) }
{
    let name = place.bytes();
    push(out, &[2])?;
    push(out, &pass.to_be_bytes())?;
    push(out, &[name.len() as u8])?;
    push(out, name)
}

/// Two bytes of length, and the answer.
fn push_answer(out: &mut Vec<u8>, answer: &Answer) -> Result<(), NoMemory>
    ensures bytes { OnOk result (out.new.items ≡ out.old.items ++ (be16 (length answer.now) ++ answer.now)) }
    ensures fits { FitsAnswer answer.now }
{
    let bytes = answer.bytes();
    push(out, &(bytes.len() as u16).to_be_bytes())?;
    push(out, bytes)
}

fn push_answered(out: &mut Vec<u8>, pass: u32, event: u32, answer: &Answer) -> Result<(), NoMemory>
    ensures bytes { OnOk result (out.new.items ≡ out.old.items ++ entry_bytes (answered pass event answer.now)) }
    ensures can { OnOk result (CanBeWritten (answered pass event answer.now)) }
{
    push(out, &[3])?;
    push(out, &pass.to_be_bytes())?;
    push(out, &event.to_be_bytes())?;
    push_answer(out, answer)
}

fn push_failed(out: &mut Vec<u8>, pass: u32, event: u32, fault: BenchFault) -> Result<(), NoMemory>
    ensures bytes { OnOk result (out.new.items ≡ out.old.items ++ entry_bytes (failed pass event fault)) }
    ensures can { OnOk result (CanBeWritten (failed pass event fault)) }
{
    push(out, &[4])?;
    push(out, &pass.to_be_bytes())?;
    push(out, &event.to_be_bytes())?;
    push_fault(out, fault)
}

/// Appends the bytes of an entry that isn't the opening or want of memory.
fn push_entry(out: &mut Vec<u8>, entry: &Entry) -> Result<(), NoMemory>
    requires { IsWritten (entry_of entry.now) }
    ensures bytes { OnOk result (out.new.items ≡ out.old.items ++ entry_bytes (entry_of entry.now)) }
    ensures can { OnOk result (CanBeWritten (entry_of entry.now)) }
{
    match entry {
        Entry::Opened => unreachable!(),
        Entry::Played { pass, step } => match step {
            Move::Run(name) => push_run(out, *pass, *name),
            Move::Ask(name) => push_ask(out, *pass, *name),
            Move::Deliver(place) => push_delivery(out, *pass, *place),
        },
        Entry::Answered {
            pass,
            event,
            answer,
        } => push_answered(out, *pass, *event, answer),
        Entry::Failed { pass, event, fault } => push_failed(out, *pass, *event, *fault),
        Entry::Starved { .. } => unreachable!(),
    }
}

/// The number of entries behind the opening.
fn item_count<B: Bench>(session: &Session<'_, B>) -> u32
    ensures count { result ≡ length session.now.items }
    ensures few { length session.now.items < 2 ^ 32 }
{
    session.entry_count() - 1
}

/// Appends the bytes of all entries behind the opening, so many.
fn push_entries<B: Bench>(
    out: &mut Vec<u8>,
    session: &Session<'_, B>,
    count: u32,
) -> Result<(), NoMemory>
    requires count { count ≡ length session.now.items }
    requires written { AllByRecursion IsWritten (map entry_of session.now.items) }
    ensures bytes { OnOk result (out.new.items ≡ out.old.items ++ entries_bytes (map entry_of session.now.items)) }
    ensures can { OnOk result (CanAllBeWritten (map entry_of session.now.items)) }
{
    for index in 0..count {
        let Some(entry) = session.nth_entry(index + 1) else {
            unreachable!()
        };
        push_entry(out, &entry)?;
    }
    Ok(())
}

/// The bytes ahead of so many entries.
fn begun(alloc: Global, count: u32) -> Result<Vec<u8>, NoMemory>
    ensures { IfOk result (λ out. out.items ≡ transcript_head ++ be32 count) }
{
    let mut out = Vec::new(alloc);
    push(&mut out, &HEAD)?;
    push(&mut out, &count.to_be_bytes())?;
    Ok(out)
}

/// The bytes of a session that hasn't starved.
fn written<B: Bench>(alloc: Global, session: &Session<'_, B>) -> Result<Bytes, NoMemory>
    requires { AllByRecursion IsWritten (map entry_of session.now.items) }
    ensures { IfOk result (λ bytes. IsTranscriptOf bytes (history session.now)) }
{
    let count = item_count(session);
    let mut out = begun(alloc, count)?;
    push_entries(&mut out, session, count)?;
    Ok(Bytes::of(out))
}

/// The transcript of a session's history so far: five bytes that never change, the number of entries
/// behind the opening, and their bytes. It is Starved exactly if the session is. Takes time linear in
/// the bytes.
pub fn write_transcript<B: Bench>(
    alloc: Global,
    session: &Session<'_, B>,
) -> Result<Bytes, TranscriptError>
    ensures bytes { IfOk result (λ bytes. IsTranscriptOf bytes (history session.now)) }
    ensures starved { (standing : Standing) → StandsAt session.now standing →
        (result ≡ Err TranscriptError.Starved) ↔ HasStarved standing.state }
{
    session.legal();
    if has_starved(session) {
        return Err(TranscriptError::Starved);
    }
    match written(alloc, session) {
        Ok(bytes) => Ok(bytes),
        Err(_) => Err(TranscriptError::NoMemory),
    }
}

/// Whether a session starved.
fn has_starved<B: Bench>(session: &Session<'_, B>) -> bool
    ensures { (standing : Standing) → StandsAt session.now standing → IsTrue result ↔ HasStarved standing.state }
{
    match session.state() {
        State::Open => false,
        State::Done => false,
        State::Failed => false,
        State::Starved => true,
    }
}
