ghost use Rattle.std.specs.Prelude.{◌≡◌, ◌++◌, ◌∷◌, [], IfOk, OnOk, codes, decimal, map};
ghost use Rattle.hex.specs.Hex.{encode_lower};
ghost use Rattle.session_model.specs.Recorded.{recorded};
ghost use Rattle.report_text.specs.Records.{answer_lines, answer_text, evidence_lines, failed_line, fault_text, record_text, records_text, spaced, trace_line, value_text, values_text};
ghost use Rattle.report_text.specs.Sessions.{session_head};

use crate::session::push_head;
use bench_trait::BenchFault;
use byte_ports::Bytes;
use evidence_types::Answer;
use phrase_tree::{NoMemory, push_bytes, push_decimal};
use session_model::{DoneRecord, Record};
use std::alloc::Global;

/// The report of records, one of each session in their order from session 0 on. An error is want of
/// memory. Takes time linear in the text.
#[tactic(auto, using(crate::proofs::NumberedLemmas::goes_on, crate::proofs::NumberedLemmas::ends))]
pub fn records_text(alloc: Global, records: &[Record]) -> Result<Bytes, NoMemory>
    ensures { IfOk result (λ text. text ≡ records_text (map recorded records.now)) }
{
    let mut text = Vec::new(alloc);
    let mut number = 0;
    for found in records {
        push_record(&mut text, number, found)?;
        number += 1;
    }
    Ok(Bytes::of(text))
}

/// The same without the traces.
#[tactic(auto, using(crate::proofs::NumberedLemmas::goes_on, crate::proofs::NumberedLemmas::ends))]
pub fn values_text(alloc: Global, records: &[Record]) -> Result<Bytes, NoMemory>
    ensures { IfOk result (λ text. text ≡ values_text (map recorded records.now)) }
{
    let mut text = Vec::new(alloc);
    let mut number = 0;
    for found in records {
        push_value(&mut text, number, found)?;
        number += 1;
    }
    Ok(Bytes::of(text))
}

/// The report of the record of the session of this number. An error is want of memory. Takes time linear in
/// the text.
pub fn record_text(alloc: Global, number: u32, found: &Record) -> Result<Bytes, NoMemory>
    ensures { IfOk result (λ text. text ≡ record_text number (recorded found.now)) }
{
    let mut text = Vec::new(alloc);
    push_record(&mut text, number as usize, found)?;
    Ok(Bytes::of(text))
}

fn push_record(text: &mut Vec<u8>, number: usize, found: &Record) -> Result<(), NoMemory>
    ensures { OnOk result (text.new.items ≡ text.old.items ++ record_text number (recorded found.now)) }
{
    match found {
        Record::Done(done) => push_done_record(text, number, done),
        Record::Failed(failed) => {
            push_failed(text, number, failed.event, failed.fault)?;
            push_trace(text, failed.trace.items())
        }
    }
}

fn push_done_record(text: &mut Vec<u8>, number: usize, done: &DoneRecord) -> Result<(), NoMemory>
    ensures { OnOk result (text.new.items ≡ text.old.items
        ++ (session_head number ++ (codes " done\n" ++ (trace_line done.now.trace ++ evidence_lines done.now.answers done.now.bundle)))) }
{
    push_done(text, number)?;
    push_trace(text, done.trace.items())?;
    push_evidence(text, done.answers.items(), done.bundle.items())
}

/// Appends the record of a session without its trace. An error is want of memory. Takes time linear in the
/// text.
pub fn push_value(text: &mut Vec<u8>, number: usize, found: &Record) -> Result<(), NoMemory>
    ensures { OnOk result (text.new.items ≡ text.old.items ++ value_text number (recorded found.now)) }
{
    match found {
        Record::Done(done) => {
            push_done(text, number)?;
            push_evidence(text, done.answers.items(), done.bundle.items())
        }
        Record::Failed(failed) => push_failed(text, number, failed.event, failed.fault),
    }
}

fn push_done(text: &mut Vec<u8>, number: usize) -> Result<(), NoMemory>
    ensures { OnOk result (text.new.items ≡ text.old.items ++ (session_head number ++ codes " done\n")) }
{
    push_head(text, number)?;
    push_bytes(text, b" done\n")
}

fn push_failed(
    text: &mut Vec<u8>,
    number: usize,
    event: u32,
    fault: BenchFault,
) -> Result<(), NoMemory>
    ensures { OnOk result (text.new.items ≡ text.old.items ++ failed_line number event fault) }
{
    push_head(text, number)?;
    push_bytes(text, b" failed ")?;
    push_decimal(text, event)?;
    push_bytes(text, b" ")?;
    push_fault(text, fault)?;
    push_bytes(text, b"\n")
}

fn push_evidence(
    text: &mut Vec<u8>,
    answers: &[(u32, Answer)],
    bundle: &[u8],
) -> Result<(), NoMemory>
    ensures { OnOk result (text.new.items ≡ text.old.items ++ evidence_lines answers.now bundle.now) }
{
    push_answers(text, answers)?;
    push_bytes(text, b"bundle ")?;
    push_hex(text, bundle)?;
    push_bytes(text, b"\n")
}

fn push_trace(text: &mut Vec<u8>, trace: &[u32]) -> Result<(), NoMemory>
    ensures { OnOk result (text.new.items ≡ text.old.items ++ trace_line trace.now) }
{
    push_bytes(text, b"trace")?;
    push_spaced(text, trace)?;
    push_bytes(text, b"\n")
}

fn push_spaced(text: &mut Vec<u8>, numbers: &[u32]) -> Result<(), NoMemory>
    ensures { OnOk result (text.new.items ≡ text.old.items ++ spaced numbers.now) }
{
    for number in numbers {
        push_bytes(text, b" ")?;
        push_decimal(text, *number)?;
    }
    Ok(())
}

fn push_answers(text: &mut Vec<u8>, answers: &[(u32, Answer)]) -> Result<(), NoMemory>
    ensures { OnOk result (text.new.items ≡ text.old.items ++ answer_lines answers.now) }
{
    for pair in answers {
        push_answer(text, pair.0, pair.1.bytes())?;
    }
    Ok(())
}

fn push_answer(text: &mut Vec<u8>, event: u32, answer: &[u8]) -> Result<(), NoMemory>
    ensures { OnOk result (text.new.items ≡ text.old.items
        ++ (codes "answer " ++ (decimal event ++ (32 ∷ (answer_text answer.now ++ 10 ∷ []))))) }
{
    push_bytes(text, b"answer ")?;
    push_decimal(text, event)?;
    push_bytes(text, b" ")?;
    push_answer_text(text, answer)?;
    push_bytes(text, b"\n")
}

fn push_answer_text(text: &mut Vec<u8>, answer: &[u8]) -> Result<(), NoMemory>
    ensures { OnOk result (text.new.items ≡ text.old.items ++ answer_text answer.now) }
{
    match answer {
        [] => push_bytes(text, b"-"),
        [_, ..] => push_hex(text, answer),
    }
}

fn push_fault(text: &mut Vec<u8>, fault: BenchFault) -> Result<(), NoMemory>
    ensures { OnOk result (text.new.items ≡ text.old.items ++ fault_text fault) }
{
    match fault {
        BenchFault::NoArtefact => push_bytes(text, b"no-artefact"),
        BenchFault::Broken(code) => {
            push_bytes(text, b"broken ")?;
            push_decimal(text, u32::from(code))
        }
    }
}

/// Appends bytes in hexadecimal: makes room for them, and writes them there.
pub(crate) fn push_hex(text: &mut Vec<u8>, bytes: &[u8]) -> Result<(), NoMemory>
    ensures { OnOk result (text.new.items ≡ text.old.items ++ encode_lower bytes.now) }
{
    let digits = hex::encode(*text.allocator(), bytes)?;
    text.extend_from_slice(digits.as_bytes())?;
    Ok(())
}
