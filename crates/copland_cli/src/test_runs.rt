// Runs of the program in tests: over ports in memory, with what it must answer and write.

use crate::plain::plain_top;
use crate::status::Status;
use crate::threaded::top;
use bench_trait::{Bench, DigestBench, TableBench, TableResult, TableRow};
use byte_ports::{Behaviour, MemSink, MemSource};
use evidence_types::Answer;
use std::alloc::Global;
use std::process::Abort;
use std::sync::Wait;
use std::test::Fail;
use std::thread::Threads;

const NO_CALLS: [u64; 0] = [];

/// Ports of a run: the greatest size of a call, and the calls that fail.
#[derive(Drop)]
pub struct Ports<'a> {
    pub source_most: usize,
    pub source_failing: &'a [u64],
    pub sink_most: usize,
    pub sink_failing: &'a [u64],
}

pub const WHOLE: Ports<'static> = Ports {
    source_most: 65536,
    source_failing: &NO_CALLS,
    sink_most: 65536,
    sink_failing: &NO_CALLS,
};

pub const JOB_HEAD: &str =
    "{\"places\":[{\"name\":\"bank\",\"key\":\"000102030405060708090a0b0c0d0e0f\",\"asks\":[\"q\"],\"sees\":[\"q\"],\"offers\":[\"scan\",\"a\",\"b\"]},{\"name\":\"q\",\"key\":\"101112131415161718191a1b1c1d1e1f\",\"offers\":[\"scan\"]}],\"sessions\":[{\"root\":\"bank\",\"nonce\":\"000102030405060708090a0b0c0d0e0f\",\"phrase\":\"";

/// A job of one session with this phrase.
pub fn job_of(alloc: Global, phrase: &str) -> Result<String, Fail> {
    let mut job = String::from_str(alloc, JOB_HEAD)?;
    job.push_str(phrase)?;
    job.push_str("\"}]}")?;
    Ok(job)
}

/// A phrase of parts, each a number of times, joined by arrows.
pub fn chain_of(alloc: Global, parts: &[(&str, u32)]) -> Result<String, Fail> {
    let mut phrase = String::new(alloc);
    let mut arrow = "";
    for (part, times) in parts {
        for _ in 0..*times {
            phrase.push_str(arrow)?;
            phrase.push_str(part)?;
            arrow = " -> ";
        }
    }
    Ok(phrase)
}

/// Words that are cut at spaces.
fn words_of(alloc: Global, words: &str) -> Result<Vec<String>, Fail> {
    let mut list = Vec::new(alloc);
    for word in words.split(' ') {
        if !word.is_empty() {
            list.push(String::from_str(alloc, word)?)?;
        }
    }
    Ok(list)
}

fn source_of(alloc: Global, input: &[u8], ports: &Ports<'_>) -> Result<MemSource, Fail> {
    let failing = Vec::from_slice(alloc, ports.source_failing)?;
    let bytes = Vec::from_slice(alloc, input)?;
    Ok(MemSource::of(bytes, Behaviour::of(ports.source_most.max(1), failing)))
}

fn sink_of(alloc: Global, ports: &Ports<'_>) -> Result<MemSink, Fail> {
    let failing = Vec::from_slice(alloc, ports.sink_failing)?;
    Ok(MemSink::of(alloc, Behaviour::of(ports.sink_most.max(1), failing)))
}

/// Runs the program, and gives what it answers and the sink.
fn run<B: Bench>(
    alloc: Global,
    words: &str,
    input: &[u8],
    ports: &Ports<'_>,
    bench: &B,
) -> Result<(Status, MemSink), Fail> {
    let list = words_of(alloc, words)?;
    let mut source = source_of(alloc, input, ports)?;
    let mut sink = sink_of(alloc, ports)?;
    let status = plain_top(alloc, list.as_slice(), &mut source, &mut sink, bench);
    Ok((status, sink))
}

/// Runs the program with this bench, and checks its status and what it wrote.
pub fn expect_with<B: Bench>(
    rt: &impl Abort,
    alloc: Global,
    words: &str,
    input: &str,
    ports: &Ports<'_>,
    bench: &B,
    want: (Status, &str),
) -> Result<(), Fail> {
    let (status, sink) = run(alloc, words, input.as_bytes(), ports, bench)?;
    assert_eq!(rt; status, want.0, "at the words {words}");
    assert_eq!(rt; sink.taken(), want.1.as_bytes(), "at the words {words}");
    Ok(())
}

/// The same with the bench of the program.
pub fn expect_run(
    rt: &impl Abort,
    alloc: Global,
    words: &str,
    input: &str,
    ports: &Ports<'_>,
    want: (Status, &str),
) -> Result<(), Fail> {
    expect_with(rt, alloc, words, input, ports, &DigestBench, want)
}

/// Runs each of these words on a job.
pub fn expect_each(
    rt: &impl Abort,
    alloc: Global,
    job: &str,
    table: &[(&str, Status, &str)],
) -> Result<(), Fail> {
    for (words, status, report) in table {
        expect_run(rt, alloc, words, job, &WHOLE, (*status, *report))?;
    }
    Ok(())
}

/// Runs each of these words on a job, and checks that the run is good and what it wrote first.
pub fn expect_front(
    rt: &impl Abort,
    alloc: Global,
    table: &[&str],
    job: &str,
    front: &str,
) -> Result<(), Fail> {
    for words in table {
        let (status, sink) = run(alloc, words, job.as_bytes(), &WHOLE, &DigestBench)?;
        assert_eq!(rt; status, Status::Good, "at the words {words}");
        assert!(rt;
            sink.taken().starts_with(front.as_bytes()),
            "at the words {words}"
        );
    }
    Ok(())
}

/// Rows of a bench that answer these bytes, for the nonce of `job_of`.
pub fn rows_of(
    rt: &impl Abort,
    alloc: Global,
    answers: &[(u32, &[u8])],
) -> Result<Vec<TableRow>, Fail> {
    let mut rows = Vec::new(alloc);
    for (event, bytes) in answers {
        let found = Answer::of(bytes).expect(rt, "a short answer");
        rows.push(row(*event, TableResult::Answer(found)))?;
    }
    Ok(rows)
}

/// The row of an event, for the nonce of `job_of`.
pub fn row(event: u32, found: TableResult) -> TableRow {
    TableRow {
        nonce: [0, 1, 2, 3, 4, 5, 6, 7, 8, 9, 10, 11, 12, 13, 14, 15],
        event,
        outcome: found,
    }
}

/// Runs each of these words on a job of the phrase, with this bench.
pub fn expect_measured(
    rt: &impl Abort,
    alloc: Global,
    bench: &TableBench,
    table: &[(&str, &str, Status, &str)],
) -> Result<(), Fail> {
    for (phrase, words, status, report) in table {
        let job = job_of(alloc, phrase)?;
        let want = (*status, *report);
        expect_with(rt, alloc, words, job.as_str(), &WHOLE, bench, want)?;
    }
    Ok(())
}

/// Runs the program with threads and this bench, and gives what it answers and the sink.
pub fn run_top<R: Threads + Wait + Sync, B: Bench + Sync>(
    rt: &R,
    alloc: Global,
    words: &str,
    input: &str,
    bench: &B,
) -> Result<(Status, MemSink), Fail> {
    let list = words_of(alloc, words)?;
    let mut source = source_of(alloc, input.as_bytes(), &WHOLE)?;
    let mut sink = sink_of(alloc, &WHOLE)?;
    let status = top(rt, alloc, list.as_slice(), &mut source, &mut sink, bench);
    Ok((status, sink))
}

/// Runs the program with threads and this bench, and checks its status, and that it wrote one of these.
pub fn expect_top<R: Abort + Threads + Wait + Sync, B: Bench + Sync>(
    rt: &R,
    alloc: Global,
    words: &str,
    input: &str,
    bench: &B,
    want: (Status, &[&str]),
) -> Result<(), Fail> {
    let (status, sink) = run_top(rt, alloc, words, input, bench)?;
    assert_eq!(rt; status, want.0, "at the words {words}");
    let mut found = false;
    for text in want.1 {
        if sink.taken() == text.as_bytes() {
            found = true;
        }
    }
    assert!(rt; found, "at the words {words}");
    Ok(())
}
