use crate::job_tests::{BANK, BANK_WALK_0, FOUR_SESSIONS, FOUR_WALK_0};
use crate::status::Status;
use crate::test_runs::{expect_top, job_of, row, rows_of, run_top};
use crate::walk_tests::THREE_SESSIONS;
use bench_trait::{
    ArtefactBook, Ask, Bench, BenchFault, DigestBench, MeasureError, TableBench, TableResult,
};
use evidence_types::Answer;
use itoa::Buffer;
use std::alloc::Global;
use std::process::Abort;
use std::sync::Wait;
use std::sync::atomic::{AtomicU64, Ordering};
use std::test::Fail;
use std::thread;
use std::thread::Threads;

// Runs by workers. The reports were made by an independent program in another language.

/// The words `attest` with this number of workers.
fn attest_by(alloc: Global, workers: u32) -> Result<String, Fail> {
    let mut words = String::from_str(alloc, "attest --workers ")?;
    words.push_str(Buffer::new().format(workers))?;
    Ok(words)
}

/// Runs each number of workers on a job, and checks the status and the whole report.
fn expect_by_all<R: Abort + Threads + Wait + Sync>(
    rt: &R,
    alloc: Global,
    job: &str,
    status: Status,
    report: &str,
) -> Result<(), Fail> {
    for workers in 1..17 {
        let words = attest_by(alloc, workers)?;
        let want = (status, &[report][..]);
        expect_top(rt, alloc, words.as_str(), job, &DigestBench, want)?;
    }
    Ok(())
}

// The events of these jobs have one order.
#[test]
fn every_number_of_workers_writes_the_one_report(rt: HostRuntime) -> Result<(), Fail> {
    let alloc = rt.alloc();
    expect_by_all(&rt, alloc, BANK, Status::Good, BANK_WALK_0)?;
    expect_by_all(&rt, alloc, FOUR_SESSIONS, Status::SomeFailed, FOUR_WALK_0)
}

const WORDS: &str = "error: words\n";

#[test]
fn only_1_to_16_workers_attest(rt: HostRuntime) -> Result<(), Fail> {
    let alloc = rt.alloc();
    let table = [
        "",
        "walk",
        "walk 01",
        "walk 4294967296",
        "check x",
        "attest",
        "attest --workers",
        "attest --workers 0",
        "attest --workers 01",
        "attest --workers 17",
        "attest --workers -1",
        "attest --workers 4294967297",
        "attest --workers 2 2",
        "attest --worker 2",
        "attest 2",
        "--workers 2 attest",
    ];
    for words in table {
        let want = (Status::BadWords, &[WORDS][..]);
        expect_top(&rt, alloc, words, "", &DigestBench, want)?;
    }
    Ok(())
}

#[test]
fn inputs_are_refused_as_on_one_thread(rt: HostRuntime) -> Result<(), Fail> {
    let alloc = rt.alloc();
    let misplaced = job_of(alloc, "@q [USM a]")?;
    let phrase = job_of(alloc, "CPY CPY")?;
    let table = [
        ("", Status::NotJson, "error: not json\n"),
        ("[]", Status::BadJob, "error: job $ wrong-kind\n"),
        ("{}", Status::BadJob, "error: job $.places missing\n"),
        (
            misplaced.as_str(),
            Status::Misplaced,
            "error: misplaced 0 1 not-offered\n",
        ),
        (
            phrase.as_str(),
            Status::BadPhrase,
            "error: phrase 0 4 trailing\n",
        ),
    ];
    for (input, status, line) in table {
        let want = (status, &[line][..]);
        expect_top(&rt, alloc, "attest --workers 3", input, &DigestBench, want)?;
    }
    Ok(())
}

/// A bench that holds the answer to one ask until another has come. An ask is named by the first byte of its
/// session's nonce and its event. It answers one byte, eleven in hexadecimal for each number of the event.
#[derive(Drop)]
struct Rendezvous {
    held: (u8, u32),
    awaited: (u8, u32),
    come: AtomicU64,
}

impl Rendezvous {
    fn of(held: (u8, u32), awaited: (u8, u32)) -> Rendezvous {
        Rendezvous {
            held,
            awaited,
            come: AtomicU64::new(0),
        }
    }

    /// Whether the ask that is awaited comes before a great number of looks.
    fn comes(&self) -> bool {
        for _ in 0..1000000000 {
            if self.come.load(Ordering::SeqCst) == 1 {
                return true;
            }
            thread::yield_now();
        }
        false
    }
}

impl Bench for Rendezvous {
    ghost gives = { λ bench artefacts ask bytes. Unit {0} };

    ghost fails = { λ bench artefacts ask fault. Unit {0} };

    ghost starves = { λ bench artefacts ask. Unit {0} };

    fn measure(&self, _artefacts: &ArtefactBook, ask: &Ask) -> Result<Answer, MeasureError> {
        let this = (ask.nonce[0], ask.event);
        if this == self.awaited {
            self.come.store(1, Ordering::SeqCst);
        }
        if this == self.held && !self.comes() {
            return Err(MeasureError::Fault(BenchFault::Broken(1)));
        }
        match Answer::of(&[(ask.event % 15) as u8 * 17]) {
            Some(answer) => Ok(answer),
            None => Err(MeasureError::Fault(BenchFault::Broken(2))),
        }
    }
}

const TWO_SESSIONS: &str =
    "{\"places\":[{\"name\":\"bank\",\"key\":\"000102030405060708090a0b0c0d0e0f\",\"offers\":[\"a\"]}],\"sessions\":[{\"root\":\"bank\",\"nonce\":\"000102030405060708090a0b0c0d0e0f\",\"phrase\":\"USM a\"},{\"root\":\"bank\",\"nonce\":\"100102030405060708090a0b0c0d0e0f\",\"phrase\":\"USM a\"}]}";

const TWO_DONE: &str =
    "session 0 done\ntrace 0\nanswer 0 00\nbundle 43504c420100000019020000000000010001000102030405060708090a0b0c0d0e0f\nsession 1 done\ntrace 0\nanswer 0 00\nbundle 43504c420100000019020000000000010001100102030405060708090a0b0c0d0e0f\n";

const ARMS_LEFT_FIRST: &str =
    "session 0 done\ntrace 0 1 2 3\nanswer 1 11\nanswer 2 22\nbundle 43504c42010000002307020000000100011101000102030405060708090a0b0c0d0e0f020000000200012200\n";

const ARMS_RIGHT_FIRST: &str =
    "session 0 done\ntrace 0 2 1 3\nanswer 1 11\nanswer 2 22\nbundle 43504c42010000002307020000000100011101000102030405060708090a0b0c0d0e0f020000000200012200\n";

const CHAIN_ONE_AHEAD: &str =
    "session 0 done\ntrace 0 2 1 3 4\nanswer 1 11\nanswer 2 22\nanswer 3 33\nbundle 43504c42010000002b07020000000100011101000102030405060708090a0b0c0d0e0f0200000003000133020000000200012200\n";

const CHAIN_AHEAD: &str =
    "session 0 done\ntrace 0 2 3 1 4\nanswer 1 11\nanswer 2 22\nanswer 3 33\nbundle 43504c42010000002b07020000000100011101000102030405060708090a0b0c0d0e0f0200000003000133020000000200012200\n";

const BY_TWO: &str = "attest --workers 2";

// No worker alone can end these runs well.
#[test]
fn two_measurements_run_at_once(rt: HostRuntime) -> Result<(), Fail> {
    let alloc = rt.alloc();
    let sessions = Rendezvous::of((0, 0), (16, 0));
    let want = (Status::Good, &[TWO_DONE][..]);
    expect_top(&rt, alloc, BY_TWO, TWO_SESSIONS, &sessions, want)?;
    let later = Rendezvous::of((16, 0), (0, 0));
    let want = (Status::Good, &[TWO_DONE][..]);
    expect_top(&rt, alloc, BY_TWO, TWO_SESSIONS, &later, want)?;
    let arms = Rendezvous::of((0, 1), (0, 2));
    let job = job_of(alloc, "USM a +~- USM b")?;
    let want = (Status::Good, &[ARMS_LEFT_FIRST, ARMS_RIGHT_FIRST][..]);
    expect_top(&rt, alloc, BY_TWO, job.as_str(), &arms, want)?;
    let chain = Rendezvous::of((0, 1), (0, 3));
    let job = job_of(alloc, "USM a +~- USM b -> USM scan")?;
    let want = (Status::Good, &[CHAIN_ONE_AHEAD, CHAIN_AHEAD][..]);
    expect_top(&rt, alloc, BY_TWO, job.as_str(), &chain, want)
}

#[test]
fn a_session_that_starves_ends_the_run(rt: HostRuntime) -> Result<(), Fail> {
    let alloc = rt.alloc();
    let mut rows = rows_of(&rt, alloc, &[(0, &[][..]), (2, &[0x22][..])])?;
    rows.push(row(1, TableResult::Starve))?;
    let bench = TableBench::of(rows);
    for phrase in ["USM a +~- USM b", "USM a -> USM b"] {
        let job = job_of(alloc, phrase)?;
        let want = (Status::NoMemory, &["error: no memory\n"][..]);
        expect_top(&rt, alloc, "attest --workers 3", job.as_str(), &bench, want)?;
    }
    Ok(())
}

// The right arm fails, before or after the left one has answered.
#[test]
fn a_fault_ends_its_session(rt: HostRuntime) -> Result<(), Fail> {
    let alloc = rt.alloc();
    let bench = TableBench::of(rows_of(&rt, alloc, &[(1, &[0x11][..])])?);
    let job = job_of(alloc, "USM a +~- USM b")?;
    let after = "session 0 failed 2 no-artefact\ntrace 0 1\n";
    let ahead = "session 0 failed 2 no-artefact\ntrace 0\n";
    for workers in 1..5 {
        let words = attest_by(alloc, workers)?;
        let want = (Status::SomeFailed, &[after, ahead][..]);
        expect_top(&rt, alloc, words.as_str(), job.as_str(), &bench, want)?;
    }
    Ok(())
}

/// A text without the lines of traces.
fn without_traces(alloc: Global, text: &[u8]) -> Result<Vec<u8>, Fail> {
    let mut kept = Vec::new(alloc);
    let mut line = Vec::new(alloc);
    for byte in text {
        line.push(*byte)?;
        if *byte == b'\n' {
            if !line.as_slice().starts_with(b"trace") {
                kept.extend_from_slice(line.as_slice())?;
            }
            line = Vec::new(alloc);
        }
    }
    Ok(kept)
}

/// Runs each number of workers on a job, and checks that the status and all but the traces are those of the
/// walk of 0.
fn expect_as_walked<R: Abort + Threads + Wait + Sync>(
    rt: &R,
    alloc: Global,
    job: &str,
) -> Result<(), Fail> {
    let (status, sink) = run_top(rt, alloc, "walk 0", job, &DigestBench)?;
    let report = without_traces(alloc, sink.taken())?;
    assert!(rt; !report.is_empty());
    for workers in 1..17 {
        let words = attest_by(alloc, workers)?;
        let (again, sink) = run_top(rt, alloc, words.as_str(), job, &DigestBench)?;
        assert_eq!(rt; again, status, "by {workers}");
        let same = without_traces(alloc, sink.taken())?;
        assert!(rt; same.as_slice() == report.as_slice(), "by {workers}");
    }
    Ok(())
}

const MANY_HEAD: &str =
    "{\"places\":[{\"name\":\"bank\",\"key\":\"000102030405060708090a0b0c0d0e0f\",\"asks\":[\"q\"],\"sees\":[\"q\"],\"offers\":[\"scan\",\"a\",\"b\"]},{\"name\":\"q\",\"key\":\"101112131415161718191a1b1c1d1e1f\",\"offers\":[\"scan\"]}],\"artefacts\":[{\"place\":\"bank\",\"name\":\"scan\",\"bytes\":\"0102\"},{\"place\":\"q\",\"name\":\"scan\",\"bytes\":\"03\"},{\"place\":\"bank\",\"name\":\"a\",\"bytes\":\"0a\"}],\"sessions\":[";

const MANY_PHRASES: [&str; 5] = [
    "USM scan +~- @q [USM scan -> SIG]",
    "(USM a +~+ USM scan) -> HSH",
    "(CPY +~- USM scan) -> USM b",
    "@q [USM scan -> SIG] +<+ (KIM q scan +~- @q [CPY])",
    "(USM a +~- USM scan) +~+ (USM a 1 +~- (USM scan 2 -> SIG))",
];

/// A job of this many sessions, at most 90, which have these phrases in turn.
fn many_sessions(alloc: Global, count: u32) -> Result<String, Fail> {
    let mut job = String::from_str(alloc, MANY_HEAD)?;
    let mut comma = "";
    for number in 0..count {
        job.push_str(comma)?;
        job.push_str("{\"root\":\"bank\",\"nonce\":\"")?;
        job.push_str(Buffer::new().format(number % 90 + 10))?;
        job.push_str("0102030405060708090a0b0c0d0e0f\",\"phrase\":\"")?;
        job.push_str(MANY_PHRASES[(number % 5) as usize])?;
        job.push_str("\"}")?;
        comma = ",";
    }
    job.push_str("]}")?;
    Ok(job)
}

#[test]
fn bundles_are_those_of_a_walk_by_every_number_of_workers(rt: HostRuntime) -> Result<(), Fail> {
    let alloc = rt.alloc();
    expect_as_walked(&rt, alloc, THREE_SESSIONS)?;
    let job = many_sessions(alloc, 40)?;
    expect_as_walked(&rt, alloc, job.as_str())
}

#[test]
fn all_other_words_do_what_they_do_on_one_thread(rt: HostRuntime) -> Result<(), Fail> {
    let alloc = rt.alloc();
    let want = (Status::Good, &[BANK_WALK_0][..]);
    expect_top(&rt, alloc, "walk 0", BANK, &DigestBench, want)?;
    let want = (Status::SomeFailed, &[FOUR_WALK_0][..]);
    expect_top(&rt, alloc, "walk 0", FOUR_SESSIONS, &DigestBench, want)
}
