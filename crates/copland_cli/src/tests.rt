use crate::laws::{
    attested_reports_differ_in_traces, commands_are_decisive, loads_are_accepted,
    reports_follow_from_bytes, sessions_are_done_where_artefacts_are_there,
    upgrades_have_the_same_verdicts,
};
use crate::status::Status;
use crate::test_runs::{
    Ports, WHOLE, chain_of, expect_each, expect_front, expect_measured, expect_run, job_of, row,
    rows_of,
};
use bench_trait::{BenchFault, DigestBench, TableBench, TableResult};
use std::alloc::Global;
use std::process::Abort;
use std::test::Fail;

fn expect_words(
    rt: &impl Abort,
    alloc: Global,
    table: &[&str],
    want: (Status, &str),
) -> Result<(), Fail> {
    for words in table {
        expect_run(rt, alloc, words, "", &WHOLE, want)?;
    }
    Ok(())
}

#[test]
fn words_are_told_apart(rt: HostRuntime) -> Result<(), Fail> {
    let alloc = rt.alloc();
    let wrong = [
        "",
        "walk",
        "walk 01",
        "walk 4294967296",
        "check x",
        "attest",
        "attest --workers 0",
        "attest --workers 17",
        "attest --workers 2 2",
        "attest --workers 2",
        "Walk 0",
        "load",
        "load 00",
        "load 4294967296",
        "load 7 7",
        "audit 0",
        "record",
        "record 01",
        "record 4294967296",
        "--help",
    ];
    expect_words(&rt, alloc, &wrong, (Status::BadWords, "error: words\n"))?;
    let walks = ["walk 0", "walk 1", "walk 4294967295"];
    expect_words(&rt, alloc, &walks, (Status::NotJson, "error: not json\n"))
}

/// Runs each of these words on the job of one session with the phrase.
fn expect_all(
    rt: &impl Abort,
    alloc: Global,
    phrase: &str,
    table: &[(&str, Status, &str)],
) -> Result<(), Fail> {
    let job = job_of(alloc, phrase)?;
    expect_each(rt, alloc, job.as_str(), table)
}

// The reports were worked by hand from the formats; the seals and hashes are those of Python's hmac and
// hashlib.
#[test]
fn sessions_are_reported(rt: HostRuntime) -> Result<(), Fail> {
    let alloc = rt.alloc();
    expect_all(
        &rt,
        alloc,
        "((USM scan))->SIG",
        &[
            (
                "check",
                Status::Good,
                "session 0 ok events 2 weight 1085\nphrase USM scan -> SIG\n",
            ),
            (
                "shape",
                Status::Good,
                "session 0 shape G(bank,1,U(bank,0,scan,N))\n",
            ),
            (
                "eval",
                Status::SomeFailed,
                "session 0 failed 0 no-artefact\n",
            ),
            (
                "walk 0",
                Status::SomeFailed,
                "session 0 failed 0 no-artefact\ntrace\n",
            ),
        ],
    )?;
    expect_all(
        &rt,
        alloc,
        "@q [USM scan -> SIG]",
        &[
            ("events", Status::Good, ASKED_EVENTS),
            ("code", Status::Good, ASKED_CODE),
            (
                "walk 0",
                Status::SomeFailed,
                "session 0 failed 1 no-artefact\ntrace 0\n",
            ),
        ],
    )?;
    expect_all(
        &rt,
        alloc,
        "USM a +~- USM b",
        &[
            (
                "shape",
                Status::Good,
                "session 0 shape P(U(bank,1,a,N),U(bank,2,b,E))\n",
            ),
            (
                "code",
                Status::Good,
                "session 0 code\nblock root at bank\nfork 0 +-\nusm 1 a\njoinpar 3 0\nend\nblock 0 at bank\nusm 2 b\nend\n",
            ),
        ],
    )?;
    expect_all(
        &rt,
        alloc,
        "(CPY +<+ CPY) -> HSH",
        &[
            (
                "check",
                Status::Good,
                "session 0 ok events 5 weight 72\nphrase (CPY +<+ CPY) -> HSH\n",
            ),
            ("shape", Status::Good, "session 0 shape H(bank,4,S(N,N))\n"),
            ("eval", Status::Good, HASHED),
        ],
    )?;
    expect_all(
        &rt,
        alloc,
        "USM scan->NUL",
        &[
            (
                "check",
                Status::Good,
                "session 0 ok events 2 weight 1048\nphrase USM scan -> NUL\n",
            ),
            ("shape", Status::Good, "session 0 shape E\n"),
            (
                "events",
                Status::Good,
                "session 0 events 2\nevent 0 usm scan at bank\nevent 1 nul at bank after 0\n",
            ),
            (
                "code",
                Status::Good,
                "session 0 code\nblock root at bank\nusm 0 scan\nnull 1\nend\n",
            ),
        ],
    )?;
    expect_all(
        &rt,
        alloc,
        "SIG -> NUL",
        &[
            (
                "eval",
                Status::Good,
                "session 0 done\nbundle 43504c42010000000100\n",
            ),
            (
                "walk 0",
                Status::Good,
                "session 0 done\ntrace 0 1\nbundle 43504c42010000000100\n",
            ),
        ],
    )
}

const ASKED_EVENTS: &str =
    "session 0 events 4\nevent 0 req q at bank\nevent 1 usm scan at q after 0\nevent 2 sig at q after 1\nevent 3 rpl q at bank after 2\n";

const ASKED_CODE: &str =
    "session 0 code\nblock root at bank\nsend 0 q\nrecv 3 0\nend\nblock 0 at q\nusm 1 scan\nsign 2\nend\n";

const HASHED: &str =
    "session 0 done\nbundle 43504c4201000000250500000004eeb3e2ab6a60f3b47e374422806ba61f40312d27ba55f9b494ccdd9838f26a69\n";

/// Runs every command on a job of this chain.
fn expect_chain(
    rt: &impl Abort,
    alloc: Global,
    leaf: &str,
    count: u32,
    head: &str,
) -> Result<(), Fail> {
    let phrase = chain_of(alloc, &[(leaf, count)])?;
    let job = job_of(alloc, phrase.as_str())?;
    let mut want = String::from_str(alloc, head)?;
    want.push_str(phrase.as_str())?;
    want.push_str("\n")?;
    let good = (Status::Good, want.as_str());
    expect_run(rt, alloc, "check", job.as_str(), &WHOLE, good)?;
    let others = ["shape", "events", "code", "eval", "walk 0"];
    expect_front(rt, alloc, &others, job.as_str(), "session 0 ")
}

// The deepest evidence, and the chain of the most events.
#[test]
fn the_longest_chains_are_reported(rt: HostRuntime) -> Result<(), Fail> {
    let alloc = rt.alloc();
    let deepest = "session 0 ok events 1024 weight 37905\nphrase ";
    expect_chain(&rt, alloc, "SIG", 1024, deepest)?;
    let longest = "session 0 ok events 2048 weight 17\nphrase ";
    expect_chain(&rt, alloc, "CPY", 2048, longest)
}

#[test]
fn answers_come_from_the_bench(rt: HostRuntime) -> Result<(), Fail> {
    let alloc = rt.alloc();
    let answers = [(0, &[0xaa, 0xbb][..]), (1, &[0x11][..]), (2, &[0x22][..])];
    let answering = TableBench::of(rows_of(&rt, alloc, &answers)?);
    let table = [
        (
            "USM scan",
            "walk 0",
            Status::Good,
            "session 0 done\ntrace 0\nanswer 0 aabb\nbundle 43504c42010000001a02000000000002aabb01000102030405060708090a0b0c0d0e0f\n",
        ),
        (
            "USM scan",
            "eval",
            Status::Good,
            "session 0 done\nanswer 0 aabb\nbundle 43504c42010000001a02000000000002aabb01000102030405060708090a0b0c0d0e0f\n",
        ),
        (
            "USM a -> USM b",
            "walk 0",
            Status::Good,
            "session 0 done\ntrace 0 1\nanswer 0 aabb\nanswer 1 11\nbundle 43504c420100000022020000000100011102000000000002aabb01000102030405060708090a0b0c0d0e0f\n",
        ),
        (
            "USM a +~- USM b",
            "walk 0",
            Status::Good,
            "session 0 done\ntrace 0 1 2 3\nanswer 1 11\nanswer 2 22\nbundle 43504c42010000002307020000000100011101000102030405060708090a0b0c0d0e0f020000000200012200\n",
        ),
        (
            "USM a -<+ USM b",
            "walk 0",
            Status::Good,
            "session 0 done\ntrace 0 1 2 3\nanswer 1 11\nanswer 2 22\nbundle 43504c42010000002306020000000100011100020000000200012201000102030405060708090a0b0c0d0e0f\n",
        ),
        (
            "@q [USM scan -> SIG]",
            "walk 0",
            Status::Good,
            "session 0 done\ntrace 0 1 2 3\nanswer 1 11\nbundle 43504c42010000003e04000000025f392531f1398617f975a0d0df3de9b76edd1eb0fca777a0def32b462d76fc44020000000100011101000102030405060708090a0b0c0d0e0f\n",
        ),
        (
            "((USM scan))->SIG",
            "eval",
            Status::Good,
            "session 0 done\nanswer 0 aabb\nbundle 43504c42010000003f0400000001bf3d4bf059e139949ebbf67a3cddf4cb9491800b555a0367c1f2ffe4ba66293102000000000002aabb01000102030405060708090a0b0c0d0e0f\n",
        ),
    ];
    expect_measured(&rt, alloc, &answering, &table)
}

#[test]
fn faults_come_from_the_bench(rt: HostRuntime) -> Result<(), Fail> {
    let alloc = rt.alloc();
    let mut rows = rows_of(&rt, alloc, &[(0, &[][..]), (2, &[0x22][..])])?;
    rows.push(row(1, TableResult::Fault(BenchFault::Broken(7))))?;
    let broken = "session 0 failed 1 broken 7\ntrace 0\n";
    let table = [
        (
            "USM a -> USM b -> USM a",
            "walk 0",
            Status::SomeFailed,
            broken,
        ),
        ("USM a +~- USM b", "walk 0", Status::SomeFailed, broken),
    ];
    expect_measured(&rt, alloc, &TableBench::of(rows), &table)?;
    // The right arm fails, after the left one has answered.
    let lacking = TableBench::of(rows_of(&rt, alloc, &[(1, &[0x11][..])])?);
    let table = [(
        "USM a +~- USM b",
        "walk 0",
        Status::SomeFailed,
        "session 0 failed 2 no-artefact\ntrace 0 1\n",
    )];
    expect_measured(&rt, alloc, &lacking, &table)
}

#[test]
fn want_of_memory_comes_from_the_bench(rt: HostRuntime) -> Result<(), Fail> {
    let alloc = rt.alloc();
    let mut rows = Vec::new(alloc);
    rows.push(row(0, TableResult::Starve))?;
    let table = [("USM scan", "walk 0", Status::NoMemory, "error: no memory\n")];
    expect_measured(&rt, alloc, &TableBench::of(rows), &table)
}

const COPIED: &str =
    "session 0 done\ntrace 0\nbundle 43504c42010000001101000102030405060708090a0b0c0d0e0f\n";

/// Runs `walk 0` on a job with this many spaces behind it.
fn expect_padded(
    rt: &impl Abort,
    alloc: Global,
    length: usize,
    want: (Status, &str),
) -> Result<(), Fail> {
    let mut input = job_of(alloc, "CPY")?;
    let spaces = " ".repeat(alloc, length.saturating_sub(input.len()))?;
    input.push_str(spaces.as_str())?;
    expect_run(rt, alloc, "walk 0", input.as_str(), &WHOLE, want)
}

#[test]
fn inputs_end_at_the_limit(rt: HostRuntime) -> Result<(), Fail> {
    let alloc = rt.alloc();
    expect_padded(&rt, alloc, 4194304, (Status::Good, COPIED))?;
    let long = (Status::TooLong, "error: input too long\n");
    expect_padded(&rt, alloc, 4194305, long)
}

/// Runs each of these words on the job of the phrase `CPY`, over these ports.
fn expect_over(
    rt: &impl Abort,
    alloc: Global,
    ports: &Ports<'_>,
    table: &[(&str, Status, &str)],
) -> Result<(), Fail> {
    let job = job_of(alloc, "CPY")?;
    for (words, status, written) in table {
        expect_run(rt, alloc, words, job.as_str(), ports, (*status, *written))?;
    }
    Ok(())
}

#[test]
fn faults_of_the_ports_are_answered(rt: HostRuntime) -> Result<(), Fail> {
    let alloc = rt.alloc();
    let source_fails = Ports {
        source_most: 7,
        source_failing: &[0],
        sink_most: 1,
        sink_failing: &[],
    };
    let table = [
        ("walk 0", Status::ReadFault, "error: read fault\n"),
        ("walk 01", Status::BadWords, "error: words\n"),
    ];
    expect_over(&rt, alloc, &source_fails, &table)?;
    let sink_fails = Ports {
        source_most: 7,
        source_failing: &[],
        sink_most: 10,
        sink_failing: &[1],
    };
    // A refusal whose line can't be written whole stays the refusal.
    let table = [
        ("walk 0", Status::WriteFault, "session 0 "),
        ("walk", Status::BadWords, "error: wor"),
    ];
    expect_over(&rt, alloc, &sink_fails, &table)
}

fn expect_codes(rt: &impl Abort, table: &[(Status, u8)]) {
    for (status, code) in table {
        assert_eq!(rt; status.code(), *code, "at {status:?}");
    }
}

#[test]
fn each_status_has_its_code(rt: HostRuntime) {
    let table = [
        (Status::Good, 0),
        (Status::SomeFailed, 1),
        (Status::ClaimBroken, 1),
        (Status::Denied, 1),
        (Status::Rejected, 1),
        (Status::BadWords, 2),
        (Status::ReadFault, 3),
        (Status::TooLong, 4),
        (Status::NotJson, 5),
        (Status::BadJob, 6),
        (Status::RepeatedNonce, 6),
        (Status::BadPhrase, 7),
        (Status::Oversize, 8),
        (Status::NoReference, 9),
        (Status::Ambiguous, 14),
        (Status::BadBundle, 10),
        (Status::BadTranscript, 15),
        (Status::WriteFault, 11),
        (Status::NoMemory, 12),
    ];
    expect_codes(&rt, &table);
}

#[test]
fn laws_are_called(_rt: HostRuntime) {
    commands_are_decisive::<DigestBench>();
    upgrades_have_the_same_verdicts::<DigestBench>();
    loads_are_accepted();
    reports_follow_from_bytes(b"{}");
    sessions_are_done_where_artefacts_are_there();
    attested_reports_differ_in_traces(b"{}");
}
