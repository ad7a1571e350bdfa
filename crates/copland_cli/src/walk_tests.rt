use crate::status::Status;
use crate::test_runs::{WHOLE, expect_measured, expect_run, expect_with, job_of, row, rows_of};
use bench_trait::{TableBench, TableResult};
use itoa::Buffer;
use std::alloc::Global;
use std::process::Abort;
use std::test::Fail;

// Walks by the schedules of numbers. The reports were made by an independent program in another language.

/// The words of a walk.
fn walk_of(alloc: Global, number: u32) -> Result<String, Fail> {
    let mut words = String::from_str(alloc, "walk ")?;
    words.push_str(Buffer::new().format(number))?;
    Ok(words)
}

/// A bench that answers the events 0, 1 and 2.
fn answering(rt: &impl Abort, alloc: Global) -> Result<TableBench, Fail> {
    let answers = [(0, &[0xaa, 0xbb][..]), (1, &[0x11][..]), (2, &[0x22][..])];
    Ok(TableBench::of(rows_of(rt, alloc, &answers)?))
}

const LEFT_FIRST: &str =
    "session 0 done\ntrace 0 1 2 3\nanswer 1 11\nanswer 2 22\nbundle 43504c42010000002307020000000100011101000102030405060708090a0b0c0d0e0f020000000200012200\n";

const RIGHT_FIRST: &str =
    "session 0 done\ntrace 0 2 1 3\nanswer 1 11\nanswer 2 22\nbundle 43504c42010000002307020000000100011101000102030405060708090a0b0c0d0e0f020000000200012200\n";

const ASKED_Q: &str =
    "session 0 done\ntrace 0 1 2 3\nanswer 1 11\nbundle 43504c42010000003e04000000025f392531f1398617f975a0d0df3de9b76edd1eb0fca777a0def32b462d76fc44020000000100011101000102030405060708090a0b0c0d0e0f\n";

#[test]
fn a_number_chooses_the_order_of_events(rt: HostRuntime) -> Result<(), Fail> {
    let alloc = rt.alloc();
    let both = "USM a +~- USM b";
    let asked = "@q [USM scan -> SIG]";
    let table = [
        (both, "walk 0", Status::Good, LEFT_FIRST),
        (both, "walk 1", Status::Good, LEFT_FIRST),
        (both, "walk 2", Status::Good, LEFT_FIRST),
        (both, "walk 3", Status::Good, RIGHT_FIRST),
        (both, "walk 4", Status::Good, LEFT_FIRST),
        (both, "walk 5", Status::Good, RIGHT_FIRST),
        (both, "walk 4294967295", Status::Good, LEFT_FIRST),
        (asked, "walk 1", Status::Good, ASKED_Q),
        (asked, "walk 3", Status::Good, ASKED_Q),
    ];
    expect_measured(&rt, alloc, &answering(&rt, alloc)?, &table)
}

/// Runs the walks of the numbers below this one on a job, with a bench; each makes this report.
fn expect_below(
    rt: &impl Abort,
    alloc: Global,
    most: u32,
    job: &str,
    bench: &TableBench,
    report: &str,
) -> Result<(), Fail> {
    for number in 0..most {
        let words = walk_of(alloc, number)?;
        let want = (Status::Good, report);
        expect_with(rt, alloc, words.as_str(), job, &WHOLE, bench, want)?;
    }
    Ok(())
}

const ONE_BY_ONE: &str =
    "session 0 done\ntrace 0 1 2 3\nanswer 1 11\nanswer 2 22\nbundle 43504c42010000002306020000000100011100020000000200012201000102030405060708090a0b0c0d0e0f\n";

const ASKS_BACK: &str =
    "{\"places\":[{\"name\":\"bank\",\"key\":\"000102030405060708090a0b0c0d0e0f\",\"asks\":[\"q\"]},{\"name\":\"q\",\"key\":\"101112131415161718191a1b1c1d1e1f\",\"asks\":[\"bank\"]}],\"sessions\":[{\"root\":\"bank\",\"nonce\":\"000102030405060708090a0b0c0d0e0f\",\"phrase\":\"@q [@bank [@q [CPY]]]\"}]}";

const ASKED_BACK: &str =
    "session 0 done\ntrace 0 1 2 3 4 5 6\nbundle 43504c42010000001101000102030405060708090a0b0c0d0e0f\n";

#[test]
fn events_in_one_order_have_it_in_every_walk(rt: HostRuntime) -> Result<(), Fail> {
    let alloc = rt.alloc();
    let bench = answering(&rt, alloc)?;
    let one_by_one = job_of(alloc, "USM a -<+ USM b")?;
    expect_below(&rt, alloc, 100, one_by_one.as_str(), &bench, ONE_BY_ONE)?;
    expect_below(&rt, alloc, 10, ASKS_BACK, &bench, ASKED_BACK)
}

// The right arm fails, before or after the left one has answered.
#[test]
fn a_fault_ends_its_session(rt: HostRuntime) -> Result<(), Fail> {
    let alloc = rt.alloc();
    let lacking = TableBench::of(rows_of(&rt, alloc, &[(1, &[0x11][..])])?);
    let both = "USM a +~- USM b";
    let after = "session 0 failed 2 no-artefact\ntrace 0 1\n";
    let ahead = "session 0 failed 2 no-artefact\ntrace 0\n";
    let table = [
        (both, "walk 0", Status::SomeFailed, after),
        (both, "walk 3", Status::SomeFailed, ahead),
        (both, "walk 4", Status::SomeFailed, after),
        (both, "walk 15", Status::SomeFailed, ahead),
    ];
    expect_measured(&rt, alloc, &lacking, &table)
}

#[test]
fn a_session_that_starves_ends_the_walk(rt: HostRuntime) -> Result<(), Fail> {
    let alloc = rt.alloc();
    let mut rows = rows_of(&rt, alloc, &[(0, &[][..]), (2, &[0x22][..])])?;
    rows.push(row(1, TableResult::Starve))?;
    let starved = "error: no memory\n";
    let table = [
        ("USM a +~- USM b", "walk 0", Status::NoMemory, starved),
        ("USM a +~- USM b", "walk 3", Status::NoMemory, starved),
        ("USM a -> USM b", "walk 7", Status::NoMemory, starved),
    ];
    expect_measured(&rt, alloc, &TableBench::of(rows), &table)
}

// Three sessions. The second fails at its last event; the others go on.

pub const THREE_SESSIONS: &str =
    "{\"places\":[{\"name\":\"bank\",\"key\":\"000102030405060708090a0b0c0d0e0f\",\"asks\":[\"q\"],\"sees\":[\"q\"],\"offers\":[\"scan\",\"a\",\"b\"]},{\"name\":\"q\",\"key\":\"101112131415161718191a1b1c1d1e1f\",\"offers\":[\"scan\"]}],\"artefacts\":[{\"place\":\"bank\",\"name\":\"scan\",\"bytes\":\"0102\"},{\"place\":\"q\",\"name\":\"scan\",\"bytes\":\"03\"}],\"sessions\":[{\"root\":\"bank\",\"nonce\":\"000102030405060708090a0b0c0d0e0f\",\"phrase\":\"USM scan +~- @q [CPY]\"},{\"root\":\"bank\",\"nonce\":\"100102030405060708090a0b0c0d0e0f\",\"phrase\":\"(CPY +~- USM scan) -> USM a\"},{\"root\":\"bank\",\"nonce\":\"200102030405060708090a0b0c0d0e0f\",\"phrase\":\"@q [USM scan -> HSH] +~- CPY\"}]}";

const FIRST_EVIDENCE: &str =
    "\nanswer 1 ef1697f6baa17ed070c8baccaee10f159fc069a3018fee9ed7127ad070869b7b\nbundle 43504c42010000003a0702000000010020ef1697f6baa17ed070c8baccaee10f159fc069a3018fee9ed7127ad070869b7b01000102030405060708090a0b0c0d0e0f00\n";

const THIRD_EVIDENCE: &str =
    "\nanswer 2 a9ec072068cc8d4d2c096aa33a4ea3006c2d2082f1bb3d4a11ed0226b6dbf55d\nbundle 43504c420100000027070500000003f7e620f8431a77989dbcf388403387d3345dc62cf3fd5253415ce55e73f9ac3b00\n";

/// The report of the three sessions with these traces.
fn three_with(alloc: Global, traces: &[&str; 3]) -> Result<String, Fail> {
    let parts = [
        "session 0 done\ntrace ",
        traces[0],
        FIRST_EVIDENCE,
        "session 1 failed 4 no-artefact\ntrace ",
        traces[1],
        "\nsession 2 done\ntrace ",
        traces[2],
        THIRD_EVIDENCE,
    ];
    let mut text = String::new(alloc);
    for part in parts {
        text.push_str(part)?;
    }
    Ok(text)
}

/// Walks the three sessions by each of these numbers, and checks their traces.
fn expect_three(rt: &impl Abort, alloc: Global, table: &[(&str, [&str; 3])]) -> Result<(), Fail> {
    for (words, traces) in table {
        let report = three_with(alloc, traces)?;
        let want = (Status::SomeFailed, report.as_str());
        expect_run(rt, alloc, words, THREE_SESSIONS, &WHOLE, want)?;
    }
    Ok(())
}

#[test]
fn sessions_take_turns_and_one_fails(rt: HostRuntime) -> Result<(), Fail> {
    let table = [
        ("walk 0", ["0 1 2 3 4 5", "0 1 2 3", "0 1 2 3 4 5 6"]),
        ("walk 1", ["0 2 3 1 4 5", "0 1 2 3", "0 5 1 2 3 4 6"]),
        ("walk 2", ["0 1 2 3 4 5", "0 1 2 3", "0 5 1 2 3 4 6"]),
        ("walk 10", ["0 1 2 3 4 5", "0 2 1 3", "0 1 2 3 4 5 6"]),
        ("walk 11", ["0 2 3 4 1 5", "0 2 1 3", "0 1 5 2 3 4 6"]),
        ("walk 26", ["0 1 2 3 4 5", "0 1 2 3", "0 1 2 5 3 4 6"]),
        (
            "walk 4294967295",
            ["0 2 3 1 4 5", "0 1 2 3", "0 5 1 2 3 4 6"],
        ),
    ];
    expect_three(&rt, rt.alloc(), &table)
}
