use crate::status::Status;
use crate::test_runs::{JOB_HEAD, WHOLE, expect_measured, expect_run, expect_with, row, rows_of};
use bench_trait::{TableBench, TableResult};
use std::alloc::Global;
use std::process::Abort;
use std::test::Fail;

// Audits of transcripts. The transcripts and the reports were made by an independent program in another language.

/// A job of one session with this phrase, with a transcript as its bundle.
fn job_with(alloc: Global, phrase: &str, transcript: &str) -> Result<String, Fail> {
    let mut job = String::from_str(alloc, JOB_HEAD)?;
    job.push_str(phrase)?;
    job.push_str("\"}],\"bundle\":{\"session\":0,\"bytes\":\"")?;
    job.push_str(transcript)?;
    job.push_str("\"}}")?;
    Ok(job)
}

/// The phrase and transcript of a job, and what is answered and written.
type Row<'a> = (&'a str, &'a str, Status, &'a str);

fn expect_rows(rt: &impl Abort, alloc: Global, table: &[Row<'_>]) -> Result<(), Fail> {
    for (phrase, transcript, status, report) in table {
        let job = job_with(alloc, phrase, transcript)?;
        expect_run(rt, alloc, "audit", job.as_str(), &WHOLE, (*status, report))?;
    }
    Ok(())
}

#[test]
fn transcripts_are_audited(rt: HostRuntime) -> Result<(), Fail> {
    let alloc = rt.alloc();
    let copied =
        "session 0 done\ntrace 0\nbundle 43504c42010000001101000102030405060708090a0b0c0d0e0f\n";
    let table = [
        (
            "CPY",
            "43504c540100000002000000000000000000000000",
            Status::Good,
            copied,
        ),
        (
            "CPY",
            "43504c54010000000200000000070000ffffffff00",
            Status::Good,
            copied,
        ),
        (
            "USM scan",
            "43504c54010000000201000000000004000000000000000000",
            Status::SomeFailed,
            "session 0 failed 0 no-artefact\ntrace\n",
        ),
        (
            "@q [USM scan]",
            "43504c540100000004000000000000020000000001710100000000010000000004000000000000000100",
            Status::SomeFailed,
            "session 0 failed 1 no-artefact\ntrace 0\n",
        ),
        (
            "CPY",
            "43504c540100000001000000000000",
            Status::BadTranscript,
            "error: transcript unfinished\n",
        ),
        (
            "CPY",
            "43504c540100000003000000000000000000000000000000000000",
            Status::BadTranscript,
            "error: transcript entry 2 illegal\n",
        ),
        (
            "USM scan",
            "43504c5401000000030100000000000300000000000000000002aabb000000000000",
            Status::BadTranscript,
            "error: transcript entry 1 differs\n",
        ),
    ];
    expect_rows(&rt, alloc, &table)
}

#[test]
fn bytes_that_are_no_transcript_are_told(rt: HostRuntime) -> Result<(), Fail> {
    let alloc = rt.alloc();
    for (transcript, report) in [
        ("", "error: transcript at 0 short\n"),
        (
            "43504c5401000000020000000000000000000000",
            "error: transcript at 20 short\n",
        ),
        (
            "43504c54010000000200000000000000000000000000",
            "error: transcript at 21 rest\n",
        ),
        (
            "43504c540200000002000000000000000000000000",
            "error: transcript at 4 tag\n",
        ),
        (
            "43504c540100000001050000000000",
            "error: transcript at 9 tag\n",
        ),
        (
            "43504c540100000001000000000002",
            "error: transcript at 14 tag\n",
        ),
        (
            "43504c540100000001020000000000",
            "error: transcript at 14 length\n",
        ),
        (
            "43504c54010000000102000000000142",
            "error: transcript at 15 name\n",
        ),
        (
            "43504c5401000000010300000000000000000401",
            "error: transcript at 18 length\n",
        ),
    ] {
        expect_rows(
            &rt,
            alloc,
            &[("CPY", transcript, Status::BadTranscript, report)],
        )?;
    }
    Ok(())
}

#[test]
fn results_of_a_transcript_are_asked_for_again(rt: HostRuntime) -> Result<(), Fail> {
    let alloc = rt.alloc();
    let job = job_with(
        alloc,
        "USM scan",
        "43504c5401000000030100000000000300000000000000000002aabb000000000000",
    )?;
    let bench = TableBench::of(rows_of(&rt, alloc, &[(0, &[0xaa, 0xbb])])?);
    let report =
        "session 0 done\ntrace 0\nanswer 0 aabb\nbundle 43504c42010000001a02000000000002aabb01000102030405060708090a0b0c0d0e0f\n";
    let want = (Status::Good, report);
    expect_with(&rt, alloc, "audit", job.as_str(), &WHOLE, &bench, want)?;
    let mut rows = Vec::new(alloc);
    rows.push(row(0, TableResult::Starve))?;
    let want = (Status::NoMemory, "error: no memory\n");
    expect_with(
        &rt,
        alloc,
        "audit",
        job.as_str(),
        &WHOLE,
        &TableBench::of(rows),
        want,
    )
}

const TWO_SESSIONS: &str =
    "{\"places\":[{\"name\":\"bank\",\"key\":\"000102030405060708090a0b0c0d0e0f\"},{\"name\":\"q\",\"key\":\"101112131415161718191a1b1c1d1e1f\"}],\"sessions\":[{\"root\":\"bank\",\"nonce\":\"000102030405060708090a0b0c0d0e0f\",\"phrase\":\"CPY\"},{\"root\":\"q\",\"nonce\":\"101112131415161718191a1b1c1d1e1f\",\"phrase\":\"CPY -> HSH\"}],\"bundle\":{\"session\":";

#[test]
fn a_transcript_is_that_of_the_session_of_its_bundle(rt: HostRuntime) -> Result<(), Fail> {
    let alloc = rt.alloc();
    for (session, status, report) in [
        (
            "0",
            Status::BadTranscript,
            "error: transcript entry 2 illegal\n",
        ),
        (
            "1",
            Status::Good,
            "session 1 done\ntrace 0 1\nbundle 43504c420100000025050000000177f2d1b1e40936a2967a773856c25a455ff35e96f016c5b11a9ed4b7e34e07e0\n",
        ),
    ] {
        let mut job = String::from_str(alloc, TWO_SESSIONS)?;
        job.push_str(session)?;
        job.push_str(",\"bytes\":\"43504c540100000003000000000000000000000000000000000000\"}}")?;
        expect_run(&rt, alloc, "audit", job.as_str(), &WHOLE, (status, report))?;
    }
    Ok(())
}

#[test]
fn jobs_are_refused_ahead_of_their_transcripts(rt: HostRuntime) -> Result<(), Fail> {
    let alloc = rt.alloc();
    let table = [(
        "@q [USM a]",
        "00",
        Status::Misplaced,
        "error: misplaced 0 1 not-offered\n",
    )];
    expect_rows(&rt, alloc, &table)?;
    let mut job = String::from_str(alloc, JOB_HEAD)?;
    job.push_str("CPY\"}]}")?;
    let want = (Status::BadJob, "error: job $.bundle missing\n");
    expect_run(&rt, alloc, "audit", job.as_str(), &WHOLE, want)
}

#[test]
fn sessions_are_recorded(rt: HostRuntime) -> Result<(), Fail> {
    let alloc = rt.alloc();
    let bench = TableBench::of(rows_of(&rt, alloc, &[(0, &[0xaa, 0xbb])])?);
    let table = [
        (
            "CPY",
            "record 0",
            Status::Good,
            "session 0 transcript 43504c540100000002000000000000000000000000\n",
        ),
        (
            "CPY",
            "record 4294967295",
            Status::Good,
            "session 0 transcript 43504c540100000002000000000000000000000000\n",
        ),
        (
            "USM scan",
            "record 0",
            Status::Good,
            "session 0 transcript 43504c5401000000030100000000000300000000000000000002aabb000000000000\n",
        ),
        (
            "USM a +~- USM b",
            "record 0",
            Status::SomeFailed,
            "session 0 transcript 43504c54010000000300000000000001000000000004000000000000000100\n",
        ),
        (
            "USM a +~- USM b",
            "record 3",
            Status::SomeFailed,
            "session 0 transcript 43504c5401000000030000000000000100000000010000000004000000000000000200\n",
        ),
    ];
    expect_measured(&rt, alloc, &bench, &table)?;
    let mut job = String::from_str(alloc, TWO_SESSIONS)?;
    job.push_str("0,\"bytes\":\"\"}}")?;
    let report =
        "session 0 transcript 43504c540100000002000000000000000000000000\nsession 1 transcript 43504c540100000003000000000000000000000000000000000000\n";
    let want = (Status::Good, report);
    expect_run(&rt, alloc, "record 5", job.as_str(), &WHOLE, want)
}
