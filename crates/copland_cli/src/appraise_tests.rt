use crate::status::Status;
use crate::test_runs::{JOB_HEAD, WHOLE, expect_run};
use std::alloc::Global;
use std::process::Abort;
use std::test::Fail;

// Verdicts on bundles, and bundles with marks. The bundles and the reports were made by an independent program in
// another language.

/// A job of one session with this phrase, with references at the measurement `scan` of its place and a bundle.
fn job_with(alloc: Global, phrase: &str, references: &str, bundle: &str) -> Result<String, Fail> {
    let mut job = String::from_str(alloc, JOB_HEAD)?;
    job.push_str(phrase)?;
    job.push_str("\"}]")?;
    let mut comma = ",\"references\":[";
    for answer in references.split(' ') {
        if !answer.is_empty() {
            job.push_str(comma)?;
            job.push_str("{\"place\":\"bank\",\"asp\":\"scan\",\"answer\":\"")?;
            job.push_str(answer)?;
            job.push_str("\"}")?;
            comma = ",";
        }
    }
    if comma == "," {
        job.push_str("]")?;
    }
    if !bundle.is_empty() {
        job.push_str(",\"bundle\":{\"session\":0,\"bytes\":\"")?;
        job.push_str(bundle)?;
        job.push_str("\"}")?;
    }
    job.push_str("}")?;
    Ok(job)
}

/// The phrase, references and bundle of a job, and what is answered and written.
type Row<'a> = (&'a str, &'a str, &'a str, Status, &'a str);

fn expect_rows(rt: &impl Abort, alloc: Global, words: &str, table: &[Row<'_>]) -> Result<(), Fail> {
    for (phrase, references, bundle, status, report) in table {
        let job = job_with(alloc, phrase, references, bundle)?;
        expect_run(rt, alloc, words, job.as_str(), &WHOLE, (*status, report))?;
    }
    Ok(())
}

#[test]
fn bundles_are_appraised(rt: HostRuntime) -> Result<(), Fail> {
    let alloc = rt.alloc();
    let table = [
        (
            "USM scan",
            "aabb",
            "43504c42010000001a02000000000002aabb01000102030405060708090a0b0c0d0e0f",
            Status::Good,
            "appraise session 0\nleaf 0 ok\nnonce ok\naccepted\n",
        ),
        (
            "USM scan",
            "aabc",
            "43504c42010000001a02000000000002aabb01000102030405060708090a0b0c0d0e0f",
            Status::Rejected,
            "appraise session 0\nleaf 0 bad\nnonce ok\nrejected\n",
        ),
        (
            "USM scan",
            "aabc aabb",
            "43504c42010000001a02000000000002aabb01000102030405060708090a0b0c0d0e0f",
            Status::Good,
            "appraise session 0\nleaf 0 ok\nnonce ok\naccepted\n",
        ),
        (
            "USM scan",
            "",
            "43504c42010000001a02000000000002aabb01000102030405060708090a0b0c0d0e0f",
            Status::NoReference,
            "error: no reference 0\n",
        ),
        (
            "USM scan",
            "aabb",
            "43504c42010000001101000102030405060708090a0b0c0d0e0f",
            Status::BadBundle,
            "error: bad bundle shape 0\n",
        ),
        (
            "USM scan",
            "aabb",
            "43504c42010000001a02000000000002aabb01000102030405060708090a0b0c0d0e",
            Status::BadBundle,
            "error: bad bundle at 34 short\n",
        ),
        (
            "USM scan",
            "aabb",
            "",
            Status::BadJob,
            "error: job $.bundle missing\n",
        ),
        (
            "USM scan",
            "aabb",
            "43504c42020000001b0200000000000002aabb01000102030405060708090a0b0c0d0e0f",
            Status::Good,
            "appraise session 0\nleaf 0 ok\nnonce ok\naccepted\n",
        ),
        (
            "USM scan",
            "aabb",
            "43504c42020000001b0200000000010002aabb01000102030405060708090a0b0c0d0e0f",
            Status::BadBundle,
            "error: bad bundle shape 0\n",
        ),
        (
            "USM scan -> HSH",
            "aabc aabb",
            "43504c42010000001a02000000000002aabb01000102030405060708090a0b0c0d0e0f",
            Status::Ambiguous,
            "error: ambiguous reference 0\n",
        ),
        (
            "USM scan -> NUL",
            "",
            "43504c42010000000100",
            Status::Good,
            "appraise session 0\naccepted\n",
        ),
        (
            "USM scan -> SIG",
            "aabb",
            "43504c42010000003f0400000001bf3d4bf059e139949ebbf67a3cddf4cb9491800b555a0367c1f2ffe4ba66293102000000000002aabb01000102030405060708090a0b0c0d0e0f",
            Status::Good,
            "appraise session 0\nseal 1 ok\nleaf 0 ok\nnonce ok\naccepted\n",
        ),
        (
            "USM scan -> SIG",
            "aabb",
            "43504c42010000003f0400000001bf3d4bf059e139949ebbf67a3cddf4cb9491800b555a0367c1f2ffe4ba66293102000000000002aabc01000102030405060708090a0b0c0d0e0f",
            Status::Rejected,
            "appraise session 0\nseal 1 bad\nleaf 0 bad\nnonce ok\nrejected\n",
        ),
        (
            "USM scan -> HSH",
            "aabb",
            "43504c4201000000250500000001db62ea3e032ee2369ea75fc54c15e3cd0faf7973cf259061ff98389973dc3a62",
            Status::Good,
            "appraise session 0\nhash 1 ok\naccepted\n",
        ),
        (
            "USM scan -> HSH",
            "aabb",
            "43504c42010000002505000000011f3a01f0e0d33adc45ca0e6d0df5f3605ae944a9119ea26798a5740ec29d7eb8",
            Status::Rejected,
            "appraise session 0\nhash 1 bad\nrejected\n",
        ),
        (
            "USM scan -> (CPY +<+ CPY)",
            "aabb aabc",
            "43504c4201000000350602000000000002aabb01000102030405060708090a0b0c0d0e0f02000000000002aabc01000102030405060708090a0b0c0d0e0f",
            Status::Rejected,
            "appraise session 0\nleaf 0 ok\nnonce ok\nleaf 0 bad\nnonce ok\nrejected\n",
        ),
    ];
    expect_rows(&rt, alloc, "appraise", &table)
}

#[test]
fn bundles_are_upgraded(rt: HostRuntime) -> Result<(), Fail> {
    let alloc = rt.alloc();
    let table = [
        (
            "USM scan",
            "",
            "43504c42010000001a02000000000002aabb01000102030405060708090a0b0c0d0e0f",
            Status::Good,
            "upgrade session 0\nbundle 43504c42020000001b0200000000000002aabb01000102030405060708090a0b0c0d0e0f\n",
        ),
        (
            "USM scan",
            "",
            "43504c42020000001b0200000000000002aabb01000102030405060708090a0b0c0d0e0f",
            Status::Good,
            "upgrade session 0\nbundle 43504c42020000001b0200000000000002aabb01000102030405060708090a0b0c0d0e0f\n",
        ),
        (
            "USM scan",
            "",
            "43504c42020000001b0200000000010002aabb01000102030405060708090a0b0c0d0e0f",
            Status::BadBundle,
            "error: bad bundle shape 0\n",
        ),
        (
            "USM scan",
            "",
            "43504c42010000001101000102030405060708090a0b0c0d0e0f",
            Status::BadBundle,
            "error: bad bundle shape 0\n",
        ),
        (
            "USM scan",
            "",
            "43504c42010000001a02000000000002aabb01000102030405060708090a0b0c0d0e",
            Status::BadBundle,
            "error: bad bundle at 34 short\n",
        ),
        (
            "USM scan",
            "",
            "",
            Status::BadJob,
            "error: job $.bundle missing\n",
        ),
        (
            "USM scan -> (CPY +<+ CPY)",
            "",
            "43504c4201000000350602000000000002aabb01000102030405060708090a0b0c0d0e0f02000000000002aabb01000102030405060708090a0b0c0d0e0f",
            Status::Good,
            "upgrade session 0\nbundle 43504c420200000037060200000000000002aabb01000102030405060708090a0b0c0d0e0f0200000000000002aabb01000102030405060708090a0b0c0d0e0f\n",
        ),
    ];
    expect_rows(&rt, alloc, "upgrade", &table)
}
