use crate::status::Status;
use crate::test_runs::{WHOLE, expect_each, expect_run, job_of};
use std::alloc::Global;
use std::process::Abort;
use std::test::Fail;

// Claims about the order of measurements in whole jobs. The reports were made by an independent program in
// another language.

const BANK: &str =
    "{\"places\":[{\"name\":\"bank\",\"key\":\"000102030405060708090a0b0c0d0e0f\",\"asks\":[\"ks\",\"us\"]},{\"name\":\"ks\",\"key\":\"101112131415161718191a1b1c1d1e1f\",\"sees\":[\"us\"],\"offers\":[\"kernel\"]},{\"name\":\"us\",\"key\":\"202122232425262728292a2b2c2d2e2f\",\"offers\":[\"scanner\",\"files\"]}],\"sessions\":[{\"root\":\"bank\",\"nonce\":\"f0f1f2f3f4f5f6f7f8f9fafbfcfdfeff\",\"phrase\":\"@ks [KIM us kernel -> SIG] +<+ @us [USM scanner -> USM files etc -> SIG]\"}]}";

const TWO_SESSIONS: &str =
    "{\"places\":[{\"name\":\"bank\",\"key\":\"000102030405060708090a0b0c0d0e0f\",\"offers\":[\"a\",\"b\"]}],\"sessions\":[{\"root\":\"bank\",\"nonce\":\"000102030405060708090a0b0c0d0e0f\",\"phrase\":\"USM a +~+ USM b\"},{\"root\":\"bank\",\"nonce\":\"100102030405060708090a0b0c0d0e0f\",\"phrase\":\"USM a -> USM b\"}]}";

/// Runs each of these words on the job of one session with its phrase.
fn expect_phrases(
    rt: &impl Abort,
    alloc: Global,
    table: &[(&str, &str, Status, &str)],
) -> Result<(), Fail> {
    for (phrase, words, status, report) in table {
        let job = job_of(alloc, phrase)?;
        let want = (*status, *report);
        expect_run(rt, alloc, words, job.as_str(), &WHOLE, want)?;
    }
    Ok(())
}

#[test]
fn claims_are_judged_over_every_trace(rt: HostRuntime) -> Result<(), Fail> {
    let table = [
        (
            "USM a +~- USM b",
            "order a@bank<b@bank",
            Status::ClaimBroken,
            "session 0 claim 0 broken 2\ntrace 0 2 1 3\n",
        ),
        (
            "USM a -<+ USM b",
            "order a@bank<b@bank",
            Status::Good,
            "session 0 claim 0 holds 1\n",
        ),
        (
            "USM a",
            "order x@bank<a@bank",
            Status::ClaimBroken,
            "session 0 claim 0 broken 0\ntrace 0\n",
        ),
        (
            "USM a",
            "order a@bank<x@bank",
            Status::Good,
            "session 0 claim 0 holds 0\n",
        ),
        (
            "USM a",
            "order a@bank<<a@bank",
            Status::ClaimBroken,
            "session 0 claim 0 broken 0\ntrace 0\n",
        ),
        (
            "USM a +~- @q [USM scan]",
            "order scan@q<<a@bank;a@bank<<scan@q;scan@bank<a@bank",
            Status::ClaimBroken,
            "session 0 claim 0 broken 1\ntrace 0 1 2 3 4 5\nsession 0 claim 1 broken 3\ntrace 0 2 3 1 4 5\nsession 0 claim 2 broken 1\ntrace 0 1 2 3 4 5\n",
        ),
    ];
    expect_phrases(&rt, rt.alloc(), &table)
}

#[test]
fn claims_are_judged_in_each_session(rt: HostRuntime) -> Result<(), Fail> {
    let alloc = rt.alloc();
    let table = [(
        "order kernel@ks<scanner@us;scanner@us<kernel@ks",
        Status::ClaimBroken,
        "session 0 claim 0 holds 1\nsession 0 claim 1 broken 2\ntrace 0 1 2 3 4 5 6 7 8 9 10\n",
    )];
    expect_each(&rt, alloc, BANK, &table)?;
    let table = [
        (
            "order a@bank<b@bank",
            Status::ClaimBroken,
            "session 0 claim 0 broken 2\ntrace 0 2 1 3\nsession 1 claim 0 holds 1\n",
        ),
        (
            "order b@bank<x@bank",
            Status::Good,
            "session 0 claim 0 holds 0\nsession 1 claim 0 holds 0\n",
        ),
    ];
    expect_each(&rt, alloc, TWO_SESSIONS, &table)
}

/// Words with this claim so many times.
fn repeated(alloc: Global, claim: &str, count: u32) -> Result<String, Fail> {
    let mut words = String::from_str(alloc, "order ")?;
    for index in 0..count {
        if index > 0 {
            words.push_str(";")?;
        }
        words.push_str(claim)?;
    }
    Ok(words)
}

#[test]
fn words_that_spell_no_claims_are_wrong(rt: HostRuntime) -> Result<(), Fail> {
    let alloc = rt.alloc();
    let table = [
        ("order", Status::BadWords, "error: words\n"),
        ("order ;", Status::BadWords, "error: words\n"),
        ("order a@bank<b@bank;", Status::BadWords, "error: words\n"),
        ("order ;a@bank<b@bank", Status::BadWords, "error: words\n"),
        ("order a@bank<<<b@bank", Status::BadWords, "error: words\n"),
        ("order A@bank<b@bank", Status::BadWords, "error: words\n"),
        (
            "order a@bank<b@bank a@bank",
            Status::BadWords,
            "error: words\n",
        ),
        ("order a@bank<b@bank", Status::NotJson, "error: not json\n"),
    ];
    expect_each(&rt, alloc, "", &table)?;
    let most = repeated(alloc, "a@bank<b@bank", 64)?;
    let read = (Status::NotJson, "error: not json\n");
    expect_run(&rt, alloc, most.as_str(), "", &WHOLE, read)?;
    let many = repeated(alloc, "a@bank<b@bank", 65)?;
    let wrong = (Status::BadWords, "error: words\n");
    expect_run(&rt, alloc, many.as_str(), "", &WHOLE, wrong)
}
