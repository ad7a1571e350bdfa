use crate::status::Status;
use crate::test_runs::{WHOLE, chain_of, expect_front, expect_run, job_of};
use std::alloc::Global;
use std::process::Abort;
use std::test::Fail;

// Refusals of jobs, each by a whole job in which one thing is wrong. The lines were made by an independent
// program in another language.

/// A whole job of one session with the phrase `CPY`.
const COPYING: &str =
    "{\"places\":[{\"name\":\"bank\",\"key\":\"000102030405060708090a0b0c0d0e0f\",\"asks\":[\"q\"],\"sees\":[\"q\"],\"offers\":[\"scan\",\"a\",\"b\"]},{\"name\":\"q\",\"key\":\"101112131415161718191a1b1c1d1e1f\",\"offers\":[\"scan\"]}],\"sessions\":[{\"root\":\"bank\",\"nonce\":\"000102030405060708090a0b0c0d0e0f\",\"phrase\":\"CPY\"}]}";

/// Runs `check` and `walk 0` on a job, and expects the same refusal of both.
fn expect_refused(
    rt: &impl Abort,
    alloc: Global,
    job: &str,
    want: (Status, &str),
) -> Result<(), Fail> {
    expect_run(rt, alloc, "check", job, &WHOLE, want)?;
    expect_run(rt, alloc, "walk 0", job, &WHOLE, want)
}

fn expect_inputs(
    rt: &impl Abort,
    alloc: Global,
    table: &[(&str, (Status, &str))],
) -> Result<(), Fail> {
    for (input, want) in table {
        expect_refused(rt, alloc, input, *want)?;
    }
    Ok(())
}

/// Puts one text into the job in place of another, for each row.
fn expect_changed(
    rt: &impl Abort,
    alloc: Global,
    table: &[(&str, &str, Status, &str)],
) -> Result<(), Fail> {
    for (from, to, status, line) in table {
        let job = COPYING.replacen(alloc, from, to, 1)?;
        expect_refused(rt, alloc, job.as_str(), (*status, *line))?;
    }
    Ok(())
}

/// Refuses a job of each phrase so.
fn expect_phrases(
    rt: &impl Abort,
    alloc: Global,
    status: Status,
    table: &[(&str, &str)],
) -> Result<(), Fail> {
    for (phrase, line) in table {
        let job = job_of(alloc, phrase)?;
        expect_refused(rt, alloc, job.as_str(), (status, *line))?;
    }
    Ok(())
}

#[test]
fn faults_of_form_are_refused(rt: HostRuntime) -> Result<(), Fail> {
    let alloc = rt.alloc();
    let inputs = [
        ("", (Status::NotJson, "error: not json\n")),
        ("{", (Status::NotJson, "error: not json\n")),
        ("[]", (Status::BadJob, "error: job $ wrong-kind\n")),
        ("{}", (Status::BadJob, "error: job $.places missing\n")),
    ];
    expect_inputs(&rt, alloc, &inputs)?;
    let first_key = "\"key\":\"000102030405060708090a0b0c0d0e0f\"";
    let table = [
        (
            first_key,
            "\"key\":\"00\"",
            Status::BadJob,
            "error: job $.places[0].key out-of-range\n",
        ),
        (
            first_key,
            "\"key\":\"0g\"",
            Status::BadJob,
            "error: job $.places[0].key bad-hex\n",
        ),
        (
            first_key,
            "\"key\":7",
            Status::BadJob,
            "error: job $.places[0].key wrong-kind\n",
        ),
        (
            "\"asks\":[\"q\"]",
            "\"asks\":[\"q\",\"Q\"]",
            Status::BadJob,
            "error: job $.places[0].asks[1] bad-name\n",
        ),
        (
            "\"phrase\":\"CPY\"",
            "\"phrase\":\"CPY\",\"x\":1",
            Status::BadJob,
            "error: job $.sessions[0] unknown\n",
        ),
        (
            ",\"phrase\":\"CPY\"",
            "",
            Status::BadJob,
            "error: job $.sessions[0].phrase missing\n",
        ),
    ];
    expect_changed(&rt, alloc, &table)
}

#[test]
fn repeats_and_bad_roots_are_refused(rt: HostRuntime) -> Result<(), Fail> {
    let session =
        "{\"root\":\"bank\",\"nonce\":\"000102030405060708090a0b0c0d0e0f\",\"phrase\":\"CPY\"}";
    let three =
        "{\"root\":\"bank\",\"nonce\":\"000102030405060708090a0b0c0d0e0f\",\"phrase\":\"CPY\"},{\"root\":\"bank\",\"nonce\":\"100102030405060708090a0b0c0d0e0f\",\"phrase\":\"CPY\"},{\"root\":\"bank\",\"nonce\":\"000102030405060708090A0B0C0D0E0F\",\"phrase\":\"CPY\"}";
    let artefacts =
        "\"artefacts\":[{\"place\":\"q\",\"name\":\"a\",\"bytes\":\"\"},{\"place\":\"bank\",\"name\":\"a\",\"bytes\":\"\"},{\"place\":\"q\",\"name\":\"a\",\"bytes\":\"00\"}],\"sessions\"";
    let references =
        "\"references\":[{\"place\":\"bank\",\"asp\":\"a\",\"args\":[1],\"answer\":\"aa\"},{\"place\":\"bank\",\"asp\":\"a\",\"answer\":\"aa\"},{\"place\":\"bank\",\"target\":\"q\",\"asp\":\"a\",\"args\":[1],\"answer\":\"aa\"},{\"place\":\"bank\",\"asp\":\"a\",\"args\":[1],\"answer\":\"aa\"}],\"sessions\"";
    let table = [
        (
            "\"name\":\"q\"",
            "\"name\":\"bank\"",
            Status::RepeatedPlace,
            "error: repeated place 0 1\n",
        ),
        (
            "\"sessions\"",
            artefacts,
            Status::RepeatedArtefact,
            "error: repeated artefact 0 2\n",
        ),
        (
            "\"sessions\"",
            references,
            Status::RepeatedReference,
            "error: repeated reference 0 3\n",
        ),
        (
            "\"root\":\"bank\"",
            "\"root\":\"zz\"",
            Status::BadRoot,
            "error: bad root 0\n",
        ),
        (
            session,
            three,
            Status::RepeatedNonce,
            "error: repeated nonce 0 2\n",
        ),
    ];
    expect_changed(&rt, rt.alloc(), &table)
}

#[test]
fn phrases_and_events_are_refused(rt: HostRuntime) -> Result<(), Fail> {
    let alloc = rt.alloc();
    let table = [
        ("", "error: phrase 0 0 expected\n"),
        ("USM scan -> ", "error: phrase 0 12 expected\n"),
        ("CPY CPY", "error: phrase 0 4 trailing\n"),
        ("CPY +<* CPY", "error: phrase 0 6 char\n"),
        ("USM Scan", "error: phrase 0 4 word\n"),
        ("USM a 007", "error: phrase 0 6 word\n"),
        ("USM a 4294967296", "error: phrase 0 6 number-too-large\n"),
        ("USM a b c d e f", "error: phrase 0 14 too-many-args\n"),
    ];
    expect_phrases(&rt, alloc, Status::BadPhrase, &table)?;
    let table = [
        ("@q [USM a]", "error: misplaced 0 1 not-offered\n"),
        ("@q [@bank [CPY]]", "error: misplaced 0 1 may-not-ask\n"),
        ("@zz [CPY] -> USM x", "error: misplaced 0 0 unknown-place\n"),
        ("KIM bank scan", "error: misplaced 0 0 may-not-see\n"),
    ];
    expect_phrases(&rt, alloc, Status::Misplaced, &table)
}

/// A job of the phrase `CPY` in this many brackets.
fn bracketed(alloc: Global, depth: usize) -> Result<String, Fail> {
    let mut phrase = "(".repeat(alloc, depth)?;
    phrase.push_str("CPY")?;
    phrase.push_str(")".repeat(alloc, depth)?.as_str())?;
    job_of(alloc, phrase.as_str())
}

/// A job of the phrase `CPY` with this many spaces behind it.
fn spaced(alloc: Global, count: usize) -> Result<String, Fail> {
    let mut phrase = String::from_str(alloc, "CPY")?;
    phrase.push_str(" ".repeat(alloc, count)?.as_str())?;
    job_of(alloc, phrase.as_str())
}

#[test]
fn limits_of_a_phrase_are_met_and_passed(rt: HostRuntime) -> Result<(), Fail> {
    let alloc = rt.alloc();
    // Open brackets: 64, and one more.
    let copy = "session 0 ok events 1 weight 17\nphrase CPY\n";
    expect_front(&rt, alloc, &["check"], bracketed(alloc, 64)?.as_str(), copy)?;
    let deep = (Status::BadPhrase, "error: phrase 0 64 too-deep\n");
    expect_refused(&rt, alloc, bracketed(alloc, 65)?.as_str(), deep)?;
    // Bytes: 65,536, and more.
    expect_front(&rt, alloc, &["check"], spaced(alloc, 65533)?.as_str(), copy)?;
    let long = (Status::BadPhrase, "error: phrase 0 65536 too-long\n");
    expect_refused(&rt, alloc, spaced(alloc, 65534)?.as_str(), long)
}

/// The front of the report of `check` on a job of a chain of parts.
fn expect_light(
    rt: &impl Abort,
    alloc: Global,
    parts: &[(&str, u32)],
    front: &str,
) -> Result<(), Fail> {
    let job = job_of(alloc, chain_of(alloc, parts)?.as_str())?;
    expect_front(rt, alloc, &["check"], job.as_str(), front)
}

/// The refusal of a job of a chain of parts.
fn expect_beyond(
    rt: &impl Abort,
    alloc: Global,
    parts: &[(&str, u32)],
    want: (Status, &str),
) -> Result<(), Fail> {
    let job = job_of(alloc, chain_of(alloc, parts)?.as_str())?;
    expect_refused(rt, alloc, job.as_str(), want)
}

// The chains of 1,024 `SIG` and of 2,048 `CPY` stand among the reports.
#[test]
fn limits_of_events_and_nest_are_passed(rt: HostRuntime) -> Result<(), Fail> {
    let alloc = rt.alloc();
    let many = (Status::BadPhrase, "error: phrase 0 14336 too-many-events\n");
    expect_beyond(&rt, alloc, &[("CPY", 2049)], many)?;
    let nested = (Status::Oversize, "error: oversize 0 1024\n");
    expect_beyond(&rt, alloc, &[("SIG", 1025)], nested)
}

#[test]
fn limits_of_weight_are_met(rt: HostRuntime) -> Result<(), Fail> {
    let alloc = rt.alloc();
    let heavy = "session 0 ok events 254 weight 261891\n";
    expect_light(&rt, alloc, &[("USM a", 254)], heavy)?;
    let full = "session 0 ok events 825 weight 262144\n";
    expect_light(&rt, alloc, &[("USM a", 233), ("SIG", 592)], full)?;
    let joined = "session 0 ok events 896 weight 262143\n";
    let parts = [("USM a", 233), ("SIG", 591), ("(CPY -<+ CPY)", 18)];
    expect_light(&rt, alloc, &parts, joined)
}

#[test]
fn limits_of_weight_are_passed(rt: HostRuntime) -> Result<(), Fail> {
    let alloc = rt.alloc();
    let measured = (Status::Oversize, "error: oversize 0 254\n");
    expect_beyond(&rt, alloc, &[("USM a", 255)], measured)?;
    let sealed = (Status::Oversize, "error: oversize 0 825\n");
    expect_beyond(&rt, alloc, &[("USM a", 233), ("SIG", 593)], sealed)?;
    let joined = (Status::Oversize, "error: oversize 0 899\n");
    let parts = [("USM a", 233), ("SIG", 591), ("(CPY -<+ CPY)", 19)];
    expect_beyond(&rt, alloc, &parts, joined)?;
    let parts = [
        ("USM a", 233),
        ("SIG", 591),
        ("(CPY -<+ CPY)", 19),
        ("HSH", 1),
    ];
    expect_beyond(&rt, alloc, &parts, joined)
}
