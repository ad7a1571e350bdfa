use crate::status::Status;
use crate::test_runs::{WHOLE, expect_run, expect_with};
use bench_trait::TableBench;
use std::test::Fail;

// Made jobs. The figures are those of two independent programs in another language; where no session is done,
// the digest is that of no bytes.

const LOAD_0: &str =
    "load 0\nsessions 256\nevents 11301\ndone 256\naccepted 256\ndigest e22af1deb41c9b7f2853170cb3f53a1daffdd3bdf02ad735e9f6682cc5bf2bff\n";

const LOAD_1: &str =
    "load 1\nsessions 256\nevents 11156\ndone 256\naccepted 256\ndigest 89b5d27ce379022de644d96a74dc064390009e2693830f4cb459a793da86bf09\n";

const LOAD_7: &str =
    "load 7\nsessions 256\nevents 11495\ndone 256\naccepted 256\ndigest f830dc4200b4aea2cb85719d622ea019bf5ed12e73db90e2128d5158d2c108f2\n";

const NOTHING_DONE: &str =
    "load 7\nsessions 256\nevents 11495\ndone 0\naccepted 0\ndigest e3b0c44298fc1c149afbf4c8996fb92427ae41e4649b934ca495991b7852b855\n";

#[test]
fn made_jobs_are_run_and_appraised(rt: HostRuntime) -> Result<(), Fail> {
    let alloc = rt.alloc();
    let table = [
        ("load 0", LOAD_0),
        ("load 1", LOAD_1),
        ("load 7", LOAD_7),
        ("load 7", LOAD_7),
    ];
    for (words, report) in table {
        expect_run(&rt, alloc, words, "", &WHOLE, (Status::Good, report))?;
    }
    Ok(())
}

#[test]
fn sessions_of_a_made_job_may_fail(rt: HostRuntime) -> Result<(), Fail> {
    let alloc = rt.alloc();
    let bench = TableBench::of(Vec::new(alloc));
    let want = (Status::SomeFailed, NOTHING_DONE);
    expect_with(&rt, alloc, "load 7", "", &WHOLE, &bench, want)
}
