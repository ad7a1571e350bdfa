//! Workers run the sessions of made jobs behind a desk.
ghost use Rattle.std.specs.Prelude.{◌≡◌, ◌<◌, ◌≤◌, IfOk, length};
ghost use Rattle.job_reader.specs.Accepted.{HasCheckedSessions};
ghost use Rattle.session_desk.specs.Opening.{AreJustOpened, AreOpenedOver};

use bench_trait::{ArtefactBook, Bench, DigestBench};
use job_reader::Job;
use load_maker::load_job;
use manager_runner::{run, workers_law};
use phrase_tree::NoMemory;
use session_core::Session;
use session_desk::Desk;
use session_model::Record;
use sha2::{Digest, Sha256};
use std::alloc::Global;
use std::sync::Wait;
use std::test::Fail;
use std::thread::Threads;

/// The sessions of a job, just opened, in their order.
fn opened<'a, B: Bench>(
    alloc: Global,
    job: &'a Job,
    bench: &'a B,
) -> Result<Vec<Session<'a, B>>, NoMemory>
    requires { HasCheckedSessions job.now }
    ensures just { IfOk result (λ sessions. AreJustOpened sessions.items) }
    ensures over { IfOk result (λ sessions. AreOpenedOver bench.now job.now.artefacts sessions.items) }
{
    let mut sessions = Vec::new(alloc);
    for checked in job.sessions.as_slice() {
        let session = match Session::open(alloc, checked, &job.places, &job.artefacts, bench) {
            Ok(session) => session,
            Err(short) => return Err(short),
        };
        match sessions.push(session) {
            Ok(()) => {}
            Err(_) => return Err(NoMemory),
        }
    }
    Ok(sessions)
}

/// Their records, by so many workers.
fn ran<'a, R: Threads + Wait + Sync, B: Bench + Sync>(
    rt: &R,
    alloc: Global,
    sessions: Vec<Session<'a, B>>,
    artefacts: &ArtefactBook,
    bench: &B,
    workers: u32,
) -> Result<Vec<Record>, NoMemory>
    requires count { length sessions.items ≤ 256 }
    requires just { AreJustOpened sessions.items }
    requires over { AreOpenedOver bench.now artefacts.now sessions.items }
    requires workers { (0 < workers) × (workers < 100) }
{
    workers_law(bench, artefacts);
    match Desk::open(alloc, sessions, workers + 1) {
        Ok((desk, mut passes)) => match passes.pop() {
            Some(mut closer) => run(
                rt,
                alloc,
                &desk,
                artefacts,
                bench,
                passes.as_mut_slice(),
                &mut closer,
            ),
            None => Err(NoMemory),
        },
        Err(short) => Err(short),
    }
}

/// The records of a job's sessions, by so many workers.
fn records<R: Threads + Wait + Sync>(
    rt: &R,
    alloc: Global,
    job: &Job,
    workers: u32,
) -> Result<Vec<Record>, NoMemory>
    requires checked { HasCheckedSessions job.now }
    requires workers { (0 < workers) × (workers < 100) }
{
    let sessions = match opened(alloc, job, &DigestBench) {
        Ok(sessions) => sessions,
        Err(short) => return Err(short),
    };
    if sessions.len() > 256 {
        return Err(NoMemory);
    }
    ran(rt, alloc, sessions, &job.artefacts, &DigestBench, workers)
}

/// How many sessions are done, and the digest of their bundles, one behind the other.
fn digest_of(alloc: Global, records: &[Record]) -> Result<(u32, String), Fail> {
    let mut hasher = Sha256::new();
    let mut done: u32 = 0;
    for record in records {
        match record {
            Record::Done(found) => {
                hasher.update(found.bundle.items());
                done = done.wrapping_add(1);
            }
            Record::Failed(_) => {}
        }
    }
    let digest: [u8; 32] = hasher.finalize();
    Ok((done, hex::encode(alloc, digest)?))
}

// The digests are those of an independent program.
#[test]
fn workers_make_the_bundles_of_made_jobs(rt: HostRuntime) -> Result<(), Fail> {
    let alloc = rt.alloc();
    let rows = [
        (
            0,
            "e22af1deb41c9b7f2853170cb3f53a1daffdd3bdf02ad735e9f6682cc5bf2bff",
        ),
        (
            1,
            "89b5d27ce379022de644d96a74dc064390009e2693830f4cb459a793da86bf09",
        ),
        (
            7,
            "f830dc4200b4aea2cb85719d622ea019bf5ed12e73db90e2128d5158d2c108f2",
        ),
    ];
    for (number, digest) in rows {
        let job = load_job(alloc, number)?;
        for workers in [1, 4, 16] {
            let found = records(&rt, alloc, &job, workers)?;
            assert_eq!(rt; found.len(), 256, "{number} by {workers}");
            let (done, text) = digest_of(alloc, found.as_slice())?;
            assert_eq!(rt; done, 256, "{number} by {workers}");
            assert_eq!(rt; text.as_str(), digest, "{number} by {workers}");
        }
    }
    Ok(())
}
