use crate::job::load_job;
use crate::laws::made_questions_are_answered;
use bench_trait::AskKind;
use job_reader::Job;
use phrase_reader::print;
use place_check::{Checked, PlaceEntry};
use reference_book::Reference;
use sha2::{Digest, Sha256};
use std::alloc::Global;
use std::process::Abort;
use std::test::Fail;

fn feed_place(hasher: &mut Sha256, entry: &PlaceEntry) {
    hasher.update(entry.name.bytes());
    hasher.update(entry.key.bytes());
}

fn feed_session(alloc: Global, hasher: &mut Sha256, session: &Checked) -> Result<u32, Fail> {
    let root = session.root();
    hasher.update(root.bytes());
    hasher.update(session.nonce());
    let phrase = session.phrase();
    let text = print(alloc, phrase)?;
    hasher.update(text.items());
    Ok(phrase.events())
}

fn feed_reference(hasher: &mut Sha256, reference: &Reference) {
    hasher.update(reference.place.bytes());
    match reference.kind {
        AskKind::Usm => {}
        AskKind::Kim(target) => hasher.update(target.bytes()),
    }
    hasher.update(reference.asp.name.bytes());
    hasher.update(reference.answer.bytes());
}

/// The digest of what a job holds, with the number of its events and that of the longest session.
fn summary(rt: &impl Abort, alloc: Global, job: &Job) -> Result<(u64, u32, String), Fail> {
    let mut hasher = Sha256::new();
    for entry in job.places.items() {
        feed_place(&mut hasher, entry);
    }
    for place in job.places.items() {
        for name in place.offers.items() {
            hasher.update(place.name.bytes());
            hasher.update(name.bytes());
            let found = job.artefacts.find(place.name, *name);
            hasher.update(found.expect(rt, "an artefact"));
        }
    }
    let mut events: u64 = 0;
    let mut longest: u32 = 0;
    for session in &job.sessions {
        let count = feed_session(alloc, &mut hasher, session)?;
        events = events.saturating_add(u64::from(count));
        longest = longest.max(count);
    }
    for reference in job.references.items() {
        feed_reference(&mut hasher, reference);
    }
    let digest: [u8; 32] = hasher.finalize();
    Ok((events, longest, hex::encode(alloc, digest)?))
}

// From another program.
#[test]
fn jobs_are_those_of_another_program(rt: HostRuntime) -> Result<(), Fail> {
    let alloc = rt.alloc();
    made_questions_are_answered();
    let rows = [
        (
            0,
            11301,
            65,
            "32a03bfb3b84f1eeae2b1e34d7d5d22475f6067233f75bcd49bc399d312b4c83",
        ),
        (
            7,
            11495,
            74,
            "5a5e05d56eb36a73e19d4200d79229a71a9c25be53a8262dad4c0fa9c20e9c10",
        ),
        (
            4294967295,
            11452,
            68,
            "01a816d2d1b3ae5c6c2083b6ac347200bd572cbbd69c3b72c475ae89980b5169",
        ),
    ];
    for (number, events, longest, digest) in rows {
        let job = load_job(alloc, number)?;
        assert_eq!(rt; job.places.count(), 8, "{number}");
        assert_eq!(rt; job.sessions.len(), 256, "{number}");
        assert_eq!(rt; job.references.items().len(), 576, "{number}");
        assert!(rt; job.bundle.is_none());
        let (found, most, text) = summary(&rt, alloc, &job)?;
        assert_eq!(rt; found, events, "{number}");
        assert_eq!(rt; most, longest, "{number}");
        assert_eq!(rt; text.as_str(), digest, "{number}");
    }
    Ok(())
}
