ghost use Rattle.std.specs.Prelude.{◌≡◌, ◌≤◌, ◌++◌, IfOk, OnOk, length, map};
ghost use Rattle.phrase_tree.specs.Term.{term};
ghost use Rattle.place_check.specs.Places.{keys_of};
ghost use Rattle.place_check.specs.Session.{IsCheckedAgainst, session_of};
ghost use Rattle.checked_sessions.specs.Named.{place_names};
ghost use Rattle.plain_eval.specs.Keyed.{HasKeys};
ghost use Rattle.session_model.specs.Recorded.{recorded};
ghost use Rattle.session_walk.specs.Records.{AreOfWalk};
ghost use Rattle.job_reader.specs.Accepted.{HasCheckedSessions, job_view};
ghost use Rattle.copland_cli.specs.Reported.{IsRecordOf, aspect_text, some_failed};

use crate::walk::walk_rising;
use bench_trait::Bench;
use job_reader::Job;
use phrase_tree::NoMemory;
use place_check::{Checked, checked_session_has_keys};
use plain_eval::events_have_the_keys_of_seals;
use report_text::{push_check, push_code, push_events, push_shape};
use session_model::Record;
use session_walk::walk_sessions;
use std::alloc::Global;

/// What a command says of a session that it doesn't run.
#[derive(Clone, Copy, Debug, PartialEq, Eq)]
pub enum Aspect {
    Check,
    Shape,
    Events,
    Code,
}

/// Appends an aspect of a session.
pub fn push_aspect(
    text: &mut Vec<u8>,
    number: u32,
    aspect: Aspect,
    checked: &Checked,
) -> Result<(), NoMemory>
    ensures { OnOk result (text.new.items ≡ text.old.items ++ aspect_text aspect number (session_of checked.now)) }
{
    match aspect {
        Aspect::Check => push_check(text, number, checked),
        Aspect::Shape => push_shape(text, number, checked),
        Aspect::Events => push_events(text, number, checked),
        Aspect::Code => push_code(text, number, checked),
    }
}

/// One record of each session of a job, in their order, as the schedule of a number plays them.
pub fn walked<B: Bench>(
    alloc: Global,
    job: &Job,
    bench: &B,
    number: u32,
) -> Result<Vec<Record>, NoMemory>
    requires checked { HasCheckedSessions job.now }
    requires few { length job.now.sessions.items ≤ 256 }
    ensures { IfOk result (λ records. AreOfWalk
        (B.gives bench.now job.now.artefacts)
        (B.fails bench.now job.now.artefacts)
        (B.starves bench.now job.now.artefacts)
        (place_names job.now.places)
        (keys_of job.now.places)
        (job_view job.now).sessions
        number
        (map recorded records.items)) }
{
    walk_sessions(
        alloc,
        job.sessions.as_slice(),
        &job.places,
        &job.artefacts,
        bench,
        number,
    )
}

/// Whether one of the records is of a session that failed.
pub fn some_failed(records: &[Record]) -> bool
    ensures { result ≡ some_failed (map recorded records.now) }
{
    for found in records {
        if found.is_failed() {
            return true;
        }
    }
    false
}

/// The record of a session of a job.
pub fn record_of<B: Bench>(
    alloc: Global,
    job: &Job,
    checked: &Checked,
    bench: &B,
) -> Result<Record, NoMemory>
    requires { IsCheckedAgainst (session_of checked.now) job.now.places }
    ensures { IfOk result (λ found. IsRecordOf
        (B.gives bench.now job.now.artefacts)
        (B.fails bench.now job.now.artefacts)
        (keys_of job.now.places)
        (session_of checked.now)
        (recorded found)) }
{
    have_keys(job, checked);
    walk_rising(alloc, checked, job.places.keys(), &job.artefacts, bench)
}

/// The places of a job have the keys for each seal of a session that was checked against them.
fn have_keys(job: &Job, checked: &Checked)
    requires { IsCheckedAgainst (session_of checked.now) job.now.places }
    ensures { HasKeys (term checked.now.phrase) checked.now.root (keys_of job.now.places) }
{
    checked_session_has_keys(&job.places, checked);
    events_have_the_keys_of_seals();
}
