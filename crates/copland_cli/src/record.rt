//! The transcripts of the sessions of a job.
ghost use Rattle.std.specs.Prelude.{◌≡◌, ◌≤◌, IfOk, length};
ghost use Rattle.place_check.specs.Places.{keys_of};
ghost use Rattle.checked_sessions.specs.Named.{place_names};
ghost use Rattle.job_reader.specs.Accepted.{HasCheckedSessions, job_view};
ghost use Rattle.transcript.specs.Recording.{AreOfRecordedWalk};
ghost use Rattle.copland_cli.specs.Meaning.{IsOfRecordingIn};
ghost use Rattle.copland_cli.specs.Recordings.{one_failed};

use crate::ending::Ending;
use crate::outcome::Report;
use bench_trait::Bench;
use job_reader::Job;
use phrase_tree::NoMemory;
use report_text::transcripts_text;
use std::alloc::Global;
use transcript::{RecordedSession, record_sessions};

/// Plays the sessions on by the schedule of a number, and reports the transcript of each.
pub fn record_each<B: Bench>(
    alloc: Global,
    job: &Job,
    bench: &B,
    number: u32,
) -> Result<Report, NoMemory>
    requires checked { HasCheckedSessions job.now }
    requires few { length job.now.sessions.items ≤ 256 }
    ensures { IfOk result (λ report. IsOfRecordingIn (B.gives bench.now) (B.fails bench.now) (B.starves bench.now) (job_view job.now) number report.text report.ending) }
{
    let recordings = recordings_of(alloc, job, bench, number)?;
    let text = transcripts_text(alloc, recordings.as_slice())?;
    let ending = Ending::of_sessions(one_failed(recordings.as_slice()));
    Ok(Report { text, ending })
}

/// The recording of each session of a job, in their order, as the schedule of a number plays them.
fn recordings_of<B: Bench>(
    alloc: Global,
    job: &Job,
    bench: &B,
    number: u32,
) -> Result<Vec<RecordedSession>, NoMemory>
    requires checked { HasCheckedSessions job.now }
    requires few { length job.now.sessions.items ≤ 256 }
    ensures { IfOk result (λ recordings. AreOfRecordedWalk
        (B.gives bench.now job.now.artefacts)
        (B.fails bench.now job.now.artefacts)
        (B.starves bench.now job.now.artefacts)
        (place_names job.now.places)
        (keys_of job.now.places)
        (job_view job.now).sessions
        number
        recordings.items) }
{
    record_sessions(
        alloc,
        number,
        job.sessions.as_slice(),
        &job.places,
        &job.artefacts,
        bench,
    )
}

/// Whether one of the sessions failed.
fn one_failed(recordings: &[RecordedSession]) -> bool
    ensures { result ≡ one_failed recordings.now }
{
    for found in recordings {
        if found.has_failed {
            return true;
        }
    }
    false
}
