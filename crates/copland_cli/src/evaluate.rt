ghost use Rattle.std.specs.Prelude.{◌≡◌, ◌||◌, IfOk};
ghost use Rattle.place_check.specs.Places.{keys_of};
ghost use Rattle.place_check.specs.Session.{IsCheckedAgainst, session_of};
ghost use Rattle.job_reader.specs.Accepted.{HasCheckedSessions, job_view};
ghost use Rattle.copland_cli.specs.Evaluated.{IsValueIn, SaysOfValues};

use crate::session::record_of;
use bench_trait::Bench;
use byte_ports::Bytes;
use job_reader::Job;
use phrase_tree::NoMemory;
use place_check::Checked;
use report_text::push_value;
use std::alloc::Global;

/// What is reported of the evaluation of the sessions of a job.
#[derive(Debug, Drop)]
pub struct Valued {
    /// The lines of the report.
    pub text: Bytes,
    /// Whether one of the sessions failed.
    pub failed: bool,
}

/// Makes a record of each session of a job, in their order, and reports it without its trace. A record is let
/// go before the next one is made, so beside the text no more than one bundle is held.
pub fn values_of<B: Bench>(alloc: Global, job: &Job, bench: &B) -> Result<Valued, NoMemory>
    requires { HasCheckedSessions job.now }
    ensures { IfOk result (λ valued. SaysOfValues
        (B.gives bench.now job.now.artefacts)
        (B.fails bench.now job.now.artefacts)
        (keys_of job.now.places)
        (job_view job.now).sessions
        valued.text
        valued.failed) }
{
    let mut text = Vec::new(alloc);
    let mut failed = false;
    let mut number = 0;
    for checked in job.sessions.as_slice() {
        let found = push_found(alloc, &mut text, number, job, checked, bench)?;
        failed = either(failed, found);
        number += 1;
    }
    Ok(Valued {
        text: Bytes::of(text),
        failed,
    })
}

/// Appends the record of a session without its trace, and gives whether the session failed.
fn push_found<B: Bench>(
    alloc: Global,
    text: &mut Vec<u8>,
    number: usize,
    job: &Job,
    checked: &Checked,
    bench: &B,
) -> Result<bool, NoMemory>
    requires { IsCheckedAgainst (session_of checked.now) job.now.places }
    ensures { IfOk result (λ failed. IsValueIn
        (B.gives bench.now job.now.artefacts)
        (B.fails bench.now job.now.artefacts)
        (keys_of job.now.places)
        (session_of checked.now)
        number
        text.old.items
        text.new.items
        failed) }
{
    let found = record_of(alloc, job, checked, bench)?;
    push_value(text, number, &found)?;
    Ok(found.is_failed())
}

fn either(one: bool, other: bool) -> bool
    ensures { result ≡ (one || other) }
{
    one || other
}
