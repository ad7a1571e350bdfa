ghost use Rattle.std.specs.Prelude.{◌≡◌, ◌≤◌, IfOk, length};
ghost use Rattle.job_reader.specs.Accepted.{HasCheckedSessions, job_view};
ghost use Rattle.report_text.specs.Records.{values_text};
ghost use Rattle.copland_cli.specs.Chosen.{IsOfChoice};
ghost use Rattle.copland_cli.specs.Command.{command_view};
ghost use Rattle.copland_cli.specs.Commands.{IsOfAny, IsPlain, input_of};
ghost use Rattle.copland_cli.specs.Meaning.{IsOfRecordsIn, IsOfWalkIn, IsReport};
ghost use Rattle.copland_cli.specs.Ordered.{IsOfClaims};
ghost use Rattle.copland_cli.specs.Offered.{HasNeededBy};
ghost use Rattle.copland_cli.specs.Outcome.{IsDecided, IsMadeRun, IsMeant, IsRun};
ghost use Rattle.copland_cli.specs.declared.input.Input.{Input};
ghost use Rattle.copland_cli.specs.Port.{port};
ghost use Rattle.copland_cli.specs.Reported.{SaysOfEach, aspect_text};
ghost use Rattle.copland_cli.specs.Words.{texts};

use crate::appraise::appraise_bundle;
use crate::audit::audit_bundle;
use crate::choose::{choice_text, choose_among};
use crate::ending::Ending;
use crate::evaluate::values_of;
use crate::input::{Input, read_job};
use crate::load::load;
use crate::order::judge_each;
use crate::record::record_each;
use crate::session::{Aspect, push_aspect, some_failed, walked};
use crate::upgrade::upgrade_bundle;
use crate::words::{Command, command_of};
use bench_trait::Bench;
use byte_ports::{Bytes, Source};
use job_reader::Job;
use order_policy::OrderPolicy;
use phrase_tree::NoMemory;
use release_policy::ReleasePolicy;
use report_text::{Refusal, records_text};
use std::alloc::Global;

/// What is decided before anything is written.
#[derive(Debug, Drop)]
pub enum Outcome {
    Refused(Refusal),
    Reported(Report),
}

/// The whole text of a report, and how it ends.
#[derive(Debug, Drop)]
pub struct Report {
    pub text: Bytes,
    pub ending: Ending,
}

/// Carries out the command that the words spell, on one thread.
pub fn decide<S: Source, B: Bench>(
    alloc: Global,
    words: &[String],
    source: &mut S,
    bench: &B,
) -> Outcome
    ensures { IsDecided IsPlain (B.gives bench.now) (B.fails bench.now) (B.starves bench.now) (texts words.now)
        (port S.left S.faults source.old source.new)
        result }
{
    match command_of(words) {
        Some(Command::Attest(_)) | None => Outcome::Refused(Refusal::Words),
        Some(command) => run(alloc, command, source, bench),
    }
}

/// Carries out a command.
fn run<S: Source, B: Bench>(
    alloc: Global,
    command: Command<'_>,
    source: &mut S,
    bench: &B,
) -> Outcome
    requires { IsPlain (command_view command) }
    ensures { IsRun (B.gives bench.now) (B.fails bench.now) (B.starves bench.now) (command_view command.entry)
        (port S.left S.faults source.old source.new)
        result }
{
    match command.input() {
        Input::Nothing => run_alone(alloc, command, bench),
        Input::Job(need) => match read_job(alloc, source, need) {
            Ok(job) => run_over(alloc, command, &job, bench),
            Err(refusal) => Outcome::Refused(refusal),
        },
    }
}

/// Carries out a command that reads nothing, over the job that it makes.
fn run_alone<B: Bench>(alloc: Global, command: Command<'_>, bench: &B) -> Outcome
    requires { input_of (command_view command) ≡ Input.Nothing }
    ensures { IsMadeRun (B.gives bench.now) (B.fails bench.now) (B.starves bench.now) (command_view command.entry) result }
{
    match command {
        Command::Load(number) => load(alloc, number, bench),
        Command::Record(_) => unreachable!(),
        Command::Check | Command::Shape | Command::Events | Command::Code => unreachable!(),
        Command::Eval | Command::Walk(_) | Command::Order(_) | Command::Choose(_) => {
            unreachable!()
        }
        Command::Attest(_) | Command::Appraise | Command::Upgrade | Command::Audit => {
            unreachable!()
        }
    }
}

/// Carries out a command over an accepted job.
fn run_over<B: Bench>(alloc: Global, command: Command<'_>, job: &Job, bench: &B) -> Outcome
    requires plain { IsPlain (command_view command) }
    requires checked { HasCheckedSessions job.now }
    requires few { length job.now.sessions.items ≤ 256 }
    requires needed { HasNeededBy (input_of (command_view command)) (job_view job.now) }
    ensures { IsMeant (B.gives bench.now) (B.fails bench.now) (B.starves bench.now) (command_view command.entry) (job_view job.now) result }
{
    match command {
        Command::Appraise => match appraise_bundle(alloc, job) {
            Ok(report) => Outcome::Reported(report),
            Err(why) => Outcome::Refused(why),
        },
        Command::Upgrade => match upgrade_bundle(alloc, job) {
            Ok(report) => Outcome::Reported(report),
            Err(why) => Outcome::Refused(why),
        },
        Command::Audit => match audit_bundle(alloc, job, bench) {
            Ok(report) => Outcome::Reported(report),
            Err(why) => Outcome::Refused(why),
        },
        Command::Check | Command::Shape | Command::Events | Command::Code => {
            run_over_any(alloc, command, job, bench)
        }
        Command::Eval | Command::Walk(_) | Command::Order(_) | Command::Choose(_) => {
            run_over_any(alloc, command, job, bench)
        }
        Command::Record(_) => run_over_any(alloc, command, job, bench),
        Command::Attest(_) | Command::Load(_) => unreachable!(),
    }
}

/// Carries out a command that needs no bundle over an accepted job.
fn run_over_any<B: Bench>(alloc: Global, command: Command<'_>, job: &Job, bench: &B) -> Outcome
    requires plain { IsPlain (command_view command) }
    requires any { IsOfAny (input_of (command_view command)) }
    requires checked { HasCheckedSessions job.now }
    requires few { length job.now.sessions.items ≤ 256 }
    ensures { IsMeant (B.gives bench.now) (B.fails bench.now) (B.starves bench.now) (command_view command.entry) (job_view job.now) result }
{
    match report_on(alloc, command, job, bench) {
        Ok(report) => Outcome::Reported(report),
        Err(_) => Outcome::Refused(Refusal::NoMemory),
    }
}

/// The report of a command that needs no bundle on an accepted job.
fn report_on<B: Bench>(
    alloc: Global,
    command: Command<'_>,
    job: &Job,
    bench: &B,
) -> Result<Report, NoMemory>
    requires plain { IsPlain (command_view command) }
    requires any { IsOfAny (input_of (command_view command)) }
    requires checked { HasCheckedSessions job.now }
    requires few { length job.now.sessions.items ≤ 256 }
    ensures { IfOk result (λ report. IsReport (B.gives bench.now) (B.fails bench.now) (B.starves bench.now) (command_view command.entry) (job_view job.now) report.text report.ending) }
{
    match command {
        Command::Check => describe_each(alloc, Aspect::Check, job),
        Command::Shape => describe_each(alloc, Aspect::Shape, job),
        Command::Events => describe_each(alloc, Aspect::Events, job),
        Command::Code => describe_each(alloc, Aspect::Code, job),
        Command::Eval => evaluate_each(alloc, job, bench),
        Command::Walk(number) => walk_each(alloc, job, bench, number),
        Command::Record(number) => record_each(alloc, job, bench, number),
        Command::Order(text) => judge_claims(alloc, job, text),
        Command::Choose(text) => choose_session(alloc, job, text),
        Command::Appraise | Command::Upgrade | Command::Audit => unreachable!(),
        Command::Attest(_) | Command::Load(_) => unreachable!(),
    }
}

/// Reports an aspect of each session.
fn describe_each(alloc: Global, aspect: Aspect, job: &Job) -> Result<Report, NoMemory>
    requires few { length job.now.sessions.items ≤ 256 }
    ensures { IfOk result (λ report. SaysOfEach (aspect_text aspect) (job_view job.now).sessions report.text report.ending) }
{
    let mut text = Vec::new(alloc);
    let mut number = 0;
    for checked in job.sessions.as_slice() {
        push_aspect(&mut text, number, aspect, checked)?;
        number += 1;
    }
    Ok(Report {
        text: Bytes::of(text),
        ending: Ending::Good,
    })
}

/// Reports a record of each session, without its trace.
fn evaluate_each<B: Bench>(alloc: Global, job: &Job, bench: &B) -> Result<Report, NoMemory>
    requires { HasCheckedSessions job.now }
    ensures { IfOk result (λ report. IsOfRecordsIn (B.gives bench.now) (B.fails bench.now) (job_view job.now) values_text report.text report.ending) }
{
    let valued = values_of(alloc, job, bench)?;
    Ok(Report {
        text: valued.text,
        ending: Ending::of_sessions(valued.failed),
    })
}

/// Plays the sessions on by the schedule of a number, and reports a record of each.
fn walk_each<B: Bench>(alloc: Global, job: &Job, bench: &B, number: u32) -> Result<Report, NoMemory>
    requires checked { HasCheckedSessions job.now }
    requires few { length job.now.sessions.items ≤ 256 }
    ensures { IfOk result (λ report. IsOfWalkIn (B.gives bench.now) (B.fails bench.now) (B.starves bench.now) (job_view job.now) number report.text report.ending) }
{
    let records = walked(alloc, job, bench, number)?;
    let text = records_text(alloc, records.as_slice())?;
    let ending = Ending::of_sessions(some_failed(records.as_slice()));
    Ok(Report { text, ending })
}

/// Judges the claims that a text spells in each session.
fn judge_claims(alloc: Global, job: &Job, text: &str) -> Result<Report, NoMemory>
    requires { length job.now.sessions.items ≤ 256 }
    ensures { IfOk result (λ report. IsOfClaims text.now (job_view job.now).sessions report.text report.ending) }
{
    // The words of the command spell a policy, so only memory can be wanting here.
    let Ok(policy) = OrderPolicy::read(alloc, text) else {
        return Err(NoMemory);
    };
    let claimed = judge_each(alloc, &policy, job)?;
    Ok(Report {
        text: claimed.text,
        ending: Ending::of_claims(claimed.broken),
    })
}

/// Chooses a session by the release policy that a text spells.
fn choose_session(alloc: Global, job: &Job, text: &str) -> Result<Report, NoMemory>
    requires { length job.now.sessions.items ≤ 256 }
    ensures { IfOk result (λ report. IsOfChoice text.now (job_view job.now).sessions report.text report.ending) }
{
    // The words of the command spell a policy, so only memory can be wanting here.
    let Ok(policy) = ReleasePolicy::read(alloc, text) else {
        return Err(NoMemory);
    };
    let choice = choose_among(alloc, &policy, job)?;
    let written = choice_text(alloc, job, &choice)?;
    Ok(Report {
        text: written,
        ending: Ending::of_choice(choice.chosen),
    })
}
