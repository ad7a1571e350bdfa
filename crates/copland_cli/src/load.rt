//! A made job, run and appraised.
ghost use Rattle.std.specs.Prelude.{IfOk};
ghost use Rattle.load_maker.specs.Job.{made_job};
ghost use Rattle.copland_cli.specs.Command.{Load};
ghost use Rattle.copland_cli.specs.Meaning.{IsOfLoadIn};
ghost use Rattle.copland_cli.specs.Outcome.{IsMadeRun};

use crate::ending::Ending;
use crate::outcome::{Outcome, Report};
use bench_trait::Bench;
use load_runner::run_load;
use phrase_tree::NoMemory;
use report_text::Refusal;
use std::alloc::Global;

/// Carries out the command `load` with this number.
pub fn load<B: Bench>(alloc: Global, number: u32, bench: &B) -> Outcome
    ensures { IsMadeRun (B.gives bench.now) (B.fails bench.now) (B.starves bench.now) (Load number) result }
{
    match load_report(alloc, number, bench) {
        Ok(report) => Outcome::Reported(report),
        Err(_) => Outcome::Refused(Refusal::NoMemory),
    }
}

/// Makes the job of a number, runs its sessions and appraises their bundles, and reports what is counted.
fn load_report<B: Bench>(alloc: Global, number: u32, bench: &B) -> Result<Report, NoMemory>
    ensures { IfOk result (λ report. IsOfLoadIn (B.gives bench.now) (B.fails bench.now) (made_job number) number report.text report.ending) }
{
    let figures = run_load(alloc, number, bench)?;
    let text = figures.text(alloc, number)?;
    Ok(Report {
        text,
        ending: Ending::of_load(figures.has_accepted_all()),
    })
}
