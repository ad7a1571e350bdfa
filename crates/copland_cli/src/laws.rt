//! Laws of the commands, which the functions of this module carry. They do nothing.

ghost use Rattle.std.specs.Prelude.{◌≡◌, ℕ, List, false};
ghost use Rattle.job_reader.specs.Finding.{JobView, IsAccepted};
ghost use Rattle.load_maker.specs.Job.{made_job};
ghost use Rattle.report_text.specs.Records.{records_text, values_text};
ghost use Rattle.copland_cli.specs.Alike.{DifferInTraces};
ghost use Rattle.copland_cli.specs.Commands.{IsPlain};
ghost use Rattle.copland_cli.specs.Digests.{DigestGives, DigestFails, DigestStarves, IsDoneWhereThere};
ghost use Rattle.copland_cli.specs.Input.{is_required};
ghost use Rattle.copland_cli.specs.Loaded.{HasAcceptedAll};
ghost use Rattle.copland_cli.specs.Meaning.{IsDecisive, IsReport, IsSure, RefusesJob};
ghost use Rattle.copland_cli.specs.declared.ending.Ending.{Ending};
ghost use Rattle.copland_cli.specs.declared.input.BundleNeed.{BundleNeed};
ghost use Rattle.copland_cli.specs.Command.{Command, Attest, Eval, Load, Upgrade, Walk};
ghost use Rattle.copland_cli.specs.Upgraded.{IsUpgraded};

use bench_trait::Bench;
use job_reader::one_finding;
use load_runner::made_jobs_are_accepted;
use order_policy::{judged_law, policy_law};
use plain_eval::digests_make_one_record;
use release_policy::reading_law;
use session_runs::{rounds_law, schedule_law};
use session_walk::digests_make_one_walk;

/// A command has at most one refusal of an accepted job after the job's own, and never
/// both that refusal and a report; `audit`, if for the question of each result in the transcript the bench
/// gives one result at most.
pub fn commands_are_decisive<B: Bench>()
    ensures { (bench : B) (command : Command) (job : JobView) →
        IsDecisive
        (IsSure (B.gives bench) (B.fails bench) command job)
        (RefusesJob (B.gives bench) (B.fails bench) (B.starves bench) command job)
        (IsReport (B.gives bench) (B.fails bench) (B.starves bench) command job) }
{}

/// Over `DigestBench`, what a command of one thread reports is a function of the bytes read: two reports
/// on jobs of the same bytes are the same, and end the same.
pub fn reports_follow_from_bytes(_bytes: &[u8])
    ensures { (command : Command) (need : BundleNeed) (job other : JobView) (text written : List ℕ) (ending ended : Ending) →
        IsPlain command →
        IsAccepted _bytes.now (is_required need) job → IsAccepted _bytes.now (is_required need) other →
        IsReport DigestGives DigestFails DigestStarves command job text ending →
        IsReport DigestGives DigestFails DigestStarves command other written ended →
        (text ≡ written) × (ending ≡ ended) }
{
    one_finding(_bytes, false);
    one_finding(_bytes, true);
    digests_make_one_record();
    digests_make_one_walk();
    rounds_law();
    schedule_law();
    policy_law();
    judged_law();
    reading_law();
}

/// Over `DigestBench`, a session that is evaluated, walked or attested is done exactly where the job has each
/// artefact that the session asks for.
pub fn sessions_are_done_where_artefacts_are_there()
    ensures eval { (job : JobView) (text : List ℕ) (ending : Ending) →
        IsReport DigestGives DigestFails DigestStarves Eval job text ending →
        IsDoneWhereThere job.artefacts job.sessions values_text text ending }
    ensures walk { (number : ℕ) (job : JobView) (text : List ℕ) (ending : Ending) →
        IsReport DigestGives DigestFails DigestStarves (Walk number) job text ending →
        IsDoneWhereThere job.artefacts job.sessions records_text text ending }
    ensures attest { (workers : ℕ) (job : JobView) (text : List ℕ) (ending : Ending) →
        IsReport DigestGives DigestFails DigestStarves (Attest workers) job text ending →
        IsDoneWhereThere job.artefacts job.sessions records_text text ending }
{}

/// Over `DigestBench`, what `attest` reports on jobs of the same bytes differs at most in the traces, if no
/// session failed, whatever the two numbers of workers are: each session has the same answers and the same
/// bundle, and it fails in the one report where it fails in the other. So it is with a walk and `attest`.
pub fn attested_reports_differ_in_traces(_bytes: &[u8])
    ensures attest { (workers others : ℕ) (job other : JobView) (text written : List ℕ) (ending ended : Ending) →
        IsAccepted _bytes.now false job → IsAccepted _bytes.now false other →
        IsReport DigestGives DigestFails DigestStarves (Attest workers) job text ending →
        IsReport DigestGives DigestFails DigestStarves (Attest others) other written ended →
        DifferInTraces text written ending ended }
    ensures walk { (number workers : ℕ) (job other : JobView) (text written : List ℕ) (ending ended : Ending) →
        IsAccepted _bytes.now false job → IsAccepted _bytes.now false other →
        IsReport DigestGives DigestFails DigestStarves (Walk number) job text ending →
        IsReport DigestGives DigestFails DigestStarves (Attest workers) other written ended →
        DifferInTraces text written ending ended }
{
    one_finding(_bytes, false);
}

/// A bundle and its upgrade have the same verdicts: the job with the bundle that `upgrade` reports in place of
/// its own has each report of verdicts that the job has, and no other, and so with refusals. And the upgrade
/// is upgraded to itself.
pub fn upgrades_have_the_same_verdicts<B: Bench>()
    ensures { (bench : B) (job : JobView) (text : List ℕ) (ending : Ending) →
        IsReport (B.gives bench) (B.fails bench) (B.starves bench) Upgrade job text ending → IsUpgraded job text }
{}

/// Over `DigestBench`, `load` reports of each made job that each of its 256 sessions is done and accepted, and is
/// good.
pub fn loads_are_accepted()
    ensures { (number : ℕ) (text : List ℕ) (ending : Ending) →
        IsReport DigestGives DigestFails DigestStarves (Load number) (made_job number) text ending →
        HasAcceptedAll number text ending }
{
    made_jobs_are_accepted();
}
