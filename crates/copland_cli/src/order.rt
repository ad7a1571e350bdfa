ghost use Rattle.std.specs.Prelude.{◌≡◌, ◌≤◌, ◌||◌, IfOk, length};
ghost use Rattle.job_reader.specs.Accepted.{job_view};
ghost use Rattle.order_policy.specs.declared.policy.TheConstants.{CLAIMS};
ghost use Rattle.place_check.specs.Session.{session_of};
ghost use Rattle.copland_cli.specs.Ordered.{IsFoundIn, SaysOfClaims, is_broken};

use byte_ports::Bytes;
use job_reader::Job;
use order_policy::{Judgement, OrderPolicy, judge, push_judgements};
use phrase_tree::NoMemory;
use place_check::Checked;
use std::alloc::Global;

/// What is found of the claims of a policy in the sessions of a job.
#[derive(Debug, Drop)]
pub struct Claimed {
    /// The lines of the report.
    pub text: Bytes,
    /// Whether a claim is broken in one of the sessions.
    pub broken: bool,
}

/// Judges each claim of a policy in each session of a job, in their order. It takes the time of `judge`
/// for each session, and time linear in the text.
pub fn judge_each(alloc: Global, policy: &OrderPolicy, job: &Job) -> Result<Claimed, NoMemory>
    requires claims { length policy.now ≤ CLAIMS }
    requires sessions { length job.now.sessions.items ≤ 256 }
    ensures { IfOk result (λ claimed. SaysOfClaims policy.now (job_view job.now).sessions claimed.text claimed.broken) }
{
    let mut text = Vec::new(alloc);
    let mut broken = false;
    let mut number = 0;
    for checked in job.sessions.as_slice() {
        let found = push_found(alloc, &mut text, number, policy, checked)?;
        broken = either(broken, found);
        number += 1;
    }
    Ok(Claimed {
        text: Bytes::of(text),
        broken,
    })
}

/// Appends what is found of each claim in a session, and gives whether one is broken.
fn push_found(
    alloc: Global,
    text: &mut Vec<u8>,
    number: u32,
    policy: &OrderPolicy,
    checked: &Checked,
) -> Result<bool, NoMemory>
    requires { length policy.now ≤ CLAIMS }
    ensures { IfOk result (λ broken. IsFoundIn policy.now (session_of checked.now) number text.old.items text.new.items broken) }
{
    let found = judge(alloc, policy, checked.phrase(), checked.root())?;
    push_judgements(text, number, &found)?;
    Ok(is_broken(found.items()))
}

fn either(one: bool, other: bool) -> bool
    ensures { result ≡ (one || other) }
{
    one || other
}

/// Whether one of the claims is broken.
fn is_broken(judgements: &[Judgement]) -> bool
    ensures { result ≡ is_broken judgements.now }
{
    for judgement in judgements {
        if !judgement.is_holding() {
            return true;
        }
    }
    false
}
