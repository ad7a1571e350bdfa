ghost use Rattle.std.specs.Prelude.{◌≡◌, ◌≤◌, ◌++◌, IfOk, OnOk, Some, length, map};
ghost use Rattle.job_reader.specs.Accepted.{job_view};
ghost use Rattle.place_check.specs.Session.{session_of};
ghost use Rattle.release_policy.specs.Choices.{Chooses};
ghost use Rattle.report_text.specs.Sessions.{numbered};
ghost use Rattle.copland_cli.specs.Chosen.{choice_text, chosen_text, denial_line, denied_text, offer_lines, rule_word};

use byte_ports::Bytes;
use job_reader::Job;
use phrase_reader::print;
use phrase_tree::{NoMemory, push_bytes, push_decimal};
use place_check::Checked;
use release_policy::{Choice, Denial, ReleasePolicy, choose};
use std::alloc::Global;

/// What a policy chooses among the sessions of a job, in the time of `choose`.
pub fn choose_among(alloc: Global, policy: &ReleasePolicy, job: &Job) -> Result<Choice, NoMemory>
    requires { length job.now.sessions.items ≤ 256 }
    ensures chooses { IfOk result (Chooses policy.now (job_view job.now).sessions) }
    ensures few { IfOk result (λ choice. length choice.denials.items ≤ 256) }
{
    choose(alloc, policy, job.sessions.as_slice())
}

/// The lines of a choice among the sessions of a job.
pub fn choice_text(alloc: Global, job: &Job, choice: &Choice) -> Result<Bytes, NoMemory>
    requires { length choice.now.denials.items ≤ 256 }
    ensures { IfOk result (λ text. text ≡ choice_text (job_view job.now).sessions choice.now.denials.items choice.now.chosen) }
{
    let mut text = Vec::new(alloc);
    push_denials(&mut text, choice.denials.as_slice())?;
    push_chosen(&mut text, job.sessions.as_slice(), choice.chosen)?;
    Ok(Bytes::of(text))
}

fn push_denials(text: &mut Vec<u8>, denials: &[Denial]) -> Result<(), NoMemory>
    requires { length denials.now ≤ 256 }
    ensures { OnOk result (text.new.items ≡ text.old.items ++ numbered denial_line 0 denials.now) }
{
    let mut number = 0;
    for denial in denials {
        push_denial(text, number, denial)?;
        number += 1;
    }
    Ok(())
}

fn push_denial(text: &mut Vec<u8>, number: u32, denial: &Denial) -> Result<(), NoMemory>
    ensures { OnOk result (text.new.items ≡ text.old.items ++ denial_line number denial.now) }
{
    push_bytes(text, b"offer ")?;
    push_decimal(text, number)?;
    push_bytes(text, b" denied event ")?;
    push_decimal(text, denial.event)?;
    push_denied(text, denial)
}

/// Appends the measurement of a denial, and the rule that decides.
fn push_denied(text: &mut Vec<u8>, denial: &Denial) -> Result<(), NoMemory>
    ensures { OnOk result (text.new.items ≡ text.old.items ++ denied_text denial.now) }
{
    push_bytes(text, b" leaf ")?;
    push_decimal(text, denial.leaf)?;
    push_bytes(text, b" rule ")?;
    push_rule(text, denial.rule)?;
    push_bytes(text, b"\n")
}

fn push_rule(text: &mut Vec<u8>, rule: Option<u32>) -> Result<(), NoMemory>
    ensures { OnOk result (text.new.items ≡ text.old.items ++ rule_word rule) }
{
    match rule {
        Some(rule) => push_decimal(text, rule),
        None => push_bytes(text, b"none"),
    }
}

#[tactic(auto, using(crate::proofs::ChoiceLemmas::offer_there, crate::proofs::ChoiceLemmas::offer_missing))]
fn push_chosen(
    text: &mut Vec<u8>,
    sessions: &[Checked],
    chosen: Option<u32>,
) -> Result<(), NoMemory>
    ensures { OnOk result (text.new.items ≡ text.old.items ++ chosen_text (map session_of sessions.now) chosen) }
{
    match chosen {
        Some(number) => match sessions.get(number as usize) {
            Some(checked) => push_offer(text, number, checked),
            None => Ok(()),
        },
        None => push_bytes(text, b"chosen none\n"),
    }
}

fn push_offer(text: &mut Vec<u8>, number: u32, checked: &Checked) -> Result<(), NoMemory>
    ensures { OnOk result (text.new.items ≡ text.old.items ++ offer_lines number (Some (session_of checked.now))) }
{
    let printed = print(*text.allocator(), checked.phrase())?;
    push_bytes(text, b"chosen ")?;
    push_decimal(text, number)?;
    push_bytes(text, b"\nphrase ")?;
    push_bytes(text, printed.items())?;
    push_bytes(text, b"\n")
}
