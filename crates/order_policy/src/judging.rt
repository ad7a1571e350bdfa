ghost use Rattle.std.specs.Prelude.{◌≡◌, ◌<◌, ◌≤◌, ◌^◌, ◌↔◌, ◌++◌, ◌∷◌, [], ◌==◌, ◌||◌, not, IsTrue, IfOk, OnOk, filter, length, map};
ghost use Rattle.std.specs.List.{range_with_len, AllZip};
ghost use Rattle.phrase_tree.specs.Term.{term};
ghost use Rattle.phrase_tree.specs.Numbering.{event_count, IsSized};
ghost use Rattle.phrase_tree.specs.Events.{events_of};
ghost use Rattle.order_policy.specs.Judged.{HasAlways, IsJudged, is_holding};
ghost use Rattle.order_policy.specs.Labels.{labels_of, is_less};
ghost use Rattle.order_policy.specs.Measured.{first_breaking, early_trace, judgement_of, measured_of};

use crate::bounds::{count_among, first_ahead_of_some, first_bare};
use crate::claim::{Ahead, Claim};
use crate::judgement::{Judgement, Judgements};
use crate::label::Labels;
use crate::measured::{Measured, measured_of};
use crate::policy::OrderPolicy;
use phrase_tree::{NoMemory, Phrase, Place, Trace};
use std::alloc::Global;

fn first_breaking(measured: &[Measured], claim: &Claim) -> Option<u32>
    ensures { result ≡ first_breaking claim.now.ahead claim.now measured.now }
{
    match claim.ahead {
        Ahead::One => first_bare(measured, claim),
        Ahead::Every => first_ahead_of_some(measured, claim),
    }
}

// The events that are before an event, in rising order.
fn front(alloc: Global, labels: &Labels, event: u32) -> Result<Vec<u32>, NoMemory>
    requires { length labels.now < 2 ^ 32 }
    ensures { IfOk result (λ front. front.items ≡ filter (λ x. is_less labels.now x event) (range_with_len 0 (length labels.now))) }
{
    let count = labels.items().len() as u32;
    let front = (0..count)
        .filter(|x| labels.is_less(*x, event))
        .collect(alloc)?;
    Ok(front)
}

// The other events but that one, in rising order.
fn rest(alloc: Global, labels: &Labels, event: u32) -> Result<Vec<u32>, NoMemory>
    requires { length labels.now < 2 ^ 32 }
    ensures { IfOk result (λ rest. rest.items ≡ filter (λ x. not (x == event || is_less labels.now x event)) (range_with_len 0 (length labels.now))) }
{
    let count = labels.items().len() as u32;
    let rest = (0..count)
        .filter(|x| !(*x == event || labels.is_less(*x, event)))
        .collect(alloc)?;
    Ok(rest)
}

fn early_trace(alloc: Global, labels: &Labels, event: u32) -> Result<Trace, NoMemory>
    requires { length labels.now < 2 ^ 32 }
    ensures { IfOk result (λ trace. trace ≡ early_trace labels.now event) }
{
    let mut events = front(alloc, labels, event)?;
    events.push(event)?;
    events.extend_from_slice(&rest(alloc, labels, event)?)?;
    Ok(Trace::of(events))
}

fn judged(
    alloc: Global,
    labels: &Labels,
    measured: &[Measured],
    claim: &Claim,
) -> Result<Judgement, NoMemory>
    requires labels { length labels.now < 2 ^ 32 }
    requires measured { length measured.now < 2 ^ 32 }
    ensures { IfOk result (λ judgement. judgement ≡ judgement_of labels.now measured.now claim.now) }
{
    match first_breaking(measured, claim) {
        None => Ok(Judgement::Holds {
            count: count_among(measured, &claim.later) as u32,
        }),
        Some(event) => {
            let trace = early_trace(alloc, labels, event)?;
            Ok(Judgement::Broken { event, trace })
        }
    }
}

fn judge_all(
    alloc: Global,
    labels: &Labels,
    measured: &[Measured],
    claims: &[Claim],
) -> Result<Judgements, NoMemory>
    requires labels { length labels.now < 2 ^ 32 }
    requires measured { length measured.now < 2 ^ 32 }
    ensures { IfOk result (λ judgements. judgements ≡ map (judgement_of labels.now measured.now) claims.now) }
{
    let mut judgements = Vec::new(alloc);
    for claim in claims {
        judgements.push(judged(alloc, labels, measured, claim)?)?;
    }
    Ok(Judgements::of(judgements))
}

/// What a phrase that starts at a place has of each claim of a policy. A claim holds exactly where every
/// trace of the phrase has it. An error is want of memory. For each claim it takes time linear in the
/// events, since one event is compared with another by their labels; before the first claim, as much as
/// `list_of` and `Labels::of`.
pub fn judge(
    alloc: Global,
    policy: &OrderPolicy,
    phrase: &Phrase,
    root: Place,
) -> Result<Judgements, NoMemory>
    requires { IsSized (term phrase.now) }
    ensures judged { IfOk result (λ judgements. AllZip (IsJudged (term phrase.now) root) policy.now judgements) }
    ensures exactly { IfOk result (λ judgements. AllZip (λ claim judgement.
        IsTrue (is_holding judgement) ↔ HasAlways (term phrase.now) root claim) policy.now judgements) }
{
    let labels = Labels::of(alloc, phrase)?;
    let measured = measured_of(alloc, phrase, root, &labels)?;
    judge_all(alloc, &labels, &measured, policy.claims())
}
