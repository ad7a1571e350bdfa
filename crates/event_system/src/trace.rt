ghost use Rattle.std.specs.Prelude.{◌≡◌, ◌+◌, ◌≤◌, ◌<◌, ◌^◌, ◌↔◌, ℕ, IsTrue, IsNone, Some, Contains, MatchOption, length, take, slice_index};
ghost use Rattle.phrase_tree.specs.Term.{term};
ghost use Rattle.phrase_tree.specs.Numbering.{event_count, IsSized};
ghost use Rattle.event_system.specs.declared.fault.TraceFault.{TraceFault};
ghost use Rattle.event_system.specs.Needs.{Names};
ghost use Rattle.event_system.specs.Trace.{MayFollow, IsTrace, StandsUpTo};
ghost use Rattle.event_system.specs.Lacking.{LacksNeed, LacksNumber};
ghost use Rattle.event_system.specs.Fault.{StandsBehind, IsFirstFault};

use crate::direct::Needs;
use crate::fault::TraceFault;
use crate::predecessors::needs;
use phrase_tree::Phrase;

fn has(list: &[u32], number: u32) -> bool
    ensures { IsTrue result ↔ Contains list.now number }
{
    list.contains(&number)
}

// One direct predecessor, where there is one and the list lacks it.
fn lacking(ahead: &[u32], need: Option<u32>) -> Option<u32>
    ensures { MatchOption result
        ((x : ℕ) → need ≡ Some x → Contains ahead.now x)
        (λ x. (need ≡ Some x) × (¬ Contains ahead.now x)) }
{
    let x = need?;
    if has(ahead, x) {
        return None;
    }
    Some(x)
}

// The least of the direct predecessors that the list lacks.
fn first_lacking(ahead: &[u32], needs: Needs) -> Option<u32>
    requires { (x second : ℕ) → needs.second ≡ Some second → needs.first ≡ Some x → x < second }
    ensures { MatchOption result
        ((x : ℕ) → Names needs x → Contains ahead.now x)
        (λ x. LacksNeed ahead.now needs x) }
{
    if let Some(x) = lacking(ahead, needs.first) {
        return Some(x);
    }
    lacking(ahead, needs.second)
}

fn front(trace: &[u32], at: usize) -> &[u32]
    requires { at ≤ length trace.now }
    ensures { result.now ≡ take at trace.now }
{
    &trace[..at]
}

// What is wrong at a position, behind a trace so far.
fn fault_at(phrase: &Phrase, count: u32, trace: &[u32], at: usize) -> Option<TraceFault>
    requires sized { IsSized (term phrase.now) }
    requires count { count ≡ event_count (term phrase.now) }
    requires behind { StandsBehind (term phrase.now) 0 trace.now at }
    ensures { MatchOption result
        (MayFollow (term phrase.now) 0 (take at trace.now) (slice_index trace.now at))
        (λ fault. IsFirstFault (term phrase.now) 0 trace.now fault) }
{
    let event = trace[at];
    let ahead = front(trace, at);
    let at = at as u32;
    if event >= count {
        return Some(TraceFault::Strange { at });
    }
    if has(ahead, event) {
        return Some(TraceFault::Repeated { at });
    }
    match first_lacking(ahead, needs(phrase, event)) {
        Some(needs) => Some(TraceFault::Early { at, event, needs }),
        None => None,
    }
}

// The least number below a bound that the list lacks.
fn first_missing(trace: &[u32], bound: u32) -> Option<u32>
    ensures { MatchOption result
        ((n : ℕ) → n < bound → Contains trace.now n)
        (λ n. LacksNumber trace.now bound n) }
{
    for number in 0..bound {
        if !has(trace, number) {
            return Some(number);
        }
    }
    None
}

// The first position at which something is wrong.
fn first_bad(phrase: &Phrase, count: u32, trace: &[u32]) -> Option<TraceFault>
    requires sized { IsSized (term phrase.now) }
    requires count { count ≡ event_count (term phrase.now) }
    ensures { MatchOption result
        (StandsUpTo (term phrase.now) 0 trace.now (length trace.now))
        (λ fault. IsFirstFault (term phrase.now) 0 trace.now fault) }
{
    for at in 0..trace.len() {
        if let Some(fault) = fault_at(phrase, count, trace, at) {
            return Some(fault);
        }
    }
    None
}

fn first_fault(phrase: &Phrase, trace: &[u32]) -> Option<TraceFault>
    requires { IsSized (term phrase.now) }
    ensures { MatchOption result
        (IsTrace (term phrase.now) 0 trace.now)
        (λ fault. IsFirstFault (term phrase.now) 0 trace.now fault) }
{
    let count = phrase.events();
    if let Some(fault) = first_bad(phrase, count, trace) {
        return Some(fault);
    }
    match first_missing(trace, count) {
        Some(event) => Some(TraceFault::Missing { event }),
        None => None,
    }
}

/// The first fault of a list that should be a trace of the phrase: positions are checked from 0 on, and
/// then whether an event is missing. None exactly when the list is a trace. Takes no memory, and time
/// that grows with the product of the phrase's events and the numbers in the list.
pub fn trace_fault(phrase: &Phrase, trace: &[u32]) -> Option<TraceFault>
    requires { IsSized (term phrase.now) }
    ensures fault { (fault : TraceFault) →
        (result ≡ Some fault) ↔ IsFirstFault (term phrase.now) 0 trace.now fault }
    ensures none { IsNone result ↔ IsTrace (term phrase.now) 0 trace.now }
{
    first_fault(phrase, trace)
}
