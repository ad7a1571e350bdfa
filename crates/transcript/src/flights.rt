//! The asks in flight, each by its event: the pass that asked, and the question.

ghost use Rattle.std.specs.Prelude.{◌≡◌, ◌<◌, ◌≤◌, None, Some, IfOk, length, replicate, slice_set};
ghost use Rattle.std.specs.Option.{option_map};
ghost use Rattle.transcript.specs.Flights.{asked_by, asked_in};

use bench_trait::Ask;
use phrase_tree::NoMemory;
use std::alloc::Global;

/// An ask in flight: the pass that asked, and the question.
#[derive(Debug, Drop)]
pub struct Flight {
    pub pass: u32,
    pub ask: Ask,
}

/// Room for the asks of so many events, of which none is in flight.
pub(crate) fn no_flights(alloc: Global, events: u32) -> Result<Vec<Option<Flight>>, NoMemory>
    ensures { IfOk result (λ flights. flights.items ≡ replicate events None) }
{
    let mut flights = Vec::with_capacity(alloc, events as usize)?;
    for _ in 0..events {
        flights.push_reserved(None);
    }
    Ok(flights)
}

fn asked_by(kept: &Option<Flight>, pass: u32) -> Option<&Ask>
    ensures { option_map (λ ask. ask.now) result ≡ asked_by kept.now pass }
{
    match kept {
        Some(flight) => {
            if flight.pass == pass {
                Some(&flight.ask)
            } else {
                None
            }
        }
        None => None,
    }
}

/// The question of an event that this pass asked; none exactly if it has no such ask in flight.
pub(crate) fn asked(flights: &[Option<Flight>], pass: u32, event: u32) -> Option<&Ask>
    ensures { option_map (λ ask. ask.now) result ≡ asked_in flights.now pass event }
{
    match flights.get(event as usize) {
        Some(kept) => asked_by(kept, pass),
        None => None,
    }
}

/// Keeps an ask that a pass made.
pub(crate) fn note(flights: &mut [Option<Flight>], pass: u32, ask: Ask)
    requires { ask.event < length flights.old }
    ensures { flights.new ≡ slice_set flights.old ask.event (Some (record { pass = pass; ask = ask })) }
{
    let at = ask.event as usize;
    flights[at] = Some(Flight { pass, ask });
}

/// Lets the ask of an event go.
pub(crate) fn clear(flights: &mut [Option<Flight>], event: u32)
    requires { event < length flights.old }
    ensures { flights.new ≡ slice_set flights.old event None }
{
    flights[event as usize] = None;
}
