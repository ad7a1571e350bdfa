ghost use Rattle.std.specs.Prelude.{◌≡◌, ◌+◌, [], OnOk, length};
ghost use Rattle.session_runs.specs.MoveOrder.{asks_in_order};
ghost use Rattle.session_runs.specs.Standing.{is_open};
ghost use Rattle.session_core.specs.Session.{keys_in, places_in, history};
ghost use Rattle.session_walk.specs.Sessions.{IsOver, walked_in};
ghost use Rattle.wire_walk.specs.UnderWay.{linked_in, turn_of, draws_zero, AreOfZero, AreByZero, IsWalked, TakesEntry, TakesTurn};
ghost use Rattle.wire_walk.specs.declared.flight.Flight.{Flight as Flying};

use crate::flight::Flight;
use crate::flying::fly;
use bench_trait::{ArtefactBook, Bench};
use phrase_tree::NoMemory;
use session_runs::order_law;
use session_walk::Draws;
use std::alloc::Global;
use wire_frames::FrameReader;
use wire_manager::WireSession;

/// Measures the ask in flight at an index, and records the result.
fn measure<B: Bench>(
    wire: &mut WireSession<'_, B>,
    index: u32,
    artefacts: &ArtefactBook,
    bench: &B,
) -> Result<(), NoMemory>
    requires over { IsOver artefacts.now bench.now wire.old.seen }
    requires still { (walked_in wire.old.seen).standing.state ≡ is_open }
    requires asked { AreOfZero (walked_in wire.old.seen).standing.in_flight }
    requires by_zero { AreByZero (history wire.old.seen) }
    ensures opening { wire.new.seen.opening ≡ wire.old.seen.opening }
    ensures messages { wire.new.messages ≡ wire.old.messages }
    ensures sent { wire.new.sent ≡ wire.old.sent }
    ensures asked { OnOk result (AreOfZero (walked_in wire.new.seen).standing.in_flight) }
    ensures by_zero { OnOk result (AreByZero (history wire.new.seen)) }
    ensures took { OnOk result ((flight : Flying) → TakesEntry (places_in wire.old.seen.opening) (keys_in wire.old.seen.opening) index (linked_in wire.old flight) (linked_in wire.new flight)) }
{
    order_law();
    wire.linked();
    let Some(ask) = wire.nth_asked(index) else {
        return Err(NoMemory);
    };
    let measured = bench.measure(artefacts, &ask);
    match wire.record(0, ask.event, measured) {
        Ok(()) => {
            wire.linked();
            Ok(())
        }
        Err(_) => Err(NoMemory),
    }
}

/// Makes the move at an index, and lets the frame fly that it sends.
fn play<B: Bench>(
    wire: &mut WireSession<'_, B>,
    flight: &mut Flight,
    index: u32,
) -> Result<(), NoMemory>
    requires walked { IsWalked wire.old flight.old }
    requires still { (walked_in wire.old.seen).standing.state ≡ is_open }
    ensures opening { wire.new.seen.opening ≡ wire.old.seen.opening }
    ensures walked { OnOk result (IsWalked wire.new flight.new) }
    ensures took { OnOk result (TakesEntry (places_in wire.old.seen.opening) (keys_in wire.old.seen.opening) (length (asks_in_order (walked_in wire.old.seen).standing.in_flight) + index) (linked_in wire.old flight.old) (linked_in wire.new flight.new)) }
{
    wire.linked();
    let Some(step) = wire.nth_move(index) else {
        return Err(NoMemory);
    };
    let before = wire.sent_count();
    match wire.play(0, step) {
        Ok(_) => {
            wire.linked();
            flight.follow(before, wire.sent_count())
        }
        Err(_) => Err(NoMemory),
    }
}

/// Takes one turn: an ask in flight, a move that is possible over links, or a frame in flight is drawn.
pub(crate) fn one_turn<B: Bench>(
    alloc: Global,
    wire: &mut WireSession<'_, B>,
    flight: &mut Flight,
    reader: &mut FrameReader,
    draws: &mut Draws,
    zero: bool,
    artefacts: &ArtefactBook,
    bench: &B,
) -> Result<(), NoMemory>
    requires over { IsOver artefacts.now bench.now wire.old.seen }
    requires walked { IsWalked wire.old flight.old }
    requires still { (walked_in wire.old.seen).standing.state ≡ is_open }
    requires rest { reader.old.rest ≡ [] }
    requires zero { zero ≡ draws_zero draws.old }
    ensures opening { wire.new.seen.opening ≡ wire.old.seen.opening }
    ensures walked { OnOk result (IsWalked wire.new flight.new) }
    ensures rest { OnOk result (reader.new.rest ≡ []) }
    ensures zero { draws_zero draws.new ≡ draws_zero draws.old }
    ensures turn { OnOk result (TakesTurn (places_in wire.old.seen.opening) (keys_in wire.old.seen.opening) (turn_of wire.old flight.old draws.old) (turn_of wire.new flight.new draws.new)) }
{
    wire.linked();
    let asked = wire.asked_count() as usize;
    let entries = asked + wire.move_count() as usize;
    let count = entries + flight.frames.len();
    if count == 0 {
        return Err(NoMemory);
    }
    let index = draws.draw(count);
    if index < asked {
        measure(wire, index as u32, artefacts, bench)
    } else if index < entries {
        play(wire, flight, (index - asked) as u32)
    } else {
        fly(alloc, wire, flight, reader, draws, zero, index - entries)
    }
}
