ghost use Rattle.std.specs.Prelude.{◌≡◌, ◌<◌, ◌-◌, [], None, Some, IfOk, OnOk, length};
ghost use Rattle.wire_manager.specs.Framed.{frame_with};
ghost use Rattle.wire_manager.specs.Messages.{Message};
ghost use Rattle.wire_manager.specs.WireSchedule.{came, lost_one, message_at, met, fate_drawn};
ghost use Rattle.wire_walk.specs.UnderWay.{linked_in, draws_zero, sent_at, AreBelow};

use crate::fates::{Fate, drawn_fate};
use crate::flight::Flight;
use crate::reading::read_through;
use bench_trait::Bench;
use phrase_tree::NoMemory;
use session_walk::Draws;
use std::alloc::Global;
use wire_frames::{Frame, FrameReader};
use wire_manager::{Arrived, WireSession};

/// The frame that was sent at a position, through a reader.
fn frame_at<B: Bench>(
    wire: &WireSession<'_, B>,
    reader: &mut FrameReader,
    position: u32,
) -> Result<Frame, NoMemory>
    requires rest { reader.old.rest ≡ [] }
    requires there { position < length wire.now.sent }
    ensures frame { IfOk result (λ frame. (message : Message) → message_at wire.now.messages (Some (sent_at wire.now.sent position)) ≡ Some message → frame ≡ frame_with wire.now.seen.opening.checked.now.nonce message) }
    ensures known { OnOk result ((message : Message) × (message_at wire.now.messages (Some (sent_at wire.now.sent position)) ≡ Some message)) }
    ensures rest { OnOk result (reader.new.rest ≡ []) }
{
    wire.linked();
    match wire.nth_sent(position) {
        Some(bytes) => read_through(reader, bytes.items()),
        None => Err(NoMemory),
    }
}

/// Lets a frame arrive, and what is sent for it fly.
fn come<B: Bench>(
    wire: &mut WireSession<'_, B>,
    flight: &mut Flight,
    reader: &mut FrameReader,
    position: u32,
) -> Result<(), NoMemory>
    requires rest { reader.old.rest ≡ [] }
    requires there { position < length wire.old.sent }
    requires below { AreBelow (length wire.old.sent) flight.old.frames.items }
    ensures seen { wire.new.seen ≡ wire.old.seen }
    ensures rest { OnOk result (reader.new.rest ≡ []) }
    ensures below { OnOk result (AreBelow (length wire.new.sent) flight.new.frames.items) }
    ensures came { OnOk result (linked_in wire.new flight.new ≡ came (message_at wire.old.messages (Some (sent_at wire.old.sent position))) (linked_in wire.old flight.old)) }
{
    let frame = frame_at(wire, reader, position)?;
    let before = wire.sent_count();
    match wire.arrive(&frame) {
        Ok(Arrived::Kept) => flight.follow(before, wire.sent_count()),
        Ok(Arrived::Repeated) => flight.follow(before, wire.sent_count()),
        Ok(Arrived::Strange) => Err(NoMemory),
        Err(_) => Err(NoMemory),
    }
}

/// Sends the message of a lost frame again, unless it has arrived.
fn lose<B: Bench>(
    alloc: Global,
    wire: &mut WireSession<'_, B>,
    flight: &mut Flight,
    position: u32,
) -> Result<(), NoMemory>
    requires there { position < length wire.old.sent }
    requires below { AreBelow (length wire.old.sent) flight.old.frames.items }
    ensures seen { wire.new.seen ≡ wire.old.seen }
    ensures below { OnOk result (AreBelow (length wire.new.sent) flight.new.frames.items) }
    ensures lost { OnOk result (linked_in wire.new flight.new ≡ lost_one (message_at wire.old.messages (Some (sent_at wire.old.sent position))) (linked_in wire.old flight.old)) }
{
    let frame = frame_at(wire, &mut FrameReader::open(alloc), position)?;
    if wire.has_arrived(frame.reply, frame.name) {
        return Ok(());
    }
    let before = wire.sent_count();
    match wire.resend(frame.reply, frame.name) {
        Ok(()) => flight.follow(before, wire.sent_count()),
        Err(_) => Err(NoMemory),
    }
}

/// Lets the frame in flight at an index meet its fate, which is drawn.
pub(crate) fn fly<B: Bench>(
    alloc: Global,
    wire: &mut WireSession<'_, B>,
    flight: &mut Flight,
    reader: &mut FrameReader,
    draws: &mut Draws,
    zero: bool,
    index: usize,
) -> Result<(), NoMemory>
    requires zero { zero ≡ draws_zero draws.old }
    requires rest { reader.old.rest ≡ [] }
    requires below { AreBelow (length wire.old.sent) flight.old.frames.items }
    requires there { index < length flight.old.frames.items }
    ensures seen { wire.new.seen ≡ wire.old.seen }
    ensures rest { OnOk result (reader.new.rest ≡ []) }
    ensures below { OnOk result (AreBelow (length wire.new.sent) flight.new.frames.items) }
    ensures met { OnOk result (linked_in wire.new flight.new ≡ met index (fate_drawn draws.old flight.old.lost flight.old.stayed).fate (linked_in wire.old flight.old)) }
    ensures from { draws.new ≡ (fate_drawn draws.old flight.old.lost flight.old.stayed).from }
{
    let position = flight.frames[index];
    match drawn_fate(draws, zero, flight) {
        Fate::Lost => {
            flight.frames.remove(index);
            flight.lost += 1;
            lose(alloc, wire, flight, position)
        }
        Fate::Stays => {
            flight.stayed += 1;
            come(wire, flight, reader, position)
        }
        Fate::Leaves => {
            flight.frames.remove(index);
            come(wire, flight, reader, position)
        }
    }
}
