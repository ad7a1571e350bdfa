//! How the message of a move is made and sent.
ghost use Rattle.std.specs.Prelude.{◌≡◌, false, None, Some, IfOk, IfSome, OnOk, OnErr, Contains, length};
ghost use Rattle.std.specs.Option.{option_map};
ghost use Rattle.session_runs.specs.Standing.{Standing};
ghost use Rattle.session_runs.specs.Touches.{touch_of, sent_by};
ghost use Rattle.session_runs.specs.MoveOrder.{possible_moves};
ghost use Rattle.session_book.specs.Entries.{move_of};
ghost use Rattle.session_core.specs.Session.{places_in, StandsAt};
ghost use Rattle.wire_manager.specs.Messages.{index_in, message_by, message_with};
ghost use Rattle.wire_manager.specs.Link.{messages_of, IsLink, IsUnchanged};
ghost use Rattle.wire_manager.specs.Framed.{IsReady, Adds};

use crate::link::{Kept, Link};
use bench_trait::Bench;
use byte_ports::Bytes;
use phrase_tree::NoMemory;
use session_core::{Move, Session, Touch};
use std::alloc::Global;
use wire_frames::{BUNDLE_MOST, Frame, write_frame};

/// The message that a possible move sends, with its frame; none if it sends none. An error is want of memory.
pub(crate) fn message_for<B: Bench>(
    session: &Session<'_, B>,
    alloc: Global,
    step: &Move,
) -> Result<Option<Kept>, NoMemory>
    ensures { IfOk result (λ kept. (standing : Standing) → StandsAt session.now standing →
        Contains (possible_moves (places_in session.now.opening) standing) (move_of step.now) →
        IsReady session.now.opening.checked.now.nonce (message_by (touch_of standing (move_of step.now)) (sent_by standing (move_of step.now))) kept) }
{
    match session.touches(step) {
        Touch::Nothing => Ok(None),
        Touch::SendsRequest(name) => framed_for(session, alloc, false, name, step),
        Touch::SendsReply(name) => framed_for(session, alloc, true, name, step),
        Touch::NeedsRequest(_) => Ok(None),
        Touch::NeedsReply(_) => Ok(None),
    }
}

/// The evidence that a possible move sends as a message of a kind and a number; none if it sends none.
fn framed_for<B: Bench>(
    session: &Session<'_, B>,
    alloc: Global,
    reply: bool,
    name: u32,
    step: &Move,
) -> Result<Option<Kept>, NoMemory>
    ensures { IfOk result (λ kept. (standing : Standing) → StandsAt session.now standing →
        Contains (possible_moves (places_in session.now.opening) standing) (move_of step.now) →
        IsReady session.now.opening.checked.now.nonce (option_map (message_with reply name) (sent_by standing (move_of step.now))) kept) }
{
    match session.message(step) {
        Ok(Some(bundle)) => framed(alloc, reply, *session.nonce(), name, bundle),
        Ok(None) => Ok(None),
        Err(_) => Err(NoMemory),
    }
}

/// A message that has not arrived yet, with its frame. An error is want of memory, or a bundle longer than that
/// of a frame, which no session sends.
fn framed(
    alloc: Global,
    reply: bool,
    nonce: [u8; 16],
    name: u32,
    bundle: Bytes,
) -> Result<Option<Kept>, NoMemory>
    ensures { IfOk result (IsReady nonce (Some (record { reply = reply; name = name; bundle = bundle; arrived = false }))) }
{
    nonce_is_sixteen(&nonce);
    let frame = Frame {
        reply,
        nonce,
        name,
        bundle,
    };
    if frame.bundle.items().len() > BUNDLE_MOST {
        return Err(NoMemory);
    }
    match write_frame(alloc, &frame) {
        Ok(bytes) => Ok(Some(Kept {
            reply,
            name,
            arrived: false,
            frame: bytes,
        })),
        Err(_) => Err(NoMemory),
    }
}

/// A law: a nonce has 16 bytes. It does nothing.
fn nonce_is_sixteen(_nonce: &[u8; 16])
    ensures { length _nonce.now ≡ 16 }
{}

/// Adds a message and sends it, if there is one. After an error nothing has changed.
pub(crate) fn add(link: &mut Link, message: Option<Kept>) -> Result<(), NoMemory>
    requires link { IsLink link.old }
    requires new { IfSome message (λ kept. index_in kept.reply kept.name (messages_of link.old.messages.items) ≡ None) }
    ensures link { IsLink link.new }
    ensures ok { OnOk result (Adds message link.old link.new) }
    ensures err { OnErr result (IsUnchanged link.old link.new) }
{
    match message {
        Some(kept) => link.add(kept),
        None => Ok(()),
    }
}
