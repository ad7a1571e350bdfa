//! What a frame that arrives makes of a link.
ghost use Rattle.std.specs.Prelude.{◌≡◌, ◌↔◌, IsTrue, OnOk, OnErr, drop};
ghost use Rattle.wire_manager.specs.Link.{messages_of, IsLink};
ghost use Rattle.wire_manager.specs.Framed.{Keeps};
ghost use Rattle.wire_manager.specs.Messages.{answer_to};
ghost use Rattle.wire_manager.specs.Wire.{sent_again, IsKnown, Arrives};

use crate::answers::Arrived;
use crate::link::{Kept, Link};
use phrase_tree::NoMemory;
use wire_frames::Frame;

/// The bundle of a message, which stands behind the first 25 bytes of its frame.
fn bundle(kept: &Kept) -> &[u8]
    ensures { result.now ≡ drop 25 kept.now.frame }
{
    let bytes = kept.frame.items();
    if bytes.len() < 25 {
        return &[];
    }
    let (_, bundle) = bytes.split_at(25);
    bundle
}

/// Whether a frame is one of this nonce and of a message that was sent.
fn is_known(link: &Link, nonce: &[u8; 16], frame: &Frame) -> bool
    requires { IsLink link.now }
    ensures { IsTrue result ↔ IsKnown nonce.now frame.now (messages_of link.now.messages.items) }
{
    if frame.nonce != *nonce {
        return false;
    }
    match link.message(frame.reply, frame.name) {
        Some(kept) => bundle(kept) == frame.bundle.items(),
        None => false,
    }
}

/// Sends the reply to a repeated request once more, if it was sent.
fn answer_again(link: &mut Link, reply: bool, name: u32) -> Result<(), NoMemory>
    requires { IsLink link.old }
    ensures link { IsLink link.new }
    ensures keeps { Keeps link.old link.new }
    ensures messages { link.new.messages ≡ link.old.messages }
    ensures ok { OnOk result (link.new.sent.items ≡ sent_again (answer_to reply name (messages_of link.old.messages.items)) link.old.sent.items) }
    ensures err { OnErr result (link.new.sent.items ≡ link.old.sent.items) }
{
    if reply {
        return Ok(());
    }
    match link.index(true, name) {
        Some(index) => link.send_again(index),
        None => Ok(()),
    }
}

/// Takes a frame that has arrived, of a session with this nonce.
pub(crate) fn arrive(link: &mut Link, nonce: &[u8; 16], frame: &Frame) -> Result<Arrived, NoMemory>
    requires { IsLink link.old }
    ensures link { IsLink link.new }
    ensures keeps { Keeps link.old link.new }
    ensures arrives { Arrives nonce.now frame.now (messages_of link.old.messages.items) link.old.sent.items result (messages_of link.new.messages.items) link.new.sent.items }
{
    if !is_known(link, nonce, frame) {
        return Ok(Arrived::Strange);
    }
    if !link.has_arrived(frame.reply, frame.name) {
        link.mark(frame.reply, frame.name);
        return Ok(Arrived::Kept);
    }
    match answer_again(link, frame.reply, frame.name) {
        Ok(()) => Ok(Arrived::Repeated),
        Err(_) => Err(NoMemory),
    }
}
