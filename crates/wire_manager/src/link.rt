//! The messages of a session: the bytes of each are kept once, and found by kind and number.
ghost use Rattle.std.specs.Prelude.{◌≡◌, ◌<◌, ◌^◌, ◌++◌, ◌∷◌, [], length, None, OnOk, OnErr, vec_len, vec_capacity};
ghost use Rattle.rising_list.specs.Rising.{RisesFrom, find, inserted};
ghost use Rattle.std.specs.Option.{option_map};
ghost use Rattle.wire_manager.specs.Messages.{found, has_arrived, index_in, with_arrived};
ghost use Rattle.wire_manager.specs.Link.{message_of, messages_of, IsLink, IsUnchanged, HasMore};
ghost use Rattle.wire_manager.specs.Framed.{Keeps};

use byte_ports::Bytes;
use phrase_tree::NoMemory;
use rising_list::{find_in, insert_in, what_is_found};
use std::alloc::Global;

/// A message of a session.
#[derive(Debug, Drop)]
pub(crate) struct Kept {
    pub reply: bool,
    pub name: u32,
    pub arrived: bool,
    /// The bytes of its frame.
    pub frame: Bytes,
}

/// The messages of a session, each kept once, and the indices of those that were sent, in order.
#[derive(Debug, Drop)]
pub(crate) struct Link {
    pub messages: Vec<Kept>,
    pub sent: Vec<u32>,
    /// The indices of the requests and of the replies, by their numbers, which rise.
    pub requests: Vec<(u32, u32)>,
    pub replies: Vec<(u32, u32)>,
}

impl Link {
    /// No messages. Takes no memory yet.
    pub fn open(alloc: Global) -> Link
        ensures link { IsLink result }
        ensures messages { result.messages.items ≡ [] }
        ensures sent { result.sent.items ≡ [] }
    {
        Link {
            messages: Vec::new(alloc),
            sent: Vec::new(alloc),
            requests: Vec::new(alloc),
            replies: Vec::new(alloc),
        }
    }

    /// The index of the message of a kind and a number, by binary search; none exactly if there is none.
    pub fn index(&self, reply: bool, name: u32) -> Option<u32>
        requires { IsLink self.now }
        ensures { result ≡ index_in reply name (messages_of self.now.messages.items) }
    {
        if reply {
            find_in(&self.replies, name)
        } else {
            find_in(&self.requests, name)
        }
    }

    /// The message of a kind and a number, by binary search; none exactly if there is none.
    pub fn message(&self, reply: bool, name: u32) -> Option<&Kept>
        requires { IsLink self.now }
        ensures { option_map (λ kept. message_of kept.now) result ≡ found reply name (messages_of self.now.messages.items) }
    {
        match self.index(reply, name) {
            Some(index) => Some(&self.messages[index as usize]),
            None => None,
        }
    }

    /// Whether the message of a kind and a number was sent and has arrived.
    pub fn has_arrived(&self, reply: bool, name: u32) -> bool
        requires { IsLink self.now }
        ensures { result ≡ has_arrived reply name (messages_of self.now.messages.items) }
    {
        match self.message(reply, name) {
            Some(message) => message.arrived,
            None => false,
        }
    }

    /// Adds a message, of which there is none of its kind and number, and sends it. An error is want of memory,
    /// or that there would be 2^32 messages or more; then nothing changes.
    pub fn add(&mut self, message: Kept) -> Result<(), NoMemory>
        requires link { IsLink self.old }
        requires new { index_in message.reply message.name (messages_of self.old.messages.items) ≡ None }
        ensures link { IsLink self.new }
        ensures ok { OnOk result (HasMore message self.old self.new) }
        ensures err { OnErr result (IsUnchanged self.old self.new) }
    {
        what_is_found::<u32>();
        if message.reply {
            put(
                &mut self.messages,
                &mut self.sent,
                &mut self.replies,
                message,
            )
        } else {
            put(
                &mut self.messages,
                &mut self.sent,
                &mut self.requests,
                message,
            )
        }
    }

    /// Sends the message at an index once more. An error is want of memory, or that 2^32 would be sent; then
    /// nothing changes.
    #[tactic(auto, using(crate::proofs::WireLemmas::keeps_again))]
    pub fn send_again(&mut self, index: u32) -> Result<(), NoMemory>
        requires link { IsLink self.old }
        requires there { index < length self.old.messages.items }
        ensures link { IsLink self.new }
        ensures keeps { Keeps self.old self.new }
        ensures messages { self.new.messages ≡ self.old.messages }
        ensures ok { OnOk result (self.new.sent.items ≡ self.old.sent.items ++ index ∷ []) }
        ensures err { OnErr result (self.new.sent.items ≡ self.old.sent.items) }
    {
        if self.sent.len() >= MOST {
            return Err(NoMemory);
        }
        match self.sent.push(index) {
            Ok(()) => Ok(()),
            Err(_) => Err(NoMemory),
        }
    }

    /// Notes that the message of a kind and a number has arrived, if there is one.
    pub fn mark(&mut self, reply: bool, name: u32)
        requires { IsLink self.old }
        ensures link { IsLink self.new }
        ensures keeps { Keeps self.old self.new }
        ensures messages { messages_of self.new.messages.items ≡ with_arrived reply name (messages_of self.old.messages.items) }
        ensures sent { self.new.sent ≡ self.old.sent }
    {
        match self.index(reply, name) {
            Some(index) => self.messages[index as usize].arrived = true,
            None => {}
        }
    }
}

/// More messages than this are not kept, nor sent.
const MOST: usize = 4_294_967_295;

/// Appends a message and sends it, and puts its index in at its number, which has none. After an error nothing
/// has changed.
fn put(
    messages: &mut Vec<Kept>,
    sent: &mut Vec<u32>,
    numbers: &mut Vec<(u32, u32)>,
    message: Kept,
) -> Result<(), NoMemory>
    requires rises { RisesFrom 0 numbers.old.items }
    requires new { find message.name numbers.old.items ≡ None }
    ensures rises { RisesFrom 0 numbers.new.items }
    ensures messages { OnOk result (messages.new.items ≡ messages.old.items ++ message ∷ []) }
    ensures sent { OnOk result (sent.new.items ≡ sent.old.items ++ length messages.old.items ∷ []) }
    ensures numbers { OnOk result (numbers.new.items ≡ inserted message.name (length messages.old.items) numbers.old.items) }
    ensures few { OnOk result ((length messages.new.items < 2 ^ 32) × (length sent.new.items < 2 ^ 32)) }
    ensures err { OnErr result ((messages.new.items ≡ messages.old.items) × ((sent.new.items ≡ sent.old.items) × (numbers.new.items ≡ numbers.old.items))) }
{
    let index = messages.len();
    if index >= MOST || sent.len() >= MOST {
        return Err(NoMemory);
    }
    make_room(messages)?;
    make_room(sent)?;
    make_room(numbers)?;
    insert_in(numbers, message.name, index as u32);
    messages.push_reserved(message);
    sent.push_reserved(index as u32);
    Ok(())
}

/// Makes room for one more, if there is none.
fn make_room<T: Drop>(items: &mut Vec<T>) -> Result<(), NoMemory>
    ensures items { items.new.items ≡ items.old.items }
    ensures room { OnOk result (vec_len items.new < vec_capacity items.new) }
{
    match items.reserve(1) {
        Ok(()) => Ok(()),
        Err(_) => Err(NoMemory),
    }
}
