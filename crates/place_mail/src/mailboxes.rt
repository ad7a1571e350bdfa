ghost use Rattle.std.specs.Prelude.{◌≡◌, ◌≤◌, ◌<◌, [], replicate, length, None, IsOk, IfOk, OnOk, OnErr};
ghost use Rattle.std.specs.Option.{option_map};
ghost use Rattle.rising_list.specs.Rising.{find};
ghost use Rattle.place_mail.specs.Mail.{front_at, after_post, after_take, after_answer, after_reply};

use crate::queue::Queue;
use crate::replies::Replies;
use crate::request::Request;
use evidence_store::EvId;
use phrase_tree::NoMemory;
use std::alloc::Global;
use std::marker::Model;

/// One list of requests for each place, first in, first out, and the replies by name. A place is an
/// index below the number of places; a name is the number of a request.
///
/// A post or a reply for which there is room takes no memory; otherwise it may, and an error is want of
/// memory, after which everything is as before. Posting, looking at the first request and taking it
/// take constant time; a reply takes time in the logarithm of the number of replies that are there, and
/// one shift of those behind it.
#[derive(Debug, Drop)]
pub struct Mailboxes {
    queue: Queue,
    replies: Replies,
}

impl Model for Mailboxes {
    ghost use Rattle.place_mail.specs.Mail.{Mail, mail_code};

    ghost Value = { Mail };

    ghost coded = { mail_code };

    ghost view = { λ m. record {
      requests = m.queue.lists;
      answers = m.replies.entries;
      posts = m.queue.room;
      replies = m.replies.room;
    } };
}

impl Mailboxes {
    /// No mail between this many places, with room for this many posts in all and as many replies.
    pub fn open(alloc: Global, places: u32, requests: u32) -> Result<Mailboxes, NoMemory>
        ensures empty { IfOk result (λ mail. (mail.requests ≡ replicate places []) × (mail.answers ≡ [])) }
        ensures room { IfOk result (λ mail. (requests ≤ mail.posts) × (requests ≤ mail.replies)) }
    {
        let queue = Queue::open(alloc, places, requests)?;
        let replies = Replies::open(alloc, requests)?;
        Ok(Mailboxes { queue, replies })
    }

    /// Posts a request to a place, behind those that wait there.
    pub fn post(&mut self, place: u32, request: Request) -> Result<(), NoMemory>
        requires { place < length self.old.requests }
        ensures ok { OnOk result (self.new ≡ after_post place request self.old) }
        ensures err { OnErr result (self.new ≡ self.old) }
        ensures room { 1 ≤ self.old.posts → IsOk result }
    {
        self.queue.post(place, request)
    }

    /// Adds the reply to the request of a name, which has none.
    pub fn answer(&mut self, name: u32, evidence: EvId) -> Result<(), NoMemory>
        requires { find name self.old.answers ≡ None }
        ensures ok { OnOk result (self.new ≡ after_answer name evidence self.old) }
        ensures err { OnErr result (self.new ≡ self.old) }
        ensures room { 1 ≤ self.old.replies → IsOk result }
    {
        self.replies.answer(name, evidence)
    }

    /// Takes the first request that waits at a place; none exactly when none waits, and then nothing
    /// changes.
    pub fn take_front(&mut self, place: u32) -> Option<Request>
        requires { place < length self.old.requests }
        ensures front { result ≡ front_at place self.old.requests }
        ensures rest { self.new ≡ after_take place self.old }
    {
        self.queue.take_front(place)
    }

    /// Takes the reply to the request of a name; none exactly when none is there, and then nothing
    /// changes.
    pub fn take_reply(&mut self, name: u32) -> Option<EvId>
        ensures reply { result ≡ find name self.old.answers }
        ensures rest { self.new ≡ after_reply name self.old }
    {
        self.replies.take(name)
    }

    /// The first request that waits at a place; none exactly when none waits.
    pub fn front(&self, place: u32) -> Option<&Request>
        requires { place < length self.now.requests }
        ensures { option_map (λ request. request.now) result ≡ front_at place self.now.requests }
    {
        self.queue.front(place)
    }

    /// The reply to the request of a name; none exactly when none is there.
    pub fn reply(&self, name: u32) -> Option<EvId>
        ensures { result ≡ find name self.now.answers }
    {
        self.replies.find(name)
    }
}
