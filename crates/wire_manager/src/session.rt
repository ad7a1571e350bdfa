ghost use Rattle.std.specs.Prelude.{◌≡◌, ◌≤◌, ◌<◌, ◌↔◌, ◌⊎◌, [], ℕ, None, Some, Ok, Err, IsTrue, IsErr, IfOk, OnOk, OnErr, length, slice_get};
ghost use Rattle.std.specs.Option.{option_map};
ghost use Rattle.bench_trait.specs.declared.ask.Ask.{Ask as Question};
ghost use Rattle.bench_trait.specs.Asking.{question};
ghost use Rattle.bench_trait.specs.Bench.{MatchMeasured};
ghost use Rattle.session_runs.specs.Played.{AsksOnly};
ghost use Rattle.session_runs.specs.Standing.{is_open, Standing};
ghost use Rattle.session_runs.specs.History.{IsLegal};
ghost use Rattle.session_runs.specs.MoveOrder.{asks_in_order};
ghost use Rattle.session_book.specs.declared.entry.Entry.TheVariants as entry;
ghost use Rattle.session_book.specs.Entries.{move_of};
ghost use Rattle.session_core.specs.Reading.{word_of, HasStopped, question_of, result_entry, TellsOf, IsOutcome};
ghost use Rattle.session_core.specs.Session.{with_entry, session_in, keys_in, places_in, history, StandsAt, IsAwaited};
ghost use Rattle.wire_frames.specs.Frames.{IsFrame};
ghost use Rattle.wire_manager.specs.Requests.{touches_in};
ghost use Rattle.wire_manager.specs.Messages.{Message, index_in, has_arrived, is_there};
ghost use Rattle.wire_manager.specs.Linked.{delivery_count, AreLinked, wire_moves, IsWirePossible, CanMakeNow, IsUnderWay};
ghost use Rattle.wire_manager.specs.Link.{AreSent, at_number};
ghost use Rattle.wire_manager.specs.Framed.{frame_with, bytes_of};
ghost use Rattle.wire_manager.specs.Wire.{Sends, sent_again, Arrives};

use crate::answers::{Arrived, ResendError, WireError};
use crate::arriving::arrive;
use crate::laws::{link_law, request_law, wire_progress_law};
use crate::link::Link;
use crate::listing::{move_count, nth_move, nth_sent};
use crate::playing::{play, record};
use crate::touching::is_there;
use bench_trait::{Ask, Bench, MeasureError};
use byte_ports::Bytes;
use evidence_types::Answer;
use phrase_tree::NoMemory;
use session_core::{Move, OutcomeError, Played, RecordError, Session, State};
use session_model::Record;
use std::alloc::Global;
use std::marker::Model;
use wire_frames::Frame;

/// A session whose requests and replies travel over links: a request or a reply takes effect only once its frame
/// has arrived. Frames may be lost, repeated and put in another order.
#[derive(Drop)]
pub struct WireSession<'a, B: Bench> {
    session: Session<'a, B>,
    link: Link,
    alloc: Global,
}

impl<'a, B: Bench> Model for WireSession<'a, B> {
    ghost use Rattle.std.specs.Coded.{codes};
    ghost use Rattle.phrase_tree.specs.contracts.phrase.Phrase as trees;
    ghost use Rattle.session_core.specs.declared.opened.Opened.{Opened};
    ghost use Rattle.wire_manager.specs.Link.{messages_of};
    ghost use Rattle.wire_manager.specs.Wire.{Wire, IsWire};

    ghost Value = { Wire (Opened B) };

    ghost coded = { Prim.hlevel (codes, trees.the_row.coded) };

    ghost view = { λ w. record { seen = w.session; messages = messages_of w.link.messages.items; sent = w.link.sent.items } };

    ghost invariant = { λ w. IsWire w.session w.link };
}

impl<'a, B: Bench> WireSession<'a, B> {
    /// Over links, a session that was just opened. An error is want of memory, and the session is dropped.
    pub fn open(alloc: Global, session: Session<'a, B>) -> Result<WireSession<'a, B>, NoMemory>
        requires { session.items ≡ [] }
        ensures { IfOk result (λ wire. wire ≡ record { seen = session.entry; messages = []; sent = [] }) }
    {
        link_law();
        Ok(WireSession {
            session,
            link: Link::open(alloc),
            alloc,
        })
    }

    /// A law: whatever was lost, repeated or put in another order, the history is legal; no block of a request
    /// is started twice, and a request is delivered, and a reply taken, only after it was sent and has arrived;
    /// and each message was sent, as a frame.
    pub fn linked(&self)
        ensures legal { (standing : Standing) × IsLegal
            (λ ask answer. B.gives self.now.seen.opening.bench.now self.now.seen.opening.artefacts.now ask answer)
            (λ ask fault. B.fails self.now.seen.opening.bench.now self.now.seen.opening.artefacts.now ask fault)
            (λ ask. B.starves self.now.seen.opening.bench.now self.now.seen.opening.artefacts.now ask)
            (session_in self.now.seen.opening)
            (keys_in self.now.seen.opening)
            (history self.now.seen)
            standing }
        ensures once { (request : ℕ) → delivery_count request (touches_in (session_in self.now.seen.opening) (keys_in self.now.seen.opening) (history self.now.seen)) ≤ 1 }
        ensures linked { AreLinked (touches_in (session_in self.now.seen.opening) (keys_in self.now.seen.opening) (history self.now.seen)) self.now.messages }
        ensures sent { AreSent (length self.now.messages) self.now.sent }
        ensures frames { (index : ℕ) (message : Message) → slice_get self.now.messages index ≡ Some message →
            IsFrame (frame_with self.now.seen.opening.checked.now.nonce message) }
    {
        request_law();
        self.session.legal();
        let _ = &self.link;
    }

    /// A law: while the session is open, a pass can make a move whose needed request or reply has arrived, an ask
    /// is in flight, or a message has not arrived; and if its places are all that its phrase asks, such a move is
    /// listed.
    pub fn is_not_stuck(&self)
        ensures possible { (standing : Standing) (pass : ℕ) → StandsAt self.now.seen standing → standing.state ≡ is_open →
            CanMakeNow (session_in self.now.seen.opening) (keys_in self.now.seen.opening) standing pass self.now.messages ⊎ ((1 ≤ length standing.in_flight) ⊎ IsUnderWay self.now.messages) }
        ensures listed { (standing : Standing) → StandsAt self.now.seen standing → standing.state ≡ is_open →
            AsksOnly (places_in self.now.seen.opening) (session_in self.now.seen.opening).phrase →
            (1 ≤ length (wire_moves (places_in self.now.seen.opening) standing self.now.messages)) ⊎ ((1 ≤ length standing.in_flight) ⊎ IsUnderWay self.now.messages) }
    {
        wire_progress_law();
        let _ = &self.link;
    }

    /// How the session stands.
    pub fn state(&self) -> State
        ensures { (standing : Standing) → StandsAt self.now.seen standing → result ≡ word_of standing.state }
    {
        self.session.state()
    }

    /// The number of asks in flight.
    pub fn asked_count(&self) -> u32
        ensures { (standing : Standing) → StandsAt self.now.seen standing → result ≡ length (asks_in_order standing.in_flight) }
    {
        self.session.asked_count()
    }

    /// The question of the ask in flight at an index, by the order of their events. None exactly if there
    /// are no more than that.
    pub fn nth_asked(&self, index: u32) -> Option<Ask>
        ensures { (standing : Standing) → StandsAt self.now.seen standing →
            result ≡ question_of (session_in self.now.seen.opening) (slice_get (asks_in_order standing.in_flight) index) }
    {
        self.session.nth_asked(index)
    }

    /// Records what a bench gave for an ask of this pass that is in flight. An error is that the session
    /// had failed or starved; then the result is dropped, and nothing changes.
    pub fn record(
        &mut self,
        pass: u32,
        event: u32,
        measured: Result<Answer, MeasureError>,
    ) -> Result<(), RecordError>
        requires asked { IsAwaited self.old.seen pass event }
        requires measured { (ask : Question) × (question (session_in self.old.seen.opening).phrase (session_in self.old.seen.opening).root (session_in self.old.seen.opening).nonce event ≡ Some ask) × MatchMeasured
            measured
            (B.gives self.old.seen.opening.bench.now self.old.seen.opening.artefacts.now ask)
            (B.fails self.old.seen.opening.bench.now self.old.seen.opening.artefacts.now ask)
            (B.starves self.old.seen.opening.bench.now self.old.seen.opening.artefacts.now ask) }
        ensures ended { (standing : Standing) → StandsAt self.old.seen standing → IsErr result ↔ HasStopped standing.state }
        ensures ok { OnOk result (self.new ≡ record self.old { seen = with_entry (result_entry pass event measured) self.old.seen }) }
        ensures err { OnErr result (self.new ≡ self.old) }
    {
        record(&mut self.session, &self.link, pass, event, measured)
    }

    /// The record of a session that is done or failed. An error is that it is open, or want of memory,
    /// always if it starved.
    pub fn outcome(&self) -> Result<Record, OutcomeError>
        ensures found { (standing : Standing) → StandsAt self.now.seen standing → IsOutcome (session_in self.now.seen.opening) standing result }
        ensures not_finished { (standing : Standing) → StandsAt self.now.seen standing →
            (result ≡ Err OutcomeError.NotFinished) ↔ (standing.state ≡ is_open) }
    {
        self.session.outcome()
    }

    /// Whether a move is possible, and the request or reply that it needs has arrived.
    pub fn can(&self, step: &Move) -> bool
        ensures { (standing : Standing) → StandsAt self.now.seen standing →
            IsTrue result ↔ IsWirePossible (places_in self.now.seen.opening) standing self.now.messages (move_of step.now) }
    {
        self.session.can(step) && is_there(&self.link, self.session.touches(step))
    }

    /// Makes a move by a pass. A move that sends a request or a reply appends its message to those that were
    /// sent. `NotNow` says exactly that the move is not possible over links. After an error nothing has changed.
    pub fn play(&mut self, pass: u32, step: Move) -> Result<Played, WireError>
        ensures refused { (standing : Standing) → StandsAt self.old.seen standing →
            (result ≡ Err WireError.NotNow) ↔ (IsWirePossible (places_in self.old.seen.opening) standing self.old.messages (move_of step) → ⊥) }
        ensures history { OnOk result (self.new.seen ≡ with_entry (entry.Played pass step) self.old.seen) }
        ensures sends { OnOk result ((standing : Standing) → StandsAt self.old.seen standing →
            Sends standing (move_of step) self.old.messages self.new.messages self.old.sent self.new.sent) }
        ensures err { OnErr result (self.new ≡ self.old) }
        ensures tells { IfOk result (λ played. (before after : Standing) → StandsAt self.old.seen before → StandsAt self.new.seen after →
            TellsOf (session_in self.old.seen.opening) pass step before after played) }
    {
        self.session.legal();
        if !self.can(&step) {
            return Err(WireError::NotNow);
        }
        match play(&mut self.session, &mut self.link, self.alloc, pass, step) {
            Ok(played) => Ok(played),
            Err(_) => Err(WireError::NoMemory),
        }
    }

    /// The number of moves that are possible over links.
    pub fn move_count(&self) -> u32
        ensures { (standing : Standing) → StandsAt self.now.seen standing →
            result ≡ length (wire_moves (places_in self.now.seen.opening) standing self.now.messages) }
    {
        move_count(&self.session, &self.link)
    }

    /// The move that is possible over links at an index, in the order of the session's own. None exactly if there
    /// are no more than that. Takes time linear in the session's possible moves.
    pub fn nth_move(&self, index: u32) -> Option<Move>
        ensures { (standing : Standing) → StandsAt self.now.seen standing →
            option_map move_of result ≡ slice_get (wire_moves (places_in self.now.seen.opening) standing self.now.messages) index }
    {
        nth_move(&self.session, &self.link, index)
    }

    /// How many messages were sent, each as often as it was.
    pub fn sent_count(&self) -> u32
        ensures { result ≡ length self.now.sent }
    {
        self.link.sent.len() as u32
    }

    /// The bytes of the frame that was sent at an index. None exactly if there are no more than that.
    pub fn nth_sent(&self, index: u32) -> Option<&Bytes>
        ensures bytes { option_map (λ bytes. bytes.now) result ≡ option_map (bytes_of self.now.seen.opening.checked.now.nonce) (at_number self.now.messages (slice_get self.now.sent index)) }
        ensures none { (result ≡ None) ↔ (length self.now.sent ≤ index) }
    {
        nth_sent(&self.link, index)
    }

    /// Whether the message of a kind and a number was sent and has arrived.
    pub fn has_arrived(&self, reply: bool, name: u32) -> bool
        ensures { result ≡ has_arrived reply name self.now.messages }
    {
        self.link.has_arrived(reply, name)
    }

    /// Sends a message again. Copies no bytes. After an error nothing has changed.
    pub fn resend(&mut self, reply: bool, name: u32) -> Result<(), ResendError>
        ensures not_sent { (result ≡ Err ResendError.NotSent) ↔ (index_in reply name self.old.messages ≡ None) }
        ensures ok { OnOk result (self.new ≡ record self.old { sent = sent_again (index_in reply name self.old.messages) self.old.sent }) }
        ensures err { OnErr result (self.new ≡ self.old) }
    {
        let Some(index) = self.link.index(reply, name) else {
            return Err(ResendError::NotSent);
        };
        match self.link.send_again(index) {
            Ok(()) => Ok(()),
            Err(_) => Err(ResendError::NoMemory),
        }
    }

    /// Takes a frame that has arrived. Takes time linear in its bundle, and in the logarithm of the messages.
    /// After an error, which is want of memory, nothing has changed.
    pub fn arrive(&mut self, frame: &Frame) -> Result<Arrived, NoMemory>
        ensures seen { self.new.seen ≡ self.old.seen }
        ensures arrives { Arrives self.old.seen.opening.checked.now.nonce frame.now self.old.messages self.old.sent result self.new.messages self.new.sent }
    {
        link_law();
        arrive(&mut self.link, self.session.nonce(), frame)
    }
}
