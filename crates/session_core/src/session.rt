ghost use Rattle.std.specs.Prelude.{◌≡◌, ◌+◌, ◌*◌, ◌≤◌, ◌↔◌, ◌∷◌, ℕ, List, None, Some, Ok, Err, IsTrue, IsErr, IfOk, OnOk, OnErr, Contains, length, slice_get};
ghost use Rattle.std.specs.Option.{option_map};
ghost use Rattle.std.specs.List.{AllByRecursion};
ghost use Rattle.phrase_tree.specs.Numbering.{IsSized, event_count};
ghost use Rattle.bench_trait.specs.declared.ask.Ask.{Ask as Question};
ghost use Rattle.bench_trait.specs.Asking.{question};
ghost use Rattle.bench_trait.specs.Bench.{MatchMeasured};
ghost use Rattle.session_runs.specs.Standing.{is_open, Standing};
ghost use Rattle.session_runs.specs.History.{IsLegal};
ghost use Rattle.session_runs.specs.MoveOrder.{possible_moves, asks_in_order};
ghost use Rattle.place_check.specs.Session.{IsCheckedAgainst, session_of};
ghost use Rattle.session_book.specs.declared.entry.Entry.TheVariants as entry;
ghost use Rattle.session_book.specs.Entries.{move_of};
ghost use Rattle.session_core.specs.Reading.{word_of, HasStopped, question_of, result_entry, TellsOf, IsOutcome};
ghost use Rattle.session_core.specs.Touching.{IsTouchOf, IsMessageOf, IsImpossible};
ghost use Rattle.session_core.specs.Session.{IsItem, with_entry, session_in, keys_in, places_in, history, StandsAt, IsAwaited, IsJustOpened};

#[cfg(test)]
mod run_tests;

use crate::opened::Opened;
use crate::played::{OutcomeError, PlayError, Played, RecordError, Touch};
use crate::steps::Core;
use bench_trait::{ArtefactBook, Ask, Bench, MeasureError};
use byte_ports::Bytes;
use evidence_types::Answer;
use phrase_tree::NoMemory;
use place_check::{Checked, Places};
use session_book::{Entry, Move, State};
use session_model::Record;
use session_runs::{length_law, room_law};
use std::alloc::Global;
use std::marker::Model;

/// A session: what it was opened with, and how far it is. At every moment its history is legal.
#[derive(Drop)]
pub struct Session<'a, B: Bench> {
    opened: Opened<'a, B>,
    core: Core,
}

impl<'a, B: Bench> Model for Session<'a, B> {
    ghost use Rattle.std.specs.Coded.{codes};
    ghost use Rattle.phrase_tree.specs.contracts.phrase.Phrase as trees;
    ghost use Rattle.session_core.specs.declared.opened.Opened.{Opened};
    ghost use Rattle.session_core.specs.Session.{Seen, items_of, IsSession};

    ghost Value = { Seen (Opened B) };

    ghost coded = { Prim.hlevel (codes, trees.the_row.coded) };

    ghost view = { λ s. record { opening = s.opened; items = items_of s.core.book } };

    ghost invariant = { λ s. IsSession
        (λ ask answer. B.gives s.opened.bench.now s.opened.artefacts.now ask answer)
        (λ ask fault. B.fails s.opened.bench.now s.opened.artefacts.now ask fault)
        (λ ask. B.starves s.opened.bench.now s.opened.artefacts.now ask)
        s.opened
        s.core };
}

impl<'a, B: Bench> Session<'a, B> {
    /// A session just opened. It takes all the room that it will need: no other call takes memory but
    /// `outcome` and `message`. An error is want of memory.
    pub fn open(
        alloc: Global,
        checked: &'a Checked,
        places: &'a Places,
        artefacts: &'a ArtefactBook,
        bench: &'a B,
    ) -> Result<Session<'a, B>, NoMemory>
        requires { IsCheckedAgainst (session_of checked.now) places.now }
        ensures { IfOk result (IsJustOpened checked.now places.now artefacts.now bench.now) }
    {
        phrase_is_sized(checked);
        let core = Core::open(alloc, checked, places)?;
        Ok(Session {
            opened: Opened {
                checked,
                places,
                artefacts,
                bench,
            },
            core,
        })
    }

    /// A law: the history of a session is legal, by its own bench, over its own artefacts.
    pub fn legal(&self)
        ensures { (standing : Standing) × IsLegal
            (λ ask answer. B.gives self.now.opening.bench.now self.now.opening.artefacts.now ask answer)
            (λ ask fault. B.fails self.now.opening.bench.now self.now.opening.artefacts.now ask fault)
            (λ ask. B.starves self.now.opening.bench.now self.now.opening.artefacts.now ask)
            (session_in self.now.opening)
            (keys_in self.now.opening)
            (history self.now)
            standing }
    {
        let _ = &self.opened;
    }

    /// A law: if the phrase has e events, a session has at most 2e + 2 entries, its opening among them; and
    /// no other entry is an opening.
    pub fn has_few_entries(&self)
        ensures few { length self.now.items + 1 ≤ 2 * event_count (session_in self.now.opening).phrase + 2 }
        ensures items { AllByRecursion IsItem self.now.items }
    {
        length_law();
        let _ = &self.opened;
    }

    /// How the session stands.
    pub fn state(&self) -> State
        ensures { (standing : Standing) → StandsAt self.now standing → result ≡ word_of standing.state }
    {
        self.core.state()
    }

    /// Whether a move is possible.
    pub fn can(&self, step: &Move) -> bool
        ensures { (standing : Standing) → StandsAt self.now standing →
            IsTrue result ↔ Contains (possible_moves (places_in self.now.opening) standing) (move_of step.now) }
    {
        self.core.can(step)
    }

    /// The number of possible moves.
    pub fn move_count(&self) -> u32
        ensures { (standing : Standing) → StandsAt self.now standing →
            result ≡ length (possible_moves (places_in self.now.opening) standing) }
    {
        room_law();
        self.core.move_count() as u32
    }

    /// The possible move at an index, in their order: deliveries, by the place's index; then blocks that
    /// run on without an event, the root first and then by rising number; then all others, by their
    /// event. None exactly if there are no more than that.
    pub fn nth_move(&self, index: u32) -> Option<Move>
        ensures { (standing : Standing) → StandsAt self.now standing →
            option_map move_of result ≡ slice_get (possible_moves (places_in self.now.opening) standing) index }
    {
        self.core.nth_move(index)
    }

    /// The number of asks in flight.
    pub fn asked_count(&self) -> u32
        ensures { (standing : Standing) → StandsAt self.now standing → result ≡ length (asks_in_order standing.in_flight) }
    {
        self.core.asked_count()
    }

    /// The question of the ask in flight at an index, by the order of their events. None exactly if there
    /// are no more than that.
    pub fn nth_asked(&self, index: u32) -> Option<Ask>
        ensures { (standing : Standing) → StandsAt self.now standing →
            result ≡ question_of (session_in self.now.opening) (slice_get (asks_in_order standing.in_flight) index) }
    {
        self.core.nth_asked(index)
    }

    /// Makes a move by a pass. An error is that it isn't possible, and then nothing changes.
    pub fn play(&mut self, pass: u32, step: Move) -> Result<Played, PlayError>
        ensures refused { (standing : Standing) → StandsAt self.old standing →
            IsErr result ↔ (Contains (possible_moves (places_in self.old.opening) standing) (move_of step) → ⊥) }
        ensures ok { OnOk result (self.new ≡ with_entry (entry.Played pass step) self.old) }
        ensures err { OnErr result (self.new ≡ self.old) }
        ensures tells { IfOk result (λ played. (before after : Standing) → StandsAt self.old before → StandsAt self.new after →
            TellsOf (session_in self.old.opening) pass step before after played) }
    {
        self.core.play(pass, step, self.opened.places.keys())
    }

    /// Records what a bench gave for an ask of this pass that is in flight. An error is that the session
    /// had failed or starved; then the result is dropped, and nothing changes.
    pub fn record(
        &mut self,
        pass: u32,
        event: u32,
        measured: Result<Answer, MeasureError>,
    ) -> Result<(), RecordError>
        requires asked { IsAwaited self.old pass event }
        requires measured { (ask : Question) × (question (session_in self.old.opening).phrase (session_in self.old.opening).root (session_in self.old.opening).nonce event ≡ Some ask) × MatchMeasured
            measured
            (B.gives self.old.opening.bench.now self.old.opening.artefacts.now ask)
            (B.fails self.old.opening.bench.now self.old.opening.artefacts.now ask)
            (B.starves self.old.opening.bench.now self.old.opening.artefacts.now ask) }
        ensures ended { (standing : Standing) → StandsAt self.old standing → IsErr result ↔ HasStopped standing.state }
        ensures ok { OnOk result (self.new ≡ with_entry (result_entry pass event measured) self.old) }
        ensures err { OnErr result (self.new ≡ self.old) }
    {
        self.core.record(pass, event, measured)
    }

    /// The record of a session that is done or failed. An error is that it is open, or want of memory,
    /// always if it starved.
    pub fn outcome(&self) -> Result<Record, OutcomeError>
        ensures found { (standing : Standing) → StandsAt self.now standing → IsOutcome (session_in self.now.opening) standing result }
        ensures not_finished { (standing : Standing) → StandsAt self.now standing →
            (result ≡ Err OutcomeError.NotFinished) ↔ (standing.state ≡ is_open) }
    {
        self.core.outcome()
    }

    /// Which request or reply a possible move sends or needs, by its number; nothing for all others.
    pub fn touches(&self, step: &Move) -> Touch
        ensures possible { (standing : Standing) → StandsAt self.now standing → IsTouchOf (places_in self.now.opening) standing step.now result }
        ensures otherwise { (standing : Standing) → StandsAt self.now standing →
            IsImpossible (places_in self.now.opening) standing step.now → result ≡ Touch.Nothing }
    {
        self.core.touches(step)
    }

    /// The bundle of the evidence that a possible move sends; none if it sends no request and no reply,
    /// and for all others. An error is want of memory.
    pub fn message(&self, step: &Move) -> Result<Option<Bytes>, NoMemory>
        ensures possible { IfOk result (λ message. (standing : Standing) → StandsAt self.now standing →
            IsMessageOf (places_in self.now.opening) standing step.now message) }
        ensures otherwise { (standing : Standing) → StandsAt self.now standing →
            IsImpossible (places_in self.now.opening) standing step.now → result ≡ Ok None }
    {
        self.core.message(step)
    }

    /// The number of entries, with the opening.
    pub fn entry_count(&self) -> u32
        ensures { result ≡ length self.now.items + 1 }
    {
        length_law();
        self.core.entry_count() as u32
    }

    /// The entry at an index; the first is the opening. None exactly if there are no more than that.
    pub fn nth_entry(&self, index: u32) -> Option<Entry>
        ensures { result ≡ slice_get (entry.Opened ∷ self.now.items) index }
    {
        self.core.nth_entry(index)
    }

    /// The session's nonce.
    pub fn nonce(&self) -> &[u8; 16]
        ensures { result.now ≡ self.now.opening.checked.now.nonce }
    {
        self.opened.checked.nonce()
    }
}

/// A law: the phrase of a checked session is within the limits of its size. It does nothing.
fn phrase_is_sized(checked: &Checked)
    ensures { IsSized (session_of checked.now).phrase }
{
    let _ = checked.phrase();
}
