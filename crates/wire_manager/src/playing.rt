//! How a session over links goes on: its moves and its results.
ghost use Rattle.std.specs.Prelude.{◌≡◌, ◌↔◌, Some, Err, IfOk, OnOk, OnErr, IsErr};
ghost use Rattle.bench_trait.specs.declared.ask.Ask.{Ask as Question};
ghost use Rattle.bench_trait.specs.Asking.{question};
ghost use Rattle.bench_trait.specs.Bench.{MatchMeasured};
ghost use Rattle.session_runs.specs.Standing.{Standing};
ghost use Rattle.session_book.specs.declared.entry.Entry.TheVariants as entry;
ghost use Rattle.session_book.specs.Entries.{move_of};
ghost use Rattle.session_core.specs.Reading.{HasStopped, TellsOf, result_entry};
ghost use Rattle.session_core.specs.Session.{with_entry, session_in, places_in, StandsAt, IsAwaited};
ghost use Rattle.wire_manager.specs.Linked.{IsWirePossible};
ghost use Rattle.wire_manager.specs.Link.{messages_of, IsUnchanged};
ghost use Rattle.wire_manager.specs.Wire.{IsWire, Sends};

use crate::laws::link_law;
use crate::link::Link;
use crate::sending::{add, message_for};
use bench_trait::{Bench, MeasureError};
use evidence_types::Answer;
use phrase_tree::NoMemory;
use session_core::{Move, Played, RecordError, Session};
use session_runs::listing_law;
use std::alloc::Global;

/// Makes a move that is possible over links, by a pass. A move that sends a request or a reply appends its
/// message to those that were sent. After an error, which is want of memory, nothing has changed.
pub(crate) fn play<B: Bench>(
    session: &mut Session<'_, B>,
    link: &mut Link,
    alloc: Global,
    pass: u32,
    step: Move,
) -> Result<Played, NoMemory>
    requires wire { IsWire session.old link.old }
    requires possible { (standing : Standing) → StandsAt session.old standing →
        IsWirePossible (places_in session.old.opening) standing (messages_of link.old.messages.items) (move_of step) }
    ensures wire { IsWire session.new link.new }
    ensures history { OnOk result (session.new ≡ with_entry (entry.Played pass step) session.old) }
    ensures sends { OnOk result ((standing : Standing) → StandsAt session.old standing →
        Sends standing (move_of step) (messages_of link.old.messages.items) (messages_of link.new.messages.items) link.old.sent.items link.new.sent.items) }
    ensures err { OnErr result ((session.new ≡ session.old) × IsUnchanged link.old link.new) }
    ensures tells { IfOk result (λ played. (before after : Standing) → StandsAt session.old before → StandsAt session.new after →
        TellsOf (session_in session.old.opening) pass step before after played) }
{
    link_law();
    listing_law();
    session.legal();
    let message = match message_for(session, alloc, &step) {
        Ok(message) => message,
        Err(_) => return Err(NoMemory),
    };
    match add(link, message) {
        Ok(()) => {}
        Err(_) => return Err(NoMemory),
    }
    match session.play(pass, step) {
        Ok(played) => Ok(played),
        Err(_) => unreachable!(),
    }
}

/// Records what a bench gave, as the session does.
pub(crate) fn record<B: Bench>(
    session: &mut Session<'_, B>,
    link: &Link,
    pass: u32,
    event: u32,
    measured: Result<Answer, MeasureError>,
) -> Result<(), RecordError>
    requires wire { IsWire session.old link.now }
    requires asked { IsAwaited session.old pass event }
    requires measured { (ask : Question) × (question (session_in session.old.opening).phrase (session_in session.old.opening).root (session_in session.old.opening).nonce event ≡ Some ask) × MatchMeasured
        measured
        (B.gives session.old.opening.bench.now session.old.opening.artefacts.now ask)
        (B.fails session.old.opening.bench.now session.old.opening.artefacts.now ask)
        (B.starves session.old.opening.bench.now session.old.opening.artefacts.now ask) }
    ensures wire { IsWire session.new link.now }
    ensures ended { (standing : Standing) → StandsAt session.old standing → IsErr result ↔ HasStopped standing.state }
    ensures ok { OnOk result (session.new ≡ with_entry (result_entry pass event measured) session.old) }
    ensures err { OnErr result (session.new ≡ session.old) }
{
    link_law();
    session.legal();
    session.record(pass, event, measured)
}
