//! The audit of a transcript.

ghost use Rattle.std.specs.Prelude.{◌≡◌, ℕ, List, [], ◌∷◌, Some, Ok, Err, length, map};
ghost use Rattle.session_model.specs.Record.{Record as Meant};
ghost use Rattle.session_runs.specs.Standing.{Entry, opened, opening};
ghost use Rattle.place_check.specs.Places.{keys_of};
ghost use Rattle.place_check.specs.Session.{IsCheckedAgainst, session_of};
ghost use Rattle.session_book.specs.Entries.{entry_of};
ghost use Rattle.session_core.specs.Session.{session_in, keys_in};
ghost use Rattle.transcript.specs.declared.fault.TranscriptKind.{TranscriptKind};
ghost use Rattle.transcript.specs.Bytes.{IsTranscriptOf};
ghost use Rattle.transcript.specs.Reading.{entry_at};
ghost use Rattle.transcript.specs.Flights.{Mirrors};
ghost use Rattle.transcript.specs.Audit.{offset, first_fault, IsAudit, IsVerdict, extent, Settles, IsSureText, IsUnlessMemory, IsReplayed, halted_by, GoesOn, StandIn, ReplaysAll};

use crate::fault::{Stop, TranscriptKind};
use crate::flights::{Flight, no_flights};
use crate::reading::{Entries, entries_of, entry_at};
use crate::replay::{Halt, replay};
use bench_trait::{ArtefactBook, Bench, BenchFault};
use checked_sessions::checked_session_asks_places;
use evidence_types::Answer;
use place_check::{Checked, Places};
use session_core::{OutcomeError, Session};
use session_model::Record;
use std::alloc::Global;

/// Why a transcript wasn't accepted. Entries count from 0, behind the opening.
#[derive(Debug, Drop)]
pub enum AuditError {
    /// The bytes are not a transcript: the first fault from the left, with its offset.
    Bad {
        at: u32,
        kind: TranscriptKind,
    },
    /// After the entries ahead of it, the session isn't open, or the entry is neither a possible move nor
    /// a result for an ask in flight by the pass that asked.
    Illegal {
        entry: u32,
    },
    /// The entry is a legal result, but the bench gives another one.
    Differs {
        entry: u32,
        got: Result<Answer, BenchFault>,
    },
    /// After the last entry the session is still open.
    Unfinished,
    NoMemory,
}

/// The record of the session whose transcript these bytes are, played again entry by entry: each must be
/// legal, and each result the one that the bench gives at its question. All bytes are read first, once
/// from the left and in place. Takes the room of a session, and for each event of its phrase room for
/// one ask.
pub fn audit<B: Bench>(
    alloc: Global,
    checked: &Checked,
    places: &Places,
    artefacts: &ArtefactBook,
    bench: &B,
    bytes: &[u8],
) -> Result<Record, AuditError>
    requires { IsCheckedAgainst (session_of checked.now) places.now }
    // Each answer has its cause.
    ensures answers { IsAudit
        (λ ask answer. B.gives bench.now artefacts.now ask answer)
        (λ ask fault. B.fails bench.now artefacts.now ask fault)
        (λ ask. B.starves bench.now artefacts.now ask)
        (session_of checked.now)
        (keys_of places.now)
        bytes.now
        result }
    // Bad comes exactly for bytes that are no transcript.
    ensures bad { (at : ℕ) (kind : TranscriptKind) → first_fault bytes.now ≡ Some (at, kind) → result ≡ Err (AuditError.Bad at kind) }
    // How far the entries go says which of the other answers comes, unless the bench gives another result ahead of that.
    ensures settled { (entries : List Entry) → IsTranscriptOf bytes.now (opened ∷ entries) →
        Settles (session_of checked.now) (extent (session_of checked.now) (keys_of places.now) 0 entries (opening (session_of checked.now))) result }
    // A legal history that is done or failed is accepted, if for each of its results the bench gives it alone.
    ensures accepted { (found : Meant) →
        IsSureText
        (λ ask answer. B.gives bench.now artefacts.now ask answer)
        (λ ask fault. B.fails bench.now artefacts.now ask fault)
        (λ ask. B.starves bench.now artefacts.now ask)
        (session_of checked.now)
        (keys_of places.now)
        bytes.now
        found →
        IsUnlessMemory found result }
{
    match entries_of(bytes) {
        Ok(entries) => audit_entries(alloc, checked, places, artefacts, bench, entries),
        Err(first) => Err(bad(bytes.len(), first)),
    }
}

/// A fault by its offset in so many bytes. An offset past the numbers of 32 bits is the greatest of them.
fn bad(len: usize, first: Stop) -> AuditError
    ensures { result ≡ AuditError.Bad (offset len first) first.kind }
{
    let at = len.saturating_sub(first.left).min(u32::MAX as usize);
    AuditError::Bad {
        at: at as u32,
        kind: first.kind,
    }
}

/// The audit of entries that were read.
fn audit_entries<B: Bench>(
    alloc: Global,
    checked: &Checked,
    places: &Places,
    artefacts: &ArtefactBook,
    bench: &B,
    entries: Entries<'_>,
) -> Result<Record, AuditError>
    requires checked { IsCheckedAgainst (session_of checked.now) places.now }
    requires read { (all : List Entry) × StandIn entries.count entries.bytes.now all }
    ensures { (all : List Entry) → StandIn entries.entry.count entries.entry.bytes.now all →
        IsVerdict
        (λ ask answer. B.gives bench.now artefacts.now ask answer)
        (λ ask fault. B.fails bench.now artefacts.now ask fault)
        (λ ask. B.starves bench.now artefacts.now ask)
        (session_of checked.now)
        (keys_of places.now)
        all
        result }
{
    checked_session_asks_places(places, checked);
    let Ok(mut session) = Session::open(alloc, checked, places, artefacts, bench) else {
        return Err(AuditError::NoMemory);
    };
    let Ok(mut flights) = no_flights(alloc, checked.phrase().events()) else {
        return Err(AuditError::NoMemory);
    };
    match replay_all(&mut session, &mut flights, artefacts, bench, entries) {
        Ok(()) => closed(&session),
        Err(error) => Err(error),
    }
}

/// Plays all entries again.
fn replay_all<B: Bench>(
    session: &mut Session<'_, B>,
    flights: &mut Vec<Option<Flight>>,
    artefacts: &ArtefactBook,
    bench: &B,
    entries: Entries<'_>,
) -> Result<(), AuditError>
    requires over { IsReplayed artefacts.now bench.now session.old }
    requires mirrors { Mirrors flights.old.items session.old }
    requires fresh { session.old.items ≡ [] }
    requires read { (all : List Entry) × StandIn entries.count entries.bytes.now all }
    ensures { (all : List Entry) → StandIn entries.entry.count entries.entry.bytes.now all →
        ReplaysAll
        (λ ask answer. B.gives bench.now artefacts.now ask answer)
        (λ ask fault. B.fails bench.now artefacts.now ask fault)
        (λ ask. B.starves bench.now artefacts.now ask)
        all
        session.old
        session.new
        result }
{
    let mut rest = entries.bytes;
    for index in 0..entries.count {
        match replay_next(session, flights, artefacts, bench, index, rest) {
            Ok(behind) => rest = behind,
            Err(error) => return Err(error),
        }
    }
    Ok(())
}

/// Plays the entry at the front of bytes again, which has this index: the bytes behind it.
fn replay_next<'b, B: Bench>(
    session: &mut Session<'_, B>,
    flights: &mut Vec<Option<Flight>>,
    artefacts: &ArtefactBook,
    bench: &B,
    index: u32,
    bytes: &'b [u8],
) -> Result<&'b [u8], AuditError>
    requires over { IsReplayed artefacts.now bench.now session.old }
    requires mirrors { Mirrors flights.old.items session.old }
    requires at { length session.old.items ≡ index }
    requires read { (front : Entry × List ℕ) × (entry_at bytes.now ≡ Ok front) }
    ensures { (entry : Entry) (behind : List ℕ) → entry_at bytes.now ≡ Ok (entry, behind) →
        GoesOn
        (λ ask answer. B.gives bench.now artefacts.now ask answer)
        (λ ask fault. B.fails bench.now artefacts.now ask fault)
        (λ ask. B.starves bench.now artefacts.now ask)
        entry
        behind
        flights.new.items
        session.old
        session.new
        result }
{
    session.legal();
    match entry_at(bytes) {
        Ok((entry, behind)) => match replay(session, flights, artefacts, bench, &entry) {
            Ok(()) => Ok(behind),
            Err(halt) => Err(halted(index, halt)),
        },
        Err(_) => unreachable!(),
    }
}

/// What stopped an entry, as an error at its index.
fn halted(index: u32, halt: Halt) -> AuditError
    ensures { result ≡ halted_by index halt }
{
    match halt {
        Halt::Illegal => AuditError::Illegal { entry: index },
        Halt::Differs(got) => AuditError::Differs { entry: index, got },
        Halt::NoMemory => AuditError::NoMemory,
    }
}

/// The record of a session that is as far as its entries led it.
fn closed<B: Bench>(session: &Session<'_, B>) -> Result<Record, AuditError>
    ensures { IsVerdict
        (λ ask answer. B.gives session.now.opening.bench.now session.now.opening.artefacts.now ask answer)
        (λ ask fault. B.fails session.now.opening.bench.now session.now.opening.artefacts.now ask fault)
        (λ ask. B.starves session.now.opening.bench.now session.now.opening.artefacts.now ask)
        (session_in session.now.opening)
        (keys_in session.now.opening)
        (map entry_of session.now.items)
        result }
{
    session.legal();
    match session.outcome() {
        Ok(found) => Ok(found),
        Err(error) => match error {
            OutcomeError::NotFinished => Err(AuditError::Unfinished),
            OutcomeError::NoMemory => Err(AuditError::NoMemory),
        },
    }
}
