//! The transcripts of the sessions of a job.

ghost use Rattle.std.specs.Prelude.{◌≡◌, ◌<◌, ◌^◌, ℕ, List, Some, IfOk, length, map, slice_get};
ghost use Rattle.bench_trait.specs.declared.artefacts.Artefact.{Artefact};
ghost use Rattle.session_model.specs.Session.{Session as Meant};
ghost use Rattle.session_runs.specs.Schedule.{Walked};
ghost use Rattle.session_runs.specs.Played.{AskOnly};
ghost use Rattle.session_core.specs.Reading.{word_of};
ghost use Rattle.session_walk.specs.UnderWay.{AreScheduled};
ghost use Rattle.session_walk.specs.Sessions.{walked_in};
ghost use Rattle.place_check.specs.Places.{keys_of};
ghost use Rattle.place_check.specs.Session.{CheckedSession, IsCheckedAgainst, session_of};
ghost use Rattle.checked_sessions.specs.Named.{place_names};
ghost use Rattle.transcript.specs.Recording.{is_failure, IsRecordingOf, AreRecordingsOf, AreOfRecordedWalk, AreFinishedRecordings};

use crate::writing::write_transcript;
use bench_trait::{ArtefactBook, Bench};
use byte_ports::Bytes;
use phrase_tree::NoMemory;
use place_check::{Checked, Places};
use session_book::State;
use session_core::Session;
use session_runs::schedule_law;
use session_walk::{all_ask_places, finish_in_turn, finish_together, records_law, turns_law};
use std::alloc::Global;

/// The transcript of a session that is done or failed, and whether it failed.
#[derive(Debug, Drop)]
pub struct RecordedSession {
    pub bytes: Bytes,
    pub has_failed: bool,
}

/// How a session stands.
fn state_of<B: Bench>(session: &Session<'_, B>) -> State
    ensures { result ≡ word_of (walked_in session.now).standing.state }
{
    session.legal();
    session.state()
}

/// Whether a session failed.
fn has_failed<B: Bench>(session: &Session<'_, B>) -> bool
    ensures { result ≡ is_failure (walked_in session.now).standing.state }
{
    match state_of(session) {
        State::Open => false,
        State::Done => false,
        State::Failed => true,
        State::Starved => false,
    }
}

/// The recording of a session. An error is that it starved, or want of memory.
fn recording_of<B: Bench>(
    alloc: Global,
    session: &Session<'_, B>,
) -> Result<RecordedSession, NoMemory>
    ensures { IfOk result (IsRecordingOf (walked_in session.now)) }
{
    match write_transcript(alloc, session) {
        Ok(bytes) => Ok(RecordedSession {
            bytes,
            has_failed: has_failed(session),
        }),
        Err(_) => Err(NoMemory),
    }
}

/// The recordings of sessions, in their order.
fn recordings_of<B: Bench>(
    alloc: Global,
    sessions: &Vec<Session<'_, B>>,
) -> Result<Vec<RecordedSession>, NoMemory>
    ensures { IfOk result (λ recordings. AreRecordingsOf (map walked_in sessions.now.items) recordings.items) }
{
    let mut recordings = Vec::new(alloc);
    for session in sessions {
        let one = recording_of(alloc, session)?;
        recordings.push(one)?;
    }
    Ok(recordings)
}

/// Plays the sessions of a job to their end on one thread, by the schedule of a number, as `walk_sessions`
/// does: the transcript of each, in their order, and whether it failed. Each entry is by the pass 0. An
/// error is that a session starved, or want of memory. By the schedule of 0 no more than one session is
/// open at a time; by all others all are. Takes the room of the open sessions and of all transcripts.
pub fn record_sessions<B: Bench>(
    alloc: Global,
    number: u32,
    checked: &[Checked],
    places: &Places,
    artefacts: &ArtefactBook,
    bench: &B,
) -> Result<Vec<RecordedSession>, NoMemory>
    requires few { length checked.now < 2 ^ 32 }
    requires checked { (index : ℕ) (one : CheckedSession) → slice_get checked.now index ≡ Some one → IsCheckedAgainst (session_of one) places.now }
    ensures { IfOk result (λ recordings. AreOfRecordedWalk
        (B.gives bench.now artefacts.now)
        (B.fails bench.now artefacts.now)
        (B.starves bench.now artefacts.now)
        (place_names places.now)
        (keys_of places.now)
        (map session_of checked.now)
        number
        recordings.items) }
{
    if number == 0 {
        return record_in_turn(alloc, checked, places, artefacts, bench);
    }
    record_together(alloc, number, checked, places, artefacts, bench)
}

/// The same by the schedule of 0, where each session is opened in its turn and let go.
fn record_in_turn<B: Bench>(
    alloc: Global,
    checked: &[Checked],
    places: &Places,
    artefacts: &ArtefactBook,
    bench: &B,
) -> Result<Vec<RecordedSession>, NoMemory>
    requires checked { (index : ℕ) (one : CheckedSession) → slice_get checked.now index ≡ Some one → IsCheckedAgainst (session_of one) places.now }
    ensures { IfOk result (λ recordings. AreOfRecordedWalk
        (B.gives bench.now artefacts.now)
        (B.fails bench.now artefacts.now)
        (B.starves bench.now artefacts.now)
        (place_names places.now)
        (keys_of places.now)
        (map session_of checked.now)
        0
        recordings.items) }
{
    turns_law::<B>();
    recorded_law(bench, artefacts);
    all_ask_places(places, checked);
    let mut recordings = Vec::new(alloc);
    for one in checked {
        let session = finish_in_turn(alloc, one, places, artefacts, bench)?;
        let recording = recording_of(alloc, &session)?;
        recordings.push(recording)?;
    }
    Ok(recordings)
}

/// The same, where all sessions are opened first.
fn record_together<B: Bench>(
    alloc: Global,
    number: u32,
    checked: &[Checked],
    places: &Places,
    artefacts: &ArtefactBook,
    bench: &B,
) -> Result<Vec<RecordedSession>, NoMemory>
    requires few { length checked.now < 2 ^ 32 }
    requires checked { (index : ℕ) (one : CheckedSession) → slice_get checked.now index ≡ Some one → IsCheckedAgainst (session_of one) places.now }
    ensures { IfOk result (λ recordings. AreOfRecordedWalk
        (B.gives bench.now artefacts.now)
        (B.fails bench.now artefacts.now)
        (B.starves bench.now artefacts.now)
        (place_names places.now)
        (keys_of places.now)
        (map session_of checked.now)
        number
        recordings.items) }
{
    recorded_law(bench, artefacts);
    all_ask_places(places, checked);
    let sessions = finish_together(alloc, checked, places, artefacts, bench, number)?;
    recordings_of(alloc, &sessions)
}

/// A law: recordings of sessions that stand as a schedule plays them are those of its walk. It does nothing.
fn recorded_law<B: Bench>(bench: &B, artefacts: &ArtefactBook)
    ensures { (places : List (List ℕ)) (keys : List (List ℕ × List ℕ)) (sessions : List Meant) (number : ℕ) (all : List Walked) (recordings : List RecordedSession) →
        AskOnly places sessions →
        AreScheduled
        (B.gives bench.now artefacts.now)
        (B.fails bench.now artefacts.now)
        (B.starves bench.now artefacts.now)
        places
        keys
        sessions
        number
        all →
        AreRecordingsOf all recordings →
        AreOfRecordedWalk
        (B.gives bench.now artefacts.now)
        (B.fails bench.now artefacts.now)
        (B.starves bench.now artefacts.now)
        places
        keys
        sessions
        number
        recordings }
{
    records_law(bench, artefacts);
    schedule_law();
}

/// The law of recordings: each recording of a walk is the transcript of a legal history of its session that
/// is done or failed, and has the record of that session in the walk; so over the same artefacts
/// `audit_by_digests` accepts it, unless memory runs out. It does nothing.
pub fn recordings_law<B: Bench>()
    ensures { (bench : B) (artefacts : List Artefact) (places : List (List ℕ)) (keys : List (List ℕ × List ℕ)) (sessions : List Meant) (number : ℕ) (recordings : List RecordedSession) →
        (those : AreOfRecordedWalk
        (B.gives bench artefacts)
        (B.fails bench artefacts)
        (B.starves bench artefacts)
        places
        keys
        sessions
        number
        recordings) →
        AreFinishedRecordings
        (B.gives bench artefacts)
        (B.fails bench artefacts)
        (B.starves bench artefacts)
        keys
        sessions
        those.records
        recordings }
{
    schedule_law();
}
