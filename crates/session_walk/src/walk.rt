ghost use Rattle.std.specs.Prelude.{◌≡◌, ◌<◌, ◌^◌, ℕ, Some, IfOk, length, map, slice_get};
ghost use Rattle.std.specs.List.{AllByRecursion};
ghost use Rattle.session_model.specs.Record.{Record as Meant};
ghost use Rattle.session_model.specs.Recorded.{recorded};
ghost use Rattle.session_runs.specs.Played.{AskOnly};
ghost use Rattle.session_runs.specs.Schedule.{all_opened};
ghost use Rattle.place_check.specs.Places.{keys_of};
ghost use Rattle.place_check.specs.Session.{CheckedSession, IsCheckedAgainst, session_of};
ghost use Rattle.checked_sessions.specs.Named.{place_names};
ghost use Rattle.session_core.specs.declared.opened.Opened.{Opened};
ghost use Rattle.session_core.specs.Session.{Seen};
ghost use Rattle.session_walk.specs.Records.{record_in, AreRecordsOf, AreOfWalk};
ghost use Rattle.session_walk.specs.Sessions.{AreAllOpened, walked_in};
ghost use Rattle.session_walk.specs.UnderWay.{AreScheduled};

use crate::laws::walk_law;
use crate::records::records_law;
use crate::rounds::play_out;
use crate::turns::{all_ask_places, walk_in_turn};
use bench_trait::{ArtefactBook, Bench};
use checked_sessions::checked_session_asks_places;
use phrase_tree::NoMemory;
use place_check::{Checked, Places};
use session_core::{OutcomeError, Session};
use session_model::Record;
use std::alloc::Global;

/// Opens the sessions of a job.
fn open_all<'a, B: Bench>(
    alloc: Global,
    checked: &'a [Checked],
    places: &'a Places,
    artefacts: &'a ArtefactBook,
    bench: &'a B,
) -> Result<Vec<Session<'a, B>>, NoMemory>
    requires { (index : ℕ) (one : CheckedSession) → slice_get checked.now index ≡ Some one → IsCheckedAgainst (session_of one) places.now }
    ensures { IfOk result (λ sessions. AreAllOpened places.now artefacts.now bench.now checked.now sessions.items) }
{
    let mut sessions = Vec::new(alloc);
    for one in checked {
        checked_session_asks_places(places, one);
        let session = Session::open(alloc, one, places, artefacts, bench)?;
        sessions.push(session)?;
    }
    Ok(sessions)
}

/// The record of a session that is done or failed.
pub(crate) fn record_of<B: Bench>(session: &Session<'_, B>) -> Result<Record, NoMemory>
    requires { (found : Meant) × (record_in (walked_in session.now) ≡ Some found) }
    ensures { IfOk result (λ found. record_in (walked_in session.now) ≡ Some (recorded found)) }
{
    session.legal();
    match session.outcome() {
        Ok(found) => Ok(found),
        Err(OutcomeError::NotFinished) => unreachable!(),
        Err(OutcomeError::NoMemory) => Err(NoMemory),
    }
}

/// The records of sessions that are done or failed, in their order.
fn records_of<B: Bench>(
    alloc: Global,
    sessions: &Vec<Session<'_, B>>,
) -> Result<Vec<Record>, NoMemory>
    requires { (index : ℕ) (seen : Seen (Opened B)) → slice_get sessions.now.items index ≡ Some seen → (found : Meant) × (record_in (walked_in seen) ≡ Some found) }
    ensures { IfOk result (λ records. AreRecordsOf (map walked_in sessions.now.items) (map recorded records.items)) }
{
    let mut records = Vec::new(alloc);
    for session in sessions {
        let found = record_of(session)?;
        records.push(found)?;
    }
    Ok(records)
}

/// Opens the sessions of a job and plays them to their end on one thread, by the schedule of a number:
/// one record of each, in their order. An error is that a session starved, or want of memory. By the
/// schedule of 0 no more than one session is open at a time.
pub fn walk_sessions<B: Bench>(
    alloc: Global,
    checked: &[Checked],
    places: &Places,
    artefacts: &ArtefactBook,
    bench: &B,
    number: u32,
) -> Result<Vec<Record>, NoMemory>
    requires few { length checked.now < 2 ^ 32 }
    requires checked { (index : ℕ) (one : CheckedSession) → slice_get checked.now index ≡ Some one → IsCheckedAgainst (session_of one) places.now }
    ensures { IfOk result (λ records. AreOfWalk
        (B.gives bench.now artefacts.now)
        (B.fails bench.now artefacts.now)
        (B.starves bench.now artefacts.now)
        (place_names places.now)
        (keys_of places.now)
        (map session_of checked.now)
        number
        (map recorded records.items)) }
{
    if number == 0 {
        return walk_in_turn(alloc, checked, places, artefacts, bench);
    }
    walk_together(alloc, checked, places, artefacts, bench, number)
}

/// The same, where all sessions are opened first.
fn walk_together<B: Bench>(
    alloc: Global,
    checked: &[Checked],
    places: &Places,
    artefacts: &ArtefactBook,
    bench: &B,
    number: u32,
) -> Result<Vec<Record>, NoMemory>
    requires few { length checked.now < 2 ^ 32 }
    requires checked { (index : ℕ) (one : CheckedSession) → slice_get checked.now index ≡ Some one → IsCheckedAgainst (session_of one) places.now }
    ensures { IfOk result (λ records. AreOfWalk
        (B.gives bench.now artefacts.now)
        (B.fails bench.now artefacts.now)
        (B.starves bench.now artefacts.now)
        (place_names places.now)
        (keys_of places.now)
        (map session_of checked.now)
        number
        (map recorded records.items)) }
{
    records_law(bench, artefacts);
    all_ask_places(places, checked);
    let sessions = finish_together(alloc, checked, places, artefacts, bench, number)?;
    records_of(alloc, &sessions)
}

/// Opens all sessions of a job, and plays them to their end on one thread by the schedule of a number: the
/// sessions, in their order. An error is that one starved, or want of memory.
pub fn finish_together<'a, B: Bench>(
    alloc: Global,
    checked: &'a [Checked],
    places: &'a Places,
    artefacts: &'a ArtefactBook,
    bench: &'a B,
    number: u32,
) -> Result<Vec<Session<'a, B>>, NoMemory>
    requires few { length checked.now < 2 ^ 32 }
    requires checked { (index : ℕ) (one : CheckedSession) → slice_get checked.now index ≡ Some one → IsCheckedAgainst (session_of one) places.now }
    ensures { IfOk result (λ sessions. AreScheduled
        (B.gives bench.now artefacts.now)
        (B.fails bench.now artefacts.now)
        (B.starves bench.now artefacts.now)
        (place_names places.now)
        (keys_of places.now)
        (map session_of checked.now)
        number
        (map walked_in sessions.items)) }
{
    walk_law::<B>();
    let mut sessions = open_all(alloc, checked, places, artefacts, bench)?;
    play_out(alloc, &mut sessions, number, artefacts, bench)?;
    Ok(sessions)
}
