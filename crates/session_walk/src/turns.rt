ghost use Rattle.std.specs.Prelude.{◌≡◌, ◌+◌, ℕ, false, List, [], Some, IfOk, OnOk, length, map, slice_get};
ghost use Rattle.bench_trait.specs.declared.artefacts.Artefact.{Artefact};
ghost use Rattle.session_model.specs.Session.{Session as Meant};
ghost use Rattle.session_model.specs.Recorded.{recorded};
ghost use Rattle.session_runs.specs.Standing.{is_open};
ghost use Rattle.session_runs.specs.Played.{AskOnly};
ghost use Rattle.session_runs.specs.Schedule.{Walked, just_opened, all_opened, is_running, is_starving};
ghost use Rattle.place_check.specs.declared.entry.PlaceEntry.{PlaceEntry};
ghost use Rattle.place_check.specs.Places.{keys_of};
ghost use Rattle.place_check.specs.Session.{CheckedSession, IsCheckedAgainst, session_of};
ghost use Rattle.checked_sessions.specs.Named.{place_names};
ghost use Rattle.session_core.specs.Reading.{word_of};
ghost use Rattle.session_core.specs.Session.{history};
ghost use Rattle.session_walk.specs.Records.{AreOfWalk};
ghost use Rattle.session_walk.specs.Sessions.{IsOver, walked_in};
ghost use Rattle.session_walk.specs.Turns.{IsTurnOf, IsItsTurn, TurnStays, HasHadTurn};
ghost use Rattle.session_walk.specs.UnderWay.{AreScheduled};

use crate::draws::Draws;
use crate::laws::walk_law;
use crate::playing::go_on;
use crate::records::records_law;
use crate::walk::record_of;
use bench_trait::{ArtefactBook, Bench};
use checked_sessions::checked_session_asks_places;
use phrase_tree::NoMemory;
use place_check::{Checked, Places};
use session_core::{Session, State};
use session_model::Record;
use std::alloc::Global;

fn state_of<B: Bench>(session: &Session<'_, B>) -> State
    ensures { result ≡ word_of (walked_in session.now).standing.state }
{
    session.legal();
    session.state()
}

fn is_going<B: Bench>(session: &Session<'_, B>) -> bool
    ensures { result ≡ is_running (walked_in session.now).standing.state }
{
    match state_of(session) {
        State::Open => true,
        State::Done => false,
        State::Failed => false,
        State::Starved => false,
    }
}

fn is_starved<B: Bench>(session: &Session<'_, B>) -> bool
    ensures { result ≡ is_starving (walked_in session.now).standing.state }
{
    match state_of(session) {
        State::Open => false,
        State::Done => false,
        State::Failed => false,
        State::Starved => true,
    }
}

/// Plays an open session on, whose turn it is, by its first candidate.
fn go_on_first<B: Bench>(session: &mut Session<'_, B>, artefacts: &ArtefactBook, bench: &B)
    requires over { IsOver artefacts.now bench.now session.old }
    requires still { (walked_in session.old).standing.state ≡ is_open }
    requires turn { IsItsTurn
        (B.gives bench.now artefacts.now)
        (B.fails bench.now artefacts.now)
        (B.starves bench.now artefacts.now)
        session.old.opening.places.now
        (walked_in session.old) }
    ensures opening { session.new.opening ≡ session.old.opening }
    ensures grows { length (history session.new) ≡ length (history session.old) + 1 }
    ensures turn { is_starving (walked_in session.new).standing.state ≡ false → TurnStays
        (B.gives bench.now artefacts.now)
        (B.fails bench.now artefacts.now)
        (B.starves bench.now artefacts.now)
        session.old.opening.places.now
        (walked_in session.old)
        (walked_in session.new) }
{
    walk_law::<B>();
    let mut draws = Draws::first(0);
    go_on(session, &mut draws, artefacts, bench);
}

/// Plays a session, whose turn it is, to its end. An error is that it starved.
fn play_to_the_end<B: Bench>(
    session: &mut Session<'_, B>,
    artefacts: &ArtefactBook,
    bench: &B,
) -> Result<(), NoMemory>
    requires over { IsOver artefacts.now bench.now session.old }
    requires turn { IsItsTurn
        (B.gives bench.now artefacts.now)
        (B.fails bench.now artefacts.now)
        (B.starves bench.now artefacts.now)
        session.old.opening.places.now
        (walked_in session.old) }
    ensures ended { OnOk result (is_running (walked_in session.new).standing.state ≡ false) }
    ensures fed { OnOk result (is_starving (walked_in session.new).standing.state ≡ false) }
    ensures turn { OnOk result (TurnStays
        (B.gives bench.now artefacts.now)
        (B.fails bench.now artefacts.now)
        (B.starves bench.now artefacts.now)
        session.old.opening.places.now
        (walked_in session.old)
        (walked_in session.new)) }
{
    while is_going(session) {
        go_on_first(session, artefacts, bench);
        session.has_few_entries();
    }
    if is_starved(session) {
        return Err(NoMemory);
    }
    Ok(())
}

/// Opens a session whose turn it is, and plays it to its end. An error is that it starved, or want of
/// memory.
pub fn finish_in_turn<'a, B: Bench>(
    alloc: Global,
    one: &'a Checked,
    places: &'a Places,
    artefacts: &'a ArtefactBook,
    bench: &'a B,
) -> Result<Session<'a, B>, NoMemory>
    requires checked { IsCheckedAgainst (session_of one.now) places.now }
    requires turn { IsItsTurn
        (B.gives bench.now artefacts.now)
        (B.fails bench.now artefacts.now)
        (B.starves bench.now artefacts.now)
        places.now
        (just_opened (session_of one.now)) }
    ensures { IfOk result (λ session. HasHadTurn
        (B.gives bench.now artefacts.now)
        (B.fails bench.now artefacts.now)
        (B.starves bench.now artefacts.now)
        places.now
        (just_opened (session_of one.now))
        (walked_in session)) }
{
    let mut session = Session::open(alloc, one, places, artefacts, bench)?;
    play_to_the_end(&mut session, artefacts, bench)?;
    Ok(session)
}

/// The law of turns: of sessions just opened it is the turn of the first, and once each has had its turn
/// they are as the schedule of 0 plays them. It does nothing.
pub fn turns_law<B: Bench>()
    ensures begins { (bench : B) (artefacts : List Artefact) (places : List PlaceEntry) (those : List Meant) →
        AskOnly (place_names places) those →
        IsTurnOf
        (B.gives bench artefacts)
        (B.fails bench artefacts)
        (B.starves bench artefacts)
        places
        those
        []
        (all_opened those) }
    ensures ends { (bench : B) (artefacts : List Artefact) (places : List PlaceEntry) (those : List Meant) (over : List Walked) →
        IsTurnOf
        (B.gives bench artefacts)
        (B.fails bench artefacts)
        (B.starves bench artefacts)
        places
        those
        over
        [] →
        AreScheduled
        (B.gives bench artefacts)
        (B.fails bench artefacts)
        (B.starves bench artefacts)
        (place_names places)
        (keys_of places)
        those
        0
        over }
{
    walk_law::<B>();
}

/// A law: sessions that were checked against places ask only these. It does nothing else.
pub fn all_ask_places(places: &Places, checked: &[Checked])
    requires { (index : ℕ) (one : CheckedSession) → slice_get checked.now index ≡ Some one → IsCheckedAgainst (session_of one) places.now }
    ensures { AskOnly (place_names places.now) (map session_of checked.now) }
{
    for one in checked {
        checked_session_asks_places(places, one);
    }
}

/// Opens each session of a job in its turn, plays it to its end, takes its record and lets it go, as the
/// schedule of 0 plays them: one record of each, in their order. An error is that a session starved, or
/// want of memory.
pub(crate) fn walk_in_turn<B: Bench>(
    alloc: Global,
    checked: &[Checked],
    places: &Places,
    artefacts: &ArtefactBook,
    bench: &B,
) -> Result<Vec<Record>, NoMemory>
    requires checked { (index : ℕ) (one : CheckedSession) → slice_get checked.now index ≡ Some one → IsCheckedAgainst (session_of one) places.now }
    ensures { IfOk result (λ records. AreOfWalk
        (B.gives bench.now artefacts.now)
        (B.fails bench.now artefacts.now)
        (B.starves bench.now artefacts.now)
        (place_names places.now)
        (keys_of places.now)
        (map session_of checked.now)
        0
        (map recorded records.items)) }
{
    turns_law::<B>();
    records_law(bench, artefacts);
    all_ask_places(places, checked);
    let mut records = Vec::new(alloc);
    for one in checked {
        let session = finish_in_turn(alloc, one, places, artefacts, bench)?;
        let found = record_of(&session)?;
        records.push(found)?;
    }
    Ok(records)
}
