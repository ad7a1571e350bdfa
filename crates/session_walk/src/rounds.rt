ghost use Rattle.std.specs.Prelude.{◌≡◌, ◌<◌, ◌^◌, ℕ, List, Some, OnOk, length, map, slice_get};
ghost use Rattle.session_model.specs.Session.{Session as Meant};
ghost use Rattle.session_model.specs.Record.{numbers_below};
ghost use Rattle.session_runs.specs.Schedule.{first_from};
ghost use Rattle.place_check.specs.Places.{keys_of};
ghost use Rattle.checked_sessions.specs.Named.{place_names};
ghost use Rattle.place_check.specs.declared.entry.PlaceEntry.{PlaceEntry};
ghost use Rattle.session_core.specs.declared.opened.Opened.{Opened};
ghost use Rattle.session_core.specs.Session.{Seen, places_in};
ghost use Rattle.session_core.specs.Reading.{word_of};
ghost use Rattle.session_walk.specs.Drawn.{CanGoOn};
ghost use Rattle.session_walk.specs.UnderWay.{AreScheduled};
ghost use Rattle.session_walk.specs.Sessions.{GoesOnAt, IsOver, IsWalkOf, IsWalked, IsWalkedOn, walked_in};

use crate::draws::Draws;
use crate::going::Going;
use crate::laws::walk_law;
use crate::playing::go_on;
use bench_trait::{ArtefactBook, Bench};
use phrase_tree::NoMemory;
use session_core::{Session, State};
use std::alloc::Global;

/// Plays on the session at an index, by one of its candidates that is drawn.
fn go_on_at<B: Bench>(
    sessions: &mut Vec<Session<'_, B>>,
    index: usize,
    draws: &mut Draws,
    artefacts: &ArtefactBook,
    bench: &B,
)
    requires there { index < length sessions.old.items }
    requires over { (seen : Seen (Opened B)) → slice_get sessions.old.items index ≡ Some seen → IsOver artefacts.now bench.now seen }
    requires can { (seen : Seen (Opened B)) → slice_get sessions.old.items index ≡ Some seen → CanGoOn (places_in seen.opening) (walked_in seen) }
    ensures { (seen : Seen (Opened B)) → slice_get sessions.old.items index ≡ Some seen →
        GoesOnAt
        (B.gives bench.now artefacts.now)
        (B.fails bench.now artefacts.now)
        (B.starves bench.now artefacts.now)
        index
        seen
        sessions.old.items
        sessions.new.items
        draws.old
        draws.new }
{
    go_on(&mut sessions[index], draws, artefacts, bench);
}

/// How the session at an index stands.
fn state_at<B: Bench>(sessions: &Vec<Session<'_, B>>, index: usize) -> State
    requires { index < length sessions.now.items }
    ensures { (seen : Seen (Opened B)) → slice_get sessions.now.items index ≡ Some seen → result ≡ word_of (walked_in seen).standing.state }
{
    let session = &sessions[index];
    session.legal();
    session.state()
}

/// Plays one round of the schedule: draws an open session, and plays it on by one of its candidates that
/// is drawn. An error is that the session starved.
pub(crate) fn one_round<B: Bench>(
    sessions: &mut Vec<Session<'_, B>>,
    going: &mut Going,
    draws: &mut Draws,
    artefacts: &ArtefactBook,
    bench: &B,
) -> Result<(), NoMemory>
    requires some { 0 < length going.old }
    requires walked { IsWalked
        (B.gives bench.now artefacts.now)
        (B.fails bench.now artefacts.now)
        (B.starves bench.now artefacts.now)
        artefacts.now
        bench.now
        sessions.old.items
        going.old
        draws.old }
    ensures { OnOk result ((places : List PlaceEntry) (those : List Meant) (number : ℕ) →
        IsWalkOf
        (B.gives bench.now artefacts.now)
        (B.fails bench.now artefacts.now)
        (B.starves bench.now artefacts.now)
        places
        artefacts.now
        bench.now
        those
        number
        sessions.old.items
        going.old
        draws.old →
        IsWalkedOn
        (B.gives bench.now artefacts.now)
        (B.fails bench.now artefacts.now)
        (B.starves bench.now artefacts.now)
        places
        artefacts.now
        bench.now
        those
        number
        sessions.old.items
        sessions.new.items
        going.new
        draws.new) }
{
    walk_law::<B>();
    let drawn = draws.draw(going.count());
    let index = going.nth(drawn) as usize;
    go_on_at(sessions, index, draws, artefacts, bench);
    match state_at(sessions, index) {
        State::Open => Ok(()),
        State::Done | State::Failed => {
            going.drop_at(drawn);
            Ok(())
        }
        State::Starved => Err(NoMemory),
    }
}

/// Plays sessions just opened to their end, by the schedule of a number. An error is that one starved, or
/// want of memory.
pub(crate) fn play_out<B: Bench>(
    alloc: Global,
    sessions: &mut Vec<Session<'_, B>>,
    number: u32,
    artefacts: &ArtefactBook,
    bench: &B,
) -> Result<(), NoMemory>
    requires few { length sessions.old.items < 2 ^ 32 }
    requires walked { (places : List PlaceEntry) × (those : List Meant) × IsWalkOf
        (B.gives bench.now artefacts.now)
        (B.fails bench.now artefacts.now)
        (B.starves bench.now artefacts.now)
        places
        artefacts.now
        bench.now
        those
        number
        sessions.old.items
        (numbers_below (length sessions.old.items))
        (first_from number) }
    ensures { OnOk result ((places : List PlaceEntry) (those : List Meant) →
        IsWalkOf
        (B.gives bench.now artefacts.now)
        (B.fails bench.now artefacts.now)
        (B.starves bench.now artefacts.now)
        places
        artefacts.now
        bench.now
        those
        number
        sessions.old.items
        (numbers_below (length sessions.old.items))
        (first_from number) →
        AreScheduled
        (B.gives bench.now artefacts.now)
        (B.fails bench.now artefacts.now)
        (B.starves bench.now artefacts.now)
        (place_names places)
        (keys_of places)
        those
        number
        (map walked_in sessions.new.items)) }
{
    walk_law::<B>();
    let mut going = Going::of(alloc, sessions.len() as u32)?;
    let mut draws = Draws::first(number);
    while going.count() > 0 {
        one_round(sessions, &mut going, &mut draws, artefacts, bench)?;
    }
    Ok(())
}
