ghost use Rattle.std.specs.Prelude.{◌≡◌, ℕ, Some, IfOk, OnOk, map, slice_get};
ghost use Rattle.place_check.specs.Places.{keys_of};
ghost use Rattle.place_check.specs.Session.{CheckedSession, IsCheckedAgainst, session_of};
ghost use Rattle.checked_sessions.specs.Named.{place_names};
ghost use Rattle.session_core.specs.Session.{keys_in, places_in};
ghost use Rattle.session_runs.specs.Schedule.{is_running};
ghost use Rattle.session_walk.specs.Sessions.{IsOver, walked_in};
ghost use Rattle.wire_walk.specs.UnderWay.{turn_of, draws_zero, IsWalked, TakesTurns};
ghost use Rattle.wire_walk.specs.Told.{IsWalkOfOne, AreOfWireWalk};

use crate::flight::Flight;
use crate::turns::one_turn;
use bench_trait::{ArtefactBook, Bench};
use phrase_tree::NoMemory;
use place_check::{Checked, Places};
use session_core::{Session, State};
use session_model::Record;
use session_runs::{record_law, result_count_law};
use session_walk::Draws;
use std::alloc::Global;
use wire_frames::FrameReader;
use wire_manager::WireSession;

/// What is told of a session that was played over links.
#[derive(Debug, Drop)]
pub struct Told {
    pub record: Record,
    /// How many frames were sent.
    pub sent: u32,
    /// How many of them were lost.
    pub lost: u32,
    /// How often a frame arrived and stayed in flight.
    pub repeated: u32,
}

/// Whether a session is open.
fn is_going<B: Bench>(wire: &WireSession<'_, B>) -> bool
    ensures { result ≡ is_running (walked_in wire.now.seen).standing.state }
{
    wire.linked();
    match wire.state() {
        State::Open => true,
        State::Done => false,
        State::Failed => false,
        State::Starved => false,
    }
}

/// Plays a session to its end.
fn play_out<B: Bench>(
    alloc: Global,
    wire: &mut WireSession<'_, B>,
    flight: &mut Flight,
    draws: &mut Draws,
    zero: bool,
    most: u32,
    artefacts: &ArtefactBook,
    bench: &B,
) -> Result<(), NoMemory>
    requires over { IsOver artefacts.now bench.now wire.old.seen }
    requires walked { IsWalked wire.old flight.old }
    requires zero { zero ≡ draws_zero draws.old }
    ensures opening { wire.new.seen.opening ≡ wire.old.seen.opening }
    ensures walked { OnOk result (IsWalked wire.new flight.new) }
    ensures zero { draws_zero draws.new ≡ draws_zero draws.old }
    ensures turns { OnOk result (TakesTurns (places_in wire.old.seen.opening) (keys_in wire.old.seen.opening) most (turn_of wire.old flight.old draws.old) (turn_of wire.new flight.new draws.new)) }
{
    let mut reader = FrameReader::open(alloc);
    for turn in 0..most {
        if !is_going(wire) {
            return Ok(());
        }
        let _ = turn;
        one_turn(
            alloc,
            wire,
            flight,
            &mut reader,
            draws,
            zero,
            artefacts,
            bench,
        )?;
    }
    Ok(())
}

/// Opens a session over links and plays it to its end.
fn walk_one<B: Bench>(
    alloc: Global,
    one: &Checked,
    places: &Places,
    artefacts: &ArtefactBook,
    bench: &B,
    draws: &mut Draws,
    zero: bool,
) -> Result<Told, NoMemory>
    requires checked { IsCheckedAgainst (session_of one.now) places.now }
    requires zero { zero ≡ draws_zero draws.old }
    ensures zero { draws_zero draws.new ≡ draws_zero draws.old }
    ensures told { IfOk result (IsWalkOfOne
        (B.gives bench.now artefacts.now)
        (B.fails bench.now artefacts.now)
        (B.starves bench.now artefacts.now)
        (place_names places.now)
        (keys_of places.now)
        (session_of one.now)
        draws.old
        draws.new) }
{
    let session = Session::open(alloc, one, places, artefacts, bench)?;
    let mut wire = WireSession::open(alloc, session)?;
    let mut flight = Flight::open(alloc);
    let most = 5 * one.phrase().events() + 7002;
    play_out(
        alloc,
        &mut wire,
        &mut flight,
        draws,
        zero,
        most,
        artefacts,
        bench,
    )?;
    record_law(bench, artefacts);
    wire.linked();
    match wire.outcome() {
        Ok(record) => Ok(Told {
            record,
            sent: wire.sent_count(),
            lost: flight.lost,
            repeated: flight.stayed,
        }),
        Err(_) => Err(NoMemory),
    }
}

/// Plays the sessions of a job over links one after another, by the schedule of a number: what is told of each,
/// in their order. An error is that a session starved, or want of memory.
pub fn wire_walk<B: Bench>(
    alloc: Global,
    checked: &[Checked],
    places: &Places,
    artefacts: &ArtefactBook,
    bench: &B,
    number: u32,
) -> Result<Vec<Told>, NoMemory>
    requires { (index : ℕ) (one : CheckedSession) → slice_get checked.now index ≡ Some one → IsCheckedAgainst (session_of one) places.now }
    ensures { IfOk result (λ told. AreOfWireWalk
        (B.gives bench.now artefacts.now)
        (B.fails bench.now artefacts.now)
        (B.starves bench.now artefacts.now)
        (place_names places.now)
        (keys_of places.now)
        (map session_of checked.now)
        number
        told.items) }
{
    result_count_law();
    let mut draws = Draws::first(number);
    let mut all = Vec::new(alloc);
    for one in checked {
        let told = walk_one(
            alloc,
            one,
            places,
            artefacts,
            bench,
            &mut draws,
            number == 0,
        )?;
        all.push(told)?;
    }
    Ok(all)
}
