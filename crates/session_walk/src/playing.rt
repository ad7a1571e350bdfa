ghost use Rattle.std.specs.Prelude.{◌≡◌, ◌<◌, ◌+◌, length};
ghost use Rattle.session_runs.specs.MoveOrder.{possible_moves};
ghost use Rattle.session_core.specs.Session.{keys_in, places_in};
ghost use Rattle.session_walk.specs.Drawn.{CanGoOn, candidate_count};
ghost use Rattle.session_walk.specs.Taken.{TakesCandidate};
ghost use Rattle.session_walk.specs.Sessions.{IsOver, walked_in};
ghost use Rattle.session_runs.specs.Schedule.{draw};

use crate::draws::Draws;
use bench_trait::{ArtefactBook, Bench};
use session_core::Session;
use session_runs::growth_law;

/// Plays a session on by one of its candidates, which is drawn: its asks in flight, which are then
/// measured, and behind them its possible moves.
pub(crate) fn go_on<B: Bench>(
    session: &mut Session<'_, B>,
    draws: &mut Draws,
    artefacts: &ArtefactBook,
    bench: &B,
)
    requires over { IsOver artefacts.now bench.now session.old }
    requires can { CanGoOn (places_in session.old.opening) (walked_in session.old) }
    ensures opening { session.new.opening ≡ session.old.opening }
    ensures took { TakesCandidate
        (B.gives bench.now artefacts.now)
        (B.fails bench.now artefacts.now)
        (B.starves bench.now artefacts.now)
        (places_in session.old.opening)
        (keys_in session.old.opening)
        (draw (candidate_count (places_in session.old.opening) (walked_in session.old).standing) draws.old).drawn
        (walked_in session.old)
        (walked_in session.new) }
    ensures from { draws.new ≡ (draw (candidate_count (places_in session.old.opening) (walked_in session.old).standing) draws.old).from }
{
    session.legal();
    let asked = session.asked_count() as usize;
    let index = draws.draw(asked + session.move_count() as usize);
    if index < asked {
        measure(session, index as u32, artefacts, bench);
    } else {
        play(session, (index - asked) as u32, artefacts, bench);
    }
}

/// Measures the ask in flight at an index, and records the result.
fn measure<B: Bench>(session: &mut Session<'_, B>, index: u32, artefacts: &ArtefactBook, bench: &B)
    requires over { IsOver artefacts.now bench.now session.old }
    requires can { CanGoOn (places_in session.old.opening) (walked_in session.old) }
    requires there { index < length (walked_in session.old).standing.in_flight }
    ensures opening { session.new.opening ≡ session.old.opening }
    ensures took { TakesCandidate
        (B.gives bench.now artefacts.now)
        (B.fails bench.now artefacts.now)
        (B.starves bench.now artefacts.now)
        (places_in session.old.opening)
        (keys_in session.old.opening)
        index
        (walked_in session.old)
        (walked_in session.new) }
{
    growth_law(bench, artefacts);
    session.legal();
    let Some(ask) = session.nth_asked(index) else {
        unreachable!()
    };
    let measured = bench.measure(artefacts, &ask);
    match session.record(0, ask.event, measured) {
        Ok(()) => session.legal(),
        Err(_) => unreachable!(),
    }
}

/// Makes the possible move at an index.
fn play<B: Bench>(session: &mut Session<'_, B>, index: u32, artefacts: &ArtefactBook, bench: &B)
    requires over { IsOver artefacts.now bench.now session.old }
    requires can { CanGoOn (places_in session.old.opening) (walked_in session.old) }
    requires there { index < length (possible_moves (places_in session.old.opening) (walked_in session.old).standing) }
    ensures opening { session.new.opening ≡ session.old.opening }
    ensures took { TakesCandidate
        (B.gives bench.now artefacts.now)
        (B.fails bench.now artefacts.now)
        (B.starves bench.now artefacts.now)
        (places_in session.old.opening)
        (keys_in session.old.opening)
        (length (walked_in session.old).standing.in_flight + index)
        (walked_in session.old)
        (walked_in session.new) }
{
    growth_law(bench, artefacts);
    session.legal();
    let Some(step) = session.nth_move(index) else {
        unreachable!()
    };
    match session.play(0, step) {
        Ok(_) => session.legal(),
        Err(_) => unreachable!(),
    }
}
