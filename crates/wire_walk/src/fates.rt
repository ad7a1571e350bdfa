ghost use Rattle.std.specs.Prelude.{◌≡◌, if◌then◌else◌};
ghost use Rattle.wire_manager.specs.WireSchedule.{fate_drawn, is_lost, stays, leaves};
ghost use Rattle.wire_walk.specs.UnderWay.{fate_as, draws_zero};

use crate::flight::Flight;
use session_walk::Draws;

/// What becomes of a frame.
#[derive(Clone, Copy, Debug, PartialEq, Eq)]
pub(crate) enum Fate {
    Lost,
    /// It arrives and stays in flight.
    Stays,
    /// It arrives and leaves.
    Leaves,
}

/// So many frames of a session are lost at most, and as many stay.
const MOST: u32 = 1000;

/// Draws what becomes of a frame, of four; where all draws are 0 it arrives.
pub(crate) fn drawn_fate(draws: &mut Draws, zero: bool, flight: &Flight) -> Fate
    requires { zero ≡ draws_zero draws.old }
    ensures fate { fate_as result ≡ (fate_drawn draws.old flight.now.lost flight.now.stayed).fate }
    ensures from { draws.new ≡ (fate_drawn draws.old flight.now.lost flight.now.stayed).from }
{
    if zero {
        return Fate::Leaves;
    }
    match draws.draw(4) {
        0 => lost_if(flight.lost < MOST),
        1 => stays_if(flight.stayed < MOST),
        _ => Fate::Leaves,
    }
}

fn lost_if(may: bool) -> Fate
    ensures { fate_as result ≡ (if may then is_lost else leaves) }
{
    if may { Fate::Lost } else { Fate::Leaves }
}

fn stays_if(may: bool) -> Fate
    ensures { fate_as result ≡ (if may then stays else leaves) }
{
    if may { Fate::Stays } else { Fate::Leaves }
}
