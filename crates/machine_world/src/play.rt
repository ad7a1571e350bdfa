ghost use Rattle.machine_world.specs.Playable.{PhrasesPlay};

use avm_compile::{each_event_is_made_once, named_blocks_are_there, names_are_in_order};
use avm_core::programs_run;

/// The program of every sized phrase can be run between places that have each that the phrase asks, with
/// keys of the places at which its blocks seal.
pub fn phrases_play()
    ensures { PhrasesPlay }
{
    programs_run();
    names_are_in_order();
    named_blocks_are_there();
    each_event_is_made_once();
}
