ghost use Rattle.std.specs.Prelude.{◌≡◌, ◌<◌, ◌^◌, length, MatchOption, Contains};
ghost use Rattle.machine_world.specs.Seen.{IsPlace};

use phrase_tree::Place;

/// The index of a place; none exactly if it isn't there. Takes time linear in the places.
pub(crate) fn index_of(places: &[Place], place: Place) -> Option<u32>
    requires { length places.now < 2 ^ 32 }
    ensures { MatchOption result (Contains places.now place → ⊥) (λ index. IsPlace places.now place index) }
{
    for index in 0..places.len() {
        if places[index] == place {
            return Some(index as u32);
        }
    }
    None
}
