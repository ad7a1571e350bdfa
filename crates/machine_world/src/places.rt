ghost use Rattle.std.specs.Prelude.{◌<◌, ◌^◌, length};
ghost use Rattle.machine_world.specs.Seen.{IsPlace};
ghost use Rattle.machine_world.specs.World.{IsListed};

use phrase_tree::Place;

/// The index of a place in a list that has it. Takes time linear in the list.
pub fn index_of_place(places: &Vec<Place>, place: Place) -> u32
    requires few { length places.now.items < 2 ^ 32 }
    requires listed { IsListed places.now.items place }
    ensures { IsPlace places.now.items place result }
{
    for index in 0..places.len() {
        if places[index] == place {
            return index as u32;
        }
    }
    unreachable!()
}
