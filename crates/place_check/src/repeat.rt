ghost use Rattle.std.specs.Prelude.{◌≡◌, ◌<◌, ◌^◌, length, MatchOption};
ghost use Rattle.phrase_tree.specs.Repeats.{AreDistinct, IsFirstRepeat};
ghost use Rattle.place_check.specs.Places.{place_index, repeats};

use crate::entry::PlaceEntry;
use phrase_tree::Place;

/// The index of the first of these places with this name.
pub(crate) fn place_index(entries: &[PlaceEntry], name: Place) -> Option<u32>
    requires { length entries.now < 2 ^ 32 }
    ensures { result ≡ place_index entries.now name }
{
    let mut index = 0;
    for entry in entries {
        if entry.name == name {
            return Some(index);
        }
        index += 1;
    }
    None
}

/// The first two places of one name.
pub(crate) fn first_repeat(entries: &[PlaceEntry]) -> Option<(u32, u32)>
    requires { length entries.now < 2 ^ 32 }
    ensures { MatchOption result (AreDistinct (repeats entries.now)) (λ pair. IsFirstRepeat (repeats entries.now) pair.0 pair.1) }
{
    let mut second = 0;
    for entry in entries {
        if let Some(first) = place_index(&entries[..second as usize], entry.name) {
            return Some((first, second));
        }
        second += 1;
    }
    None
}
