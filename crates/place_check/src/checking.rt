ghost use Rattle.std.specs.Prelude.{◌≡◌, IsTrue};
ghost use Rattle.phrase_tree.specs.Term.{term};
ghost use Rattle.phrase_tree.specs.Numbering.{IsSized};
ghost use Rattle.place_check.specs.Places.{is_place};
ghost use Rattle.place_check.specs.Checks.{Checks};

use crate::entry::PlaceFault;
use crate::places::Places;
use crate::session::Checked;
use crate::walk::walk;
use evidence_types::first_over;
use phrase_tree::{Phrase, Place};

/// Checks a session against places. The error is the first rule that an event of its phrase breaks, by
/// the event's number and then in the rules' order; if none is broken, the least event at which the
/// weight of its evidence passes 262,144 or its nest 1,025. A request needs a place that the asking
/// place may ask; a measurement needs to be one that its place offers; a measurement of a target also
/// needs a target that is a place and that the measuring place may see. A place may ask itself only if
/// its own name is among those that it may ask. Takes no memory, and drops a phrase that it refuses.
pub fn check(
    places: &Places,
    root: Place,
    nonce: [u8; 16],
    phrase: Phrase,
) -> Result<Checked, PlaceFault>
    requires sized { IsSized (term phrase) }
    requires rooted { IsTrue (is_place places.now root) }
    ensures { Checks places.now (record { root = root; nonce = nonce; phrase = term phrase }) result }
{
    if let Err((event, kind)) = walk(places.items(), &phrase, root, 0) {
        return Err(PlaceFault::Misplaced { event, kind });
    }
    if let Some(event) = first_over(&phrase) {
        return Err(PlaceFault::Oversize { event });
    }
    Ok(Checked::of(root, nonce, phrase))
}
