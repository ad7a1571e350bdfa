ghost use Rattle.std.specs.Prelude.{◌≡◌, [], ◌∷◌, ◌++◌, Some, map, IfOk, OnOk};
ghost use Rattle.evidence_types.specs.Shape.{form};
ghost use Rattle.place_check.specs.Places.{place_index};
ghost use Rattle.appraiser.specs.Fit.{AreMarksOf, CanMark, IsBelow, outer_leaves};

use byte_ports::Bytes;
use evidence_types::Shape;
use phrase_tree::{NoMemory, Place};
use place_check::Places;
use std::alloc::Global;

fn push_mark(places: &Places, place: Place, marks: &mut Vec<u8>) -> Result<(), NoMemory>
    requires { IsBelow 256 (place_index places.now place) }
    ensures { OnOk result (map (λ mark. Some mark) marks.new.items ≡ map (λ mark. Some mark) marks.old.items ++ place_index places.now place ∷ []) }
{
    let Some(index) = places.find(place) else {
        unreachable!()
    };
    match marks.push(index as u8) {
        Ok(()) => Ok(()),
        Err(_) => Err(NoMemory),
    }
}

/// Appends the marks of a part of a shape.
fn push_marks(places: &Places, shape: &Shape, marks: &mut Vec<u8>) -> Result<(), NoMemory>
    requires { CanMark places.now (form shape.now) }
    ensures { OnOk result (map (λ mark. Some mark) marks.new.items ≡ map (λ mark. Some mark) marks.old.items ++ map (λ leaf. place_index places.now leaf.place) (outer_leaves (form shape.now))) }
{
    match shape {
        Shape::Empty | Shape::Nonce | Shape::Hsh(_, _, _) => Ok(()),
        Shape::Usm(_, place, _, under) => {
            push_mark(places, *place, marks)?;
            push_marks(places, under, marks)
        }
        Shape::Kim(_, place, _, _, under) => {
            push_mark(places, *place, marks)?;
            push_marks(places, under, marks)
        }
        Shape::Sig(_, _, under) => push_marks(places, under, marks),
        Shape::SeqPair(left, right) => {
            push_marks(places, left, marks)?;
            push_marks(places, right, marks)
        }
        Shape::ParPair(left, right) => {
            push_marks(places, left, marks)?;
            push_marks(places, right, marks)
        }
    }
}

/// The marks of a shape: the indices of the places of its measurements, a node before its parts and left before
/// right, without those under a hash. Each place is looked for among the places one after the other.
pub fn marks_of(alloc: Global, shape: &Shape, places: &Places) -> Result<Bytes, NoMemory>
    requires { CanMark places.now (form shape.now) }
    ensures { IfOk result (λ marks. AreMarksOf places.now (form shape.now) marks) }
{
    let mut marks = Vec::new(alloc);
    push_marks(places, shape, &mut marks)?;
    Ok(Bytes::of(marks))
}
