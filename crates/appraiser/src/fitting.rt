ghost use Rattle.std.specs.Prelude.{◌≡◌, ◌+◌, ◌<◌, ◌^◌, ◌&&◌, drop, length, nat_eq};
ghost use Rattle.std.specs.Option.{option_copied};
ghost use Rattle.evidence_types.specs.Evidence.{evidence};
ghost use Rattle.evidence_types.specs.Heads.{next_mark};
ghost use Rattle.evidence_types.specs.Shape.{form};
ghost use Rattle.appraiser.specs.Appraised.{HasMarks};
ghost use Rattle.appraiser.specs.Fit.{is_mark, marks_in, misfit, nodes};
ghost use Rattle.appraiser.specs.Walked.{Walked};

use byte_ports::Bytes;
use evidence_types::{Shape, Value};
use phrase_tree::Place;
use place_check::Places;

/// The first of the marks.
fn first_of(marks: &[u8]) -> Option<u8>
    ensures { result ≡ next_mark marks.now }
{
    match marks {
        [mark, ..] => Some(*mark),
        [] => None,
    }
}

/// The marks behind the first.
fn behind_first(marks: &[u8]) -> &[u8]
    ensures { result.now ≡ drop 1 marks.now }
{
    match marks {
        [_, rest @ ..] => rest,
        [] => marks,
    }
}

/// Whether a mark, if there is one, is the index of the place. Each place is looked at in turn. Takes no memory.
pub fn is_mark(places: &Places, mark: Option<u8>, place: Place) -> bool
    ensures { result ≡ is_mark places.now mark place }
{
    let Some(mark) = mark else {
        return true;
    };
    match places.find(place) {
        Some(index) => index == mark as u32,
        None => false,
    }
}

/// Whether a measurement has the event of one of a shape, and a mark of its place.
fn is_measured(places: &Places, event: u32, mark: Option<u8>, number: u32, place: Place) -> bool
    ensures { result ≡ (nat_eq event number && is_mark places.now mark place) }
{
    event == number && is_mark(places, mark, place)
}

/// A part of a value that fits: the number of the next node, and the marks of the next measurements.
#[derive(Clone, Copy)]
pub(crate) struct Passed<'a> {
    pub next: u32,
    pub marks: &'a [u8],
}

/// Walks a part of a value together with a part of a shape, from the number of their first nodes on; an error
/// is the number of the first node that does not agree.
fn walk<'a>(
    places: &Places,
    shape: &Shape,
    value: &Value,
    marks: &'a [u8],
    number: u32,
) -> Result<Passed<'a>, u32>
    requires { number + length (nodes (form shape.now)) < 2 ^ 32 }
    ensures { Walked places.now number (evidence value.now) marks.now (form shape.now) result }
{
    match (value, shape) {
        (Value::Empty, Shape::Empty) => Ok(Passed {
            next: number + 1,
            marks,
        }),
        (Value::Nonce(_), Shape::Nonce) => Ok(Passed {
            next: number + 1,
            marks,
        }),
        (Value::Usm(event, _, under), Shape::Usm(own, place, _, below)) => {
            if !is_measured(places, *event, first_of(marks), *own, *place) {
                return Err(number);
            }
            walk(places, below, under, behind_first(marks), number + 1)
        }
        (Value::Kim(event, _, under), Shape::Kim(own, place, _, _, below)) => {
            if !is_measured(places, *event, first_of(marks), *own, *place) {
                return Err(number);
            }
            walk(places, below, under, behind_first(marks), number + 1)
        }
        (Value::Seal(event, _, under), Shape::Sig(own, _, below)) => {
            if event != own {
                return Err(number);
            }
            walk(places, below, under, marks, number + 1)
        }
        (Value::Hash(event, _), Shape::Hsh(own, _, _)) => {
            if event != own {
                return Err(number);
            }
            Ok(Passed {
                next: number + 1,
                marks,
            })
        }
        (Value::SeqPair(left, right), Shape::SeqPair(first, second)) => {
            let passed = match walk(places, first, left, marks, number + 1) {
                Ok(passed) => passed,
                Err(at) => return Err(at),
            };
            walk(places, second, right, passed.marks, passed.next)
        }
        (Value::ParPair(left, right), Shape::ParPair(first, second)) => {
            let passed = match walk(places, first, left, marks, number + 1) {
                Ok(passed) => passed,
                Err(at) => return Err(at),
            };
            walk(places, second, right, passed.marks, passed.next)
        }
        _ => Err(number),
    }
}

/// The number of the first node of a value that does not fit the shape: its form or its event differs, or the
/// mark that it carries is not the index of the place. Nodes are counted from 0, a node before its parts and
/// left before right, and what lies under a hash in the shape is left out. None exactly when the value fits.
/// Takes no memory, and time linear in the value's nodes.
pub fn fits_at(shape: &Shape, value: &Value, marks: Option<&Bytes>, places: &Places) -> Option<u32>
    requires few { length (nodes (form shape.now)) < 2 ^ 32 }
    requires marks { HasMarks (evidence value.now) (option_copied marks) }
    ensures { result ≡ misfit places.now (evidence value.now) (option_copied marks.entry) (form shape.now) }
{
    match walk(places, shape, value, bytes_in(marks), 0) {
        Ok(_) => None,
        Err(at) => Some(at),
    }
}

/// The marks, and no bytes if there are none.
fn bytes_in(marks: Option<&Bytes>) -> &[u8]
    ensures { result.now ≡ marks_in (option_copied marks.entry) }
{
    match marks {
        Some(marks) => marks.items(),
        None => &[],
    }
}
