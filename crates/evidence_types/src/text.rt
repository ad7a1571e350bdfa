ghost use Rattle.std.specs.Prelude.{◌≡◌, ◌++◌, [], ◌∷◌, IfOk, OnOk};
ghost use Rattle.phrase_tree.specs.Text.{asp_text};
ghost use Rattle.evidence_types.specs.Shape.{form};
ghost use Rattle.evidence_types.specs.ShapeText.{head_text, shape_text};

use crate::shape::Shape;
use byte_ports::Bytes;
use phrase_tree::{Asp, NoMemory, Place, push_asp, push_bytes, push_decimal};
use std::alloc::Global;

/// The text of a shape, in ASCII: `E`, `N`, `U(place,event,asp,under)`,
/// `K(place,event,target,asp,under)`, `G(place,event,under)`, `H(place,event,under)`,
/// `S(left,right)` and `P(left,right)`; a measurement is its name and its arguments with single
/// spaces between.
pub fn shape_text(alloc: Global, shape: &Shape) -> Result<Bytes, NoMemory>
    ensures { IfOk result (λ text. text ≡ shape_text (form shape.now)) }
{
    let mut text = Vec::new(alloc);
    push_shape(&mut text, shape)?;
    Ok(Bytes::of(text))
}

fn push_shape(text: &mut Vec<u8>, shape: &Shape) -> Result<(), NoMemory>
    ensures { OnOk result (text.new.items ≡ text.old.items ++ shape_text (form shape.now)) }
{
    match shape {
        Shape::Empty => push_byte(text, b'E'),
        Shape::Nonce => push_byte(text, b'N'),
        Shape::Usm(event, place, asp, under) => {
            push_byte(text, b'U')?;
            push_head(text, place, *event)?;
            push_measurement(text, asp)?;
            push_shape(text, under)?;
            push_byte(text, b')')
        }
        Shape::Kim(event, place, target, asp, under) => {
            push_byte(text, b'K')?;
            push_head(text, place, *event)?;
            push_bytes(text, target.bytes())?;
            push_byte(text, b',')?;
            push_measurement(text, asp)?;
            push_shape(text, under)?;
            push_byte(text, b')')
        }
        Shape::Sig(event, place, under) => {
            push_byte(text, b'G')?;
            push_head(text, place, *event)?;
            push_shape(text, under)?;
            push_byte(text, b')')
        }
        Shape::Hsh(event, place, under) => {
            push_byte(text, b'H')?;
            push_head(text, place, *event)?;
            push_shape(text, under)?;
            push_byte(text, b')')
        }
        Shape::SeqPair(left, right) => {
            push_bytes(text, b"S(")?;
            push_shape(text, left)?;
            push_byte(text, b',')?;
            push_shape(text, right)?;
            push_byte(text, b')')
        }
        Shape::ParPair(left, right) => {
            push_bytes(text, b"P(")?;
            push_shape(text, left)?;
            push_byte(text, b',')?;
            push_shape(text, right)?;
            push_byte(text, b')')
        }
    }
}

/// The place and the event, in the bracket that opens.
fn push_head(text: &mut Vec<u8>, place: &Place, event: u32) -> Result<(), NoMemory>
    ensures { OnOk result (text.new.items ≡ text.old.items ++ head_text place.now event) }
{
    push_byte(text, b'(')?;
    push_bytes(text, place.bytes())?;
    push_byte(text, b',')?;
    push_decimal(text, event)?;
    push_byte(text, b',')
}

/// A measurement, and the comma after it.
fn push_measurement(text: &mut Vec<u8>, asp: &Asp) -> Result<(), NoMemory>
    ensures { OnOk result (text.new.items ≡ text.old.items ++ (asp_text asp.now ++ 44 ∷ [])) }
{
    push_asp(text, asp)?;
    push_byte(text, b',')
}

fn push_byte(text: &mut Vec<u8>, byte: u8) -> Result<(), NoMemory>
    ensures { OnOk result (text.new.items ≡ text.old.items ++ byte ∷ []) }
{
    text.push(byte)?;
    Ok(())
}
