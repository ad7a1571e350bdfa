ghost use Rattle.std.specs.Prelude.{◌≡◌, ◌<◌, ◌+◌, ◌*◌, true, false};
ghost use Rattle.evidence_types.specs.Shape.{form};
ghost use Rattle.evidence_types.specs.ShapeLetting.{has_parts, steps};

use phrase_tree::{Asp, Place};
use std::mem;

/// What a phrase makes of evidence, before any measurement is taken: the forms of the evidence with
/// the numbers, places and measurements of the events at which its parts come to be (POST 2019, the
/// evidence function). The first number in a form is that of its event, and the first place is where
/// the event happens.
#[derive(Debug)]
pub enum Shape {
    /// No evidence.
    Empty,
    /// The nonce of the session.
    Nonce,
    /// The answer to a measurement, over the evidence that stood before it.
    Usm(u32, Place, Asp, Box<Shape>),
    /// The answer to a measurement of a target, the second place, over the evidence before it.
    Kim(u32, Place, Place, Asp, Box<Shape>),
    /// The seal of the place over the evidence under it.
    Sig(u32, Place, Box<Shape>),
    /// The hash that stands in place of the evidence under it.
    Hsh(u32, Place, Box<Shape>),
    /// What the two arms of a sequential branch make.
    SeqPair(Box<Shape>, Box<Shape>),
    /// What the two arms of a parallel branch make.
    ParPair(Box<Shape>, Box<Shape>),
}

impl Shape {
    // Lets go of one that has no parts.
    fn end(self)
        requires { has_parts (form self) ≡ false }
    {
        match self {
            Shape::Empty | Shape::Nonce => {}
            _ => unreachable!(),
        }
    }

    // Gives its part, or its left one, for the other shape, and becomes the rest. One that has no parts
    // stays as it is.
    fn turn(&mut self, other: &mut Box<Shape>) -> bool
        ensures turned { result ≡ true →
            1 + 2 * steps (form other.new.value) + steps (form self.new)
            < 1 + 2 * steps (form self.old) + steps (form other.old.value) }
        ensures whole { result ≡ false → has_parts (form self.new) ≡ false }
        ensures stays { result ≡ false → other.new ≡ other.old }
    {
        match self {
            Shape::Empty | Shape::Nonce => false,
            Shape::Usm(_, _, _, under) => {
                mem::swap(under, other);
                true
            }
            Shape::Kim(_, _, _, _, under) => {
                mem::swap(under, other);
                true
            }
            Shape::Sig(_, _, under) => {
                mem::swap(under, other);
                true
            }
            Shape::Hsh(_, _, under) => {
                mem::swap(under, other);
                true
            }
            Shape::SeqPair(left, right) => {
                turn_parts(left, right, other);
                true
            }
            Shape::ParPair(left, right) => {
                turn_parts(left, right, other);
                true
            }
        }
    }

    // What is left of two parts after one step.
    fn after_a_step(mut left: Box<Shape>, mut right: Box<Shape>) -> Shape
        ensures { steps (form result) < 1 + 2 * steps (form left.value) + steps (form right.value) }
    {
        if left.turn(&mut right) {
            return Shape::SeqPair(right, left);
        }
        Box::into_inner(left).end();
        Box::into_inner(right)
    }
}

// The parts of a pair become its right part and another, which becomes its left part.
fn turn_parts(left: &mut Box<Shape>, right: &mut Box<Shape>, other: &mut Box<Shape>)
    ensures left { left.new ≡ right.old }
    ensures right { right.new ≡ other.old }
    ensures other { other.new ≡ left.old }
{
    mem::swap(left, right);
    mem::swap(right, other);
}

// A loop that takes no memory: however deep a shape is, letting it go takes the same stack.
impl Drop for Shape {
    fn drop(mut self) {
        loop {
            match self {
                Shape::Empty | Shape::Nonce => return,
                Shape::Usm(_, _, _, under)
                | Shape::Kim(_, _, _, _, under)
                | Shape::Sig(_, _, under)
                | Shape::Hsh(_, _, under) => self = Box::into_inner(under),
                Shape::SeqPair(left, right) | Shape::ParPair(left, right) => self =
                    Shape::after_a_step(left, right),
            }
        }
    }
}
