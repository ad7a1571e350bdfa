ghost use Rattle.std.specs.Prelude.{◌≡◌, ◌<◌, ◌+◌, ◌*◌, true, false};
ghost use Rattle.evidence_types.specs.Evidence.{evidence};
ghost use Rattle.evidence_types.specs.ValueLetting.{has_parts, steps};

use crate::answer::Answer;
use std::mem;

/// What a phrase made of a session's nonce and the answers (POST 2019, the evidence of a phrase).
/// A number is that of the event at which the part came to be.
#[derive(Debug)]
pub enum Value {
    /// No evidence.
    Empty,
    /// The nonce of the session, with which its evidence starts.
    Nonce([u8; 16]),
    /// The answer of a measurement, over the evidence that stood before it.
    Usm(u32, Answer, Box<Value>),
    /// The answer of a measurement of a target place, over the evidence that stood before it.
    Kim(u32, Answer, Box<Value>),
    /// The seal over the evidence under it.
    Seal(u32, [u8; 32], Box<Value>),
    /// The hash that stands in place of what was hashed.
    Hash(u32, [u8; 32]),
    /// What the two arms of a sequential branch made.
    SeqPair(Box<Value>, Box<Value>),
    /// What the two arms of a parallel branch made.
    ParPair(Box<Value>, Box<Value>),
}

impl Value {
    // Lets go of one that has no parts.
    fn end(self)
        requires { has_parts (evidence self) ≡ false }
    {
        match self {
            Value::Empty | Value::Nonce(_) | Value::Hash(_, _) => {}
            _ => unreachable!(),
        }
    }

    // Gives its part, or its left one, for the other value, and becomes the rest. One that has no parts
    // stays as it is.
    fn turn(&mut self, other: &mut Box<Value>) -> bool
        ensures turned { result ≡ true →
            1 + 2 * steps (evidence other.new.value) + steps (evidence self.new)
            < 1 + 2 * steps (evidence self.old) + steps (evidence other.old.value) }
        ensures whole { result ≡ false → has_parts (evidence self.new) ≡ false }
        ensures stays { result ≡ false → other.new ≡ other.old }
    {
        match self {
            Value::Empty | Value::Nonce(_) | Value::Hash(_, _) => false,
            Value::Usm(_, _, under) => {
                mem::swap(under, other);
                true
            }
            Value::Kim(_, _, under) => {
                mem::swap(under, other);
                true
            }
            Value::Seal(_, _, under) => {
                mem::swap(under, other);
                true
            }
            Value::SeqPair(left, right) => {
                turn_parts(left, right, other);
                true
            }
            Value::ParPair(left, right) => {
                turn_parts(left, right, other);
                true
            }
        }
    }

    // What is left of two parts after one step.
    fn after_a_step(mut left: Box<Value>, mut right: Box<Value>) -> Value
        ensures { steps (evidence result) < 1 + 2 * steps (evidence left.value) + steps (evidence right.value) }
    {
        if left.turn(&mut right) {
            return Value::SeqPair(right, left);
        }
        Box::into_inner(left).end();
        Box::into_inner(right)
    }
}

// The parts of a pair become its right part and another, which becomes its left part.
fn turn_parts(left: &mut Box<Value>, right: &mut Box<Value>, other: &mut Box<Value>)
    ensures left { left.new ≡ right.old }
    ensures right { right.new ≡ other.old }
    ensures other { other.new ≡ left.old }
{
    mem::swap(left, right);
    mem::swap(right, other);
}

// A loop that takes no memory: however deep a value is, letting it go takes the same stack.
impl Drop for Value {
    fn drop(mut self) {
        loop {
            match self {
                Value::Empty | Value::Nonce(_) | Value::Hash(_, _) => return,
                Value::Usm(_, _, under) | Value::Kim(_, _, under) | Value::Seal(_, _, under) =>
                    self = Box::into_inner(under),
                Value::SeqPair(left, right) | Value::ParPair(left, right) => self =
                    Value::after_a_step(left, right),
            }
        }
    }
}
