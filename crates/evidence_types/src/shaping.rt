ghost use Rattle.std.specs.Prelude.{◌≡◌, ◌<◌, ◌+◌, ◌^◌, if◌then◌else◌, IfOk};
ghost use Rattle.phrase_tree.specs.Term.{term};
ghost use Rattle.phrase_tree.specs.Numbering.{IsSized, event_count};
ghost use Rattle.evidence_types.specs.Shape.{Form, arm_shape, form, hashed, in_parallel, in_sequence, measured, measured_at, nothing, sealed, shape_at, shape_from, the_nonce};
ghost use Rattle.evidence_types.specs.Measure.{IsLight};

use crate::shape::Shape;
use phrase_tree::{Asp, NoMemory, Phrase, Place, Split};
use std::alloc::Global;

/// The shape of the evidence that a session of this phrase makes at this root, from its nonce and from
/// event 0 on. The evidence that both arms of a branch get is in the shape twice; a shape has at most
/// as many parts as it weighs. Takes time linear in the phrase and in the shape.
pub fn shape_of(alloc: Global, phrase: &Phrase, place: Place) -> Result<Shape, NoMemory>
    requires sized { IsSized (term phrase.now) }
    requires light { IsLight (term phrase.now) }
    ensures { IfOk result (λ shape. form shape ≡ shape_at (term phrase.now) place) }
{
    let before = nonce(alloc)?;
    let made = shape_from(alloc, phrase, place, 0, before)?;
    Ok(Box::into_inner(made.shape))
}

/// The shape of a part of a phrase, and the number after its events.
#[derive(Drop)]
struct Made {
    shape: Box<Shape>,
    next: u32,
}

// A shape has room for a measurement in it, so a function that holds one has a large frame. These hold
// one each, and the recursion over the phrase holds boxes alone.

#[inline(never)]
fn boxed(alloc: Global, shape: Shape) -> Result<Box<Shape>, NoMemory>
    ensures { IfOk result (λ made. made.value ≡ shape) }
{
    match Box::new(alloc, shape) {
        Ok(made) => Ok(made),
        Err(_) => Err(NoMemory),
    }
}

#[inline(never)]
fn nothing(alloc: Global) -> Result<Box<Shape>, NoMemory>
    ensures { IfOk result (λ made. form made.value ≡ nothing) }
{
    boxed(alloc, Shape::Empty)
}

#[inline(never)]
fn nonce(alloc: Global) -> Result<Box<Shape>, NoMemory>
    ensures { IfOk result (λ made. form made.value ≡ the_nonce) }
{
    boxed(alloc, Shape::Nonce)
}

/// A leaf's shape, and the number after it.
fn leaf(number: u32, shape: Box<Shape>) -> Made
    requires { number + 1 < 2 ^ 32 }
    ensures shape { form result.shape.value ≡ form shape.value }
    ensures next { result.next ≡ number + 1 }
{
    Made {
        shape,
        next: number + 1,
    }
}

#[inline(never)]
fn usm(
    alloc: Global,
    event: u32,
    place: Place,
    asp: &Asp,
    under: Box<Shape>,
) -> Result<Box<Shape>, NoMemory>
    ensures { IfOk result (λ made. form made.value ≡ measured event place asp.now (form under.value)) }
{
    boxed(alloc, Shape::Usm(event, place, asp.copy(), under))
}

#[inline(never)]
fn kim(
    alloc: Global,
    event: u32,
    place: Place,
    target: Place,
    asp: &Asp,
    under: Box<Shape>,
) -> Result<Box<Shape>, NoMemory>
    ensures { IfOk result (λ made. form made.value ≡ measured_at event place target asp.now (form under.value)) }
{
    boxed(alloc, Shape::Kim(event, place, target, asp.copy(), under))
}

#[inline(never)]
fn sig(alloc: Global, event: u32, place: Place, under: Box<Shape>) -> Result<Box<Shape>, NoMemory>
    ensures { IfOk result (λ made. form made.value ≡ sealed event place (form under.value)) }
{
    boxed(alloc, Shape::Sig(event, place, under))
}

#[inline(never)]
fn hsh(alloc: Global, event: u32, place: Place, under: Box<Shape>) -> Result<Box<Shape>, NoMemory>
    ensures { IfOk result (λ made. form made.value ≡ hashed event place (form under.value)) }
{
    boxed(alloc, Shape::Hsh(event, place, under))
}

#[inline(never)]
fn seq_pair(alloc: Global, left: Box<Shape>, right: Box<Shape>) -> Result<Box<Shape>, NoMemory>
    ensures { IfOk result (λ made. form made.value ≡ in_sequence (form left.value) (form right.value)) }
{
    boxed(alloc, Shape::SeqPair(left, right))
}

#[inline(never)]
fn par_pair(alloc: Global, left: Box<Shape>, right: Box<Shape>) -> Result<Box<Shape>, NoMemory>
    ensures { IfOk result (λ made. form made.value ≡ in_parallel (form left.value) (form right.value)) }
{
    boxed(alloc, Shape::ParPair(left, right))
}

/// The shape that a phrase makes at a place, from a number on, of the shape before it.
#[cycle(shaping)]
fn shape_from(
    alloc: Global,
    phrase: &Phrase,
    place: Place,
    number: u32,
    before: Box<Shape>,
) -> Result<Made, NoMemory>
    requires { number + event_count (term phrase.now) < 2 ^ 32 }
    ensures shape { IfOk result (λ made. form made.shape.value ≡ shape_from (term phrase.now) place number (form before.value)) }
    ensures next { IfOk result (λ made. made.next ≡ number + event_count (term phrase.now)) }
{
    match phrase {
        Phrase::Cpy => Ok(leaf(number, before)),
        Phrase::Sig => {
            let shape = sig(alloc, number, place, before)?;
            Ok(leaf(number, shape))
        }
        Phrase::Hsh => {
            let shape = hsh(alloc, number, place, before)?;
            Ok(leaf(number, shape))
        }
        Phrase::Nul => {
            let shape = nothing(alloc)?;
            Ok(leaf(number, shape))
        }
        Phrase::Usm(asp) => {
            let shape = usm(alloc, number, place, asp, before)?;
            Ok(leaf(number, shape))
        }
        Phrase::Kim(target, asp) => {
            let shape = kim(alloc, number, place, *target, asp, before)?;
            Ok(leaf(number, shape))
        }
        Phrase::At(asked, body) => {
            let made = shape_from(alloc, body, *asked, number + 1, before)?;
            Ok(Made {
                shape: made.shape,
                next: made.next + 1,
            })
        }
        Phrase::Then(left, right) => {
            let between = chained(alloc, left, place, number, before)?;
            shape_from(alloc, right, place, between.next, between.shape)
        }
        Phrase::Seq(split, left, right) => {
            let (before_left, before_right) = arms(alloc, split, before)?;
            let first = shape_from(alloc, left, place, number + 1, before_left)?;
            let second = shape_from(alloc, right, place, first.next, before_right)?;
            let shape = seq_pair(alloc, first.shape, second.shape)?;
            Ok(Made {
                shape,
                next: second.next + 1,
            })
        }
        Phrase::Par(split, left, right) => {
            let (before_left, before_right) = arms(alloc, split, before)?;
            let one = shape_from(alloc, left, place, number + 1, before_left)?;
            let other = shape_from(alloc, right, place, one.next, before_right)?;
            let shape = par_pair(alloc, one.shape, other.shape)?;
            Ok(Made {
                shape,
                next: other.next + 1,
            })
        }
    }
}

/// The same, in a small frame of its own: a chain nests as deep as it is long, while all other nesting
/// comes from brackets, and few of these are open.
#[cycle(shaping)]
fn chained(
    alloc: Global,
    phrase: &Phrase,
    place: Place,
    number: u32,
    before: Box<Shape>,
) -> Result<Made, NoMemory>
    requires { number + event_count (term phrase.now) < 2 ^ 32 }
    ensures shape { IfOk result (λ made. form made.shape.value ≡ shape_from (term phrase.now) place number (form before.value)) }
    ensures next { IfOk result (λ made. made.next ≡ number + event_count (term phrase.now)) }
{
    match phrase {
        Phrase::Then(left, right) => {
            let between = chained(alloc, left, place, number, before)?;
            shape_from(alloc, right, place, between.next, between.shape)
        }
        _ => shape_from(alloc, phrase, place, number, before),
    }
}

/// What the two arms of a branch start with.
fn arms(
    alloc: Global,
    split: &Split,
    before: Box<Shape>,
) -> Result<(Box<Shape>, Box<Shape>), NoMemory>
    ensures left { IfOk result (λ arms. form arms.0.value ≡ arm_shape split.now.left (form before.value)) }
    ensures right { IfOk result (λ arms. form arms.1.value ≡ arm_shape split.now.right (form before.value)) }
{
    if !split.right {
        let right = nothing(alloc)?;
        let left = arm(alloc, split.left, before)?;
        return Ok((left, right));
    }
    if !split.left {
        let left = nothing(alloc)?;
        return Ok((left, before));
    }
    let copied = copy_of(alloc, &before)?;
    Ok((before, copied))
}

/// What one arm starts with if the other does not use the evidence.
fn arm(alloc: Global, gets_all: bool, before: Box<Shape>) -> Result<Box<Shape>, NoMemory>
    ensures { IfOk result (λ made. form made.value ≡ arm_shape gets_all (form before.value)) }
{
    if gets_all {
        return Ok(before);
    }
    nothing(alloc)
}

/// A pair of a copy and what came of copying its right part. Where that got no memory the left one is let
/// go here, which takes a large frame.
#[inline(never)]
fn pair(
    alloc: Global,
    parallel: bool,
    left: Box<Shape>,
    right: Result<Box<Shape>, NoMemory>,
) -> Result<Box<Shape>, NoMemory>
    ensures { (last : Form) → IfOk right (λ made. form made.value ≡ last) →
        IfOk result (λ made. form made.value ≡ (if parallel then in_parallel (form left.value) last else in_sequence (form left.value) last)) }
{
    match right {
        Ok(right) => {
            if parallel {
                return par_pair(alloc, left, right);
            }
            seq_pair(alloc, left, right)
        }
        Err(_) => Err(NoMemory),
    }
}

/// The same shape again.
fn copy_of(alloc: Global, shape: &Shape) -> Result<Box<Shape>, NoMemory>
    ensures { IfOk result (λ copy. form copy.value ≡ form shape.now) }
{
    match shape {
        Shape::Empty => nothing(alloc),
        Shape::Nonce => nonce(alloc),
        Shape::Usm(event, place, asp, under) => {
            let copied = copy_of(alloc, under)?;
            usm(alloc, *event, *place, asp, copied)
        }
        Shape::Kim(event, place, target, asp, under) => {
            let copied = copy_of(alloc, under)?;
            kim(alloc, *event, *place, *target, asp, copied)
        }
        Shape::Sig(event, place, under) => {
            let copied = copy_of(alloc, under)?;
            sig(alloc, *event, *place, copied)
        }
        Shape::Hsh(event, place, under) => {
            let copied = copy_of(alloc, under)?;
            hsh(alloc, *event, *place, copied)
        }
        Shape::SeqPair(left, right) => {
            let first = copy_of(alloc, left)?;
            let second = copy_of(alloc, right);
            pair(alloc, false, first, second)
        }
        Shape::ParPair(left, right) => {
            let first = copy_of(alloc, left)?;
            let second = copy_of(alloc, right);
            pair(alloc, true, first, second)
        }
    }
}
