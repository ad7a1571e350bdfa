ghost use Rattle.std.specs.Prelude.{◌≡◌, ◌<◌, ◌+◌, ◌*◌, ◌^◌, ◌||◌, true, false, IfOk};
ghost use Rattle.phrase_tree.specs.Term.{term, leaf, usm, kim, is_leaf, is_branch, is_chain};
ghost use Rattle.phrase_tree.specs.Letting.{steps};
ghost use Rattle.phrase_tree.specs.Numbering.{event_count, depth};

use crate::copying::copied;
use crate::measurement::Asp;
use crate::memory::NoMemory;
use crate::name::Place;
use std::alloc::Global;
use std::mem;

/// The greatest number of events of a sized phrase.
pub const EVENTS: u32 = 2_048;

/// The greatest number of brackets that are open at once in the canonical text of a sized phrase.
pub const BRACKETS: u32 = 64;

/// Which arms of a branch get the evidence that stood before it: `true` all of it, `false` none.
#[derive(Clone, Copy, Debug, PartialEq, Eq)]
pub struct Split {
    pub left: bool,
    pub right: bool,
}

/// A phrase of Copland (POST 2019): what is measured, where and in which order, and how the evidence is
/// combined.
#[derive(Debug)]
pub enum Phrase {
    /// The evidence as it is.
    Cpy,
    /// The evidence under the seal of the place.
    Sig,
    /// The hash of the evidence.
    Hsh,
    /// No evidence, in place of what stood before.
    Nul,
    /// A measurement by a service of the place.
    Usm(Box<Asp>),
    /// A measurement of a target place by a service of the place.
    Kim(Place, Box<Asp>),
    /// A phrase that another place is asked to run.
    At(Place, Box<Phrase>),
    /// The second phrase on the evidence of the first.
    Then(Box<Phrase>, Box<Phrase>),
    /// The left arm, and then the right arm.
    Seq(Split, Box<Phrase>, Box<Phrase>),
    /// Both arms in any order of their events.
    Par(Split, Box<Phrase>, Box<Phrase>),
}

impl Phrase {
    /// A measurement by a service of the place. An error is want of memory.
    pub fn usm(alloc: Global, asp: Asp) -> Result<Phrase, NoMemory>
        ensures { IfOk result (λ made. term made ≡ leaf (usm asp)) }
    {
        Ok(Phrase::Usm(Box::new(alloc, asp)?))
    }

    /// A measurement of a target place by a service of the place. An error is want of memory.
    pub fn kim(alloc: Global, target: Place, asp: Asp) -> Result<Phrase, NoMemory>
        ensures { IfOk result (λ made. term made ≡ leaf (kim target asp)) }
    {
        Ok(Phrase::Kim(target, Box::new(alloc, asp)?))
    }
}

impl Phrase {
    // Lets go of a leaf.
    fn end(self)
        requires { is_leaf (term self) ≡ true }
    {
        match self {
            Phrase::Cpy
            | Phrase::Sig
            | Phrase::Hsh
            | Phrase::Nul
            | Phrase::Usm(_)
            | Phrase::Kim(_, _) => {}
            _ => unreachable!(),
        }
    }

    // Gives its left part for the other phrase, and becomes the rest. A leaf stays as it is.
    fn turn(&mut self, other: &mut Box<Phrase>) -> bool
        ensures turned { result ≡ true →
            1 + 2 * steps (term other.new.value) + steps (term self.new)
            < 1 + 2 * steps (term self.old) + steps (term other.old.value) }
        ensures leaf { result ≡ false → is_leaf (term self.new) ≡ true }
        ensures stays { result ≡ false → other.new ≡ other.old }
    {
        match self {
            Phrase::Cpy
            | Phrase::Sig
            | Phrase::Hsh
            | Phrase::Nul
            | Phrase::Usm(_)
            | Phrase::Kim(_, _) => false,
            Phrase::At(_, body) => {
                mem::swap(body, other);
                true
            }
            Phrase::Then(left, right) => {
                turn_parts(left, right, other);
                true
            }
            Phrase::Seq(_, left, right) => {
                turn_parts(left, right, other);
                true
            }
            Phrase::Par(_, left, right) => {
                turn_parts(left, right, other);
                true
            }
        }
    }

    // What is left of two parts after one step.
    fn after_a_step(mut left: Box<Phrase>, mut right: Box<Phrase>) -> Phrase
        ensures { steps (term result) < 1 + 2 * steps (term left.value) + steps (term right.value) }
    {
        if left.turn(&mut right) {
            return Phrase::Then(right, left);
        }
        Box::into_inner(left).end();
        Box::into_inner(right)
    }
}

// The parts of a pair become its right part and another, which becomes its left part.
fn turn_parts(left: &mut Box<Phrase>, right: &mut Box<Phrase>, other: &mut Box<Phrase>)
    ensures left { left.new ≡ right.old }
    ensures right { right.new ≡ other.old }
    ensures other { other.new ≡ left.old }
{
    mem::swap(left, right);
    mem::swap(right, other);
}

// A loop that takes no memory: however long or deep a phrase is, letting it go takes the same stack.
impl Drop for Phrase {
    fn drop(mut self) {
        loop {
            match self {
                Phrase::Cpy
                | Phrase::Sig
                | Phrase::Hsh
                | Phrase::Nul
                | Phrase::Usm(_)
                | Phrase::Kim(_, _) => { return }
                Phrase::At(_, body) => self = Box::into_inner(body),
                Phrase::Then(left, right)
                | Phrase::Seq(_, left, right)
                | Phrase::Par(_, left, right) => self = Phrase::after_a_step(left, right),
            }
        }
    }
}

impl Phrase {
    /// The number of its events. Takes no memory, and time linear in the phrase.
    pub fn events(&self) -> u32
        requires { event_count (term self.now) < 2 ^ 32 }
        ensures { result ≡ event_count (term self.now) }
    {
        match self {
            Phrase::Cpy
            | Phrase::Sig
            | Phrase::Hsh
            | Phrase::Nul
            | Phrase::Usm(_)
            | Phrase::Kim(_, _) => 1,
            Phrase::At(_, body) => 2 + body.events(),
            Phrase::Then(left, right) => left.events() + right.events(),
            Phrase::Seq(_, left, right) | Phrase::Par(_, left, right) => {
                2 + left.events() + right.events()
            }
        }
    }
}

impl Phrase {
    fn is_branch(&self) -> bool
        ensures { result ≡ is_branch (term self.now) }
    {
        match self {
            Phrase::Seq(_, _, _) | Phrase::Par(_, _, _) => true,
            _ => false,
        }
    }

    fn is_chain(&self) -> bool
        ensures { result ≡ is_chain (term self.now) }
    {
        match self {
            Phrase::Then(_, _) => true,
            _ => false,
        }
    }

    /// The greatest number of brackets that are open at once in its canonical text. Takes no memory,
    /// and time linear in the phrase.
    #[tactic(auto, using(crate::proofs::DepthBounds::depth_below))]
    pub fn depth(&self) -> u32
        requires { event_count (term self.now) < 2 ^ 32 }
        ensures { result ≡ depth (term self.now) }
    {
        match self {
            Phrase::Cpy
            | Phrase::Sig
            | Phrase::Hsh
            | Phrase::Nul
            | Phrase::Usm(_)
            | Phrase::Kim(_, _) => 0,
            Phrase::At(_, body) => 1 + body.depth(),
            Phrase::Then(left, right) => {
                let first = left.depth() + u32::from(left.is_branch());
                let second = right.depth() + u32::from(right.is_branch() || right.is_chain());
                first.max(second)
            }
            Phrase::Seq(_, left, right) | Phrase::Par(_, left, right) => {
                let first = left.depth() + u32::from(left.is_branch());
                let second = right.depth() + u32::from(right.is_branch());
                first.max(second)
            }
        }
    }

    /// An equal phrase. An error is want of memory. Takes time linear in the phrase.
    pub fn try_copy(&self, alloc: Global) -> Result<Phrase, NoMemory>
        ensures { IfOk result (λ copy. term copy ≡ term self.now) }
    {
        let copy = copied(alloc, self)?;
        Ok(Box::into_inner(copy))
    }
}
