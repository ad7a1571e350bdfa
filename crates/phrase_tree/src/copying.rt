ghost use Rattle.std.specs.Prelude.{◌≡◌, true, if◌then◌else◌, IfOk};
ghost use Rattle.phrase_tree.specs.Term.{Term, term, at, chain, seq, par, is_leaf};

use crate::memory::NoMemory;
use crate::name::Place;
use crate::phrase::{Phrase, Split};
use std::alloc::Global;

/// A copy of a part, or want of memory.
type Copied = Result<Box<Phrase>, NoMemory>;

// A node is small, but a measurement isn't, so `leaf`, which copies one, has a large frame. It and those
// that make a node or let one go are functions of their own, each called from two places, since a function
// that is called from one is put into its caller. The recursion over the phrase holds boxes alone, and lets
// none go: a last part comes as its copy was made.

#[inline(never)]
fn boxed(alloc: Global, phrase: Phrase) -> Copied
    ensures { IfOk result (λ made. made.value ≡ phrase) }
{
    match Box::new(alloc, phrase) {
        Ok(made) => Ok(made),
        Err(_) => Err(NoMemory),
    }
}

#[inline(never)]
fn leaf(alloc: Global, phrase: &Phrase) -> Copied
    requires { is_leaf (term phrase.now) ≡ true }
    ensures { IfOk result (λ made. term made.value ≡ term phrase.now) }
{
    match phrase {
        Phrase::Cpy => boxed(alloc, Phrase::Cpy),
        Phrase::Sig => boxed(alloc, Phrase::Sig),
        Phrase::Hsh => boxed(alloc, Phrase::Hsh),
        Phrase::Nul => boxed(alloc, Phrase::Nul),
        Phrase::Usm(asp) => boxed(alloc, Phrase::usm(alloc, asp.copy())?),
        Phrase::Kim(target, asp) => boxed(alloc, Phrase::kim(alloc, *target, asp.copy())?),
        _ => unreachable!(),
    }
}

#[inline(never)]
fn asked(alloc: Global, place: Place, body: Copied) -> Copied
    ensures { (inner : Term) → IfOk body (λ made. term made.value ≡ inner) →
        IfOk result (λ made. term made.value ≡ at place inner) }
{
    match body {
        Ok(body) => boxed(alloc, Phrase::At(place, body)),
        Err(_) => Err(NoMemory),
    }
}

#[inline(never)]
fn in_chain(alloc: Global, left: Box<Phrase>, right: Copied) -> Copied
    ensures { (last : Term) → IfOk right (λ made. term made.value ≡ last) →
        IfOk result (λ made. term made.value ≡ chain (term left.value) last) }
{
    match right {
        Ok(right) => boxed(alloc, Phrase::Then(left, right)),
        Err(_) => Err(NoMemory),
    }
}

#[inline(never)]
fn branch(alloc: Global, parallel: bool, split: Split, left: Box<Phrase>, right: Copied) -> Copied
    ensures { (last : Term) → IfOk right (λ made. term made.value ≡ last) →
        IfOk result (λ made. term made.value
        ≡ (if parallel then par split (term left.value) last else seq split (term left.value) last)) }
{
    match right {
        Ok(right) => {
            if parallel {
                return boxed(alloc, Phrase::Par(split, left, right));
            }
            boxed(alloc, Phrase::Seq(split, left, right))
        }
        Err(_) => Err(NoMemory),
    }
}

/// An equal phrase.
#[cycle(copying)]
pub(crate) fn copied(alloc: Global, phrase: &Phrase) -> Copied
    ensures { IfOk result (λ made. term made.value ≡ term phrase.now) }
{
    match phrase {
        Phrase::Cpy
        | Phrase::Sig
        | Phrase::Hsh
        | Phrase::Nul
        | Phrase::Usm(_)
        | Phrase::Kim(_, _) => { leaf(alloc, phrase) }
        Phrase::At(place, body) => {
            let body = copied(alloc, body);
            asked(alloc, *place, body)
        }
        Phrase::Then(left, right) => {
            let left = chained(alloc, left)?;
            let right = copied(alloc, right);
            in_chain(alloc, left, right)
        }
        Phrase::Seq(split, left, right) => {
            let left = copied(alloc, left)?;
            let right = copied(alloc, right);
            branch(alloc, false, *split, left, right)
        }
        Phrase::Par(split, left, right) => {
            let left = copied(alloc, left)?;
            let right = copied(alloc, right);
            branch(alloc, true, *split, left, right)
        }
    }
}

/// The same, in a frame of its own that is small: a chain nests as deep as it is long, while all other
/// nesting is of brackets, of which few are open.
#[cycle(copying)]
fn chained(alloc: Global, phrase: &Phrase) -> Copied
    ensures { IfOk result (λ made. term made.value ≡ term phrase.now) }
{
    match phrase {
        Phrase::Cpy
        | Phrase::Sig
        | Phrase::Hsh
        | Phrase::Nul
        | Phrase::Usm(_)
        | Phrase::Kim(_, _) => { leaf(alloc, phrase) }
        Phrase::At(place, body) => {
            let body = copied(alloc, body);
            asked(alloc, *place, body)
        }
        Phrase::Then(left, right) => {
            let left = chained(alloc, left)?;
            let right = copied(alloc, right);
            in_chain(alloc, left, right)
        }
        _ => copied(alloc, phrase),
    }
}
