ghost use Rattle.std.specs.Prelude.{◌≡◌, ◌<◌, IfOk};
ghost use Rattle.phrase_tree.specs.Term.{term, leaf, at, chain, seq, par, sig, hsh};
ghost use Rattle.session_runs.specs.Schedule.{draw};
ghost use Rattle.load_maker.specs.Made.{Makes};
ghost use Rattle.load_maker.specs.Phrases.{drawn_leaf, drawn_phrase, drawn_signs};

use crate::draws::Draws;
use crate::names::{place_name, plain_asp};
use phrase_tree::{NoMemory, Phrase, Place, Split};
use std::alloc::Global;

fn drawn_leaf(alloc: Global, draws: &mut Draws) -> Result<Phrase, NoMemory>
    ensures { Makes term (drawn_leaf (draw 2 draws.old)) result draws.new }
{
    if draws.draw(2) == 0 {
        return Phrase::usm(alloc, plain_asp(draws.draw(8)));
    }
    let target = place_name(draws.draw(8));
    Phrase::kim(alloc, target, plain_asp(draws.draw(8)))
}

fn drawn_signs(number: u32) -> Split
    requires { number < 4 }
    ensures { result ≡ drawn_signs number }
{
    Split {
        left: number < 2,
        right: number % 2 == 0,
    }
}

fn chained(alloc: Global, left: Phrase, right: Phrase) -> Result<Phrase, NoMemory>
    ensures { IfOk result (λ phrase. term phrase ≡ chain (term left) (term right)) }
{
    Ok(Phrase::Then(Box::new(alloc, left)?, Box::new(alloc, right)?))
}

fn requested(alloc: Global, asked: Place, body: Phrase) -> Result<Phrase, NoMemory>
    ensures { IfOk result (λ phrase. term phrase ≡ at asked (term body)) }
{
    Ok(Phrase::At(asked, Box::new(alloc, body)?))
}

fn in_sequence(alloc: Global, split: Split, left: Phrase, right: Phrase) -> Result<Phrase, NoMemory>
    ensures { IfOk result (λ phrase. term phrase ≡ seq split (term left) (term right)) }
{
    Ok(Phrase::Seq(split, Box::new(alloc, left)?, Box::new(alloc, right)?))
}

/// A parallel branch.
pub(crate) fn in_parallel(
    alloc: Global,
    split: Split,
    left: Phrase,
    right: Phrase,
) -> Result<Phrase, NoMemory>
    ensures { IfOk result (λ phrase. term phrase ≡ par split (term left) (term right)) }
{
    Ok(Phrase::Par(split, Box::new(alloc, left)?, Box::new(alloc, right)?))
}

/// A phrase whose parts nest this deep.
pub(crate) fn drawn_phrase(alloc: Global, depth: u32, draws: &mut Draws) -> Result<Phrase, NoMemory>
    ensures { Makes term (drawn_phrase depth draws.old) result draws.new }
{
    if depth == 0 {
        return drawn_leaf(alloc, draws);
    }
    match draws.draw(6) {
        0 => {
            let left = drawn_phrase(alloc, depth - 1, draws)?;
            let right = drawn_phrase(alloc, depth - 1, draws)?;
            chained(alloc, left, right)
        }
        1 => {
            let asked = place_name(draws.draw(8));
            let body = drawn_phrase(alloc, depth - 1, draws)?;
            requested(alloc, asked, body)
        }
        2 => {
            let split = drawn_signs(draws.draw(4));
            let left = drawn_phrase(alloc, depth - 1, draws)?;
            let right = drawn_phrase(alloc, depth - 1, draws)?;
            in_sequence(alloc, split, left, right)
        }
        3 => {
            let split = drawn_signs(draws.draw(4));
            let left = drawn_phrase(alloc, depth - 1, draws)?;
            let right = drawn_phrase(alloc, depth - 1, draws)?;
            in_parallel(alloc, split, left, right)
        }
        4 => {
            let part = drawn_phrase(alloc, depth - 1, draws)?;
            chained(alloc, part, Phrase::Sig)
        }
        _ => {
            let part = drawn_phrase(alloc, depth - 1, draws)?;
            chained(alloc, part, Phrase::Hsh)
        }
    }
}
