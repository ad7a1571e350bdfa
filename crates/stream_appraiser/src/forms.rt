ghost use Rattle.std.specs.Prelude.{◌≡◌, [], ◌∷◌, length, OnOk, MatchOption};

use evidence_types::Shape;
use phrase_tree::NoMemory;
use std::alloc::Global;
use std::marker::Model;

/// The parts of a shape to come. Clauses see the next one first.
#[derive(Debug, Drop)]
pub struct Forms<'a> {
    shapes: Vec<&'a Shape>,
}

impl<'a> Model for Forms<'a> {
    ghost use Rattle.std.specs.Coded.{codes};
    ghost use Rattle.std.specs.Prelude.{List, map, reverse};
    ghost use Rattle.evidence_types.specs.declared.shape.Shape.{Shape};
    ghost use Rattle.evidence_types.specs.contracts.shape.Shape as trees;

    ghost Value = { List Shape };

    ghost coded = { Prim.hlevel (codes, trees.the_row.coded) };

    ghost view = { λ forms. reverse (map (λ shape. shape.now) forms.shapes.items) };
}

impl<'a> Forms<'a> {
    pub fn none(alloc: Global) -> Forms<'a>
        ensures { result ≡ [] }
    {
        Forms {
            shapes: Vec::new(alloc),
        }
    }

    pub fn len(&self) -> usize
        ensures { result ≡ length self.now }
    {
        self.shapes.len()
    }

    pub fn push(&mut self, shape: &'a Shape) -> Result<(), NoMemory>
        ensures { OnOk result (self.new ≡ shape.now ∷ self.old) }
    {
        match self.shapes.push(shape) {
            Ok(()) => Ok(()),
            Err(_) => Err(NoMemory),
        }
    }

    pub fn pop(&mut self) -> Option<&'a Shape>
        ensures { MatchOption result (self.old ≡ [] × self.new ≡ []) (λ shape. self.old ≡ shape.now ∷ self.new) }
    {
        self.shapes.pop()
    }
}
