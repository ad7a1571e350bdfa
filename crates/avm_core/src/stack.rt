ghost use Rattle.std.specs.Prelude.{◌≡◌, ◌<◌, ◌≤◌, [], ◌∷◌, length, drop};

use arrayvec::ArrayVec;
use evidence_store::EvId;
use std::marker::Model;

/// A machine's stack of evidence, kept inline: only the sequential branches that are open in its block
/// push, at most 65. Clauses see the ids, the top first.
#[derive(Debug, Drop)]
pub struct Stack {
    ids: ArrayVec<EvId, 65>,
}

impl Model for Stack {
    ghost use Rattle.std.specs.Prelude.{ℕ, List, reverse};

    ghost Value = { List ℕ };

    ghost view = { λ stack. reverse stack.ids.items };
}

impl Stack {
    pub fn empty() -> Stack
        ensures { result ≡ [] }
    {
        Stack {
            ids: ArrayVec::new(),
        }
    }

    pub fn height(&self) -> usize
        ensures { result ≡ length self.now }
    {
        self.ids.len()
    }

    /// Puts evidence on top.
    pub fn push(&mut self, id: EvId)
        requires { length self.old < 65 }
        ensures { self.new ≡ id ∷ self.old }
    {
        self.ids.push(id);
    }

    /// Takes the top.
    pub fn pop(&mut self) -> EvId
        requires { 1 ≤ length self.old }
        ensures { self.old ≡ result ∷ self.new }
    {
        let Some(id) = self.ids.pop() else {
            unreachable!()
        };
        id
    }

    /// The top.
    pub fn top(&self) -> EvId
        requires { 1 ≤ length self.now }
        ensures { self.now ≡ result ∷ drop 1 self.now }
    {
        self.ids[self.ids.len() - 1]
    }
}
