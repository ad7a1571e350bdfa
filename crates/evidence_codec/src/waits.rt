ghost use Rattle.std.specs.Prelude.{◌≡◌, ◌<◌, ◌≤◌, [], ◌∷◌, length, MatchOption};
ghost use Rattle.evidence_codec.specs.Scanning.{closed, opened};

use arrayvec::ArrayVec;
use std::marker::Model;

/// The open nodes of a value that is read, each as the number of the parts that it waits for behind the one
/// that is read. They are kept inline. Clauses see the innermost first.
#[derive(Debug, Drop)]
pub struct Waits {
    nodes: ArrayVec<u8, 1025>,
}

impl Model for Waits {
    ghost use Rattle.std.specs.Prelude.{ℕ, List, reverse};

    ghost Value = { List ℕ };

    ghost view = { λ waits. reverse waits.nodes.items };
}

impl Waits {
    pub fn none() -> Waits
        ensures { result ≡ [] }
    {
        Waits {
            nodes: ArrayVec::new(),
        }
    }

    /// How many nodes are open.
    pub fn depth(&self) -> usize
        ensures { result ≡ length self.now }
    {
        self.nodes.len()
    }

    fn push(&mut self, more: u8)
        requires { length self.old < 1025 }
        ensures { self.new ≡ more ∷ self.old }
    {
        self.nodes.push(more);
    }

    fn pop(&mut self) -> Option<u8>
        ensures { MatchOption result (self.old ≡ [] × self.new ≡ []) (λ more. self.old ≡ more ∷ self.new) }
    {
        self.nodes.pop()
    }

    /// The innermost part is read: a node that waits for no more is read too.
    fn close(&mut self)
        requires { length self.old ≤ 1025 }
        ensures { self.new ≡ closed self.old }
    {
        while let Some(more) = self.pop() {
            if more > 0 {
                self.push(more - 1);
                return;
            }
        }
    }

    /// A node is opened that has so many parts; if it has none, it is read.
    pub fn open(&mut self, parts: u8)
        requires { length self.old < 1025 }
        ensures { self.new ≡ opened parts self.old }
    {
        if parts == 0 {
            self.close();
            return;
        }
        self.push(parts - 1);
    }
}
