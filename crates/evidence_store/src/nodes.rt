ghost use Rattle.std.specs.Prelude.{◌≡◌, ◌-◌, ◌≤◌, ◌∷◌, ◌++◌, [], length, IfOk, OnOk, OnErr, IsOk};
ghost use Rattle.evidence_types.specs.Answer.{FitsAnswer};
ghost use Rattle.evidence_store.specs.Room.{HasRoom};

use crate::node::Node;
use evidence_types::ANSWER_BYTES;
use phrase_tree::NoMemory;
use std::alloc::Global;

/// Nodes, and beside them the bytes of their answers, one after the other. There is room for so many more
/// nodes, each with the longest answer; no memory is touched before it is used.
#[derive(Debug, Drop)]
pub struct Nodes {
    pub list: Vec<Node>,
    pub answers: Vec<u8>,
    pub spare: usize,
}

impl Nodes {
    /// No nodes, with room for so many.
    pub fn open(alloc: Global, count: u32) -> Result<Nodes, NoMemory>
        ensures list { IfOk result (λ nodes. nodes.list.items ≡ []) }
        ensures answers { IfOk result (λ nodes. nodes.answers.items ≡ []) }
        ensures room { IfOk result (λ nodes. HasRoom nodes) }
        ensures spare { IfOk result (λ nodes. nodes.spare ≡ count) }
    {
        let list = match Vec::with_capacity(alloc, count as usize) {
            Ok(list) => list,
            Err(_) => return Err(NoMemory),
        };
        let answers = match Vec::with_capacity(alloc, count as usize * ANSWER_BYTES) {
            Ok(answers) => answers,
            Err(_) => return Err(NoMemory),
        };
        Ok(Nodes {
            list,
            answers,
            spare: count as usize,
        })
    }

    /// Takes room for so many more nodes. An error is want of memory.
    pub fn reserve(&mut self, count: u32) -> Result<(), NoMemory>
        requires { HasRoom self.old }
        ensures list { self.new.list.items ≡ self.old.list.items }
        ensures answers { self.new.answers.items ≡ self.old.answers.items }
        ensures room { HasRoom self.new }
        ensures spare { OnOk result (count ≤ self.new.spare) }
        ensures rises { self.old.spare ≤ self.new.spare }
        ensures err { OnErr result (self.new.spare ≡ self.old.spare) }
    {
        let count = count as usize;
        if count <= self.spare {
            return Ok(());
        }
        match self.list.reserve(count) {
            Ok(()) => {}
            Err(_) => return Err(NoMemory),
        }
        match self.answers.reserve(count * ANSWER_BYTES) {
            Ok(()) => {}
            Err(_) => return Err(NoMemory),
        }
        self.spare = count;
        Ok(())
    }

    /// Appends a node, and an answer's bytes behind those that stand. If there is room, it takes no memory;
    /// otherwise it takes room for both first. An error leaves everything as it was.
    pub fn push(&mut self, answer: &[u8], node: Node) -> Result<usize, NoMemory>
        requires room { HasRoom self.old }
        requires few { FitsAnswer answer.now }
        ensures place { IfOk result (λ place. place ≡ length self.old.list.items) }
        ensures list { OnOk result (self.new.list.items ≡ self.old.list.items ++ node ∷ []) }
        ensures answers { OnOk result (self.new.answers.items ≡ self.old.answers.items ++ answer.now) }
        ensures spare { OnOk result (self.new.spare ≡ self.old.spare - 1) }
        ensures list_stays { OnErr result (self.new.list.items ≡ self.old.list.items) }
        ensures answers_stay { OnErr result (self.new.answers.items ≡ self.old.answers.items) }
        ensures spare_stays { OnErr result (self.new.spare ≡ self.old.spare) }
        ensures room { HasRoom self.new }
        ensures in_spare { 1 ≤ self.old.spare → IsOk result }
    {
        let place = self.list.len();
        match self.list.reserve(1) {
            Ok(()) => {}
            Err(_) => return Err(NoMemory),
        }
        match self.answers.extend_from_slice(answer) {
            Ok(()) => {}
            Err(_) => return Err(NoMemory),
        }
        self.list.push_reserved(node);
        self.spare = self.spare.saturating_sub(1);
        Ok(place)
    }
}
