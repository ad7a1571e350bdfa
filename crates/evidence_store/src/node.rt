ghost use Rattle.std.specs.Prelude.{◌≡◌, ◌+◌, ◌≤◌, ◌<◌, ◌^◌, ◌++◌, [], length};
ghost use Rattle.arrayvec.specs.ArrayVec.{array_vec_len};
ghost use Rattle.evidence_types.specs.Answer.{FitsAnswer};
ghost use Rattle.evidence_types.specs.Heads.{IsHead, head_of};
ghost use Rattle.evidence_store.specs.Nodes.{AnswerWithin, IsSpanOf, answer_in, answered, full, is_leaf, node_head, parts, single_part};

use crate::id::EvId;
use arrayvec::ArrayVec;
use evidence_types::Head;

/// Where an answer stands among the bytes of all answers.
#[derive(Clone, Copy, Debug)]
pub struct Span {
    start: usize,
    count: u16,
}

/// A value whose parts are named by their ids. Each part was added before it. The bytes of its answer
/// stand beside the nodes, so a node takes 48 bytes.
#[derive(Clone, Copy, Debug)]
pub enum Node {
    Empty,
    Nonce([u8; 16]),
    Usm(u32, Span, EvId),
    Kim(u32, Span, EvId),
    Seal(u32, [u8; 32], EvId),
    Hash(u32, [u8; 32]),
    SeqPair(EvId, EvId),
    ParPair(EvId, EvId),
}

impl Span {
    /// Where an answer stands that is put behind so many bytes.
    pub fn after(start: usize, answer: &[u8]) -> Span
        requires { FitsAnswer answer.now }
        ensures start { result.start ≡ start }
        ensures count { result.count ≡ length answer.now }
    {
        Span {
            start,
            count: answer.len() as u16,
        }
    }

    /// The answer that stands there.
    fn read(self, answers: &[u8]) -> &[u8]
        requires { IsSpanOf answers.now self }
        ensures answer { result.now ≡ answer_in answers.now self }
        ensures few { FitsAnswer result.now }
    {
        &answers[self.start..self.start + self.count as usize]
    }
}

/// The same bytes, of which there are `N`.
fn sized<const N: usize>(bytes: &[u8; N]) -> &[u8; N]
    ensures bytes { result.now ≡ bytes.now }
    ensures count { length result.now ≡ N }
{
    bytes
}

impl Node {
    /// The node of an answer over the evidence before it; `kim` says whether a target place was measured.
    pub fn answered(event: u32, kim: bool, span: Span, under: EvId) -> Node
        ensures node { result ≡ answered event kim span under }
        ensures numbered { event < 2 ^ 32 }
    {
        if kim {
            return Node::Kim(event, span, under);
        }
        Node::Usm(event, span, under)
    }

    /// The head of the node's value, whose answer stands among these bytes.
    pub fn head<'a>(&'a self, answers: &'a [u8]) -> Head<'a>
        requires { AnswerWithin answers.now self.now }
        ensures head { head_of result ≡ node_head (full answers.now self.now) }
        ensures well_formed { IsHead (head_of result) }
    {
        match self {
            Node::Empty => Head::Empty,
            Node::Nonce(nonce) => Head::Nonce(sized(nonce)),
            Node::Usm(event, span, _) => Head::Usm(*event, None, span.read(answers)),
            Node::Kim(event, span, _) => Head::Kim(*event, None, span.read(answers)),
            Node::Seal(event, seal, _) => Head::Seal(*event, sized(seal)),
            Node::Hash(event, hash) => Head::Hash(*event, sized(hash)),
            Node::SeqPair(_, _) => Head::SeqPair,
            Node::ParPair(_, _) => Head::ParPair,
        }
    }

    /// The position of the node's part, if it has a single one.
    pub fn single_part(&self) -> Option<usize>
        ensures { result ≡ single_part self.now }
    {
        match self {
            Node::Empty => None,
            Node::Nonce(_) => None,
            Node::Usm(_, _, under) => Some(under.index()),
            Node::Kim(_, _, under) => Some(under.index()),
            Node::Seal(_, _, under) => Some(under.index()),
            Node::Hash(_, _) => None,
            Node::SeqPair(_, _) => None,
            Node::ParPair(_, _) => None,
        }
    }

    /// Whether the node has no part.
    pub fn is_leaf(&self) -> bool
        ensures { result ≡ is_leaf self.now }
    {
        match self {
            Node::Empty => true,
            Node::Nonce(_) => true,
            Node::Usm(_, _, _) => false,
            Node::Kim(_, _, _) => false,
            Node::Seal(_, _, _) => false,
            Node::Hash(_, _) => true,
            Node::SeqPair(_, _) => false,
            Node::ParPair(_, _) => false,
        }
    }
}

/// Puts the positions of a node's parts on a stack of those that wait, the first part on top.
pub fn push_parts(waiting: &mut ArrayVec<usize, 1025>, node: &Node)
    requires { array_vec_len waiting.old + length (parts (full [] node.now)) ≤ 1025 }
    ensures { waiting.new.items ≡ waiting.old.items ++ parts (full [] node.now) }
{
    match node {
        Node::Empty => {}
        Node::Nonce(_) => {}
        Node::Usm(_, _, under) => waiting.push(under.index()),
        Node::Kim(_, _, under) => waiting.push(under.index()),
        Node::Seal(_, _, under) => waiting.push(under.index()),
        Node::Hash(_, _) => {}
        Node::SeqPair(left, right) => {
            waiting.push(right.index());
            waiting.push(left.index());
        }
        Node::ParPair(left, right) => {
            waiting.push(right.index());
            waiting.push(left.index());
        }
    }
}
