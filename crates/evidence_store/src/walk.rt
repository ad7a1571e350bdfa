ghost use Rattle.std.specs.Prelude.{◌≡◌, ◌<◌, [], ◌∷◌, length, slice_index_or, IfSome, MatchOption};
ghost use Rattle.evidence_types.specs.Heads.{head_of};
ghost use Rattle.evidence_store.specs.Nodes.{AreKept, kept_values};
ghost use Rattle.evidence_store.specs.Walk.{IsAlone, IsOver, Nests, Steps};

use crate::node::{Node, push_parts};
use arrayvec::ArrayVec;
use evidence_types::Head;

/// The positions of the nodes that a walk has still to visit, the next on top. A value nests at most
/// 1,025 deep, and a walk has no more than one position waiting for each level.
pub type Waiting = ArrayVec<usize, 1025>;

/// A head, and the position of the one value under it.
#[derive(Clone, Copy, Debug)]
pub struct Link<'a> {
    pub head: Head<'a>,
    pub under: usize,
}

fn node_at(nodes: &[Node], place: usize) -> &Node
    requires { place < length nodes.now }
    ensures { result.now ≡ slice_index_or nodes.now place result.now }
{
    &nodes[place]
}

/// The head of the node that a walk visits next; its parts come after it. None if nothing is left to visit.
pub fn next<'a>(nodes: &'a [Node], answers: &'a [u8], waiting: &mut Waiting) -> Option<Head<'a>>
    requires kept { AreKept answers.now nodes.now }
    requires nests { Nests (kept_values answers.now nodes.now) 0 waiting.old.items }
    ensures { MatchOption result (waiting.old.items ≡ [])
        (λ head. Steps (kept_values answers.now nodes.now) waiting.old.items (head_of head) waiting.new.items) }
{
    let place = match waiting.pop() {
        Some(place) => place,
        None => return None,
    };
    let node = node_at(nodes, place);
    push_parts(waiting, node);
    Some(node.head(answers))
}

/// A walk that begins at this position.
pub fn walk_from(place: usize) -> Waiting
    ensures { result.items ≡ place ∷ [] }
{
    let mut waiting = ArrayVec::new();
    waiting.push(place);
    waiting
}

/// The head at this position and the value under it, if it has one alone.
pub fn link_at<'a>(nodes: &'a [Node], answers: &'a [u8], place: usize) -> Option<Link<'a>>
    requires kept { AreKept answers.now nodes.now }
    requires place { place < length nodes.now }
    ensures { IfSome result (λ link. IsOver (kept_values answers.now nodes.now) place (head_of link.head) link.under) }
{
    let node = node_at(nodes, place);
    match node.single_part() {
        Some(under) => Some(Link {
            head: node.head(answers),
            under,
        }),
        None => None,
    }
}

/// The head at this position, if its value has no parts.
pub fn leaf_at<'a>(nodes: &'a [Node], answers: &'a [u8], place: usize) -> Option<Head<'a>>
    requires kept { AreKept answers.now nodes.now }
    requires place { place < length nodes.now }
    ensures { IfSome result (λ head. IsAlone (kept_values answers.now nodes.now) place (head_of head)) }
{
    let node = node_at(nodes, place);
    if node.is_leaf() {
        return Some(node.head(answers));
    }
    None
}
