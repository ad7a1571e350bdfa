ghost use Rattle.std.specs.Prelude.{◌≡◌, ◌∷◌, ◌++◌, [], IfOk};
ghost use Rattle.evidence_types.specs.Answer.{FitsAnswer};
ghost use Rattle.evidence_types.specs.Evidence.{evidence};
ghost use Rattle.evidence_types.specs.Heads.{IsHead, head_of};
ghost use Rattle.evidence_codec.specs.Building.{wrapped, paired, filled, Closes, Opens, Takes};
ghost use Rattle.evidence_codec.specs.Decoding.{over_of, open_of, opens_of, filled_of, whole_of};

use evidence_types::{Answer, Head, Value};
use phrase_tree::NoMemory;
use std::alloc::Global;

/// A node with one part, without the part.
#[derive(Debug, Drop)]
pub enum Over {
    Usm(u32, Answer),
    Kim(u32, Answer),
    Seal(u32, [u8; 32]),
}

/// A node whose parts are not all read yet.
#[derive(Debug, Drop)]
pub enum Open {
    /// It waits for its one part.
    Under(Over),
    /// It waits for its left part.
    Left(bool),
    /// It waits for its right part, and has its left one.
    Right(bool, Box<Value>),
}

/// A node whose part was put in.
#[derive(Debug, Drop)]
pub enum Filled {
    Closed(Value),
    Waiting(Open),
}

fn boxed(alloc: Global, value: Value) -> Result<Box<Value>, NoMemory>
    ensures { IfOk result (λ made. made.value ≡ value) }
{
    match Box::new(alloc, value) {
        Ok(made) => Ok(made),
        Err(_) => Err(NoMemory),
    }
}

fn wrapped(alloc: Global, node: Over, under: Value) -> Result<Value, NoMemory>
    ensures { IfOk result (λ value. evidence value ≡ wrapped (over_of node) (evidence under)) }
{
    let Ok(under) = boxed(alloc, under) else {
        return Err(NoMemory);
    };
    match node {
        Over::Usm(event, answer) => Ok(Value::Usm(event, answer, under)),
        Over::Kim(event, answer) => Ok(Value::Kim(event, answer, under)),
        Over::Seal(event, seal) => Ok(Value::Seal(event, seal, under)),
    }
}

fn paired(alloc: Global, parallel: bool, left: Box<Value>, right: Value) -> Result<Value, NoMemory>
    ensures { IfOk result (λ value. evidence value ≡ paired parallel (evidence left.value) (evidence right)) }
{
    let Ok(right) = boxed(alloc, right) else {
        return Err(NoMemory);
    };
    if parallel {
        return Ok(Value::ParPair(left, right));
    }
    Ok(Value::SeqPair(left, right))
}

/// Puts a part into the node that waits for it.
fn fill(alloc: Global, node: Open, part: Value) -> Result<Filled, NoMemory>
    ensures { IfOk result (λ made. filled_of made ≡ filled (open_of node) (evidence part)) }
{
    match node {
        Open::Under(over) => match wrapped(alloc, over, part) {
            Ok(value) => Ok(Filled::Closed(value)),
            Err(_) => Err(NoMemory),
        },
        Open::Left(parallel) => match boxed(alloc, part) {
            Ok(left) => Ok(Filled::Waiting(Open::Right(parallel, left))),
            Err(_) => Err(NoMemory),
        },
        Open::Right(parallel, left) => match paired(alloc, parallel, left, part) {
            Ok(value) => Ok(Filled::Closed(value)),
            Err(_) => Err(NoMemory),
        },
    }
}

fn push(nodes: &mut Vec<Open>, node: Open) -> Result<(), NoMemory>
    ensures { IfOk result (λ _. opens_of nodes.new.items ≡ opens_of nodes.old.items ++ open_of node ∷ []) }
{
    match nodes.push(node) {
        Ok(()) => Ok(()),
        Err(_) => Err(NoMemory),
    }
}

/// Puts a whole value into the innermost open node, and each node that it makes whole into the next
/// one. All is read once no node is open any more.
fn close(alloc: Global, nodes: &mut Vec<Open>, value: Value) -> Result<Option<Value>, NoMemory>
    ensures { IfOk result (λ all. Closes (opens_of nodes.old.items) (evidence value) (opens_of nodes.new.items) (whole_of all)) }
{
    let mut whole = value;
    while let Some(node) = nodes.pop() {
        match fill(alloc, node, whole) {
            Ok(Filled::Closed(value)) => whole = value,
            Ok(Filled::Waiting(node)) => {
                push(nodes, node)?;
                return Ok(None);
            }
            Err(_) => return Err(NoMemory),
        }
    }
    Ok(Some(whole))
}

fn begin(nodes: &mut Vec<Open>, node: Open) -> Result<Option<Value>, NoMemory>
    ensures { IfOk result (λ all. Opens (opens_of nodes.old.items) (open_of node) (opens_of nodes.new.items) (whole_of all)) }
{
    match push(nodes, node) {
        Ok(()) => Ok(None),
        Err(_) => Err(NoMemory),
    }
}

fn answer_of(bytes: &[u8]) -> Answer
    requires { FitsAnswer bytes.now }
    ensures { result ≡ bytes.now }
{
    Answer::of(bytes).unwrap()
}

/// Opens the node of this head, or closes what it makes whole. All is read once no node is open any
/// more.
pub fn take(
    alloc: Global,
    nodes: &mut Vec<Open>,
    head: &Head<'_>,
) -> Result<Option<Value>, NoMemory>
    requires { IsHead (head_of head.now) }
    ensures { IfOk result (λ all. Takes (opens_of nodes.old.items) (head_of head.now) (opens_of nodes.new.items) (whole_of all)) }
{
    match head {
        Head::Empty => close(alloc, nodes, Value::Empty),
        Head::Nonce(nonce) => close(alloc, nodes, Value::Nonce(**nonce)),
        Head::Usm(event, _, answer) => begin(
            nodes,
            Open::Under(Over::Usm(*event, answer_of(answer))),
        ),
        Head::Kim(event, _, answer) => begin(
            nodes,
            Open::Under(Over::Kim(*event, answer_of(answer))),
        ),
        Head::Seal(event, seal) => begin(nodes, Open::Under(Over::Seal(*event, **seal))),
        Head::Hash(event, hash) => close(alloc, nodes, Value::Hash(*event, **hash)),
        Head::SeqPair => begin(nodes, Open::Left(false)),
        Head::ParPair => begin(nodes, Open::Left(true)),
    }
}
