ghost use Rattle.std.specs.Prelude.{◌≡◌, IfOk};
ghost use Rattle.evidence_types.specs.Evidence.{evidence, empty, nonce as nonce_alone, usm, kim, seal as sealed_over, hash as hash_alone, seq_pair, par_pair};

use evidence_types::{Answer, Value};
use phrase_tree::NoMemory;
use std::alloc::Global;

// A value has room for an answer in it, so a function that holds one has a large frame. These hold
// one each, and the recursions hold boxes alone.

#[inline(never)]
fn boxed(alloc: Global, value: Value) -> Result<Box<Value>, NoMemory>
    ensures { IfOk result (λ made. made.value ≡ value) }
{
    match Box::new(alloc, value) {
        Ok(made) => Ok(made),
        Err(_) => Err(NoMemory),
    }
}

#[inline(never)]
pub fn empty(alloc: Global) -> Result<Box<Value>, NoMemory>
    ensures { IfOk result (λ made. evidence made.value ≡ empty) }
{
    boxed(alloc, Value::Empty)
}

#[inline(never)]
pub fn nonce(alloc: Global, nonce: &[u8; 16]) -> Result<Box<Value>, NoMemory>
    ensures { IfOk result (λ made. evidence made.value ≡ nonce_alone nonce.now) }
{
    boxed(alloc, Value::Nonce(*nonce))
}

#[inline(never)]
pub fn usm(
    alloc: Global,
    event: u32,
    answer: &Answer,
    under: Box<Value>,
) -> Result<Box<Value>, NoMemory>
    ensures { IfOk result (λ made. evidence made.value ≡ usm event answer.now (evidence under.value)) }
{
    boxed(alloc, Value::Usm(event, answer.copy(), under))
}

#[inline(never)]
pub fn kim(
    alloc: Global,
    event: u32,
    answer: &Answer,
    under: Box<Value>,
) -> Result<Box<Value>, NoMemory>
    ensures { IfOk result (λ made. evidence made.value ≡ kim event answer.now (evidence under.value)) }
{
    boxed(alloc, Value::Kim(event, answer.copy(), under))
}

#[inline(never)]
pub fn seal(
    alloc: Global,
    event: u32,
    seal: &[u8; 32],
    under: Box<Value>,
) -> Result<Box<Value>, NoMemory>
    ensures { IfOk result (λ made. evidence made.value ≡ sealed_over event seal.now (evidence under.value)) }
{
    boxed(alloc, Value::Seal(event, *seal, under))
}

#[inline(never)]
pub fn hash(alloc: Global, event: u32, hash: &[u8; 32]) -> Result<Box<Value>, NoMemory>
    ensures { IfOk result (λ made. evidence made.value ≡ hash_alone event hash.now) }
{
    boxed(alloc, Value::Hash(event, *hash))
}

#[inline(never)]
pub fn seq_pair(alloc: Global, left: Box<Value>, right: Box<Value>) -> Result<Box<Value>, NoMemory>
    ensures { IfOk result (λ made. evidence made.value ≡ seq_pair (evidence left.value) (evidence right.value)) }
{
    boxed(alloc, Value::SeqPair(left, right))
}

#[inline(never)]
pub fn par_pair(alloc: Global, left: Box<Value>, right: Box<Value>) -> Result<Box<Value>, NoMemory>
    ensures { IfOk result (λ made. evidence made.value ≡ par_pair (evidence left.value) (evidence right.value)) }
{
    boxed(alloc, Value::ParPair(left, right))
}
