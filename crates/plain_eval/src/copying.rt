ghost use Rattle.std.specs.Prelude.{◌≡◌, IfOk};
ghost use Rattle.evidence_types.specs.Evidence.{evidence};

use crate::nodes::{empty, hash, kim, nonce, par_pair, seal, seq_pair, usm};
use evidence_types::Value;
use phrase_tree::NoMemory;
use std::alloc::Global;

/// The same value again, in time linear in it.
pub fn copy(alloc: Global, value: &Value) -> Result<Box<Value>, NoMemory>
    ensures { IfOk result (λ made. evidence made.value ≡ evidence value.now) }
{
    match value {
        Value::Empty => empty(alloc),
        Value::Nonce(bytes) => nonce(alloc, bytes),
        Value::Usm(event, answer, under) => {
            let under = copy(alloc, under)?;
            usm(alloc, *event, answer, under)
        }
        Value::Kim(event, answer, under) => {
            let under = copy(alloc, under)?;
            kim(alloc, *event, answer, under)
        }
        Value::Seal(event, bytes, under) => {
            let under = copy(alloc, under)?;
            seal(alloc, *event, bytes, under)
        }
        Value::Hash(event, bytes) => hash(alloc, *event, bytes),
        Value::SeqPair(left, right) => {
            let left = copy(alloc, left)?;
            let right = copy(alloc, right)?;
            seq_pair(alloc, left, right)
        }
        Value::ParPair(left, right) => {
            let left = copy(alloc, left)?;
            let right = copy(alloc, right)?;
            par_pair(alloc, left, right)
        }
    }
}
