ghost use Rattle.std.specs.Prelude.{◌≡◌, ◌<◌, length, IsSome, slice_index_or, if◌then◌else◌};
ghost use Rattle.seal_hmac.specs.Keys.{key_of, key_at};
ghost use Rattle.avm_core.specs.Arms.{AreParts};

use avm_code::Instr;
use evidence_store::{EvId, Store};
use phrase_tree::{NoMemory, Place, Split};
use seal_hmac::{Key, KeyRing};

/// The key of a place that has one.
pub fn key_for(keys: &KeyRing, place: Place) -> &Key
    requires { IsSome (key_of keys.now place) }
    ensures { result.now ≡ key_at keys.now place }
{
    let Some(key) = keys.find(place) else {
        unreachable!()
    };
    key
}

/// The instruction at an index of a block's code.
pub fn instr_at(code: &[Instr], at: u32) -> &Instr
    requires { at < length code.now }
    ensures { result.now ≡ slice_index_or code.now at Instr.End }
{
    &code[at as usize]
}

/// What the two arms of a branch get of this evidence. Empty evidence is added at most once.
pub fn parts(split: Split, evidence: EvId, store: &mut Store) -> Result<(EvId, EvId), NoMemory>
    requires { evidence < length store.old.values }
    ensures { AreParts split store.old evidence result store.new }
{
    if split.left && split.right {
        return Ok((evidence, evidence));
    }
    let nothing = match store.empty() {
        Ok(id) => id,
        Err(_) => return Err(NoMemory),
    };
    Ok((
        part(split.left, evidence, nothing),
        part(split.right, evidence, nothing),
    ))
}

/// The evidence if an arm gets all of it, otherwise what stands for empty evidence.
fn part(all: bool, evidence: EvId, nothing: EvId) -> EvId
    ensures { result ≡ (if all then evidence else nothing) }
{
    if all { evidence } else { nothing }
}
