ghost use Rattle.std.specs.Prelude.{[], IfOk, IfSome, IsSome, OnOk};
ghost use Rattle.seal_hmac.specs.Fed.{Feeds};
ghost use Rattle.seal_hmac.specs.Keys.{key_at, key_of};
ghost use Rattle.plain_eval.specs.Codes.{AreKeyed};

use phrase_tree::{NoMemory, Place};
use seal_hmac::{KeyRing, Mac};

/// The code of a place in the making: its key was hashed, and nothing else.
#[derive(Drop)]
pub(crate) struct Keyed {
    pub(crate) place: Place,
    pub(crate) mac: Mac,
}

/// The code of a place that was keyed before; none if it was not.
fn keyed_before(keys: &KeyRing, codes: &[Keyed], place: Place) -> Option<Mac>
    requires { AreKeyed keys.now codes.now }
    ensures { IfSome result (λ mac. Feeds (key_at keys.now place) [] mac) }
{
    let _ = keys;
    for one in codes {
        if one.place == place {
            return Some(one.mac.copy());
        }
    }
    None
}

/// The code of a place, which has a key. The key of each place is hashed once, and looked for once.
#[tactic(auto, using(crate::proofs::CodeLemmas::keyed_more))]
pub(crate) fn code_of(keys: &KeyRing, codes: &mut Vec<Keyed>, place: Place) -> Result<Mac, NoMemory>
    requires key { IsSome (key_of keys.now place) }
    requires keyed { AreKeyed keys.now codes.old.items }
    ensures code { IfOk result (λ mac. Feeds (key_at keys.now place) [] mac) }
    ensures keyed { OnOk result (AreKeyed keys.now codes.new.items) }
{
    if let Some(mac) = keyed_before(keys, codes, place) {
        return Ok(mac);
    }
    let Some(key) = keys.find(place) else {
        unreachable!()
    };
    let mac = Mac::new(key.bytes());
    match codes.push(Keyed {
        place,
        mac: mac.copy(),
    }) {
        Ok(()) => Ok(mac),
        Err(_) => Err(NoMemory),
    }
}
