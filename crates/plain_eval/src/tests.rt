ghost use Rattle.std.specs.Prelude.{◌≡◌, ℕ, List, IfOk, IsSome};
ghost use Rattle.phrase_tree.specs.Term.{term, chain, par, seq};
ghost use Rattle.phrase_tree.specs.Numbering.{IsSized};
ghost use Rattle.seal_hmac.specs.Keys.{key_of};
ghost use Rattle.plain_eval.specs.Keyed.{HasKeys};

use super::*;
use crate::digesting::hash_over;
use evidence_types::{Answer, Answers};
use phrase_tree::{Args, Asp, Name, NoMemory, Phrase, Place, Split};
use seal_hmac::{Key, KeyRing};
use std::alloc::Global;
use std::process::Abort;
use std::test::Fail;

/// The nonce of every session here, and the key of its place.
pub(crate) const COUNTED: [u8; 16] = [0, 1, 2, 3, 4, 5, 6, 7, 8, 9, 10, 11, 12, 13, 14, 15];

pub(crate) fn name(rt: &impl Abort, text: &str) -> Name {
    Name::read(text).expect(rt, "a name")
}

pub(crate) fn answer(rt: &impl Abort, bytes: &[u8]) -> Answer {
    Answer::of(bytes).expect(rt, "an answer")
}

pub(crate) fn asp(rt: &impl Abort, text: &str) -> Asp {
    Asp {
        name: name(rt, text),
        args: Args::none(),
    }
}

pub(crate) fn then(alloc: Global, left: Phrase, right: Phrase) -> Result<Phrase, NoMemory>
    ensures { IfOk result (λ phrase. term phrase ≡ chain (term left) (term right)) }
{
    Ok(Phrase::Then(Box::new(alloc, left)?, Box::new(alloc, right)?))
}

/// `USM scan -> SIG`.
pub(crate) fn sealed(rt: &impl Abort, alloc: Global) -> Result<Phrase, NoMemory>
    ensures sized { IfOk result (λ phrase. IsSized (term phrase)) }
    ensures keys { (place : List ℕ) (keys : List (List ℕ × List ℕ)) → IsSome (key_of keys place) → IfOk result (λ phrase. HasKeys (term phrase) place keys) }
{
    then(alloc, Phrase::usm(alloc, asp(rt, "scan"))?, Phrase::Sig)
}

pub(crate) fn in_sequence(
    alloc: Global,
    split: Split,
    left: Phrase,
    right: Phrase,
) -> Result<Phrase, NoMemory>
    ensures { IfOk result (λ phrase. term phrase ≡ seq split (term left) (term right)) }
{
    Ok(Phrase::Seq(split, Box::new(alloc, left)?, Box::new(alloc, right)?))
}

pub(crate) fn in_parallel(
    alloc: Global,
    split: Split,
    left: Phrase,
    right: Phrase,
) -> Result<Phrase, NoMemory>
    ensures { IfOk result (λ phrase. term phrase ≡ par split (term left) (term right)) }
{
    Ok(Phrase::Par(split, Box::new(alloc, left)?, Box::new(alloc, right)?))
}

/// `USM a +~- USM b`.
pub(crate) fn paired(rt: &impl Abort, alloc: Global) -> Result<Phrase, NoMemory>
    ensures sized { IfOk result (λ phrase. IsSized (term phrase)) }
    ensures keys { (place : List ℕ) (keys : List (List ℕ × List ℕ)) → IfOk result (λ phrase. HasKeys (term phrase) place keys) }
{
    let split = Split {
        left: true,
        right: false,
    };
    let left = Phrase::usm(alloc, asp(rt, "a"))?;
    let right = Phrase::usm(alloc, asp(rt, "b"))?;
    in_parallel(alloc, split, left, right)
}

/// `(CPY +<+ CPY) -> HSH`.
pub(crate) fn hashed(alloc: Global) -> Result<Phrase, NoMemory>
    ensures sized { IfOk result (λ phrase. IsSized (term phrase)) }
    ensures keys { (place : List ℕ) (keys : List (List ℕ × List ℕ)) → IfOk result (λ phrase. HasKeys (term phrase) place keys) }
{
    let split = Split {
        left: true,
        right: true,
    };
    let both = in_sequence(alloc, split, Phrase::Cpy, Phrase::Cpy)?;
    then(alloc, both, Phrase::Hsh)
}

/// Whether the hash of the phrase's value is this one.
fn has_value(
    alloc: Global,
    phrase: &Phrase,
    place: Place,
    answers: &Answers,
    keys: &KeyRing,
    hash: &[u8; 32],
) -> Result<bool, NoMemory>
    requires sized { IsSized (term phrase.now) }
    requires keys { HasKeys (term phrase.now) place keys.now }
{
    let value = eval(alloc, phrase, place, &COUNTED, answers, keys)?;
    Ok(hash_over(&value) == *hash)
}

// The hashes were computed by Python's hmac and hashlib, from the bytes of the values written out.
#[test]
fn values_are_those_written_out(rt: HostRuntime) -> Result<(), Fail> {
    let alloc = rt.alloc();
    let bank = name(&rt, "bank");
    let key = Key::read(&COUNTED).expect(&rt, "a key");
    let keys = KeyRing::of(vec![in alloc; (bank, key)]?);
    let Some(_) = keys.find(bank) else {
        return Err(Fail::from("a key"));
    };
    let given = Answers::of(vec![in alloc;
        (0, answer(&rt, &[0xaa, 0xbb])),
        (1, answer(&rt, &[0x11])),
        (2, answer(&rt, &[0x22])),
    ]?);
    let of_the_seal =
        b"\x31\x30\x73\x84\x49\xb6\x1e\xab\x78\x38\x8e\x05\x71\x44\x14\x47\x87\xc8\xc6\x5b\xb7\x87\xd3\xa3\x79\xe3\x91\xd2\x9a\x55\xc8\x37";
    let of_the_pair =
        b"\xdb\xe4\x73\x5e\x76\x18\xd2\xa6\x1a\x46\x48\x6d\xc9\xb4\x43\x48\xb7\x27\x54\x4e\xd7\x13\x99\x36\x01\x41\xc0\xcd\x02\x77\xed\x5d";
    let of_the_hash =
        b"\xe4\xb3\xbc\xca\x60\x97\x0f\x7a\x6c\x4b\xa4\x6f\x2a\x37\xfb\xd5\x74\x11\x3a\xde\x5d\x8e\xab\xe3\x03\x90\x1c\xba\xb4\x82\xf1\xf9";
    let signed = sealed(&rt, alloc)?;
    assert!(rt; has_value(alloc, &signed, bank, &given, &keys, of_the_seal)?);
    let parallel = paired(&rt, alloc)?;
    assert!(rt; has_value(alloc, &parallel, bank, &given, &keys, of_the_pair)?);
    let digested = hashed(alloc)?;
    assert!(rt; has_value(alloc, &digested, bank, &given, &keys, of_the_hash)?);
    Ok(())
}
