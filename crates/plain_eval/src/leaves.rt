ghost use Rattle.std.specs.Prelude.{◌≡◌, ◌≤◌, ℕ, List, ◌++◌, length, IsSome, OnOk, true};
ghost use Rattle.phrase_tree.specs.Term.{is_leaf, term};
ghost use Rattle.evidence_types.specs.Answers.{answer_at};
ghost use Rattle.evidence_types.specs.Bytes.{encoding};
ghost use Rattle.evidence_types.specs.Evidence.{Evidence, kim as measured_at, seal as sealed_over, usm as measured};
ghost use Rattle.seal_hmac.specs.Keys.{key_at, key_of};
ghost use Rattle.seal_hmac.specs.Seal.{seal_of};
ghost use Rattle.session_model.specs.Value.{value_of};
ghost use Rattle.plain_eval.specs.Codes.{AreKeyed};
ghost use Rattle.plain_eval.specs.Given.{makings_of};
ghost use Rattle.plain_eval.specs.Keyed.{HasKeys};

use crate::answering::answer_of;
use crate::given::Given;
use crate::keyed::{Keyed, code_of};
use crate::putting::{put_hash, put_head, put_nothing, put_seal};
use evidence_types::Head;
use front_bytes::FrontBytes;
use phrase_tree::{NoMemory, Phrase, Place};

/// Puts the seal of a place ahead of the value that stands ahead of a mark.
fn seal(
    given: &Given<'_>,
    made: &mut FrontBytes,
    codes: &mut Vec<Keyed>,
    place: Place,
    event: u32,
    mark: usize,
) -> Result<(), NoMemory>
    requires key { IsSome (key_of given.now.keys.now place) }
    requires keyed { AreKeyed given.now.keys.now codes.old.items }
    requires mark { mark ≤ length made.old }
    ensures made { (before : Evidence) (under : List ℕ) →
        made.old ≡ encoding before ++ under → mark ≡ length under →
        OnOk result (made.new ≡ encoding (sealed_over event (seal_of (key_at given.now.keys.now place) place given.now.nonce.now event (encoding before)) before) ++ under) }
    ensures keyed { OnOk result (AreKeyed given.now.keys.now codes.new.items) }
{
    let code = code_of(given.keys, codes, place)?;
    put_seal(made, mark, code, place, given.nonce, event)
}

/// Puts the answer of an event, that of a measurement by a service of the place, ahead of what stands.
fn usm(given: &Given<'_>, made: &mut FrontBytes, event: u32) -> Result<(), NoMemory>
    ensures { (before : Evidence) (under : List ℕ) → made.old ≡ encoding before ++ under →
        OnOk result (made.new ≡ encoding (measured event (answer_at given.now.answers.now event) before) ++ under) }
{
    let answer = answer_of(given.answers.items(), event);
    put_head(made, &Head::Usm(event, None, answer))
}

/// Puts the answer of an event, that of a measurement of a target place, ahead of what stands.
fn kim(given: &Given<'_>, made: &mut FrontBytes, event: u32) -> Result<(), NoMemory>
    ensures { (before : Evidence) (under : List ℕ) → made.old ≡ encoding before ++ under →
        OnOk result (made.new ≡ encoding (measured_at event (answer_at given.now.answers.now event) before) ++ under) }
{
    let answer = answer_of(given.answers.items(), event);
    put_head(made, &Head::Kim(event, None, answer))
}

/// Makes the value of a leaf of the one that stands ahead of a mark.
pub(crate) fn run_leaf(
    given: &Given<'_>,
    made: &mut FrontBytes,
    codes: &mut Vec<Keyed>,
    leaf: &Phrase,
    place: Place,
    event: u32,
    mark: usize,
) -> Result<(), NoMemory>
    requires leaf { is_leaf (term leaf.now) ≡ true }
    requires keys { HasKeys (term leaf.now) place given.now.keys.now }
    requires keyed { AreKeyed given.now.keys.now codes.old.items }
    requires mark { mark ≤ length made.old }
    ensures made { (before : Evidence) (under : List ℕ) →
        made.old ≡ encoding before ++ under → mark ≡ length under →
        OnOk result (made.new ≡ encoding (value_of (term leaf.now) place event before (makings_of given.now)) ++ under) }
    ensures keyed { OnOk result (AreKeyed given.now.keys.now codes.new.items) }
{
    match leaf {
        Phrase::Cpy => Ok(()),
        Phrase::Sig => seal(given, made, codes, place, event, mark),
        Phrase::Hsh => put_hash(made, mark, event),
        Phrase::Nul => put_nothing(made, mark),
        Phrase::Usm(_) => usm(given, made, event),
        Phrase::Kim(_, _) => kim(given, made, event),
        _ => unreachable!(),
    }
}
