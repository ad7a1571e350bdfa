ghost use Rattle.std.specs.Prelude.{◌≡◌, ◌+◌, ◌<◌, ◌^◌, List, [], ◌∷◌, ◌++◌, length, OnOk, IsSome, None, false, true};
ghost use Rattle.evidence_types.specs.Heads.{IsHead, head_bytes, head_of, nonce_head};
ghost use Rattle.evidence_types.specs.Bytes.{encoding};
ghost use Rattle.evidence_types.specs.Shape.{form, the_nonce};
ghost use Rattle.appraiser.specs.Expected.{Basis, HasKeys, expected, reference_at};
ghost use Rattle.appraiser.specs.Fit.{agrees};
ghost use Rattle.appraiser.specs.Given.{basis_in};
ghost use Rattle.appraiser.specs.Verdicts.{is_good_answer, same, verdict};
ghost use Rattle.evidence_types.specs.Answer.{FitsAnswer};
ghost use Rattle.evidence_types.specs.Answers.{answer_at};
ghost use Rattle.stream_appraiser.specs.Open.{AreOpen};
ghost use Rattle.stream_appraiser.specs.Standing as states;
ghost use Rattle.stream_appraiser.specs.Standing.{after_leaf, fed_all, inside, step, taken, unmarked};
ghost use Rattle.seal_hmac.specs.Digests.{Digests, sealing};
ghost use Rattle.seal_hmac.specs.Keys.{key_at, key_of};
ghost use Rattle.seal_hmac.specs.Seal.{hash_of};

use crate::forms::Forms;
use crate::seals::{OpenSeal, OpenSeals, close};
use appraiser::{Given, Verdict, VerdictOf, hash_of_expected, is_expected, is_mark};
use bench_trait::AskKind;
use evidence_types::{Answer, Head, Shape};
use phrase_tree::{Asp, NoMemory, Place};
use seal_hmac::{Digester, same};
use std::alloc::Global;

/// What is kept of an appraisal between the heads of a value.
#[derive(Drop)]
pub struct Walk<'a> {
    pub forms: Forms<'a>,
    pub seals: OpenSeals,
    pub found: Vec<Verdict>,
    pub held: Vec<(u32, Answer)>,
    pub number: u32,
    pub misfit: Option<u32>,
}

/// A head without its mark.
fn unmarked<'a>(head: &Head<'a>) -> Head<'a>
    requires { IsHead (head_of head.now) }
    ensures head { head_of result ≡ unmarked (head_of head.now) }
    ensures is { IsHead (head_of result) }
{
    match head {
        Head::Usm(event, _, answer) => Head::Usm(*event, None, answer),
        Head::Kim(event, _, answer) => Head::Kim(*event, None, answer),
        Head::Empty => Head::Empty,
        Head::Nonce(nonce) => Head::Nonce(nonce),
        Head::Seal(event, seal) => Head::Seal(*event, seal),
        Head::Hash(event, hash) => Head::Hash(*event, hash),
        Head::SeqPair => Head::SeqPair,
        Head::ParPair => Head::ParPair,
    }
}

/// Feeds the bytes of a head to all open seals.
fn feed_head(seals: &mut OpenSeals, head: &Head<'_>)
    requires { IsHead (head_of head.now) }
    ensures { (basis : Basis) (states : List states.OpenSeal) → AreOpen basis seals.old states → AreOpen basis seals.new (fed_all (head_bytes (unmarked (head_of head.now))) states) }
{
    let (prefix, tail) = unmarked(head).bytes();
    seals.feed(&prefix);
    seals.feed(tail);
}

/// Whether a node of a value agrees with one of a shape.
fn agrees(given: &Given<'_>, head: &Head<'_>, shape: &Shape) -> bool
    ensures { result ≡ agrees given.now.places.now (head_of head.now) (form shape.now) }
{
    match (head, shape) {
        (Head::Empty, Shape::Empty) => true,
        (Head::Nonce(_), Shape::Nonce) => true,
        (Head::Usm(event, mark, _), Shape::Usm(number, place, _, _)) => event == number
            && is_mark(given.places, *mark, *place),
        (Head::Kim(event, mark, _), Shape::Kim(number, place, _, _, _)) => event == number
            && is_mark(given.places, *mark, *place),
        (Head::Seal(event, _), Shape::Sig(number, _, _)) => event == number,
        (Head::Hash(event, _), Shape::Hsh(number, _, _)) => event == number,
        (Head::SeqPair, Shape::SeqPair(_, _)) => true,
        (Head::ParPair, Shape::ParPair(_, _)) => true,
        _ => false,
    }
}

fn push_verdict(found: &mut Vec<Verdict>, of: VerdictOf, good: bool) -> Result<(), NoMemory>
    ensures { OnOk result (found.new.items ≡ found.old.items ++ verdict «of» good ∷ []) }
{
    match found.push(Verdict { of, good }) {
        Ok(()) => Ok(()),
        Err(_) => Err(NoMemory),
    }
}

fn push_held(held: &mut Vec<(u32, Answer)>, event: u32, answer: &[u8]) -> Result<(), NoMemory>
    requires { FitsAnswer answer.now }
    ensures { OnOk result (held.new.items ≡ held.old.items ++ (event, answer.now) ∷ []) }
{
    match held.push((event, Answer::of(answer).unwrap())) {
        Ok(()) => Ok(()),
        Err(_) => Err(NoMemory),
    }
}

/// The first answer of an event; no bytes if there is none.
fn first_held(held: &[(u32, Answer)], event: u32) -> &[u8]
    ensures { result.now ≡ answer_at held.now event }
{
    for pair in held {
        if pair.0 == event {
            return pair.1.bytes();
        }
    }
    &[]
}

/// The digest of a seal that is checked, with nothing fed to it.
fn seal_digester(given: &Given<'_>, place: Place, event: u32) -> Digester
    requires { IsSome (key_of (basis_in given.now).keys place) }
    ensures { Digests (sealing (key_at (basis_in given.now).keys place) place (basis_in given.now).nonce event) [] result }
{
    let Some(key) = given.places.keys().find(place) else {
        unreachable!()
    };
    Digester::seal(key, place, given.nonce, event)
}

impl<'a> Walk<'a> {
    ghost use Rattle.stream_appraiser.specs.Walking.{IsAt, IsWalk, Leaves, Stands, forms_of, parts_of};

    /// A node without parts has ended.
    fn end_leaf(&mut self)
        requires { self.old.misfit ≡ None }
        ensures at { (basis : Basis) (states : List states.OpenSeal) → AreOpen basis self.old.seals states →
            IsAt basis self.new (after_leaf basis (forms_of self.old) states self.old.found.items self.old.held.items self.old.number) }
        ensures leaves { Leaves (forms_of self.old) self.old self.new }
    {
        close(&mut self.seals, self.forms.len(), &mut self.found);
    }

    fn take_nonce(&mut self, given: &Given<'_>, nonce: &[u8; 16]) -> Result<(), NoMemory>
        requires { self.old.misfit ≡ None }
        ensures at { OnOk result ((states : List states.OpenSeal) → AreOpen (basis_in given.now) self.old.seals states →
            IsAt (basis_in given.now) self.new (taken (basis_in given.now) (nonce_head nonce.now) the_nonce (forms_of self.old) states self.old.found.items self.old.held.items self.old.number)) }
        ensures leaves { OnOk result (Leaves (forms_of self.old) self.old self.new) }
    {
        push_verdict(&mut self.found, VerdictOf::Nonce, nonce == given.nonce)?;
        self.end_leaf();
        Ok(())
    }

    /// An answer of a measurement, whose event in the shape is `own`.
    fn take_answer(
        &mut self,
        given: &Given<'_>,
        event: u32,
        answer: &[u8],
        own: u32,
        place: Place,
        kind: &AskKind,
        asp: &Asp,
        below: &'a Shape,
    ) -> Result<(), NoMemory>
        requires open { self.old.misfit ≡ None }
        requires few { FitsAnswer answer.now }
        ensures at { OnOk result ((states : List states.OpenSeal) → AreOpen (basis_in given.now) self.old.seals states →
            IsAt (basis_in given.now) self.new (inside (form below.now ∷ forms_of self.old) states (self.old.found.items ++ verdict (VerdictOf.Leaf own) (is_good_answer given.now.references.now (self.old.held.items ++ (event, answer.now) ∷ []) (record { event = own; place = place; kind = kind.now; asp = asp.now }) answer.now) ∷ []) (self.old.held.items ++ (event, answer.now) ∷ []) self.old.number)) }
        ensures leaves { OnOk result (Leaves (form below.now ∷ forms_of self.old) self.old self.new) }
    {
        push_held(&mut self.held, event, answer)?;
        let good = is_expected(given.references, place, kind, asp, answer)
            && answer == first_held(&self.held, own);
        push_verdict(&mut self.found, VerdictOf::Leaf(own), good)?;
        self.forms.push(below)
    }

    fn take_seal(
        &mut self,
        given: &Given<'_>,
        bytes: &[u8; 32],
        own: u32,
        place: Place,
        below: &'a Shape,
    ) -> Result<(), NoMemory>
        requires open { self.old.misfit ≡ None }
        requires key { IsSome (key_of (basis_in given.now).keys place) }
        ensures at { OnOk result ((states : List states.OpenSeal) → AreOpen (basis_in given.now) self.old.seals states →
            IsAt (basis_in given.now) self.new (inside (form below.now ∷ forms_of self.old) (record { depth = length (forms_of self.old); index = length self.old.found.items; place = place; event = own; bytes = bytes.now; fed = [] } ∷ states) (self.old.found.items ++ verdict (VerdictOf.Seal own) false ∷ []) self.old.held.items self.old.number)) }
        ensures leaves { OnOk result (Leaves (form below.now ∷ forms_of self.old) self.old self.new) }
    {
        let one = OpenSeal {
            digester: seal_digester(given, place, own),
            depth: self.forms.len(),
            index: self.found.len(),
            event: own,
            bytes: *bytes,
        };
        push_verdict(&mut self.found, VerdictOf::Seal(own), false)?;
        self.seals.push(one)?;
        self.forms.push(below)
    }

    fn take_hash(
        &mut self,
        alloc: Global,
        given: &Given<'_>,
        bytes: &[u8; 32],
        own: u32,
        below: &Shape,
    ) -> Result<(), NoMemory>
        requires open { self.old.misfit ≡ None }
        requires keys { HasKeys (basis_in given.now).keys (form below.now) }
        ensures at { OnOk result ((states : List states.OpenSeal) → AreOpen (basis_in given.now) self.old.seals states →
            IsAt (basis_in given.now) self.new (after_leaf (basis_in given.now) (forms_of self.old) states (self.old.found.items ++ verdict (VerdictOf.Hash own) (same bytes.now (hash_of (encoding (expected (basis_in given.now) (reference_at given.now.references.now) (form below.now))))) ∷ []) self.old.held.items self.old.number)) }
        ensures leaves { OnOk result (Leaves (forms_of self.old) self.old self.new) }
    {
        let hash = hash_of_expected(alloc, given, below)?;
        push_verdict(&mut self.found, VerdictOf::Hash(own), is_same(bytes, &hash))?;
        self.end_leaf();
        Ok(())
    }

    fn take_pair(&mut self, first: &'a Shape, second: &'a Shape) -> Result<(), NoMemory>
        requires { self.old.misfit ≡ None }
        ensures at { OnOk result ((basis : Basis) (states : List states.OpenSeal) → AreOpen basis self.old.seals states →
            IsAt basis self.new (inside (form first.now ∷ (form second.now ∷ forms_of self.old)) states self.old.found.items self.old.held.items self.old.number)) }
        ensures leaves { OnOk result (Leaves (form first.now ∷ (form second.now ∷ forms_of self.old)) self.old self.new) }
    {
        self.forms.push(second)?;
        self.forms.push(first)
    }

    /// A head that agrees with a part of the shape, behind which the others come. Its bytes are fed already.
    fn enter(
        &mut self,
        alloc: Global,
        given: &Given<'_>,
        head: &Head<'_>,
        shape: &'a Shape,
    ) -> Result<(), NoMemory>
        requires open { self.old.misfit ≡ None }
        requires head { IsHead (head_of head.now) }
        requires keys { HasKeys (basis_in given.now).keys (form shape.now) }
        requires agrees { agrees given.now.places.now (head_of head.now) (form shape.now) ≡ true }
        ensures at { OnOk result ((states : List states.OpenSeal) → AreOpen (basis_in given.now) self.old.seals states →
            IsAt (basis_in given.now) self.new (taken (basis_in given.now) (head_of head.now) (form shape.now) (forms_of self.old) states self.old.found.items self.old.held.items self.old.number)) }
        ensures leaves { OnOk result (Leaves (parts_of (form shape.now) ++ forms_of self.old) self.old self.new) }
    {
        match (head, shape) {
            (Head::Empty, Shape::Empty) => {
                self.end_leaf();
                Ok(())
            }
            (Head::Nonce(nonce), Shape::Nonce) => self.take_nonce(given, nonce),
            (Head::Usm(event, _, answer), Shape::Usm(own, place, asp, below)) => self.take_answer(
                given,
                *event,
                answer,
                *own,
                *place,
                &AskKind::Usm,
                asp,
                below,
            ),
            (Head::Kim(event, _, answer), Shape::Kim(own, place, target, asp, below)) =>
                self.take_answer(
                    given,
                    *event,
                    answer,
                    *own,
                    *place,
                    &AskKind::Kim(*target),
                    asp,
                    below,
                ),
            (Head::Seal(_, bytes), Shape::Sig(own, place, below)) => self.take_seal(
                given, bytes, *own, *place, below,
            ),
            (Head::Hash(_, bytes), Shape::Hsh(own, _, below)) => self.take_hash(
                alloc, given, bytes, *own, below,
            ),
            (Head::SeqPair, Shape::SeqPair(first, second)) => self.take_pair(first, second),
            (Head::ParPair, Shape::ParPair(first, second)) => self.take_pair(first, second),
            _ => unreachable!(),
        }
    }

    /// The next head of the value. Behind the first that does not fit none counts.
    pub fn take(
        &mut self,
        alloc: Global,
        given: &Given<'_>,
        head: &Head<'_>,
    ) -> Result<(), NoMemory>
        requires walk { IsWalk (basis_in given.now).keys self.old }
        requires head { IsHead (head_of head.now) }
        ensures walk { OnOk result (IsWalk (basis_in given.now).keys self.new) }
        ensures stands { OnOk result ((standing : states.Standing) → Stands (basis_in given.now) self.old standing →
            Stands (basis_in given.now) self.new (step given.now.places.now (basis_in given.now) standing (head_of head.now))) }
    {
        if self.misfit.is_some() {
            return Ok(());
        }
        let Some(shape) = self.forms.pop() else {
            self.misfit = Some(self.number);
            return Ok(());
        };
        if !agrees(given, head, shape) {
            self.misfit = Some(self.number);
            return Ok(());
        }
        feed_head(&mut self.seals, head);
        self.number += 1;
        self.enter(alloc, given, head, shape)
    }
}

fn is_same(bytes: &[u8; 32], others: &[u8; 32]) -> bool
    ensures { result ≡ same bytes.now others.now }
{
    same(bytes, others)
}
