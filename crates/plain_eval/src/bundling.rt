ghost use Rattle.std.specs.Prelude.{◌≡◌, ◌+◌, ◌^◌, ◌<◌, ◌≤◌, ℕ, List, [], ◌∷◌, ◌++◌, length, IfOk, OnOk, false, true};
ghost use Rattle.phrase_tree.specs.Term.{term, is_leaf};
ghost use Rattle.phrase_tree.specs.Numbering.{event_count, IsSized};
ghost use Rattle.evidence_types.specs.Bundle.{IsBundleOf};
ghost use Rattle.evidence_types.specs.Bytes.{bundle, bundle_head, be32, encoding};
ghost use Rattle.evidence_types.specs.Evidence.{Evidence, nonce as nonce_alone};
ghost use Rattle.evidence_types.specs.Measure.{IsLight};
ghost use Rattle.session_model.specs.Value.{part, session_value, value_of};
ghost use Rattle.plain_eval.specs.Codes.{AreKeyed};
ghost use Rattle.plain_eval.specs.Given.{makings_of, value_given};
ghost use Rattle.plain_eval.specs.Keyed.{HasKeys};
ghost use Rattle.plain_eval.specs.Pending.{Lead, Leads, Moves, todos};
ghost use Rattle.plain_eval.specs.Steps.{join, paired, reply, run, run_left, turns_of};

use crate::answering::answers_are_short;
use crate::given::Given;
use crate::leaves::run_leaf;
use crate::pending::{Step, Work, push_join, push_left, push_reply, push_run};
use crate::putting::{keep_part, put_head, put_part};
use byte_ports::Bytes;
use evidence_types::{Answers, Head, worst};
use front_bytes::FrontBytes;
use phrase_tree::{NoMemory, Phrase, Place, Split};
use seal_hmac::KeyRing;
use std::alloc::Global;

/// The first bytes of every bundle: "CPLB", and the version 1.
const BUNDLE_HEAD: [u8; 5] = [67, 80, 76, 66, 1];

/// Runs a leaf.
fn leaf(
    given: &Given<'_>,
    work: &mut Work<'_>,
    phrase: &Phrase,
    place: Place,
    mark: usize,
) -> Result<(), NoMemory>
    requires leaf { is_leaf (term phrase.now) ≡ true }
    requires few { work.old.next + 1 < 2 ^ 32 }
    requires keys { HasKeys (term phrase.now) place given.now.keys.now }
    requires keyed { AreKeyed given.now.keys.now work.old.codes.items }
    requires mark { mark ≤ length work.old.made }
    ensures moves { (before : Evidence) (under : List ℕ) →
        work.old.made ≡ encoding before ++ under → mark ≡ length under →
        OnOk result (Moves work.new (todos work.old.steps.items) (work.old.next + 1) (encoding (value_of (term phrase.now) place work.old.next before (makings_of given.now)) ++ under) work.old.kept) }
    ensures keyed { OnOk result (AreKeyed given.now.keys.now work.new.codes.items) }
{
    run_leaf(
        given,
        &mut work.made,
        &mut work.codes,
        phrase,
        place,
        work.next,
        mark,
    )?;
    work.next += 1;
    Ok(())
}

/// Asks a place to run the body of a request.
fn request<'a>(
    work: &mut Work<'a>,
    body: &'a Phrase,
    asked: Place,
    mark: usize,
) -> Result<(), NoMemory>
    requires { work.old.next + 1 < 2 ^ 32 }
    ensures moves { OnOk result (Moves work.new (run (term body.now) asked mark ∷ (reply ∷ todos work.old.steps.items)) (work.old.next + 1) work.old.made work.old.kept) }
    ensures codes { work.new.codes ≡ work.old.codes }
{
    work.next += 1;
    push_reply(&mut work.steps)?;
    push_run(&mut work.steps, body, asked, mark)
}

/// Runs one part after the other.
fn chain<'a>(
    work: &mut Work<'a>,
    left: &'a Phrase,
    right: &'a Phrase,
    place: Place,
    mark: usize,
) -> Result<(), NoMemory>
    ensures moves { OnOk result (Moves work.new (run (term left.now) place mark ∷ (run (term right.now) place mark ∷ todos work.old.steps.items)) work.old.next work.old.made work.old.kept) }
    ensures codes { work.new.codes ≡ work.old.codes }
{
    push_run(&mut work.steps, right, place, mark)?;
    push_run(&mut work.steps, left, place, mark)
}

/// Keeps what the left arm gets, and runs the right arm on what it gets: its bytes stand behind those of the
/// left one.
fn branch<'a>(
    work: &mut Work<'a>,
    parallel: bool,
    split: Split,
    left: &'a Phrase,
    right: &'a Phrase,
    place: Place,
    mark: usize,
) -> Result<(), NoMemory>
    requires few { work.old.next + 2 + event_count (term left.now) < 2 ^ 32 }
    requires mark { mark ≤ length work.old.made }
    ensures moves { (before : Evidence) (under : List ℕ) →
        work.old.made ≡ encoding before ++ under → mark ≡ length under →
        OnOk result (Moves work.new (run (term right.now) place mark ∷ (run_left parallel (term left.now) place (work.old.next + 1) (length work.old.kept) ∷ todos work.old.steps.items)) (work.old.next + 1 + event_count (term left.now)) (encoding (part split.right before) ++ under) (encoding (part split.left before) ++ work.old.kept)) }
    ensures codes { work.new.codes ≡ work.old.codes }
{
    let first = work.next + 1;
    work.next = first + left.events();
    let under = work.kept.len();
    keep_part(&mut work.kept, &work.made, mark, split.left)?;
    put_part(&mut work.made, mark, split.right)?;
    push_left(&mut work.steps, parallel, left, place, first, under)?;
    push_run(&mut work.steps, right, place, mark)
}

/// Runs the left arm on what is kept for it.
fn left_arm<'a>(
    work: &mut Work<'a>,
    parallel: bool,
    phrase: &'a Phrase,
    place: Place,
    first: u32,
    under: usize,
) -> Result<(), NoMemory>
    requires few { work.old.next + 1 < 2 ^ 32 }
    requires under { under ≤ length work.old.kept }
    ensures moves { (top rest : List ℕ) → work.old.kept ≡ top ++ rest → under ≡ length rest →
        OnOk result (Moves work.new (run (term phrase.now) place (length work.old.made) ∷ (join parallel (work.old.next + 1) ∷ todos work.old.steps.items)) first (top ++ work.old.made) rest) }
    ensures codes { work.new.codes ≡ work.old.codes }
{
    let mark = work.made.len();
    work.made.put_ahead(work.kept.since(under))?;
    work.kept.reset(under);
    push_join(&mut work.steps, parallel, work.next + 1)?;
    work.next = first;
    push_run(&mut work.steps, phrase, place, mark)
}

/// Makes a pair of the values of both arms.
fn join(work: &mut Work<'_>, parallel: bool, after: u32) -> Result<(), NoMemory>
    ensures moves { (left right : Evidence) (under : List ℕ) → work.old.made ≡ encoding left ++ (encoding right ++ under) →
        OnOk result (Moves work.new (todos work.old.steps.items) after (encoding (paired parallel left right) ++ under) work.old.kept) }
    ensures codes { work.new.codes ≡ work.old.codes }
{
    work.next = after;
    if parallel {
        return put_head(&mut work.made, &Head::ParPair);
    }
    put_head(&mut work.made, &Head::SeqPair)
}

/// Runs a phrase, or its first part.
fn run<'a>(
    given: &Given<'_>,
    work: &mut Work<'a>,
    phrase: &'a Phrase,
    place: Place,
    mark: usize,
) -> Result<(), NoMemory>
    requires { Lead given.now (run (term phrase.now) place mark ∷ todos work.old.steps.items) work.old }
    ensures leads { OnOk result (Leads given.now work.new) }
    ensures fewer { OnOk result (turns_of (todos work.new.steps.items) < turns_of (run (term phrase.now) place mark ∷ todos work.old.steps.items)) }
{
    match phrase {
        Phrase::Cpy
        | Phrase::Sig
        | Phrase::Hsh
        | Phrase::Nul
        | Phrase::Usm(_)
        | Phrase::Kim(_, _) => leaf(given, work, phrase, place, mark),
        Phrase::At(asked, body) => request(work, body, *asked, mark),
        Phrase::Then(left, right) => chain(work, left, right, place, mark),
        Phrase::Seq(split, left, right) => branch(work, false, *split, left, right, place, mark),
        Phrase::Par(split, left, right) => branch(work, true, *split, left, right, place, mark),
    }
}

/// Does the next step; false if there is none.
fn advance(given: &Given<'_>, work: &mut Work<'_>) -> Result<bool, NoMemory>
    requires { Leads given.now work.old }
    ensures leads { OnOk result (Leads given.now work.new) }
    ensures fewer { IfOk result (λ more. more ≡ true → turns_of (todos work.new.steps.items) < turns_of (todos work.old.steps.items)) }
    ensures done { IfOk result (λ more. more ≡ false → work.new.made ≡ encoding (value_given given.now)) }
{
    let Some(step) = work.steps.pop() else {
        return Ok(false);
    };
    match &step {
        Step::Run(phrase, place, mark) => run(given, work, phrase, *place, *mark)?,
        Step::Reply => work.next += 1,
        Step::Left(parallel, phrase, place, first, under) => {
            left_arm(work, *parallel, phrase, *place, *first, *under)?
        }
        Step::Join(parallel, after) => join(work, *parallel, *after)?,
    }
    Ok(true)
}

/// Does what is to be done, step by step.
fn finish(given: &Given<'_>, work: &mut Work<'_>) -> Result<(), NoMemory>
    requires { Leads given.now work.old }
    ensures { OnOk result (work.new.made ≡ encoding (value_given given.now)) }
{
    loop {
        match advance(given, work) {
            Ok(true) => {}
            Ok(false) => return Ok(()),
            Err(_) => return Err(NoMemory),
        }
    }
}

/// An evaluation at its beginning: the nonce stands, with room for all that the phrase may make of it, and
/// the phrase is to be run.
fn begun<'a>(
    alloc: Global,
    phrase: &'a Phrase,
    root: Place,
    nonce: &[u8; 16],
) -> Result<Work<'a>, NoMemory>
    requires { IsSized (term phrase.now) }
    ensures steps { IfOk result (λ work. todos work.steps.items ≡ run (term phrase.now) root 0 ∷ []) }
    ensures made { IfOk result (λ work. work.made ≡ encoding (nonce_alone nonce.now)) }
    ensures rest { IfOk result (λ work. (work.kept ≡ []) × (work.codes.items ≡ []) × (work.next ≡ 0)) }
{
    let mut work = Work {
        made: FrontBytes::with_room(alloc, worst(phrase) as usize)?,
        kept: FrontBytes::new(alloc),
        codes: Vec::new(alloc),
        steps: Vec::new(alloc),
        next: 0,
    };
    put_head(&mut work.made, &Head::Nonce(nonce))?;
    push_run(&mut work.steps, phrase, root, 0)?;
    Ok(work)
}

/// The bundle of a value of these bytes.
fn bundled(alloc: Global, value: &[u8]) -> Result<Bytes, NoMemory>
    requires { length value.now < 2 ^ 32 }
    ensures { IfOk result (λ bytes. bytes ≡ bundle_head ++ (be32 (length value.now) ++ value.now)) }
{
    let mut bytes = Vec::with_capacity(alloc, BUNDLE_HEAD.len() + 4 + value.len())?;
    bytes.extend_from_slice(&BUNDLE_HEAD)?;
    bytes.extend_from_slice(&(value.len() as u32).to_be_bytes())?;
    bytes.extend_from_slice(value)?;
    Ok(Bytes::of(bytes))
}

/// The bundle of the value of a session's phrase, as `eval` and `encode` give it, and no value: its bytes are
/// made from their end to their front in one block of memory, which is taken once, as large as the phrase's
/// evidence may ever be. So each seal and each hash is one run over the
/// bytes that stand behind it, each place's key is hashed once, and a branch copies the evidence of a left
/// arm twice. The rest takes time in the events, and for a branch in those of its left arm. What is to be
/// done is a list on the heap, so a phrase of any depth takes the same stack.
pub fn eval_bundle(
    alloc: Global,
    phrase: &Phrase,
    place: Place,
    nonce: &[u8; 16],
    answers: &Answers,
    keys: &KeyRing,
) -> Result<Bytes, NoMemory>
    requires sized { IsSized (term phrase.now) }
    requires light { IsLight (term phrase.now) }
    requires keys { HasKeys (term phrase.now) place keys.now }
    ensures bundle { IfOk result (λ bytes. bytes ≡ bundle (session_value (term phrase.now) place (record { nonce = nonce.now; answers = answers.now; keys = keys.now }))) }
    // It is one that `decode` reads again.
    ensures readable { IfOk result (λ bytes. IsBundleOf bytes (session_value (term phrase.now) place (record { nonce = nonce.now; answers = answers.now; keys = keys.now }))) }
{
    answers_are_short(answers.items());
    let mut work = begun(alloc, phrase, place, nonce)?;
    let given = Given {
        phrase,
        root: place,
        nonce,
        answers,
        keys,
    };
    finish(&given, &mut work)?;
    bundled(alloc, work.made.bytes())
}
