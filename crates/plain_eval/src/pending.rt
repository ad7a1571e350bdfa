ghost use Rattle.std.specs.Prelude.{◌≡◌, ◌∷◌, OnOk};
ghost use Rattle.phrase_tree.specs.Term.{term};
ghost use Rattle.plain_eval.specs.Pending.{todos};
ghost use Rattle.plain_eval.specs.Steps.{join, reply, run, run_left};

use crate::keyed::Keyed;
use front_bytes::FrontBytes;
use phrase_tree::{NoMemory, Phrase, Place};

/// What is still to be done. A mark counts the bytes that stand under those of which it is the mark.
#[derive(Drop)]
pub(crate) enum Step<'a> {
    /// A place runs a phrase on the value that stands ahead of a mark.
    Run(&'a Phrase, Place, usize),
    /// A request is answered.
    Reply,
    /// The value that stands is that of a right arm. The place runs the left arm from a number on, on
    /// the evidence that is kept ahead of a mark. The branch is parallel if so said.
    Left(bool, &'a Phrase, Place, u32, usize),
    /// The value that stands is that of a left arm, and that of the right arm stands under it. They become
    /// a pair, and this is the number of the next event.
    Join(bool, u32),
}

/// How far an evaluation has come.
#[derive(Drop)]
pub(crate) struct Work<'a> {
    /// The bytes of the value that stands, ahead of those of each right arm whose left one is to come.
    pub(crate) made: FrontBytes,
    /// The bytes of the evidence of each left arm that is to come, the next one's first.
    pub(crate) kept: FrontBytes,
    pub(crate) codes: Vec<Keyed>,
    /// What is to be done, the next step last.
    pub(crate) steps: Vec<Step<'a>>,
    /// The number of the next event.
    pub(crate) next: u32,
}

/// The list of steps, and one more that is done before the others.
pub(crate) fn push_run<'a>(
    steps: &mut Vec<Step<'a>>,
    phrase: &'a Phrase,
    place: Place,
    mark: usize,
) -> Result<(), NoMemory>
    ensures { OnOk result (todos steps.new.items ≡ run (term phrase.now) place mark ∷ todos steps.old.items) }
{
    match steps.push(Step::Run(phrase, place, mark)) {
        Ok(()) => Ok(()),
        Err(_) => Err(NoMemory),
    }
}

pub(crate) fn push_reply(steps: &mut Vec<Step<'_>>) -> Result<(), NoMemory>
    ensures { OnOk result (todos steps.new.items ≡ reply ∷ todos steps.old.items) }
{
    match steps.push(Step::Reply) {
        Ok(()) => Ok(()),
        Err(_) => Err(NoMemory),
    }
}

pub(crate) fn push_left<'a>(
    steps: &mut Vec<Step<'a>>,
    parallel: bool,
    phrase: &'a Phrase,
    place: Place,
    first: u32,
    under: usize,
) -> Result<(), NoMemory>
    ensures { OnOk result (todos steps.new.items ≡ run_left parallel (term phrase.now) place first under ∷ todos steps.old.items) }
{
    match steps.push(Step::Left(parallel, phrase, place, first, under)) {
        Ok(()) => Ok(()),
        Err(_) => Err(NoMemory),
    }
}

pub(crate) fn push_join(
    steps: &mut Vec<Step<'_>>,
    parallel: bool,
    after: u32,
) -> Result<(), NoMemory>
    ensures { OnOk result (todos steps.new.items ≡ join parallel after ∷ todos steps.old.items) }
{
    match steps.push(Step::Join(parallel, after)) {
        Ok(()) => Ok(()),
        Err(_) => Err(NoMemory),
    }
}
