ghost use Rattle.std.specs.Prelude.{◌≡◌, ◌∷◌, [], None, Some, IfOk, MatchOption, option_map, length, nat_le, is_some};
ghost use Rattle.phrase_tree.specs.Term.{term};
ghost use Rattle.phrase_reader.specs.Grammar.{measurement, joined, bare};
ghost use Rattle.phrase_reader.specs.Machine.{start, fresh, chain_with, branch_with, whole_with, unit_of, branch_of, finished, begun, unit_next, ended, step, limit, boxed_term, measured_of, parts_of, arm_of, frame_of, stage_of, state_of, frames_on, args_full, full, with_arg, too_many, too_deep, valued, with_name, named, inside, left_behind, bracketed, round_opened, square_opened, round_closed, square_closed, linked, armed, branched, Steps, GivesStage};
ghost use Rattle.phrase_reader.specs.declared.state.Stage.TheVariants as stages;
ghost use Rattle.phrase_reader.specs.declared.token.Token.TheVariants as tokens;

use crate::refusal::Kind;
use crate::token::{Leaf, Op, Token};
use phrase_tree::{Arg, Args, Asp, BRACKETS, Name, NoMemory, Phrase};
use std::alloc::Global;
use std::mem;

/// A bracket that is open.
#[derive(Clone, Copy, Debug, PartialEq, Eq)]
pub enum Bracket {
    Round,
    /// The square bracket of a request, with the place that is asked.
    Square(Name),
}

/// The left arm of a branch, with the op that follows it.
#[derive(Debug, Drop)]
pub struct Arm {
    pub op: Op,
    pub left: Box<Phrase>,
}

/// What was read of an open branch before its last unit.
#[derive(Debug, Drop)]
pub struct Parts {
    pub arm: Option<Arm>,
    /// The chain before the last arrow.
    pub link: Option<Box<Phrase>>,
}

/// An open branch, with the bracket that was opened in it.
#[derive(Debug, Drop)]
pub struct Frame {
    pub outer: Parts,
    pub bracket: Bracket,
}

/// How much of the last unit was read, and what must come next.
#[derive(Debug, Drop)]
pub enum Stage {
    Unit,
    /// The place of a request.
    Place,
    /// The square bracket of a request.
    Square(Name),
    /// The target of a measurement.
    Target,
    /// The name of a measurement; its target, if it has one, was read.
    Service(Option<Name>),
    /// A measurement, which may have more arguments. They are added where they stay.
    Measured(Box<Phrase>),
    Ended(Box<Phrase>),
}

/// What was read so far: the innermost open branch, those around it, and the last unit.
///
/// Its methods change it in place. What was read of the phrase is in boxes, which go into the tree as
/// they are.
#[derive(Debug, Drop)]
pub struct State {
    pub inner: Parts,
    pub frames: Vec<Frame>,
    pub stage: Stage,
}

/// Why a token wasn't taken.
#[derive(Clone, Copy, Debug, PartialEq, Eq)]
pub enum Stop {
    Unfit,
    Limit(Kind),
    Memory,
}

fn leaf(alloc: Global, which: Leaf) -> Result<Box<Phrase>, NoMemory>
    ensures { IfOk result (λ phrase. boxed_term phrase ≡ bare which) }
{
    match which {
        Leaf::Cpy => Ok(Box::new(alloc, Phrase::Cpy)?),
        Leaf::Sig => Ok(Box::new(alloc, Phrase::Sig)?),
        Leaf::Hsh => Ok(Box::new(alloc, Phrase::Hsh)?),
        Leaf::Nul => Ok(Box::new(alloc, Phrase::Nul)?),
    }
}

/// A measurement with no arguments yet.
fn measured(alloc: Global, target: Option<Name>, name: Name) -> Result<Box<Phrase>, NoMemory>
    ensures { IfOk result (λ phrase. boxed_term phrase ≡ measurement target (record { name = name; args = [] })) }
{
    let args = Args::none();
    let asp = Box::new(alloc, Asp { name, args })?;
    match target {
        None => Ok(Box::new(alloc, Phrase::Usm(asp))?),
        Some(target) => Ok(Box::new(alloc, Phrase::Kim(target, asp))?),
    }
}

fn chained(
    alloc: Global,
    link: Option<Box<Phrase>>,
    unit: Box<Phrase>,
) -> Result<Box<Phrase>, NoMemory>
    ensures { IfOk result (λ phrase. boxed_term phrase ≡ chain_with (option_map boxed_term link) (boxed_term unit)) }
{
    match link {
        None => Ok(unit),
        Some(left) => Ok(Box::new(alloc, Phrase::Then(left, unit))?),
    }
}

fn joined(
    alloc: Global,
    op: Op,
    left: Box<Phrase>,
    right: Box<Phrase>,
) -> Result<Box<Phrase>, NoMemory>
    ensures { IfOk result (λ phrase. boxed_term phrase ≡ joined op (boxed_term left) (boxed_term right)) }
{
    if op.parallel {
        return Ok(Box::new(alloc, Phrase::Par(op.split, left, right))?);
    }
    Ok(Box::new(alloc, Phrase::Seq(op.split, left, right))?)
}

fn branch(alloc: Global, parts: Parts, unit: Box<Phrase>) -> Result<Box<Phrase>, NoMemory>
    ensures { IfOk result (λ phrase. boxed_term phrase ≡ whole_with (parts_of parts) (boxed_term unit)) }
{
    let chain = chained(alloc, parts.link, unit)?;
    match parts.arm {
        None => Ok(chain),
        Some(arm) => joined(alloc, arm.op, arm.left, chain),
    }
}

fn enclosed(alloc: Global, bracket: Bracket, phrase: Box<Phrase>) -> Result<Box<Phrase>, NoMemory>
    ensures { IfOk result (λ unit. boxed_term unit ≡ bracketed bracket (boxed_term phrase)) }
{
    match bracket {
        Bracket::Round => Ok(phrase),
        Bracket::Square(place) => Ok(Box::new(alloc, Phrase::At(place, phrase))?),
    }
}

fn fresh() -> Parts
    ensures { parts_of result ≡ fresh }
{
    Parts {
        arm: None,
        link: None,
    }
}

/// Adds an argument to a measurement.
fn add(asp: &mut Asp, value: Arg) -> Result<(), Stop>
    ensures { Steps result asp.new (Some (with_arg asp.old value)) (full asp.old) }
{
    let _few = asp.args.items();
    match asp.args.push(value) {
        Ok(()) => Ok(()),
        Err(_) => Err(Stop::Limit(Kind::TooManyArgs)),
    }
}

/// Adds an argument to a phrase that is a measurement.
#[tactic(auto, using(crate::proofs::Stages::ended_takes_none))]
fn more(unit: &mut Phrase, value: Arg) -> Result<(), Stop>
    ensures { Steps result (measured_of (term unit.new)) (valued (measured_of (term unit.old)) value) (too_many (measured_of (term unit.old))) }
{
    match unit {
        Phrase::Usm(asp) => add(asp, value),
        Phrase::Kim(_, asp) => add(asp, value),
        Phrase::Cpy
        | Phrase::Sig
        | Phrase::Hsh
        | Phrase::Nul
        | Phrase::At(_, _)
        | Phrase::Then(_, _)
        | Phrase::Seq(_, _, _)
        | Phrase::Par(_, _, _) => Err(Stop::Unfit),
    }
}

#[tactic(auto, using(crate::proofs::Stages::measured_unit, crate::proofs::Stages::measured_takes_none))]
impl Stage {
    /// The unit that has ended, or that may end here.
    fn unit(self) -> Option<Box<Phrase>>
        ensures { option_map boxed_term result ≡ unit_of (stage_of self) }
    {
        match self {
            Stage::Measured(unit) | Stage::Ended(unit) => Some(unit),
            Stage::Unit | Stage::Place | Stage::Square(_) | Stage::Target | Stage::Service(_) =>
                None,
        }
    }

    /// Whether a unit has ended, or may end here.
    fn has_unit(&self) -> bool
        ensures { result ≡ is_some (unit_of (stage_of self.now)) }
    {
        match self {
            Stage::Measured(_) | Stage::Ended(_) => true,
            Stage::Unit | Stage::Place | Stage::Square(_) | Stage::Target | Stage::Service(_) =>
                false,
        }
    }

    /// The stage after a name, where one must come.
    fn with_name(&self, alloc: Global, name: Name) -> Result<Stage, Stop>
        ensures { GivesStage result (with_name (stage_of self.now) name) None }
    {
        match self {
            Stage::Place => Ok(Stage::Square(name)),
            Stage::Target => Ok(Stage::Service(Some(name))),
            Stage::Service(target) => match measured(alloc, *target, name) {
                Ok(unit) => Ok(Stage::Measured(unit)),
                Err(_) => Err(Stop::Memory),
            },
            Stage::Unit | Stage::Square(_) | Stage::Measured(_) | Stage::Ended(_) => Err(
                Stop::Unfit,
            ),
        }
    }

    fn named(&mut self, alloc: Global, value: Arg) -> Result<(), Stop>
        ensures { Steps result (stage_of self.new) (named (stage_of self.old) value) None }
    {
        let Arg::Word(name) = value else {
            return Err(Stop::Unfit);
        };
        match self.with_name(alloc, name) {
            Ok(next) => {
                *self = next;
                Ok(())
            }
            Err(stop) => Err(stop),
        }
    }

    fn valued(&mut self, alloc: Global, value: Arg) -> Result<(), Stop>
        ensures { Steps result (stage_of self.new) (valued (stage_of self.old) value) (too_many (stage_of self.old)) }
    {
        match self {
            Stage::Measured(unit) => more(unit, value),
            other => other.named(alloc, value),
        }
    }
}

impl State {
    /// Nothing read yet.
    pub fn new(alloc: Global) -> State
        ensures { state_of result ≡ start }
    {
        State {
            inner: fresh(),
            frames: Vec::new(alloc),
            stage: Stage::Unit,
        }
    }

    /// Whether what was read is a whole phrase.
    pub fn is_finished(&self) -> bool
        ensures { result ≡ is_some (finished (state_of self.now)) }
    {
        self.frames.is_empty() && self.stage.has_unit()
    }

    /// The unit that has ended, which is taken out.
    fn take_unit(&mut self) -> Option<Box<Phrase>>
        ensures unit { option_map boxed_term result ≡ unit_of (stage_of self.old.stage) }
        ensures inner { self.new.inner ≡ self.old.inner }
        ensures frames { self.new.frames ≡ self.old.frames }
        ensures stage { stage_of self.new.stage ≡ unit_next }
    {
        mem::replace(&mut self.stage, Stage::Unit).unit()
    }

    fn begin(&mut self, stage: Stage) -> Result<(), Stop>
        ensures { Steps result (state_of self.new) (begun (state_of self.old) (stage_of stage)) None }
    {
        match self.stage {
            Stage::Unit => {
                self.stage = stage;
                Ok(())
            }
            _ => Err(Stop::Unfit),
        }
    }

    fn leaf(&mut self, alloc: Global, which: Leaf) -> Result<(), Stop>
        ensures { Steps result (state_of self.new) (begun (state_of self.old) (ended (bare which))) None }
    {
        match leaf(alloc, which) {
            Ok(unit) => self.begin(Stage::Ended(unit)),
            Err(_) => Err(Stop::Memory),
        }
    }

    #[tactic(auto, using(crate::proofs::Frames::frames_push, crate::proofs::Frames::frames_len))]
    fn enter(&mut self, bracket: Bracket) -> Result<(), Stop>
        ensures { Steps result (state_of self.new) (Some (inside (parts_of self.old.inner) (frames_on [] self.old.frames.items) bracket)) (too_deep (frames_on [] self.old.frames.items)) }
    {
        if self.frames.len() >= BRACKETS as usize {
            return Err(Stop::Limit(Kind::TooDeep));
        }
        let outer = mem::replace(&mut self.inner, fresh());
        match self.frames.push(Frame { outer, bracket }) {
            Ok(()) => {
                self.stage = Stage::Unit;
                Ok(())
            }
            Err(_) => Err(Stop::Memory),
        }
    }

    fn leave(&mut self, alloc: Global, unit: Box<Phrase>, frame: Frame) -> Result<(), Stop>
        ensures { Steps result (state_of self.new) (Some (left_behind (frame_of frame) (frames_on [] self.old.frames.items) (whole_with (parts_of self.old.inner) (boxed_term unit)))) None }
    {
        let inner = mem::replace(&mut self.inner, frame.outer);
        let Ok(phrase) = branch(alloc, inner, unit) else {
            return Err(Stop::Memory);
        };
        let Ok(ended) = enclosed(alloc, frame.bracket, phrase) else {
            return Err(Stop::Memory);
        };
        self.stage = Stage::Ended(ended);
        Ok(())
    }

    fn open_round(&mut self) -> Result<(), Stop>
        ensures { Steps result (state_of self.new) (step (state_of self.old) tokens.OpenRound) (limit (state_of self.old) tokens.OpenRound) }
    {
        match self.stage {
            Stage::Unit => self.enter(Bracket::Round),
            _ => Err(Stop::Unfit),
        }
    }

    fn open_square(&mut self) -> Result<(), Stop>
        ensures { Steps result (state_of self.new) (step (state_of self.old) tokens.OpenSquare) (limit (state_of self.old) tokens.OpenSquare) }
    {
        let Stage::Square(place) = mem::replace(&mut self.stage, Stage::Unit) else {
            return Err(Stop::Unfit);
        };
        self.enter(Bracket::Square(place))
    }

    #[tactic(auto, using(crate::proofs::Frames::frames_push))]
    fn close_round(&mut self, alloc: Global) -> Result<(), Stop>
        ensures { Steps result (state_of self.new) (step (state_of self.old) tokens.CloseRound) (limit (state_of self.old) tokens.CloseRound) }
    {
        let Some(frame) = self.frames.pop() else {
            return Err(Stop::Unfit);
        };
        let Some(unit) = self.take_unit() else {
            return Err(Stop::Unfit);
        };
        match frame.bracket {
            Bracket::Round => self.leave(alloc, unit, frame),
            Bracket::Square(_) => Err(Stop::Unfit),
        }
    }

    #[tactic(auto, using(crate::proofs::Frames::frames_push))]
    fn close_square(&mut self, alloc: Global) -> Result<(), Stop>
        ensures { Steps result (state_of self.new) (step (state_of self.old) tokens.CloseSquare) (limit (state_of self.old) tokens.CloseSquare) }
    {
        let Some(frame) = self.frames.pop() else {
            return Err(Stop::Unfit);
        };
        let Some(unit) = self.take_unit() else {
            return Err(Stop::Unfit);
        };
        match frame.bracket {
            Bracket::Round => Err(Stop::Unfit),
            Bracket::Square(_) => self.leave(alloc, unit, frame),
        }
    }

    fn arrow(&mut self, alloc: Global) -> Result<(), Stop>
        ensures { Steps result (state_of self.new) (step (state_of self.old) tokens.Arrow) (limit (state_of self.old) tokens.Arrow) }
    {
        let Some(unit) = self.take_unit() else {
            return Err(Stop::Unfit);
        };
        let link = mem::replace(&mut self.inner.link, None);
        match chained(alloc, link, unit) {
            Ok(chain) => {
                self.inner.link = Some(chain);
                Ok(())
            }
            Err(_) => Err(Stop::Memory),
        }
    }

    fn op(&mut self, alloc: Global, op: Op) -> Result<(), Stop>
        ensures { Steps result (state_of self.new) (step (state_of self.old) (tokens.Op op)) (limit (state_of self.old) (tokens.Op op)) }
    {
        let Some(unit) = self.take_unit() else {
            return Err(Stop::Unfit);
        };
        let Parts { arm: None, link } = mem::replace(&mut self.inner, fresh()) else {
            return Err(Stop::Unfit);
        };
        match chained(alloc, link, unit) {
            Ok(left) => {
                self.inner.arm = Some(Arm { op, left });
                Ok(())
            }
            Err(_) => Err(Stop::Memory),
        }
    }

    /// Goes on by one more token. An error says whether it doesn't fit, or breaks a limit; what the
    /// state is then is not said.
    pub fn push(&mut self, alloc: Global, token: Token) -> Result<(), Stop>
        ensures { Steps result (state_of self.new) (step (state_of self.old) token) (limit (state_of self.old) token) }
    {
        match token {
            Token::Leaf(which) => self.leaf(alloc, which),
            Token::Usm => self.begin(Stage::Service(None)),
            Token::Kim => self.begin(Stage::Target),
            Token::At => self.begin(Stage::Place),
            Token::OpenRound => self.open_round(),
            Token::CloseRound => self.close_round(alloc),
            Token::OpenSquare => self.open_square(),
            Token::CloseSquare => self.close_square(alloc),
            Token::Arrow => self.arrow(alloc),
            Token::Op(op) => self.op(alloc, op),
            Token::Value(value) => self.stage.valued(alloc, value),
        }
    }

    /// The phrase that was read, if it is whole.
    #[tactic(auto, using(crate::proofs::Frames::finished_some, crate::proofs::Frames::none_from))]
    pub fn phrase(self, alloc: Global) -> Result<Option<Phrase>, NoMemory>
        ensures { IfOk result (λ phrase. option_map term phrase ≡ finished (state_of self)) }
    {
        if !self.is_finished() {
            return Ok(None);
        }
        let State {
            inner,
            frames: _,
            stage,
        } = self;
        match stage.unit() {
            Some(unit) => Ok(Some(Box::into_inner(branch(alloc, inner, unit)?))),
            None => Ok(None),
        }
    }
}
