//! What a move of a core sends or needs.
ghost use Rattle.std.specs.Prelude.{◌≡◌, ◌<◌, Ok, None, IfOk, IfSome, length};
ghost use Rattle.std.specs.Option.{option_map};
ghost use Rattle.evidence_types.specs.Bytes.{bundle};
ghost use Rattle.evidence_store.specs.Kept.{value_at};
ghost use Rattle.machine_world.specs.Cells.{block_of, tables_of, opening_book};
ghost use Rattle.machine_world.specs.Touched.{TouchesAt};
ghost use Rattle.session_book.specs.declared.entry.Move.TheVariants as move;
ghost use Rattle.session_core.specs.Core.{IsCore};
ghost use Rattle.session_core.specs.Steps.{ForSome};
ghost use Rattle.session_core.specs.Reading.{Tells};
ghost use Rattle.session_core.specs.Touching.{touch_by, needs_first, sent_id, IsTouchOf, IsMessageOf, IsImpossible};

use crate::places::index_of;
use crate::played::Touch;
use crate::steps::Core;
use avm_code::BlockName;
use byte_ports::Bytes;
use evidence_store::EvId;
use machine_world::Touched;
use phrase_tree::{NoMemory, Place};
use session_book::Move;
use session_tables::{played_law, steps_law, touches_law};

impl Core {
    /// Which request or reply a possible move sends or needs; nothing for all others. Takes time in the
    /// logarithm of the events; for a delivery also time linear in the places.
    pub fn touches(&self, step: &Move) -> Touch
        requires { ForSome IsCore self.now }
        ensures possible { Tells self.now (λ session places standing. IsTouchOf places standing step.now result) }
        ensures otherwise { Tells self.now (λ session places standing. IsImpossible places standing step.now → result ≡ Touch.Nothing) }
    {
        if !self.can(step) {
            return Touch::Nothing;
        }
        self.touch(step)
    }

    /// The bundle of the evidence that a possible move sends; none if it sends none, and for all others.
    /// An error is want of memory. Takes time linear in the bytes, beside that of `touches`.
    pub fn message(&self, step: &Move) -> Result<Option<Bytes>, NoMemory>
        requires { ForSome IsCore self.now }
        ensures possible { IfOk result (λ message. Tells self.now (λ session places standing. IsMessageOf places standing step.now message)) }
        ensures otherwise { Tells self.now (λ session places standing. IsImpossible places standing step.now → result ≡ Ok None) }
    {
        if !self.can(step) {
            return Ok(None);
        }
        self.sent(step)
    }

    fn touch(&self, step: &Move) -> Touch
        requires { ForSome IsCore self.now }
        ensures { Tells self.now (λ session places standing. IsTouchOf places standing step.now result) }
    {
        match step {
            Move::Run(name) => self.touch_of_run(*name),
            Move::Ask(_) => Touch::Nothing,
            Move::Deliver(place) => self.touch_of_delivery(*place),
        }
    }

    fn touch_of_run(&self, name: BlockName) -> Touch
        requires { ForSome IsCore self.now }
        ensures { Tells self.now (λ session places standing. IsTouchOf places standing (move.Run name) result) }
    {
        played_law();
        steps_law();
        touches_law();
        touch_by(self.world.touched(name))
    }

    fn touch_of_delivery(&self, place: Place) -> Touch
        requires { ForSome IsCore self.now }
        ensures { Tells self.now (λ session places standing. IsTouchOf places standing (move.Deliver place) result) }
    {
        steps_law();
        touches_law();
        match index_of(self.world.places(), place) {
            Some(index) => needs(self.world.front(index)),
            None => Touch::Nothing,
        }
    }

    fn sent(&self, step: &Move) -> Result<Option<Bytes>, NoMemory>
        requires { ForSome IsCore self.now }
        ensures { IfOk result (λ message. Tells self.now (λ session places standing. IsMessageOf places standing step.now message)) }
    {
        match step {
            Move::Run(name) => self.sent_by_run(*name),
            Move::Ask(_) => Ok(None),
            Move::Deliver(_) => Ok(None),
        }
    }

    fn sent_by_run(&self, name: BlockName) -> Result<Option<Bytes>, NoMemory>
        requires { ForSome IsCore self.now }
        ensures { IfOk result (λ message. Tells self.now (λ session places standing. IsMessageOf places standing (move.Run name) message)) }
    {
        played_law();
        steps_law();
        touches_law();
        match sent_id(self.world.touched(name)) {
            Some(id) => self.emit(id),
            None => Ok(None),
        }
    }

    fn emit(&self, id: EvId) -> Result<Option<Bytes>, NoMemory>
        requires { id < length self.now.world.store.values }
        ensures { IfOk result (λ message. message ≡ option_map bundle (Some (value_at self.now.world.store.values id))) }
    {
        match self.world.emit(id) {
            Ok(bytes) => Ok(Some(bytes)),
            Err(wanted) => Err(wanted),
        }
    }
}

fn touch_by(touched: Touched) -> Touch
    ensures { result ≡ touch_by touched }
{
    match touched {
        Touched::Nothing => Touch::Nothing,
        Touched::SendsRequest { number, .. } => Touch::SendsRequest(number),
        Touched::SendsReply { number, .. } => Touch::SendsReply(number),
        Touched::NeedsReply(number) => Touch::NeedsReply(number),
    }
}

/// A delivery needs the first request of its place.
fn needs(first: Option<u32>) -> Touch
    ensures { result ≡ needs_first first }
{
    match first {
        Some(number) => Touch::NeedsRequest(number),
        None => Touch::Nothing,
    }
}

fn sent_id(touched: Touched) -> Option<EvId>
    ensures { result ≡ sent_id touched }
{
    match touched {
        Touched::Nothing => None,
        Touched::SendsRequest { evidence, .. } => Some(evidence),
        Touched::SendsReply { evidence, .. } => Some(evidence),
        Touched::NeedsReply(_) => None,
    }
}
