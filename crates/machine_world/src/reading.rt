ghost use Rattle.std.specs.Prelude.{◌≡◌, ◌<◌, length, slice_index_or};
ghost use Rattle.machine_world.specs.Cells.{nobody};
ghost use Rattle.machine_world.specs.World.{empty_block};
ghost use Rattle.machine_world.specs.Answers.{ready_with, ready_by, ask_for};
ghost use Rattle.machine_world.specs.Touched.{touched_at_end, touched_by};

use crate::moved::{Ready, Touched};
use crate::runner::Runner;
use avm_code::{Block, BlockName, Instr, Program};
use bench_trait::{Ask, AskKind};
use branch_join::BlockTable;
use evidence_store::EvId;
use phrase_tree::{Asp, Place};
use place_mail::Mailboxes;

/// The next instruction of the machine at an index, in the code of its block.
pub fn instr_of<'a>(program: &'a Program, runners: &Vec<Runner>, index: usize) -> &'a Instr
    requires block { index < length program.now }
    requires runner { index < length runners.now.items }
    requires at { (slice_index_or runners.now.items index nobody).machine.at < length (slice_index_or program.now index empty_block).code }
    ensures { result.now ≡ slice_index_or (slice_index_or program.now index empty_block).code (slice_index_or runners.now.items index nobody).machine.at Instr.End }
{
    instr_at(&program.items()[index], &runners[index])
}

fn instr_at<'a>(block: &'a Block, runner: &Runner) -> &'a Instr
    requires { runner.now.machine.at < length block.now.code }
    ensures { result.now ≡ slice_index_or block.now.code runner.now.machine.at Instr.End }
{
    &block.code.items()[runner.machine.at() as usize]
}

/// The place of the block at an index.
pub fn place_of(program: &Program, index: usize) -> Place
    requires { index < length program.now }
    ensures { result ≡ (slice_index_or program.now index empty_block).place }
{
    program.items()[index].place
}

/// The name at an index of a list of names.
pub fn name_at(names: &Vec<BlockName>, index: usize) -> BlockName
    requires { index < length names.now.items }
    ensures { result ≡ slice_index_or names.now.items index BlockName.Root }
{
    names[index]
}

/// What a block can do next, if this is its next instruction.
pub fn ready_by(instr: &Instr, mail: &Mailboxes, table: &BlockTable) -> Ready
    ensures { result ≡ ready_by mail.now.answers table.now instr.now }
{
    match instr {
        Instr::Copy(event) => Ready::Runs(Some(*event)),
        Instr::Usm(event, _) => Ready::Asks(*event),
        Instr::Kim(event, _, _) => Ready::Asks(*event),
        Instr::Sign(event) => Ready::Runs(Some(*event)),
        Instr::Hash(event) => Ready::Runs(Some(*event)),
        Instr::Null(event) => Ready::Runs(Some(*event)),
        Instr::Split(event, _) => Ready::Runs(Some(*event)),
        Instr::Swap => Ready::Runs(None),
        Instr::JoinSeq(event) => Ready::Runs(Some(*event)),
        Instr::Send(event, _) => Ready::Runs(Some(*event)),
        Instr::Recv(event, number) => ready_with(*event, mail.reply(*number)),
        Instr::Fork(event, _) => Ready::Runs(Some(*event)),
        Instr::JoinPar(event, number) => ready_with(*event, table.join(BlockName::Of(*number))),
        Instr::End => Ready::Runs(None),
    }
}

/// It can go on, and this event happens, if what it waits for is there.
fn ready_with(event: u32, found: Option<EvId>) -> Ready
    ensures { result ≡ ready_with event found }
{
    match found {
        Some(_) => Ready::Runs(Some(event)),
        None => Ready::Waits,
    }
}

/// The question of an instruction of a block at this place; none exactly if it is no measurement.
pub fn ask_for(instr: &Instr, place: Place, nonce: &[u8; 16]) -> Option<Ask>
    ensures { result ≡ ask_for nonce.now place instr.now }
{
    match instr {
        Instr::Usm(event, asp) => Some(question(nonce, *event, place, AskKind::Usm, asp)),
        Instr::Kim(event, target, asp) => {
            Some(question(nonce, *event, place, AskKind::Kim(*target), asp))
        }
        _ => None,
    }
}

fn question(nonce: &[u8; 16], event: u32, place: Place, kind: AskKind, asp: &Asp) -> Ask
    ensures { result ≡ record { nonce = nonce.now; event = event; place = place; kind = kind; asp = asp.now } }
{
    Ask {
        nonce: *nonce,
        event,
        place,
        kind,
        asp: asp.copy(),
    }
}

/// What a block on this evidence sends or needs with an instruction.
pub fn touched_by(instr: &Instr, name: BlockName, remote: bool, evidence: EvId) -> Touched
    ensures { result ≡ touched_by name remote evidence instr.now }
{
    match instr {
        Instr::Send(number, _) => Touched::SendsRequest {
            number: *number,
            evidence,
        },
        Instr::Recv(_, number) => Touched::NeedsReply(*number),
        Instr::End => touched_at_end(name, remote, evidence),
        _ => Touched::Nothing,
    }
}

fn touched_at_end(name: BlockName, remote: bool, evidence: EvId) -> Touched
    ensures { result ≡ touched_at_end name remote evidence }
{
    match name {
        BlockName::Root => Touched::Nothing,
        BlockName::Of(number) => {
            if remote {
                Touched::SendsReply { number, evidence }
            } else {
                Touched::Nothing
            }
        }
    }
}
