ghost use Rattle.std.specs.Prelude.{◌≡◌, IfOk, map};
ghost use Rattle.std.specs.List.{list_any};
ghost use Rattle.avm_code.specs.Blocks.{awaits, waiting_for};
ghost use Rattle.machine_world.specs.World.{waiter_of, waiter_by};

use avm_code::{Block, BlockName, Instr};
use phrase_tree::NoMemory;
use std::alloc::Global;

/// The block that waits for each block, in the order of the program. Takes time in the square of the
/// program's length.
pub fn waiters(alloc: Global, blocks: &[Block]) -> Result<Vec<BlockName>, NoMemory>
    ensures { IfOk result (λ waiters. waiters.items ≡ map (waiter_of blocks.now) blocks.now) }
{
    let mut waiters = Vec::with_capacity(alloc, blocks.len())?;
    for block in blocks {
        waiters.push_reserved(waiter_by(blocks, block.name));
    }
    Ok(waiters)
}

fn waiter_by(blocks: &[Block], name: BlockName) -> BlockName
    ensures { result ≡ waiter_by blocks.now name }
{
    match name {
        BlockName::Root => BlockName::Root,
        BlockName::Of(number) => waiter_among(blocks, number),
    }
}

fn waiter_among(blocks: &[Block], number: u32) -> BlockName
    ensures { result ≡ waiting_for number blocks.now }
{
    for block in blocks {
        if code_awaits(block.code.items(), number) {
            return block.name;
        }
    }
    BlockName::Root
}

fn code_awaits(code: &[Instr], number: u32) -> bool
    ensures { result ≡ list_any (awaits number) code.now }
{
    code.iter().any(|instr| awaits(instr, number))
}

fn awaits(instr: &Instr, number: u32) -> bool
    ensures { result ≡ awaits number instr.now }
{
    match instr {
        Instr::Recv(_, name) => *name == number,
        Instr::JoinPar(_, name) => *name == number,
        _ => false,
    }
}
