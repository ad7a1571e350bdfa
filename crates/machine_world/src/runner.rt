ghost use Rattle.std.specs.Prelude.{◌≡◌, IfOk, false};
ghost use Rattle.std.specs.List.{AllByRecursion};
ghost use Rattle.machine_world.specs.World.{RunTogether, Starts};

use avm_code::Block;
use avm_core::Machine;
use evidence_store::EvId;
use phrase_tree::NoMemory;
use std::alloc::Global;

/// The machine of a block, and whether the block runs a request, to which its result is the reply.
#[derive(Debug, Drop)]
pub struct Runner {
    pub machine: Machine,
    pub remote: bool,
}

/// A machine for each block, at its start on this evidence.
pub fn idle(alloc: Global, blocks: &[Block], first: EvId) -> Result<Vec<Runner>, NoMemory>
    ensures together { IfOk result (λ runners. RunTogether (Starts first) blocks.now runners.items) }
    ensures arms { IfOk result (λ runners. AllByRecursion (λ runner. runner.remote ≡ false) runners.items) }
{
    let mut runners = Vec::with_capacity(alloc, blocks.len())?;
    for block in blocks {
        runners.push_reserved(Runner {
            machine: Machine::start(block.name, first),
            remote: false,
        });
    }
    Ok(runners)
}
