ghost use Rattle.std.specs.Prelude.{◌≡◌, ◌++◌, ◌↔◌, [], IsTrue, IfOk, OnOk};
ghost use Rattle.avm_code.specs.Order.{IsInOrder};
ghost use Rattle.branch_join.specs.Blocks.{state_of, IsInTable, with_state, result_of, not_started, none_started, put_named};

use crate::state::BlockState;
use avm_code::{Block, BlockName, Program};
use evidence_store::EvId;
use phrase_tree::NoMemory;
use rising_list::{find_in, replace_in};
use std::alloc::Global;
use std::marker::Model;

/// The states of the blocks of a program, by name.
///
/// Looking a state up and changing it take time in the logarithm of the number of blocks, and no
/// memory.
#[derive(Debug, Drop)]
pub struct BlockTable {
    root: BlockState,
    // Those of the blocks with a number, by rising number.
    others: Vec<(u32, BlockState)>,
}

impl Model for BlockTable {
    ghost use Rattle.branch_join.specs.Blocks.{Blocks};
    ghost use Rattle.rising_list.specs.Rising.{RisesFrom};

    ghost Value = { Blocks };

    ghost view = { λ table. record { root = table.root; others = table.others.items } };

    ghost invariant = { λ table. RisesFrom 0 table.others.items };
}

impl BlockTable {
    /// The table of the blocks of a program, none of which is started. An error is want of memory.
    /// Takes time linear in the number of blocks.
    pub fn of(alloc: Global, program: &Program) -> Result<BlockTable, NoMemory>
        requires { IsInOrder program.now }
        ensures { IfOk result (λ table. table ≡ not_started program.now) }
    {
        let others = numbered(alloc, program.items())?;
        Ok(BlockTable {
            root: BlockState::NotStarted,
            others,
        })
    }

    /// Whether a block is in the table.
    pub fn has(&self, name: BlockName) -> bool
        ensures { IsTrue result ↔ IsInTable self.now name }
    {
        match name {
            BlockName::Root => true,
            BlockName::Of(number) => find_in(&self.others, number).is_some(),
        }
    }

    /// Starts a block.
    pub fn start(&mut self, name: BlockName)
        requires there { IsInTable self.old name }
        requires not_started { state_of self.old name ≡ BlockState.NotStarted }
        ensures { self.new ≡ with_state name BlockState.Running self.old }
    {
        self.set(name, BlockState::Running);
    }

    /// Ends a block that runs, with its result.
    pub fn end(&mut self, name: BlockName, evidence: EvId)
        requires { state_of self.old name ≡ BlockState.Running }
        ensures { self.new ≡ with_state name (BlockState.Ended evidence) self.old }
    {
        self.set(name, BlockState::Ended(evidence));
    }

    /// The result of a block; none exactly when the block isn't over.
    pub fn join(&self, name: BlockName) -> Option<EvId>
        ensures { result ≡ result_of (state_of self.now name) }
    {
        match self.state(name) {
            BlockState::Ended(result) => Some(result),
            BlockState::Running => None,
            BlockState::NotStarted => None,
        }
    }

    /// How a block stands.
    pub fn state(&self, name: BlockName) -> BlockState
        ensures { result ≡ state_of self.now name }
    {
        match name {
            BlockName::Root => self.root,
            BlockName::Of(number) => match find_in(&self.others, number) {
                Some(state) => state,
                None => BlockState::NotStarted,
            },
        }
    }

    fn set(&mut self, name: BlockName, state: BlockState)
        requires { IsInTable self.old name }
        ensures { self.new ≡ with_state name state self.old }
    {
        match name {
            BlockName::Root => self.root = state,
            BlockName::Of(number) => replace_in(&mut self.others, number, state),
        }
    }
}

/// The numbers of these blocks, each not started.
fn numbered(alloc: Global, blocks: &[Block]) -> Result<Vec<(u32, BlockState)>, NoMemory>
    ensures { IfOk result (λ others. others.items ≡ none_started blocks.now) }
{
    let mut others = Vec::with_capacity(alloc, blocks.len())?;
    for block in blocks {
        push_named(&mut others, block.name)?;
    }
    Ok(others)
}

fn push_named(others: &mut Vec<(u32, BlockState)>, name: BlockName) -> Result<(), NoMemory>
    ensures { OnOk result (others.new.items ≡ others.old.items ++ put_named name []) }
{
    match name {
        BlockName::Root => Ok(()),
        BlockName::Of(number) => match others.push((number, BlockState::NotStarted)) {
            Ok(()) => Ok(()),
            Err(_) => Err(NoMemory),
        },
    }
}
