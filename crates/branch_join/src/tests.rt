ghost use Rattle.std.specs.Prelude.{◌≡◌, ◌∷◌, ◌++◌, [], IfOk, OnOk};
ghost use Rattle.avm_code.specs.Order.{IsInOrder};

use crate::{BlockState, BlockTable};
use avm_code::{Block, BlockName, Code, Program};
use evidence_store::{EvId, Store};
use phrase_tree::{Name, NoMemory, Place};
use std::alloc::Global;
use std::test::Fail;

fn empty_block(alloc: Global, name: BlockName, place: Place) -> Block
    ensures name { result.name ≡ name }
    ensures place { result.place ≡ place }
{
    Block {
        place,
        name,
        code: Code::of(Vec::new(alloc)),
    }
}

fn push(program: &mut Program, block: Block) -> Result<(), NoMemory>
    ensures { OnOk result (program.new ≡ program.old ++ block ∷ []) }
{
    match program.push(block) {
        Ok(()) => Ok(()),
        Err(_) => Err(NoMemory),
    }
}

/// A program of the root block, and blocks 2 and 5.
fn three_blocks(alloc: Global, place: Place) -> Result<Program, NoMemory>
    ensures { IfOk result (λ program. IsInOrder program) }
{
    let mut program = Program::of(Vec::new(alloc));
    push(&mut program, empty_block(alloc, BlockName::Root, place))?;
    push(&mut program, empty_block(alloc, BlockName::Of(2), place))?;
    push(&mut program, empty_block(alloc, BlockName::Of(5), place))?;
    Ok(program)
}

/// Whether the block was there and not started; then it runs.
fn starts(table: &mut BlockTable, name: BlockName) -> bool {
    if !table.has(name) {
        return false;
    }
    match table.state(name) {
        BlockState::NotStarted => {
            table.start(name);
            true
        }
        BlockState::Running => false,
        BlockState::Ended(_) => false,
    }
}

/// Whether the block ran; then it is over.
fn ends(table: &mut BlockTable, name: BlockName, evidence: EvId) -> bool {
    match table.state(name) {
        BlockState::Running => {
            table.end(name, evidence);
            true
        }
        BlockState::NotStarted => false,
        BlockState::Ended(_) => false,
    }
}

#[test]
fn each_block_stands_by_itself(rt: HostRuntime) -> Result<(), Fail> {
    let mut store = Store::open(rt.alloc(), 2)?;
    let first = store.empty()?;
    let second = store.empty()?;
    let place = Name::read("p").unwrap();
    let program = three_blocks(rt.alloc(), place)?;
    let mut table = BlockTable::of(rt.alloc(), &program)?;
    assert!(rt; starts(&mut table, BlockName::Root));
    assert!(rt; !starts(&mut table, BlockName::Root));
    assert!(rt; !starts(&mut table, BlockName::Of(4)));
    assert!(rt; starts(&mut table, BlockName::Of(5)));
    assert_eq!(rt; table.state(BlockName::Of(2)), BlockState::NotStarted);
    assert_eq!(rt; table.join(BlockName::Of(5)), None);
    assert!(rt; ends(&mut table, BlockName::Of(5), second));
    assert!(rt; !ends(&mut table, BlockName::Of(5), first));
    assert_eq!(rt; table.join(BlockName::Of(5)), Some(second));
    assert_eq!(rt; table.join(BlockName::Of(2)), None);
    assert_eq!(rt; table.state(BlockName::Root), BlockState::Running);
    assert!(rt; ends(&mut table, BlockName::Root, first));
    assert_eq!(rt; table.state(BlockName::Root), BlockState::Ended(first));
    assert!(rt; starts(&mut table, BlockName::Of(2)));
    assert_eq!(rt; table.state(BlockName::Of(5)), BlockState::Ended(second));
    Ok(())
}
