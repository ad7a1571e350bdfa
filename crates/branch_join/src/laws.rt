ghost use Rattle.std.specs.Prelude.{◌≡◌, List, if◌then◌else◌};
ghost use Rattle.avm_code.specs.declared.instr.BlockName.{BlockName};
ghost use Rattle.avm_code.specs.declared.program.Block.{Block};
ghost use Rattle.avm_code.specs.Order.{HasBlock};
ghost use Rattle.branch_join.specs.declared.state.BlockState.{BlockState};
ghost use Rattle.branch_join.specs.Blocks.{Blocks, state_of, IsInTable, with_state, not_started, is_same};

/// A change of one block's state affects that block alone, and leaves every name in the table.
pub fn one_block_changes()
    ensures states { (blocks : Blocks) (name other : BlockName) (state : BlockState) → IsInTable blocks name →
        state_of (with_state name state blocks) other ≡ (if is_same name other then state else state_of blocks other) }
    ensures names { (blocks : Blocks) (name other : BlockName) (state : BlockState) → IsInTable blocks name →
        IsInTable blocks other → IsInTable (with_state name state blocks) other }
{}

/// The table of a program has its blocks, and none is started.
pub fn no_block_is_started()
    ensures there { (program : List Block) (name : BlockName) → HasBlock program name → IsInTable (not_started program) name }
    ensures states { (program : List Block) (name : BlockName) → state_of (not_started program) name ≡ BlockState.NotStarted }
{}
