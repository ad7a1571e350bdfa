ghost use Rattle.avm_core.specs.Programs.{ProgramsRun};

use avm_compile::{code_ends_once, code_is_short, names_are_in_order, stacks_fit};

/// Machines can run the program of every sized phrase, with the keys of the places at which its blocks
/// seal.
pub fn programs_run()
    ensures { ProgramsRun }
{
    names_are_in_order();
    code_ends_once();
    code_is_short();
    stacks_fit();
}
