ghost use Rattle.std.specs.Prelude.{◌≡◌, ◌<◌, ◌^◌, ◌+◌, ℕ, List, [], ◌∷◌, ◌++◌, OnOk, IfOk, length, vec_len, slice_set};
ghost use Rattle.phrase_tree.specs.Term.{term};
ghost use Rattle.phrase_tree.specs.Numbering.{event_count, IsSized};
ghost use Rattle.avm_code.specs.declared.instr.Instr.{Instr};
ghost use Rattle.avm_code.specs.Blocks.{block};
ghost use Rattle.avm_compile.specs.Program.{code_of, blocks_of, program_of};

use avm_code::{Block, BlockName, Code, Instr, Program};
use phrase_tree::{NoMemory, Phrase, Place};
use std::alloc::Global;

fn push_instr(code: &mut Vec<Instr>, instr: Instr) -> Result<(), NoMemory>
    ensures { OnOk result (code.new.items ≡ code.old.items ++ instr ∷ []) }
{
    code.push(instr)?;
    Ok(())
}

// The instruction of a leaf, and the number behind it.
fn push_leaf(code: &mut Vec<Instr>, number: u32, instr: Instr) -> Result<u32, NoMemory>
    requires { number + 1 < 2 ^ 32 }
    ensures next { IfOk result (λ next. next ≡ number + 1) }
    ensures code { OnOk result (code.new.items ≡ code.old.items ++ instr ∷ []) }
{
    push_instr(code, instr)?;
    Ok(number + 1)
}

// A block whose code is still to come, ahead of the blocks inside it; the result is its index.
fn open_block(
    alloc: Global,
    blocks: &mut Vec<Block>,
    number: u32,
    place: Place,
) -> Result<usize, NoMemory>
    ensures slot { IfOk result (λ slot. slot ≡ length blocks.old.items) }
    ensures blocks { OnOk result
        (blocks.new.items ≡ blocks.old.items ++ block (BlockName.Of number) place [] ∷ []) }
{
    let slot = blocks.len();
    blocks.push(Block {
        place,
        name: BlockName::Of(number),
        code: Code::of(Vec::new(alloc)),
    })?;
    Ok(slot)
}

// The block at an index, with its code and the end.
fn close_block(
    blocks: &mut Vec<Block>,
    slot: usize,
    number: u32,
    place: Place,
    mut code: Vec<Instr>,
) -> Result<(), NoMemory>
    requires { slot < vec_len blocks.old }
    ensures { OnOk result (blocks.new.items ≡ slice_set blocks.old.items slot
        (block (BlockName.Of number) place (code.items ++ Instr.End ∷ []))) }
{
    push_instr(&mut code, Instr::End)?;
    blocks[slot] = Block {
        place,
        name: BlockName::Of(number),
        code: Code::of(code),
    };
    Ok(())
}

// The code of a part of a phrase behind the code of its block, and the blocks inside it behind the
// others; the result is the number behind the part.
#[cycle(compiling)]
fn part(
    alloc: Global,
    phrase: &Phrase,
    place: Place,
    number: u32,
    code: &mut Vec<Instr>,
    blocks: &mut Vec<Block>,
) -> Result<u32, NoMemory>
    requires { number + event_count (term phrase.now) < 2 ^ 32 }
    ensures next { IfOk result (λ next. next ≡ number + event_count (term phrase.now)) }
    ensures code { OnOk result ((rest : List Instr) →
        code.new.items ++ rest ≡ code.old.items ++ code_of (term phrase.now) number rest) }
    ensures blocks { OnOk result
        (blocks.new.items ≡ blocks.old.items ++ blocks_of (term phrase.now) place number) }
{
    match phrase {
        Phrase::Cpy => push_leaf(code, number, Instr::Copy(number)),
        Phrase::Sig => push_leaf(code, number, Instr::Sign(number)),
        Phrase::Hsh => push_leaf(code, number, Instr::Hash(number)),
        Phrase::Nul => push_leaf(code, number, Instr::Null(number)),
        Phrase::Usm(asp) => push_leaf(code, number, Instr::Usm(number, asp.copy())),
        Phrase::Kim(target, asp) => push_leaf(
            code,
            number,
            Instr::Kim(number, *target, asp.copy()),
        ),
        Phrase::At(asked, body) => {
            push_instr(code, Instr::Send(number, *asked))?;
            let slot = open_block(alloc, blocks, number, *asked)?;
            let mut inner = Vec::new(alloc);
            let last = part(alloc, body, *asked, number + 1, &mut inner, blocks)?;
            close_block(blocks, slot, number, *asked, inner)?;
            push_instr(code, Instr::Recv(last, number))?;
            Ok(last + 1)
        }
        Phrase::Then(left, right) => {
            let next = chained(alloc, left, place, number, code, blocks)?;
            part(alloc, right, place, next, code, blocks)
        }
        Phrase::Seq(split, left, right) => {
            push_instr(code, Instr::Split(number, *split))?;
            let next = part(alloc, left, place, number + 1, code, blocks)?;
            push_instr(code, Instr::Swap)?;
            let last = part(alloc, right, place, next, code, blocks)?;
            push_instr(code, Instr::JoinSeq(last))?;
            Ok(last + 1)
        }
        Phrase::Par(split, left, right) => {
            push_instr(code, Instr::Fork(number, *split))?;
            let slot = open_block(alloc, blocks, number, place)?;
            let next = part(alloc, left, place, number + 1, code, blocks)?;
            let mut arm = Vec::new(alloc);
            let last = part(alloc, right, place, next, &mut arm, blocks)?;
            close_block(blocks, slot, number, place, arm)?;
            push_instr(code, Instr::JoinPar(last, number))?;
            Ok(last + 1)
        }
    }
}

// The same, in a frame of its own that is small: a chain nests as deep as it is long, while all other
// nesting is of brackets, of which few are open.
#[cycle(compiling)]
fn chained(
    alloc: Global,
    phrase: &Phrase,
    place: Place,
    number: u32,
    code: &mut Vec<Instr>,
    blocks: &mut Vec<Block>,
) -> Result<u32, NoMemory>
    requires { number + event_count (term phrase.now) < 2 ^ 32 }
    ensures next { IfOk result (λ next. next ≡ number + event_count (term phrase.now)) }
    ensures code { OnOk result ((rest : List Instr) →
        code.new.items ++ rest ≡ code.old.items ++ code_of (term phrase.now) number rest) }
    ensures blocks { OnOk result
        (blocks.new.items ≡ blocks.old.items ++ blocks_of (term phrase.now) place number) }
{
    match phrase {
        Phrase::Then(left, right) => {
            let next = chained(alloc, left, place, number, code, blocks)?;
            part(alloc, right, place, next, code, blocks)
        }
        _ => part(alloc, phrase, place, number, code, blocks),
    }
}

/// The program of a phrase at a place: the root block first, the others by rising number of the
/// request or the branch that starts them. An error is want of memory. One pass over the phrase, in
/// time linear in it.
pub fn compile(alloc: Global, phrase: &Phrase, place: Place) -> Result<Program, NoMemory>
    requires { IsSized (term phrase.now) }
    ensures { IfOk result (λ program. program ≡ program_of (term phrase.now) place) }
{
    let mut blocks = Vec::new(alloc);
    blocks.push(Block {
        place,
        name: BlockName::Root,
        code: Code::of(Vec::new(alloc)),
    })?;
    let mut root = Vec::new(alloc);
    part(alloc, phrase, place, 0, &mut root, &mut blocks)?;
    push_instr(&mut root, Instr::End)?;
    blocks[0] = Block {
        place,
        name: BlockName::Root,
        code: Code::of(root),
    };
    Ok(Program::of(blocks))
}
