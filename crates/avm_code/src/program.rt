ghost use Rattle.std.specs.Prelude.{◌≡◌, ◌<◌, [], ◌∷◌, ◌++◌, length, slice_index_or, nat_lt, OnOk, IfErr, OnErr};
ghost use Rattle.std.specs.List.{list_any};
ghost use Rattle.avm_code.specs.Blocks.{asks_for, is_remote};
ghost use Rattle.avm_code.specs.Order.{number_after, IsInOrder, HasBlock, IsAt, place_called, code_called};

use crate::instr::{BlockName, Instr};
use phrase_tree::Place;
use std::marker::Model;

/// The instructions of a block in order.
#[derive(Debug, Drop)]
pub struct Code {
    instrs: Vec<Instr>,
}

impl Model for Code {
    ghost use Rattle.std.specs.Prelude.{List};
    ghost use Rattle.avm_code.specs.declared.instr.Instr.{Instr};

    ghost Value = { List Instr };

    ghost view = { λ code. code.instrs.items };
}

impl Code {
    /// The code of these instructions.
    pub fn of(items: Vec<Instr>) -> Code
        ensures { result ≡ items.items }
    {
        Code { instrs: items }
    }

    pub fn items(&self) -> &[Instr]
        ensures { result.now ≡ self.now }
    {
        &self.instrs
    }

    /// Appends an instruction. An error is want of memory: it hands the instruction back, and the code
    /// is unchanged.
    pub fn push(&mut self, item: Instr) -> Result<(), Instr>
        ensures ok { OnOk result (self.new ≡ self.old ++ item ∷ []) }
        ensures handed_back { IfErr result (λ instr. instr ≡ item) }
        ensures err { OnErr result (self.new ≡ self.old) }
    {
        match self.instrs.push(item) {
            Ok(()) => Ok(()),
            Err(refused) => Err(refused.value),
        }
    }
}

/// A block of code: the place at which a machine runs it, and its name.
#[derive(Debug, Drop)]
pub struct Block {
    pub place: Place,
    pub name: BlockName,
    pub code: Code,
}

/// The blocks of a session's program in order.
#[derive(Debug, Drop)]
pub struct Program {
    blocks: Vec<Block>,
}

impl Model for Program {
    ghost use Rattle.std.specs.Prelude.{List};
    ghost use Rattle.avm_code.specs.declared.program.Block.{Block};

    ghost Value = { List Block };

    ghost view = { λ program. program.blocks.items };
}

impl Program {
    /// The program of these blocks.
    pub fn of(items: Vec<Block>) -> Program
        ensures { result ≡ items.items }
    {
        Program { blocks: items }
    }

    pub fn items(&self) -> &[Block]
        ensures { result.now ≡ self.now }
    {
        &self.blocks
    }

    /// Whether a place is asked to run the block with this number: then its result is the reply to a
    /// request, otherwise it is that of a right arm. Takes no memory, and time linear in the program.
    pub fn is_remote(&self, number: u32) -> bool
        ensures { result ≡ is_remote self.now number }
    {
        self.items()
            .iter()
            .any(|block| code_asks_for(block.code.items(), number))
    }

    /// The index of the block of a name. Takes no memory, and time in the logarithm of the number of
    /// blocks.
    pub fn index_of(&self, name: BlockName) -> usize
        requires order { IsInOrder self.now }
        requires there { HasBlock self.now name }
        ensures { IsAt self.now name result }
    {
        index_among(&self.blocks, name)
    }

    /// The block of a name, in the same time.
    pub fn block(&self, name: BlockName) -> &Block
        requires order { IsInOrder self.now }
        requires there { HasBlock self.now name }
        ensures named { result.now.name ≡ name }
        ensures place { result.now.place ≡ place_called self.now name }
        ensures code { result.now.code ≡ code_called self.now name }
    {
        block_at(&self.blocks, self.index_of(name))
    }

    /// Appends a block. An error is want of memory: it hands the block back, and the program is
    /// unchanged.
    pub fn push(&mut self, item: Block) -> Result<(), Block>
        ensures ok { OnOk result (self.new ≡ self.old ++ item ∷ []) }
        ensures handed_back { IfErr result (λ block. block ≡ item) }
        ensures err { OnErr result (self.new ≡ self.old) }
    {
        match self.blocks.push(item) {
            Ok(()) => Ok(()),
            Err(refused) => Err(refused.value),
        }
    }
}

fn asks_for(instr: &Instr, number: u32) -> bool
    ensures { result ≡ asks_for number instr.now }
{
    match instr {
        Instr::Send(event, _) => *event == number,
        _ => false,
    }
}

fn code_asks_for(code: &[Instr], number: u32) -> bool
    ensures { result ≡ list_any (asks_for number) code.now }
{
    code.iter().any(|instr| asks_for(instr, number))
}

/// The rank of a name in the order of names: first the root, then the numbers.
fn rank(name: BlockName) -> u64
    ensures { result ≡ number_after name }
{
    match name {
        BlockName::Root => 0,
        BlockName::Of(number) => number as u64 + 1,
    }
}

fn comes_before(block: &Block, name: BlockName) -> bool
    ensures { result ≡ nat_lt (number_after block.now.name) (number_after name) }
{
    rank(block.name) < rank(name)
}

/// The index of the block of a name, by binary search.
fn index_among(blocks: &[Block], name: BlockName) -> usize
    requires order { IsInOrder blocks.now }
    requires there { HasBlock blocks.now name }
    ensures { IsAt blocks.now name result }
{
    let mut low = 0;
    let mut high = blocks.len();
    while low < high {
        let middle = low + (high - low) / 2;
        if comes_before(&blocks[middle], name) {
            low = middle + 1;
        } else {
            high = middle;
        }
    }
    low
}

fn block_at(blocks: &[Block], index: usize) -> &Block
    requires { index < length blocks.now }
    ensures { result.now ≡ slice_index_or blocks.now index result.now }
{
    &blocks[index]
}
