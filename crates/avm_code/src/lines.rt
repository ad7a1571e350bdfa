ghost use Rattle.std.specs.Prelude.{◌≡◌, ◌++◌, ◌∷◌, codes, decimal, IfOk, OnOk};
ghost use Rattle.phrase_tree.specs.Text.{asp_text};
ghost use Rattle.avm_code.specs.Text.{signs_text};
ghost use Rattle.avm_code.specs.Listing.{name_text, instr_text, code_text, block_text, listing_text};

use crate::instr::{BlockName, Instr};
use crate::program::{Block, Program};
use crate::text::push_signs;
use byte_ports::Bytes;
use phrase_tree::{Asp, NoMemory, Place, Split, push_asp, push_bytes, push_decimal};
use std::alloc::Global;

fn push_numbered(text: &mut Vec<u8>, word: &[u8], number: u32) -> Result<(), NoMemory>
    ensures { OnOk result (text.new.items ≡ text.old.items ++ (word.now ++ decimal number)) }
{
    push_bytes(text, word)?;
    push_decimal(text, number)
}

fn push_measuring(text: &mut Vec<u8>, word: &[u8], number: u32, asp: &Asp) -> Result<(), NoMemory>
    ensures { OnOk result
        (text.new.items ≡ text.old.items ++ (word.now ++ decimal number ++ codes " " ++ asp_text asp.now)) }
{
    push_numbered(text, word, number)?;
    push_bytes(text, b" ")?;
    push_asp(text, asp)
}

fn push_placed(text: &mut Vec<u8>, word: &[u8], number: u32, place: &Place) -> Result<(), NoMemory>
    ensures { OnOk result
        (text.new.items ≡ text.old.items ++ (word.now ++ decimal number ++ codes " " ++ place.now)) }
{
    push_numbered(text, word, number)?;
    push_bytes(text, b" ")?;
    push_bytes(text, place.bytes())
}

fn push_targeted(
    text: &mut Vec<u8>,
    word: &[u8],
    number: u32,
    target: &Place,
    asp: &Asp,
) -> Result<(), NoMemory>
    ensures { OnOk result
        (text.new.items ≡ text.old.items ++ (word.now
        ++ decimal number ++ codes " " ++ target.now ++ codes " " ++ asp_text asp.now)) }
{
    push_placed(text, word, number, target)?;
    push_bytes(text, b" ")?;
    push_asp(text, asp)
}

fn push_branching(
    text: &mut Vec<u8>,
    word: &[u8],
    number: u32,
    split: Split,
) -> Result<(), NoMemory>
    ensures { OnOk result
        (text.new.items ≡ text.old.items ++ (word.now ++ decimal number ++ codes " " ++ signs_text split)) }
{
    push_numbered(text, word, number)?;
    push_bytes(text, b" ")?;
    push_signs(text, split)
}

fn push_naming(text: &mut Vec<u8>, word: &[u8], number: u32, name: u32) -> Result<(), NoMemory>
    ensures { OnOk result
        (text.new.items ≡ text.old.items ++ (word.now ++ decimal number ++ codes " " ++ decimal name)) }
{
    push_numbered(text, word, number)?;
    push_bytes(text, b" ")?;
    push_decimal(text, name)
}

fn push_instr(text: &mut Vec<u8>, instr: &Instr) -> Result<(), NoMemory>
    ensures { OnOk result (text.new.items ≡ text.old.items ++ instr_text instr.now) }
{
    match instr {
        Instr::Copy(event) => push_numbered(text, b"copy ", *event),
        Instr::Usm(event, asp) => push_measuring(text, b"usm ", *event, asp),
        Instr::Kim(event, target, asp) => push_targeted(text, b"kim ", *event, target, asp),
        Instr::Sign(event) => push_numbered(text, b"sign ", *event),
        Instr::Hash(event) => push_numbered(text, b"hash ", *event),
        Instr::Null(event) => push_numbered(text, b"null ", *event),
        Instr::Split(event, split) => push_branching(text, b"split ", *event, *split),
        Instr::Swap => push_bytes(text, b"swap"),
        Instr::JoinSeq(event) => push_numbered(text, b"joinseq ", *event),
        Instr::Send(event, place) => push_placed(text, b"send ", *event, place),
        Instr::Recv(event, name) => push_naming(text, b"recv ", *event, *name),
        Instr::Fork(event, split) => push_branching(text, b"fork ", *event, *split),
        Instr::JoinPar(event, name) => push_naming(text, b"joinpar ", *event, *name),
        Instr::End => push_bytes(text, b"end"),
    }
}

fn push_line(text: &mut Vec<u8>, instr: &Instr) -> Result<(), NoMemory>
    ensures { OnOk result (text.new.items ≡ text.old.items ++ (instr_text instr.now ++ codes "\n")) }
{
    push_instr(text, instr)?;
    push_bytes(text, b"\n")
}

fn push_code(text: &mut Vec<u8>, code: &[Instr]) -> Result<(), NoMemory>
    ensures { OnOk result (text.new.items ≡ text.old.items ++ code_text code.now) }
{
    for instr in code {
        push_line(text, instr)?;
    }
    Ok(())
}

fn push_name(text: &mut Vec<u8>, name: BlockName) -> Result<(), NoMemory>
    ensures { OnOk result (text.new.items ≡ text.old.items ++ name_text name) }
{
    match name {
        BlockName::Root => push_bytes(text, b"root"),
        BlockName::Of(number) => push_decimal(text, number),
    }
}

fn push_block(text: &mut Vec<u8>, block: &Block) -> Result<(), NoMemory>
    ensures { OnOk result (text.new.items ≡ text.old.items ++ block_text block.now) }
{
    push_bytes(text, b"block ")?;
    push_name(text, block.name)?;
    push_bytes(text, b" at ")?;
    push_bytes(text, block.place.bytes())?;
    push_bytes(text, b"\n")?;
    push_code(text, block.code.items())
}

fn push_blocks(text: &mut Vec<u8>, blocks: &[Block]) -> Result<(), NoMemory>
    ensures { OnOk result (text.new.items ≡ text.old.items ++ listing_text blocks.now) }
{
    for block in blocks {
        push_block(text, block)?;
    }
    Ok(())
}

/// The program in text: for each block a line with its name and place, and then one line for each
/// instruction. An error is want of memory. Takes time linear in the text.
pub fn listing(alloc: Global, program: &Program) -> Result<Bytes, NoMemory>
    ensures { IfOk result (λ text. text ≡ listing_text program.now) }
{
    let mut text = Vec::new(alloc);
    push_blocks(&mut text, program.items())?;
    Ok(Bytes::of(text))
}
