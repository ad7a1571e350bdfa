ghost use Rattle.std.specs.Prelude.{◌≡◌, ◌++◌, OnOk, codes, decimal};
ghost use Rattle.phrase_tree.specs.Term.{term};
ghost use Rattle.evidence_types.specs.Measure.{worst_weight};
ghost use Rattle.place_check.specs.Session.{IsBounded, session_of};
ghost use Rattle.report_text.specs.Events.{events_text};
ghost use Rattle.report_text.specs.Sessions.{check_text, checked_text, code_text, session_head, shape_line, sizes_text};

use crate::events::events_text;
use avm_code::listing;
use avm_compile::compile;
use evidence_types::{shape_of, shape_text, worst};
use itoa::Buffer;
use phrase_reader::print;
use phrase_tree::{NoMemory, Phrase, push_bytes, push_decimal};
use place_check::Checked;

/// Appends how many events a session's phrase has, what its evidence weighs at most, and its canonical
/// text.
pub fn push_check(text: &mut Vec<u8>, number: u32, checked: &Checked) -> Result<(), NoMemory>
    ensures { OnOk result (text.new.items ≡ text.old.items ++ check_text number (session_of checked.now)) }
{
    let phrase = checked.phrase();
    let printed = print(*text.allocator(), phrase)?;
    push_checked(
        text,
        number,
        phrase.events(),
        heaviest(phrase),
        printed.items(),
    )
}

fn push_checked(
    text: &mut Vec<u8>,
    number: u32,
    events: u32,
    weight: u32,
    printed: &[u8],
) -> Result<(), NoMemory>
    ensures { OnOk result (text.new.items ≡ text.old.items ++ checked_text number events weight printed.now) }
{
    push_head(text, number as usize)?;
    push_sizes(text, events, weight)?;
    push_bytes(text, b"\nphrase ")?;
    push_bytes(text, printed)?;
    push_bytes(text, b"\n")
}

fn push_sizes(text: &mut Vec<u8>, events: u32, weight: u32) -> Result<(), NoMemory>
    ensures { OnOk result (text.new.items ≡ text.old.items ++ sizes_text events weight) }
{
    push_bytes(text, b" ok events ")?;
    push_decimal(text, events)?;
    push_bytes(text, b" weight ")?;
    push_decimal(text, weight)
}

/// The greatest weight of a phrase's evidence, which is nowhere over the limit.
fn heaviest(phrase: &Phrase) -> u32
    requires { IsBounded (term phrase.now) }
    ensures { result ≡ worst_weight (term phrase.now) }
{
    worst(phrase)
}

/// Appends the shape of a session's evidence.
pub fn push_shape(text: &mut Vec<u8>, number: u32, checked: &Checked) -> Result<(), NoMemory>
    ensures { OnOk result (text.new.items ≡ text.old.items ++ shape_line number (session_of checked.now)) }
{
    let alloc = *text.allocator();
    let shape = shape_of(alloc, checked.phrase(), checked.root())?;
    let written = shape_text(alloc, &shape)?;
    push_head(text, number as usize)?;
    push_bytes(text, b" shape ")?;
    push_bytes(text, written.items())?;
    push_bytes(text, b"\n")
}

/// Appends the events of a session's phrase, with their direct predecessors.
pub fn push_events(text: &mut Vec<u8>, number: u32, checked: &Checked) -> Result<(), NoMemory>
    ensures { OnOk result (text.new.items ≡ text.old.items ++ events_text number (term checked.now.phrase) checked.now.root) }
{
    let alloc = *text.allocator();
    let written = events_text(alloc, number, checked.phrase(), checked.root())?;
    push_bytes(text, written.items())
}

/// Appends the blocks that a session's phrase is compiled to.
pub fn push_code(text: &mut Vec<u8>, number: u32, checked: &Checked) -> Result<(), NoMemory>
    ensures { OnOk result (text.new.items ≡ text.old.items ++ code_text number (session_of checked.now)) }
{
    let alloc = *text.allocator();
    let program = compile(alloc, checked.phrase(), checked.root())?;
    let written = listing(alloc, &program)?;
    push_listed(text, number, written.items())
}

fn push_listed(text: &mut Vec<u8>, number: u32, written: &[u8]) -> Result<(), NoMemory>
    ensures { OnOk result (text.new.items ≡ text.old.items ++ (session_head number ++ (codes " code\n" ++ written.now))) }
{
    push_head(text, number as usize)?;
    push_bytes(text, b" code\n")?;
    push_bytes(text, written)
}

/// Appends the first words of a session's lines.
pub fn push_head(text: &mut Vec<u8>, number: usize) -> Result<(), NoMemory>
    ensures { OnOk result (text.new.items ≡ text.old.items ++ session_head number) }
{
    push_bytes(text, b"session ")?;
    push_bytes(text, Buffer::new().format(number).as_bytes())
}
