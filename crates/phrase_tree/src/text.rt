ghost use Rattle.std.specs.Prelude.{◌≡◌, ◌∷◌, ◌++◌, decimal, OnOk};
ghost use Rattle.phrase_tree.specs.Text.{arg_text, args_text, asp_text, IsArg, AreArgs, IsAsp};

use crate::measurement::{Arg, Asp};
use crate::memory::NoMemory;
use itoa::Buffer;

/// Appends these bytes to a text. An error is want of memory.
pub fn push_bytes(text: &mut Vec<u8>, bytes: &[u8]) -> Result<(), NoMemory>
    ensures { OnOk result (text.new.items ≡ text.old.items ++ bytes.now) }
{
    text.extend_from_slice(bytes)?;
    Ok(())
}

/// Appends a number in decimal digits. An error is want of memory.
pub fn push_decimal(text: &mut Vec<u8>, number: u32) -> Result<(), NoMemory>
    ensures { OnOk result (text.new.items ≡ text.old.items ++ decimal number) }
{
    let mut buffer = Buffer::new();
    push_bytes(text, buffer.format(number).as_bytes())
}

fn push_arg(text: &mut Vec<u8>, arg: &Arg) -> Result<(), NoMemory>
    ensures text { OnOk result (text.new.items ≡ text.old.items ++ arg_text arg.now) }
    ensures written { IsArg arg.now }
{
    match arg {
        Arg::Word(name) => push_bytes(text, name.bytes()),
        Arg::Number(number) => push_decimal(text, *number),
    }
}

fn push_args(text: &mut Vec<u8>, args: &[Arg]) -> Result<(), NoMemory>
    ensures { OnOk result ((text.new.items ≡ text.old.items ++ args_text args.now) × AreArgs args.now) }
{
    let [first, rest @ ..] = args else {
        return Ok(());
    };
    push_bytes(text, b" ")?;
    push_arg(text, first)?;
    push_args(text, rest)
}

/// Appends a measurement: its name and its arguments, with single spaces between. An error is want
/// of memory.
pub fn push_asp(text: &mut Vec<u8>, asp: &Asp) -> Result<(), NoMemory>
    ensures { OnOk result ((text.new.items ≡ text.old.items ++ asp_text asp.now) × IsAsp asp.now) }
{
    push_bytes(text, asp.name.bytes())?;
    push_args(text, asp.args.items())
}
