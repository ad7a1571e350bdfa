ghost use Rattle.std.specs.Prelude.{◌≡◌, ◌++◌, decimal, IfOk, OnOk};
ghost use Rattle.report_text.specs.Verdicts.{accepted_line, good_word, node_word, upgrade_text, verdict_lines, verdicts_text};

use crate::record::push_hex;
use appraiser::{Verdict, VerdictOf, Verdicts};
use byte_ports::Bytes;
use phrase_tree::{NoMemory, push_bytes, push_decimal};
use std::alloc::Global;

/// The report of verdicts on the bundle of the session of this number: a line for each, and whether all are
/// good. An error is want of memory.
pub fn verdicts_text(alloc: Global, session: u32, verdicts: &Verdicts) -> Result<Bytes, NoMemory>
    ensures { IfOk result (λ text. text ≡ verdicts_text session verdicts.now) }
{
    let mut text = Vec::new(alloc);
    push_bytes(&mut text, b"appraise session ")?;
    push_decimal(&mut text, session)?;
    push_bytes(&mut text, b"\n")?;
    push_verdicts(&mut text, verdicts.items())?;
    push_accepted(&mut text, verdicts.accepted())?;
    Ok(Bytes::of(text))
}

/// The report of a bundle of version 2, of these bytes, of the session of this number. An error is want of
/// memory.
pub fn upgrade_text(alloc: Global, session: u32, bundle: &[u8]) -> Result<Bytes, NoMemory>
    ensures { IfOk result (λ text. text ≡ upgrade_text session bundle.now) }
{
    let mut text = Vec::new(alloc);
    push_bytes(&mut text, b"upgrade session ")?;
    push_decimal(&mut text, session)?;
    push_bytes(&mut text, b"\nbundle ")?;
    push_hex(&mut text, bundle)?;
    push_bytes(&mut text, b"\n")?;
    Ok(Bytes::of(text))
}

fn push_verdicts(text: &mut Vec<u8>, verdicts: &[Verdict]) -> Result<(), NoMemory>
    ensures { OnOk result (text.new.items ≡ text.old.items ++ verdict_lines verdicts.now) }
{
    for verdict in verdicts {
        push_node(text, verdict.of)?;
        push_good(text, verdict.good)?;
    }
    Ok(())
}

fn push_node(text: &mut Vec<u8>, node: VerdictOf) -> Result<(), NoMemory>
    ensures { OnOk result (text.new.items ≡ text.old.items ++ node_word node) }
{
    match node {
        VerdictOf::Nonce => push_bytes(text, b"nonce"),
        VerdictOf::Leaf(event) => push_numbered(text, b"leaf ", event),
        VerdictOf::Seal(event) => push_numbered(text, b"seal ", event),
        VerdictOf::Hash(event) => push_numbered(text, b"hash ", event),
    }
}

fn push_numbered(text: &mut Vec<u8>, word: &[u8], event: u32) -> Result<(), NoMemory>
    ensures { OnOk result (text.new.items ≡ text.old.items ++ (word.now ++ decimal event)) }
{
    push_bytes(text, word)?;
    push_decimal(text, event)
}

fn push_good(text: &mut Vec<u8>, good: bool) -> Result<(), NoMemory>
    ensures { OnOk result (text.new.items ≡ text.old.items ++ good_word good) }
{
    if good {
        push_bytes(text, b" ok\n")
    } else {
        push_bytes(text, b" bad\n")
    }
}

fn push_accepted(text: &mut Vec<u8>, all_good: bool) -> Result<(), NoMemory>
    ensures { OnOk result (text.new.items ≡ text.old.items ++ accepted_line all_good) }
{
    if all_good {
        push_bytes(text, b"accepted\n")
    } else {
        push_bytes(text, b"rejected\n")
    }
}
