ghost use Rattle.std.specs.Prelude.{◌≡◌, ◌≤◌, ◌<◌, ◌^◌, ◌++◌, OnOk, codes, length};
ghost use Rattle.order_policy.specs.Lines.{claim_line, judgement_text, judgements_text, spaced};

use crate::judgement::{Judgement, Judgements};
use phrase_tree::{NoMemory, push_bytes, push_decimal};

/// Appends what was found of each claim in the session of this number: a line for each claim, and behind
/// that of a broken one the line of its trace. An error is want of memory.
pub fn push_judgements(
    text: &mut Vec<u8>,
    session: u32,
    judgements: &Judgements,
) -> Result<(), NoMemory>
    requires { length judgements.now < 2 ^ 32 }
    ensures { OnOk result (text.new.items ≡ text.old.items ++ judgements_text session 0 judgements.now) }
{
    push_all(text, session, judgements.items())
}

fn push_all(text: &mut Vec<u8>, session: u32, judgements: &[Judgement]) -> Result<(), NoMemory>
    requires { length judgements.now < 2 ^ 32 }
    ensures { OnOk result (text.new.items ≡ text.old.items ++ judgements_text session 0 judgements.now) }
{
    let mut claim = 0;
    for judgement in judgements {
        push_judgement(text, session, claim, judgement)?;
        claim += 1;
    }
    Ok(())
}

fn push_judgement(
    text: &mut Vec<u8>,
    session: u32,
    claim: u32,
    judgement: &Judgement,
) -> Result<(), NoMemory>
    ensures { OnOk result (text.new.items ≡ text.old.items ++ judgement_text session claim judgement.now) }
{
    match judgement {
        Judgement::Holds { count } => push_line(text, session, claim, b" holds ", *count),
        Judgement::Broken { event, trace } => {
            push_line(text, session, claim, b" broken ", *event)?;
            push_bytes(text, b"trace")?;
            push_spaced(text, trace.items())?;
            push_bytes(text, b"\n")
        }
    }
}

fn push_line(
    text: &mut Vec<u8>,
    session: u32,
    claim: u32,
    words: &[u8],
    number: u32,
) -> Result<(), NoMemory>
    ensures { OnOk result (text.new.items ≡ text.old.items ++ claim_line session claim words.now number) }
{
    push_bytes(text, b"session ")?;
    push_decimal(text, session)?;
    push_bytes(text, b" claim ")?;
    push_decimal(text, claim)?;
    push_bytes(text, words)?;
    push_decimal(text, number)?;
    push_bytes(text, b"\n")
}

fn push_spaced(text: &mut Vec<u8>, numbers: &[u32]) -> Result<(), NoMemory>
    ensures { OnOk result (text.new.items ≡ text.old.items ++ spaced numbers.now) }
{
    for number in numbers {
        push_bytes(text, b" ")?;
        push_decimal(text, *number)?;
    }
    Ok(())
}
