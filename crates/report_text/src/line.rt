ghost use Rattle.std.specs.Prelude.{◌≡◌, ◌+◌, ◌<◌, ◌^◌, ◌++◌, ◌∷◌, [], codes, decimal, IfOk, OnOk};
ghost use Rattle.phrase_tree.specs.Text.{asp_text};
ghost use Rattle.report_text.specs.Events.{first_text, second_text, after_text, line_text};

use event_system::Needs;
use phrase_tree::{Asp, NoMemory, Place, push_asp, push_bytes, push_decimal};

/// An event without what happens: its number, its place, and its direct predecessors.
#[derive(Clone, Copy, Debug, PartialEq, Eq)]
pub struct Spot {
    pub number: u32,
    pub place: Place,
    pub needs: Needs,
}

fn push_first(text: &mut Vec<u8>, first: Option<u32>) -> Result<(), NoMemory>
    ensures { OnOk result (text.new.items ≡ text.old.items ++ first_text first) }
{
    let Some(number) = first else {
        return Ok(());
    };
    push_bytes(text, b" after ")?;
    push_decimal(text, number)
}

fn push_second(text: &mut Vec<u8>, second: Option<u32>) -> Result<(), NoMemory>
    ensures { OnOk result (text.new.items ≡ text.old.items ++ second_text second) }
{
    let Some(number) = second else {
        return Ok(());
    };
    push_bytes(text, b" ")?;
    push_decimal(text, number)
}

fn push_number(text: &mut Vec<u8>, number: u32) -> Result<(), NoMemory>
    ensures { OnOk result (text.new.items ≡ text.old.items ++ (codes "event " ++ (decimal number ++ 32 ∷ []))) }
{
    push_bytes(text, b"event ")?;
    push_decimal(text, number)?;
    push_bytes(text, b" ")
}

// Appends what stands behind what happens, and gives the number after the event.
fn push_rest(text: &mut Vec<u8>, spot: &Spot) -> Result<u32, NoMemory>
    requires { spot.now.number + 1 < 2 ^ 32 }
    ensures text { OnOk result (text.new.items ≡ text.old.items ++ (codes " at " ++ (spot.now.place ++ (after_text spot.now.needs ++ 10 ∷ [])))) }
    ensures next { IfOk result (λ next. next ≡ spot.now.number + 1) }
{
    push_bytes(text, b" at ")?;
    push_bytes(text, spot.place.bytes())?;
    push_first(text, spot.needs.first)?;
    push_second(text, spot.needs.second)?;
    push_bytes(text, b"\n")?;
    Ok(spot.number + 1)
}

/// Appends the line of an event that one word names, and gives the number after it. An error is want
/// of memory.
pub fn push_plain(text: &mut Vec<u8>, spot: &Spot, word: &[u8]) -> Result<u32, NoMemory>
    requires { spot.now.number + 1 < 2 ^ 32 }
    ensures text { OnOk result (text.new.items ≡ text.old.items ++ line_text spot.now.number word.now spot.now.place spot.now.needs) }
    ensures next { IfOk result (λ next. next ≡ spot.now.number + 1) }
{
    push_number(text, spot.number)?;
    push_bytes(text, word)?;
    push_rest(text, spot)
}

/// Appends the line of a request or a reply, and gives the number after it. An error is want of memory.
pub fn push_asking(
    text: &mut Vec<u8>,
    spot: &Spot,
    word: &[u8],
    asked: &Place,
) -> Result<u32, NoMemory>
    requires { spot.now.number + 1 < 2 ^ 32 }
    ensures text { OnOk result (text.new.items ≡ text.old.items ++ line_text spot.now.number (word.now ++ asked.now) spot.now.place spot.now.needs) }
    ensures next { IfOk result (λ next. next ≡ spot.now.number + 1) }
{
    push_number(text, spot.number)?;
    push_bytes(text, word)?;
    push_bytes(text, asked.bytes())?;
    push_rest(text, spot)
}

/// Appends the line of a measurement, and gives the number after it. An error is want of memory.
pub fn push_measuring(text: &mut Vec<u8>, spot: &Spot, asp: &Asp) -> Result<u32, NoMemory>
    requires { spot.now.number + 1 < 2 ^ 32 }
    ensures text { OnOk result (text.new.items ≡ text.old.items ++ line_text spot.now.number (codes "usm " ++ asp_text asp.now) spot.now.place spot.now.needs) }
    ensures next { IfOk result (λ next. next ≡ spot.now.number + 1) }
{
    push_number(text, spot.number)?;
    push_bytes(text, b"usm ")?;
    push_asp(text, asp)?;
    push_rest(text, spot)
}

/// Appends the line of a measurement of a target, and gives the number after it. An error is want of
/// memory.
pub fn push_targeted(
    text: &mut Vec<u8>,
    spot: &Spot,
    target: &Place,
    asp: &Asp,
) -> Result<u32, NoMemory>
    requires { spot.now.number + 1 < 2 ^ 32 }
    ensures text { OnOk result (text.new.items ≡ text.old.items ++ line_text spot.now.number (codes "kim " ++ (target.now ++ 32 ∷ asp_text asp.now)) spot.now.place spot.now.needs) }
    ensures next { IfOk result (λ next. next ≡ spot.now.number + 1) }
{
    push_number(text, spot.number)?;
    push_bytes(text, b"kim ")?;
    push_bytes(text, target.bytes())?;
    push_bytes(text, b" ")?;
    push_asp(text, asp)?;
    push_rest(text, spot)
}
