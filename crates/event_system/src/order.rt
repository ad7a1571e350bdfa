ghost use Rattle.std.specs.Prelude.{◌≡◌, ◌+◌, ◌<◌, ◌^◌, ◌↔◌, ◌⊎◌, IsTrue};
ghost use Rattle.phrase_tree.specs.Term.{term};
ghost use Rattle.phrase_tree.specs.Numbering.{event_count, IsSized};
ghost use Rattle.event_system.specs.Order.{Opens, Closes, Crosses, IsBefore};

use phrase_tree::Phrase;

// Whether two numbers are ordered by a part of a phrase, and the number after its last event.
#[derive(Clone, Copy)]
struct Walked {
    before: bool,
    next: u32,
}

fn opens(low: u32, high: u32, first: u32, second: u32) -> bool
    ensures { IsTrue result ↔ Opens low high first second }
{
    first == low && first < second && second < high
}

fn closes(low: u32, high: u32, first: u32, second: u32) -> bool
    ensures { IsTrue result ↔ Closes low high first second }
{
    low <= first && first < second && second < high && high - second == 1
}

fn crosses(low: u32, middle: u32, high: u32, first: u32, second: u32) -> bool
    ensures { IsTrue result ↔ Crosses low middle high first second }
{
    low <= first && first < middle && middle <= second && second < high
}

fn either(one: bool, other: bool) -> bool
    ensures { IsTrue result ↔ (IsTrue one ⊎ IsTrue other) }
{
    one || other
}

// A first number, what is inside, and a last number.
fn framed(low: u32, inside: Walked, first: u32, second: u32) -> Walked
    requires { inside.next + 1 < 2 ^ 32 }
    ensures before { IsTrue result.before
        ↔ (Opens low (inside.next + 1) first second
        ⊎ (Closes low (inside.next + 1) first second ⊎ IsTrue inside.before)) }
    ensures next { result.next ≡ inside.next + 1 }
{
    let high = inside.next + 1;
    let closed = either(closes(low, high, first, second), inside.before);
    Walked {
        before: either(opens(low, high, first, second), closed),
        next: high,
    }
}

// Two parts in a row.
fn joined(low: u32, left: Walked, right: Walked, first: u32, second: u32) -> Walked
    ensures before { IsTrue result.before
        ↔ (Crosses low left.next right.next first second ⊎ (IsTrue left.before ⊎ IsTrue right.before)) }
    ensures next { result.next ≡ right.next }
{
    let inside = either(left.before, right.before);
    let next = right.next;
    Walked {
        before: either(crosses(low, left.next, next, first, second), inside),
        next,
    }
}

// Two parts side by side.
fn apart(left: Walked, right: Walked) -> Walked
    ensures before { IsTrue result.before ↔ (IsTrue left.before ⊎ IsTrue right.before) }
    ensures next { result.next ≡ right.next }
{
    Walked {
        before: either(left.before, right.before),
        next: right.next,
    }
}

fn walk(phrase: &Phrase, low: u32, first: u32, second: u32) -> Walked
    requires { low + event_count (term phrase.now) < 2 ^ 32 }
    ensures before { IsTrue result.before ↔ IsBefore (term phrase.now) low first second }
    ensures next { result.next ≡ low + event_count (term phrase.now) }
{
    match phrase {
        Phrase::Cpy
        | Phrase::Sig
        | Phrase::Hsh
        | Phrase::Nul
        | Phrase::Usm(_)
        | Phrase::Kim(_, _) => Walked {
            before: false,
            next: low + 1,
        },
        Phrase::At(_, body) => {
            let inside = walk(body, low + 1, first, second);
            framed(low, inside, first, second)
        }
        Phrase::Then(left, right) => {
            let left = walk(left, low, first, second);
            let right = walk(right, left.next, first, second);
            joined(low, left, right, first, second)
        }
        Phrase::Seq(_, left, right) => {
            let left = walk(left, low + 1, first, second);
            let right = walk(right, left.next, first, second);
            let arms = joined(low + 1, left, right, first, second);
            framed(low, arms, first, second)
        }
        Phrase::Par(_, left, right) => {
            let left = walk(left, low + 1, first, second);
            let right = walk(right, left.next, first, second);
            framed(low, apart(left, right), first, second)
        }
    }
}

/// Whether one event of a phrase is before another; `false` if either number is not an event of it.
/// Takes no memory, and time linear in the phrase.
pub fn before(phrase: &Phrase, first: u32, second: u32) -> bool
    requires { IsSized (term phrase.now) }
    ensures { IsTrue result ↔ IsBefore (term phrase.now) 0 first second }
{
    walk(phrase, 0, first, second).before
}
