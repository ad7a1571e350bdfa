ghost use Rattle.std.specs.Prelude.{◌≡◌, ◌+◌, ◌≤◌, ◌<◌, ◌^◌, nat_eq, if◌then◌else◌};
ghost use Rattle.phrase_tree.specs.Term.{term};
ghost use Rattle.phrase_tree.specs.Numbering.{event_count, IsSized};
ghost use Rattle.event_system.specs.Needs.{needs_of, AreNeeds};
ghost use Rattle.event_system.specs.Sought.{IsSought};

use crate::direct::Needs;
use phrase_tree::Phrase;

// What a walk knows behind a part of a phrase: the direct predecessors of the event, or the number
// after the part's last event, where the event isn't in it.
#[derive(Clone, Copy)]
enum Sought {
    Found(Needs),
    Past(u32),
}

// At a last event: it has these direct predecessors, or what comes after it is looked at.
fn at_last(last: u32, needs: Needs, event: u32) -> Sought
    requires { last + 1 < 2 ^ 32 }
    ensures { result ≡ (if nat_eq event last then Sought.Found needs else Sought.Past (last + 1)) }
{
    if event == last {
        return Sought::Found(needs);
    }
    Sought::Past(last + 1)
}

fn look(phrase: &Phrase, first: u32, entry: Option<u32>, event: u32) -> Sought
    requires fits { first + event_count (term phrase.now) < 2 ^ 32 }
    requires ahead { first ≤ event }
    ensures { IsSought entry (term phrase.now) first event result }
{
    match phrase {
        Phrase::Cpy
        | Phrase::Sig
        | Phrase::Hsh
        | Phrase::Nul
        | Phrase::Usm(_)
        | Phrase::Kim(_, _) => at_last(first, Needs::only(entry), event),
        Phrase::Then(left, right) => match look(left, first, entry, event) {
            Sought::Found(needs) => Sought::Found(needs),
            Sought::Past(middle) => look(right, middle, Some(middle - 1), event),
        },
        Phrase::At(_, _) | Phrase::Seq(_, _, _) | Phrase::Par(_, _, _) if event == first => {
            Sought::Found(Needs::only(entry))
        }
        Phrase::At(_, body) => match look(body, first + 1, Some(first), event) {
            Sought::Found(needs) => Sought::Found(needs),
            Sought::Past(last) => at_last(last, Needs::only(Some(last - 1)), event),
        },
        Phrase::Seq(_, left, right) => match look(left, first + 1, Some(first), event) {
            Sought::Found(needs) => Sought::Found(needs),
            Sought::Past(middle) => match look(right, middle, Some(middle - 1), event) {
                Sought::Found(needs) => Sought::Found(needs),
                Sought::Past(last) => at_last(last, Needs::only(Some(last - 1)), event),
            },
        },
        Phrase::Par(_, left, right) => match look(left, first + 1, Some(first), event) {
            Sought::Found(needs) => Sought::Found(needs),
            Sought::Past(middle) => match look(right, middle, Some(first), event) {
                Sought::Found(needs) => Sought::Found(needs),
                Sought::Past(last) => {
                    let needs = Needs {
                        first: Some(middle - 1),
                        second: Some(last - 1),
                    };
                    at_last(last, needs, event)
                }
            },
        },
    }
}

fn found(phrase: &Phrase, event: u32) -> Needs
    requires { IsSized (term phrase.now) }
    ensures { result ≡ needs_of (term phrase.now) event }
{
    match look(phrase, 0, None, event) {
        Sought::Found(needs) => needs,
        Sought::Past(_) => Needs::only(None),
    }
}

/// The direct predecessors of an event, in rising order; none if the number is not an event of the
/// phrase. Takes no memory, and time linear in the phrase: one walk down it.
pub fn needs(phrase: &Phrase, event: u32) -> Needs
    requires { IsSized (term phrase.now) }
    ensures { AreNeeds (term phrase.now) event result }
{
    found(phrase, event)
}
