ghost use Rattle.std.specs.Prelude.{◌≡◌, ◌+◌, ◌^◌, ◌<◌, ◌++◌};
ghost use Rattle.phrase_tree.specs.Term.{term};
ghost use Rattle.phrase_tree.specs.Numbering.{event_count, IsSized};
ghost use Rattle.phrase_tree.specs.Events.{events_of};
ghost use Rattle.bench_trait.specs.Asking.{question, questions_of, question_among};
ghost use Rattle.bench_trait.specs.Seeking.{IsSought, MayPassOne, PassesOne, asked_by};

use crate::ask::{Ask, AskKind};
use phrase_tree::{Asp, Phrase, Place};

/// The question of an event of a phrase in a session with this root and nonce; none exactly when the
/// event is not a measurement of the phrase. Takes no memory, and time linear in the events up to it.
pub fn ask_of(phrase: &Phrase, root: Place, nonce: &[u8; 16], event: u32) -> Option<Ask>
    requires { IsSized (term phrase.now) }
    ensures { result ≡ question (term phrase.now) root nonce.now event }
{
    match seek(phrase, root, 0, nonce, event) {
        Sought::Found(ask) => Some(ask),
        Sought::Passed(_) => None,
    }
}

/// The question that was looked for, or the number after the last event that was passed.
#[derive(Drop)]
enum Sought {
    Found(Ask),
    Passed(u32),
}

fn seek(phrase: &Phrase, place: Place, first: u32, nonce: &[u8; 16], event: u32) -> Sought
    requires { first + event_count (term phrase.now) < 2 ^ 32 }
    ensures { IsSought
        result
        (question_among (questions_of nonce.now (events_of (term phrase.now) place first)) event)
        (first + event_count (term phrase.now)) }
{
    match phrase {
        Phrase::Cpy | Phrase::Sig | Phrase::Hsh | Phrase::Nul => Sought::Passed(first + 1),
        Phrase::Usm(asp) => measurement(nonce, first, place, AskKind::Usm, asp, event),
        Phrase::Kim(target, asp) => {
            measurement(nonce, first, place, AskKind::Kim(*target), asp, event)
        }
        Phrase::At(asked, body) => past_last(seek(body, *asked, first + 1, nonce, event)),
        Phrase::Then(left, right) => match seek(left, place, first, nonce, event) {
            Sought::Found(ask) => Sought::Found(ask),
            Sought::Passed(next) => seek(right, place, next, nonce, event),
        },
        Phrase::Seq(_, left, right) | Phrase::Par(_, left, right) => {
            match seek(left, place, first + 1, nonce, event) {
                Sought::Found(ask) => Sought::Found(ask),
                Sought::Passed(next) => past_last(seek(right, place, next, nonce, event)),
            }
        }
    }
}

fn measurement(
    nonce: &[u8; 16],
    first: u32,
    place: Place,
    kind: AskKind,
    asp: &Asp,
    event: u32,
) -> Sought
    requires { first + 1 < 2 ^ 32 }
    ensures { IsSought
        result
        (asked_by (record { nonce = nonce.now; event = first; place = place; kind = kind; asp = asp.now }) event)
        (first + 1) }
{
    if first != event {
        return Sought::Passed(first + 1);
    }
    Sought::Found(Ask {
        nonce: *nonce,
        event,
        place,
        kind,
        asp: asp.copy(),
    })
}

/// Passes a reply or a join, which asks nothing.
fn past_last(sought: Sought) -> Sought
    requires { MayPassOne sought }
    ensures { PassesOne sought result }
{
    match sought {
        Sought::Found(ask) => Sought::Found(ask),
        Sought::Passed(next) => Sought::Passed(next + 1),
    }
}
