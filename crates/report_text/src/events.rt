ghost use Rattle.std.specs.Prelude.{ℕ, ◌≡◌, ◌+◌, ◌<◌, ◌^◌, ◌++◌, ◌∷◌, None, codes, decimal, IfOk, OnOk};
ghost use Rattle.phrase_tree.specs.Term.{term};
ghost use Rattle.phrase_tree.specs.Numbering.{event_count, IsSized};
ghost use Rattle.event_system.specs.Needs.{only, needs_of, AreNeeds};
ghost use Rattle.report_text.specs.Events.{events_text};
ghost use Rattle.report_text.specs.Walk.{lines_behind};

use crate::line::{Spot, push_asking, push_measuring, push_plain, push_targeted};
use byte_ports::Bytes;
use event_system::{Needs, needs_law};
use phrase_tree::{NoMemory, Phrase, Place, push_bytes, push_decimal};
use std::alloc::Global;

fn only(first: Option<u32>) -> Needs
    ensures { result ≡ only first }
{
    Needs {
        first,
        second: None,
    }
}

fn spot(number: u32, place: Place, needs: Needs) -> Spot
    ensures { result ≡ record { number = number; place = place; needs = needs } }
{
    Spot {
        number,
        place,
        needs,
    }
}

// Appends the lines of a part of a phrase, whose first event has this direct predecessor or none, and
// gives the number after its last event.
fn push_events(
    text: &mut Vec<u8>,
    phrase: &Phrase,
    place: Place,
    first: u32,
    entry: Option<u32>,
) -> Result<u32, NoMemory>
    requires { first + event_count (term phrase.now) < 2 ^ 32 }
    ensures text { OnOk result (text.new.items ≡ text.old.items ++ lines_behind entry (term phrase.now) place first) }
    ensures next { IfOk result (λ next. next ≡ first + event_count (term phrase.now)) }
    ensures later { IfOk result (λ next. first < next) }
{
    let here = spot(first, place, only(entry));
    match phrase {
        Phrase::Cpy => push_plain(text, &here, b"cpy"),
        Phrase::Sig => push_plain(text, &here, b"sig"),
        Phrase::Hsh => push_plain(text, &here, b"hsh"),
        Phrase::Nul => push_plain(text, &here, b"nul"),
        Phrase::Usm(asp) => push_measuring(text, &here, asp),
        Phrase::Kim(target, asp) => push_targeted(text, &here, target, asp),
        Phrase::At(asked, body) => {
            let inside = push_asking(text, &here, b"req ", asked)?;
            let last = push_events(text, body, *asked, inside, Some(first))?;
            let reply = spot(last, place, only(Some(last - 1)));
            push_asking(text, &reply, b"rpl ", asked)
        }
        Phrase::Then(left, right) => {
            let middle = push_events(text, left, place, first, entry)?;
            push_events(text, right, place, middle, Some(middle - 1))
        }
        Phrase::Seq(_, left, right) => {
            let inside = push_plain(text, &here, b"split")?;
            let middle = push_events(text, left, place, inside, Some(first))?;
            let last = push_events(text, right, place, middle, Some(middle - 1))?;
            let join = spot(last, place, only(Some(last - 1)));
            push_plain(text, &join, b"join")
        }
        Phrase::Par(_, left, right) => {
            let inside = push_plain(text, &here, b"split")?;
            let middle = push_events(text, left, place, inside, Some(first))?;
            let last = push_events(text, right, place, middle, Some(first))?;
            let both = Needs {
                first: Some(middle - 1),
                second: Some(last - 1),
            };
            push_plain(text, &spot(last, place, both), b"join")
        }
    }
}

fn report(alloc: Global, session: u32, phrase: &Phrase, place: Place) -> Result<Bytes, NoMemory>
    requires { IsSized (term phrase.now) }
    ensures { IfOk result (λ text. text
        ≡ codes "session " ++ (decimal session ++ (codes " events " ++ (decimal (event_count (term phrase.now))
        ++ (10 ∷ lines_behind None (term phrase.now) place 0))))) }
{
    let mut text = Vec::new(alloc);
    push_bytes(&mut text, b"session ")?;
    push_decimal(&mut text, session)?;
    push_bytes(&mut text, b" events ")?;
    push_decimal(&mut text, phrase.events())?;
    push_bytes(&mut text, b"\n")?;
    push_events(&mut text, phrase, place, 0, None)?;
    Ok(Bytes::of(text))
}

/// The report of the events of a session's phrase, which a place runs: a line with their count, and a
/// line for each event with its number, what happens, where, and its direct predecessors. An error is
/// want of memory. Takes time linear in the text: events and predecessors are found in one walk down
/// the phrase.
#[tactic(auto, using(crate::proofs::Lines::report_is))]
pub fn events_text(
    alloc: Global,
    session: u32,
    phrase: &Phrase,
    place: Place,
) -> Result<Bytes, NoMemory>
    requires { IsSized (term phrase.now) }
    ensures text { IfOk result (λ text. text ≡ events_text session (term phrase.now) place) }
    ensures direct { (number : ℕ) → AreNeeds (term phrase.now) number (needs_of (term phrase.now) number) }
{
    needs_law();
    report(alloc, session, phrase, place)
}
