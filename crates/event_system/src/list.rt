ghost use Rattle.std.specs.Prelude.{◌≡◌, ◌+◌, ◌<◌, ◌^◌, [], ◌∷◌, ◌++◌, ℕ, map, false, IfOk, OnOk, IfErr, OnErr};
ghost use Rattle.phrase_tree.specs.Term.{term, is_chain};
ghost use Rattle.phrase_tree.specs.Numbering.{event_count, IsSized};
ghost use Rattle.phrase_tree.specs.Events.{events_of, event as happened};
ghost use Rattle.event_system.specs.Events.{event_of, edge_kind};

use crate::event::{Event, EventKind};
use phrase_tree::{NoMemory, Phrase, Place};
use std::alloc::Global;
use std::marker::Model;

/// Events in the order of their numbers.
#[derive(Debug, Drop)]
pub struct EventList {
    events: Vec<Event>,
}

impl Model for EventList {
    ghost use Rattle.std.specs.Prelude.{List};
    ghost use Rattle.event_system.specs.declared.event.Event.{Event};

    ghost Value = { List Event };

    ghost view = { λ list. list.events.items };
}

impl EventList {
    /// The list of these events.
    pub fn of(items: Vec<Event>) -> EventList
        ensures { result ≡ items.items }
    {
        EventList { events: items }
    }

    pub fn items(&self) -> &[Event]
        ensures { result.now ≡ self.now }
    {
        &self.events
    }

    /// Appends an event. An error is want of memory: it hands the event back, and the list is
    /// unchanged.
    pub fn push(&mut self, item: Event) -> Result<(), Event>
        ensures ok { OnOk result (self.new ≡ self.old ++ item ∷ []) }
        ensures handed_back { IfErr result (λ event. event ≡ item) }
        ensures err { OnErr result (self.new ≡ self.old) }
    {
        match self.events.push(item) {
            Ok(()) => Ok(()),
            Err(refused) => Err(refused.value),
        }
    }
}

// Appends one event, and gives the number after it.
fn push_event(
    list: &mut EventList,
    number: u32,
    kind: EventKind,
    place: Place,
) -> Result<u32, NoMemory>
    requires { number + 1 < 2 ^ 32 }
    ensures list { OnOk result
        (map event_of list.new
        ≡ map event_of list.old
        ++ event_of (record { number = number; kind = kind; place = place }) ∷ []) }
    ensures next { IfOk result (λ next. next ≡ number + 1) }
{
    let item = Event {
        number,
        kind,
        place,
    };
    match list.push(item) {
        Ok(()) => Ok(number + 1),
        Err(_) => Err(NoMemory),
    }
}

// Appends the one event of a leaf, or the first or the last of a request or a branch, and gives the number
// after it. An event has room for a measurement in it, so it is made here and not in the recursion over
// the phrase; and here alone, since what is called from one place is put into its caller.
#[inline(never)]
fn push_edge(
    list: &mut EventList,
    closing: bool,
    phrase: &Phrase,
    place: Place,
    number: u32,
) -> Result<u32, NoMemory>
    requires form { is_chain (term phrase.now) ≡ false }
    requires few { number + 1 < 2 ^ 32 }
    ensures list { OnOk result
        (map event_of list.new
        ≡ map event_of list.old ++ happened number (edge_kind closing (term phrase.now)) place ∷ []) }
    ensures next { IfOk result (λ next. next ≡ number + 1) }
{
    match phrase {
        Phrase::Cpy => push_event(list, number, EventKind::Cpy, place),
        Phrase::Sig => push_event(list, number, EventKind::Sig, place),
        Phrase::Hsh => push_event(list, number, EventKind::Hsh, place),
        Phrase::Nul => push_event(list, number, EventKind::Nul, place),
        Phrase::Usm(asp) => push_event(list, number, EventKind::Usm(asp.copy()), place),
        Phrase::Kim(target, asp) => {
            push_event(list, number, EventKind::Kim(*target, asp.copy()), place)
        }
        Phrase::At(asked, _) => {
            if closing {
                return push_event(list, number, EventKind::Rpl(*asked), place);
            }
            push_event(list, number, EventKind::Req(*asked), place)
        }
        Phrase::Then(_, _) => unreachable!(),
        Phrase::Seq(_, _, _) | Phrase::Par(_, _, _) => {
            if closing {
                return push_event(list, number, EventKind::Join, place);
            }
            push_event(list, number, EventKind::Split, place)
        }
    }
}

// Appends the events of a part of a phrase, and gives the number after its last event.
#[cycle(listing)]
fn push_events(
    list: &mut EventList,
    phrase: &Phrase,
    place: Place,
    first: u32,
) -> Result<u32, NoMemory>
    requires { first + event_count (term phrase.now) < 2 ^ 32 }
    ensures list { OnOk result
        (map event_of list.new ≡ map event_of list.old ++ events_of (term phrase.now) place first) }
    ensures next { IfOk result (λ next. next ≡ first + event_count (term phrase.now)) }
{
    match phrase {
        Phrase::Cpy
        | Phrase::Sig
        | Phrase::Hsh
        | Phrase::Nul
        | Phrase::Usm(_)
        | Phrase::Kim(_, _) => { push_edge(list, false, phrase, place, first) }
        Phrase::At(asked, body) => {
            let inside = push_edge(list, false, phrase, place, first)?;
            let last = push_events(list, body, *asked, inside)?;
            push_edge(list, true, phrase, place, last)
        }
        Phrase::Then(left, right) => {
            let middle = push_chain(list, left, place, first)?;
            push_events(list, right, place, middle)
        }
        Phrase::Seq(_, left, right) | Phrase::Par(_, left, right) => {
            let inside = push_edge(list, false, phrase, place, first)?;
            let middle = push_events(list, left, place, inside)?;
            let last = push_events(list, right, place, middle)?;
            push_edge(list, true, phrase, place, last)
        }
    }
}

// The same, in a frame of its own that is small: a chain nests as deep as it is long, while all other
// nesting is of brackets, of which few are open.
#[cycle(listing)]
fn push_chain(
    list: &mut EventList,
    phrase: &Phrase,
    place: Place,
    first: u32,
) -> Result<u32, NoMemory>
    requires { first + event_count (term phrase.now) < 2 ^ 32 }
    ensures list { OnOk result
        (map event_of list.new ≡ map event_of list.old ++ events_of (term phrase.now) place first) }
    ensures next { IfOk result (λ next. next ≡ first + event_count (term phrase.now)) }
{
    match phrase {
        Phrase::Cpy
        | Phrase::Sig
        | Phrase::Hsh
        | Phrase::Nul
        | Phrase::Usm(_)
        | Phrase::Kim(_, _) => { push_edge(list, false, phrase, place, first) }
        Phrase::Then(left, right) => {
            let middle = push_chain(list, left, place, first)?;
            push_events(list, right, place, middle)
        }
        _ => push_events(list, phrase, place, first),
    }
}

/// The events of a phrase that starts at `place`, numbered from 0 and in the order of their
/// numbers. Takes memory, and time, linear in the phrase.
pub fn list_of(alloc: Global, phrase: &Phrase, place: Place) -> Result<EventList, NoMemory>
    requires { IsSized (term phrase.now) }
    ensures { IfOk result (λ list. map event_of list ≡ events_of (term phrase.now) place 0) }
{
    let mut list = EventList::of(Vec::new(alloc));
    push_events(&mut list, phrase, place, 0)?;
    Ok(list)
}
