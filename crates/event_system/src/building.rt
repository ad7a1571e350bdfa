ghost use Rattle.std.specs.Prelude.{◌≡◌, ◌+◌, ◌<◌, ◌^◌, false, if◌then◌else◌, IfOk};
ghost use Rattle.phrase_tree.specs.Term.{term, is_chain};
ghost use Rattle.phrase_tree.specs.Events.{event as happened};
ghost use Rattle.phrase_tree.specs.Numbering.{event_count, IsSized};
ghost use Rattle.event_system.specs.Events.{event_of, edge_kind};
ghost use Rattle.event_system.specs.System.{System, leaf, before as before_of, merge as merge_of, system, system_from};

use crate::event::{Event, EventKind};
use crate::system::EventSystem;
use phrase_tree::{NoMemory, Phrase, Place};
use std::alloc::Global;

/// The event system of a part of a phrase, or want of memory.
type Made = Result<Box<EventSystem>, NoMemory>;

/// The event system of the front of a chain, and the number after its last event.
#[derive(Drop)]
struct Front {
    system: Box<EventSystem>,
    next: u32,
}

// An event system has room for an event in it, so a function that holds one, or lets one go, has a
// large frame. These do, and each is called from two places, since a function that is called from one is
// put into its caller. The recursion over the phrase holds boxes alone, and lets none go.

#[inline(never)]
fn boxed(alloc: Global, system: EventSystem) -> Made
    ensures { IfOk result (λ made. made.value ≡ system) }
{
    match Box::new(alloc, system) {
        Ok(made) => Ok(made),
        Err(_) => Err(NoMemory),
    }
}

#[inline(never)]
fn event(alloc: Global, number: u32, kind: EventKind, place: Place) -> Made
    ensures { IfOk result (λ made. system made.value
        ≡ leaf (event_of (record { number = number; kind = kind; place = place }))) }
{
    boxed(
        alloc,
        EventSystem::Leaf(Event {
            number,
            kind,
            place,
        }),
    )
}

/// The one event of a leaf; the first or the last of a request or a branch.
#[inline(never)]
fn edge(alloc: Global, closing: bool, phrase: &Phrase, place: Place, number: u32) -> Made
    requires { is_chain (term phrase.now) ≡ false }
    ensures { IfOk result (λ made. system made.value ≡ leaf (happened number (edge_kind closing (term phrase.now)) place)) }
{
    match phrase {
        Phrase::Cpy => event(alloc, number, EventKind::Cpy, place),
        Phrase::Sig => event(alloc, number, EventKind::Sig, place),
        Phrase::Hsh => event(alloc, number, EventKind::Hsh, place),
        Phrase::Nul => event(alloc, number, EventKind::Nul, place),
        Phrase::Usm(asp) => event(alloc, number, EventKind::Usm(asp.copy()), place),
        Phrase::Kim(target, asp) => {
            event(alloc, number, EventKind::Kim(*target, asp.copy()), place)
        }
        Phrase::At(asked, _) => {
            if closing {
                return event(alloc, number, EventKind::Rpl(*asked), place);
            }
            event(alloc, number, EventKind::Req(*asked), place)
        }
        Phrase::Then(_, _) => unreachable!(),
        Phrase::Seq(_, _, _) | Phrase::Par(_, _, _) => {
            if closing {
                return event(alloc, number, EventKind::Join, place);
            }
            event(alloc, number, EventKind::Split, place)
        }
    }
}

/// Two parts, with no order between them where they are parallel.
#[inline(never)]
fn paired(alloc: Global, parallel: bool, left: Box<EventSystem>, right: Made) -> Made
    ensures { (last : System) → IfOk right (λ made. system made.value ≡ last) →
        IfOk result (λ whole. system whole.value
        ≡ (if parallel then merge_of (system left.value) last else before_of (system left.value) last)) }
{
    match right {
        Ok(right) => {
            if parallel {
                return boxed(alloc, EventSystem::Merge(left, right));
            }
            boxed(alloc, EventSystem::Before(left, right))
        }
        Err(_) => Err(NoMemory),
    }
}

/// A first event, what is inside, and a last event.
#[inline(never)]
fn framed(alloc: Global, first: Made, inside: Made, last: Made) -> Made
    ensures { (opening inner closing : System) →
        IfOk first (λ made. system made.value ≡ opening) →
        IfOk inside (λ made. system made.value ≡ inner) →
        IfOk last (λ made. system made.value ≡ closing) →
        IfOk result (λ whole. system whole.value ≡ before_of opening (before_of inner closing)) }
{
    match first {
        Ok(first) => match inside {
            Ok(inside) => {
                let rest = paired(alloc, false, inside, last);
                paired(alloc, false, first, rest)
            }
            Err(_) => Err(NoMemory),
        },
        Err(_) => Err(NoMemory),
    }
}

/// The front of a chain up to this number.
#[inline(never)]
fn up_to(made: Made, next: u32) -> Result<Front, NoMemory>
    ensures system { (whole : System) → IfOk made (λ part. system part.value ≡ whole) →
        IfOk result (λ front. system front.system.value ≡ whole) }
    ensures next { IfOk result (λ front. front.next ≡ next) }
{
    match made {
        Ok(system) => Ok(Front { system, next }),
        Err(_) => Err(NoMemory),
    }
}

#[cycle(building)]
fn system_part(alloc: Global, phrase: &Phrase, place: Place, first: u32) -> Made
    requires { first + event_count (term phrase.now) < 2 ^ 32 }
    ensures { IfOk result (λ made. system made.value ≡ system_from (term phrase.now) place first) }
{
    match phrase {
        Phrase::Cpy
        | Phrase::Sig
        | Phrase::Hsh
        | Phrase::Nul
        | Phrase::Usm(_)
        | Phrase::Kim(_, _) => { edge(alloc, false, phrase, place, first) }
        Phrase::At(asked, body) => {
            let last = first + 1 + body.events();
            let inside = system_part(alloc, body, *asked, first + 1);
            let request = edge(alloc, false, phrase, place, first);
            let reply = edge(alloc, true, phrase, place, last);
            framed(alloc, request, inside, reply)
        }
        Phrase::Then(left, right) => {
            let front = chained(alloc, left, place, first)?;
            let last = system_part(alloc, right, place, front.next);
            paired(alloc, false, front.system, last)
        }
        Phrase::Seq(_, left, right) => {
            let middle = first + 1 + left.events();
            let last = middle + right.events();
            let one = system_part(alloc, left, place, first + 1)?;
            let other = system_part(alloc, right, place, middle);
            let arms = paired(alloc, false, one, other);
            let split = edge(alloc, false, phrase, place, first);
            let join = edge(alloc, true, phrase, place, last);
            framed(alloc, split, arms, join)
        }
        Phrase::Par(_, left, right) => {
            let middle = first + 1 + left.events();
            let last = middle + right.events();
            let one = system_part(alloc, left, place, first + 1)?;
            let other = system_part(alloc, right, place, middle);
            let arms = paired(alloc, true, one, other);
            let split = edge(alloc, false, phrase, place, first);
            let join = edge(alloc, true, phrase, place, last);
            framed(alloc, split, arms, join)
        }
    }
}

/// The front of a chain, in a frame of its own that is small: a chain nests as deep as it is long, while
/// all other nesting is of brackets, of which few are open. Only the parts of the chain are counted, each
/// once, so the time stays linear in a chain.
#[cycle(building)]
fn chained(alloc: Global, phrase: &Phrase, place: Place, first: u32) -> Result<Front, NoMemory>
    requires { first + event_count (term phrase.now) < 2 ^ 32 }
    ensures system { IfOk result
        (λ front. system front.system.value ≡ system_from (term phrase.now) place first) }
    ensures next { IfOk result (λ front. front.next ≡ first + event_count (term phrase.now)) }
{
    match phrase {
        Phrase::Cpy
        | Phrase::Sig
        | Phrase::Hsh
        | Phrase::Nul
        | Phrase::Usm(_)
        | Phrase::Kim(_, _) => { up_to(edge(alloc, false, phrase, place, first), first + 1) }
        Phrase::Then(left, right) => {
            let so_far = chained(alloc, left, place, first)?;
            let next = so_far.next + right.events();
            let last = system_part(alloc, right, place, so_far.next);
            up_to(paired(alloc, false, so_far.system, last), next)
        }
        _ => up_to(
            system_part(alloc, phrase, place, first),
            first + phrase.events(),
        ),
    }
}

pub(crate) fn whole_system(
    alloc: Global,
    phrase: &Phrase,
    place: Place,
) -> Result<EventSystem, NoMemory>
    requires { IsSized (term phrase.now) }
    ensures { IfOk result (λ made. system made ≡ system_from (term phrase.now) place 0) }
{
    let whole = system_part(alloc, phrase, place, 0)?;
    Ok(Box::into_inner(whole))
}
