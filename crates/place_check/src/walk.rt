ghost use Rattle.std.specs.Prelude.{◌≡◌, ◌<◌, ◌+◌, ◌^◌, IfOk};
ghost use Rattle.std.specs.Option.{option_copied, option_map};
ghost use Rattle.std.specs.Result.{result_err};
ghost use Rattle.phrase_tree.specs.Term.{term};
ghost use Rattle.phrase_tree.specs.Numbering.{event_count};
ghost use Rattle.phrase_tree.specs.Events.{events_of, measures, measures_at, requests};
ghost use Rattle.place_check.specs.Places.{entry_of, has, has_offer, is_place, may_ask, may_see};
ghost use Rattle.place_check.specs.Rules.{broken_rules, faults_among, first};

use crate::entry::{PlaceEntry, PlaceKind};
use phrase_tree::{Asp, Name, Names, Phrase, Place};

/// The entry of the place with this name.
fn entry_of(places: &[PlaceEntry], name: Place) -> Option<&PlaceEntry>
    ensures { option_copied result ≡ entry_of places.now name }
{
    for entry in places {
        if entry.name == name {
            return Some(entry);
        }
    }
    None
}

fn is_place(places: &[PlaceEntry], name: Place) -> bool
    ensures { result ≡ is_place places.now name }
{
    for entry in places {
        if entry.name == name {
            return true;
        }
    }
    false
}

fn has(names: &Names, name: Name) -> bool
    ensures { result ≡ has names.now name }
{
    names.items().iter().any(|other| *other == name)
}

fn may_ask(places: &[PlaceEntry], place: Place, asked: Place) -> bool
    ensures { result ≡ may_ask places.now place asked }
{
    match entry_of(places, place) {
        Some(entry) => has(&entry.asks, asked),
        None => false,
    }
}

fn may_see(places: &[PlaceEntry], place: Place, target: Place) -> bool
    ensures { result ≡ may_see places.now place target }
{
    match entry_of(places, place) {
        Some(entry) => has(&entry.sees, target),
        None => false,
    }
}

fn has_offer(places: &[PlaceEntry], place: Place, measurement: Name) -> bool
    ensures { result ≡ has_offer places.now place measurement }
{
    match entry_of(places, place) {
        Some(entry) => has(&entry.offers, measurement),
        None => false,
    }
}

/// The first rule that a request of a place to another breaks.
fn request_fault(places: &[PlaceEntry], place: Place, asked: Place) -> Option<PlaceKind>
    ensures { result ≡ first (broken_rules places.now place (requests asked)) }
{
    if !is_place(places, asked) {
        return Some(PlaceKind::UnknownPlace);
    }
    if !may_ask(places, place, asked) {
        return Some(PlaceKind::MayNotAsk);
    }
    None
}

/// The first rule that a measurement at a place breaks.
fn measurement_fault(places: &[PlaceEntry], place: Place, asp: &Asp) -> Option<PlaceKind>
    ensures { result ≡ first (broken_rules places.now place (measures asp.now)) }
{
    if has_offer(places, place, asp.name) {
        return None;
    }
    Some(PlaceKind::NotOffered)
}

/// The first rule that a measurement of a target breaks.
fn target_fault(places: &[PlaceEntry], place: Place, target: Place, asp: &Asp) -> Option<PlaceKind>
    ensures { result ≡ first (broken_rules places.now place (measures_at target asp.now)) }
{
    if !is_place(places, target) {
        return Some(PlaceKind::UnknownPlace);
    }
    if !has_offer(places, place, asp.name) {
        return Some(PlaceKind::NotOffered);
    }
    if !may_see(places, place, target) {
        return Some(PlaceKind::MayNotSee);
    }
    None
}

/// The number that follows an event, or the event with the rule that it breaks.
fn passed(number: u32, fault: Option<PlaceKind>) -> Result<u32, (u32, PlaceKind)>
    requires { number + 1 < 2 ^ 32 }
    ensures fault { result_err result ≡ option_map (λ rule. (number, rule)) fault }
    ensures next { IfOk result (λ next. next ≡ number + 1) }
{
    match fault {
        Some(rule) => Err((number, rule)),
        None => Ok(number + 1),
    }
}

/// Walks a phrase at a place once from a number on; an error is the first rule that it breaks, with
/// the event that breaks it.
pub(crate) fn walk(
    places: &[PlaceEntry],
    phrase: &Phrase,
    place: Place,
    number: u32,
) -> Result<u32, (u32, PlaceKind)>
    requires { number + event_count (term phrase.now) < 2 ^ 32 }
    ensures fault { result_err result ≡ first (faults_among places.now (events_of (term phrase.now) place number)) }
    ensures next { IfOk result (λ next. next ≡ number + event_count (term phrase.now)) }
{
    match phrase {
        Phrase::Cpy | Phrase::Sig | Phrase::Hsh | Phrase::Nul => Ok(number + 1),
        Phrase::Usm(asp) => passed(number, measurement_fault(places, place, asp)),
        Phrase::Kim(target, asp) => passed(number, target_fault(places, place, *target, asp)),
        Phrase::At(asked, body) => {
            let start = match passed(number, request_fault(places, place, *asked)) {
                Ok(next) => next,
                Err(fault) => return Err(fault),
            };
            match walk(places, body, *asked, start) {
                Ok(next) => Ok(next + 1),
                Err(fault) => Err(fault),
            }
        }
        Phrase::Then(left, right) => match walk(places, left, place, number) {
            Ok(next) => walk(places, right, place, next),
            Err(fault) => Err(fault),
        },
        Phrase::Seq(_, left, right) | Phrase::Par(_, left, right) => {
            let middle = match walk(places, left, place, number + 1) {
                Ok(next) => next,
                Err(fault) => return Err(fault),
            };
            match walk(places, right, place, middle) {
                Ok(next) => Ok(next + 1),
                Err(fault) => Err(fault),
            }
        }
    }
}
