ghost use Rattle.std.specs.Prelude.{◌≡◌, ◌+◌, ◌*◌, ◌<◌, ◌↔◌, ℕ, true, false, IfOk};
ghost use Rattle.phrase_tree.specs.Term.{term};
ghost use Rattle.phrase_tree.specs.Numbering.{IsSized};
ghost use Rattle.phrase_tree.specs.Events.{events_of};
ghost use Rattle.event_system.specs.Order.{IsBefore};
ghost use Rattle.event_system.specs.System.{is_leaf, system, system_from, leaves, Orders};
ghost use Rattle.event_system.specs.Letting.{steps};

use crate::building::whole_system;
use crate::event::Event;
use phrase_tree::{NoMemory, Phrase, Place};
use std::alloc::Global;
use std::mem;

/// The event system of a phrase (POST 2019): its events as leaves, and how they are ordered.
#[derive(Debug)]
pub enum EventSystem {
    Leaf(Event),
    /// All of the first is before all of the second.
    Before(Box<EventSystem>, Box<EventSystem>),
    /// No order between the two.
    Merge(Box<EventSystem>, Box<EventSystem>),
}

impl EventSystem {
    // Lets go of a leaf.
    fn end(self)
        requires { is_leaf (system self) ≡ true }
    {
        match self {
            EventSystem::Leaf(_) => {}
            _ => unreachable!(),
        }
    }

    // Gives its left part for the other system, and becomes the rest. A leaf stays as it is.
    fn turn(&mut self, other: &mut Box<EventSystem>) -> bool
        ensures turned { result ≡ true →
            1 + 2 * steps (system other.new.value) + steps (system self.new)
            < 1 + 2 * steps (system self.old) + steps (system other.old.value) }
        ensures leaf { result ≡ false → is_leaf (system self.new) ≡ true }
        ensures stays { result ≡ false → other.new ≡ other.old }
    {
        match self {
            EventSystem::Leaf(_) => false,
            EventSystem::Before(left, right) => {
                turn_parts(left, right, other);
                true
            }
            EventSystem::Merge(left, right) => {
                turn_parts(left, right, other);
                true
            }
        }
    }

    // What is left of two parts after one step.
    fn after_a_step(mut left: Box<EventSystem>, mut right: Box<EventSystem>) -> EventSystem
        ensures { steps (system result) < 1 + 2 * steps (system left.value) + steps (system right.value) }
    {
        if left.turn(&mut right) {
            return EventSystem::Before(right, left);
        }
        Box::into_inner(left).end();
        Box::into_inner(right)
    }
}

// The parts of a pair become its right part and another, which becomes its left part.
fn turn_parts(
    left: &mut Box<EventSystem>,
    right: &mut Box<EventSystem>,
    other: &mut Box<EventSystem>,
)
    ensures left { left.new ≡ right.old }
    ensures right { right.new ≡ other.old }
    ensures other { other.new ≡ left.old }
{
    mem::swap(left, right);
    mem::swap(right, other);
}

// A loop that takes no memory: however long or deep a system is, letting it go takes the same stack.
impl Drop for EventSystem {
    fn drop(mut self) {
        loop {
            match self {
                EventSystem::Leaf(_) => return,
                EventSystem::Before(left, right) | EventSystem::Merge(left, right) => {
                    self = EventSystem::after_a_step(left, right)
                }
            }
        }
    }
}

/// The event system of a phrase that starts at `place`, with events numbered from 0. Its leaves from
/// left to right are the event list, and a `Before` orders two events exactly when the order does.
/// Takes memory, and time, linear in the phrase.
pub fn system_of(alloc: Global, phrase: &Phrase, place: Place) -> Result<EventSystem, NoMemory>
    requires { IsSized (term phrase.now) }
    ensures is { IfOk result (λ made. system made ≡ system_from (term phrase.now) place 0) }
    ensures leaves { IfOk result
        (λ made. leaves (system made) ≡ events_of (term phrase.now) place 0) }
    ensures order { IfOk result
        (λ made. (x y : ℕ) → Orders (system made) x y ↔ IsBefore (term phrase.now) 0 x y) }
{
    whole_system(alloc, phrase, place)
}
