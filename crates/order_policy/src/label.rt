ghost use Rattle.std.specs.Prelude.{◌≡◌, ◌+◌, ◌<◌, ◌^◌, ◌++◌, ◌↔◌, IsTrue, IfOk, OnOk, slice_get};
ghost use Rattle.phrase_tree.specs.Term.{Term, term};
ghost use Rattle.phrase_tree.specs.Numbering.{event_count, IsSized};
ghost use Rattle.event_system.specs.Order.{IsBefore};
ghost use Rattle.order_policy.specs.Labels.{labels_of, is_less};

use phrase_tree::{NoMemory, Phrase};
use std::alloc::Global;
use std::marker::Model;

/// The labels of an event. One event is before another exactly where both labels are less.
#[derive(Clone, Copy, Debug, PartialEq, Eq)]
pub struct Label {
    /// The event's number.
    pub first: u32,
    /// The event's number where the right arm of each parallel branch is counted ahead of its left arm.
    pub second: u32,
}

/// The labels of the events of a phrase, in the order of their numbers.
#[derive(Debug, Drop)]
pub struct Labels {
    labels: Vec<Label>,
}

impl Model for Labels {
    ghost use Rattle.std.specs.Prelude.{List};
    ghost use Rattle.order_policy.specs.declared.label.Label.{Label};

    ghost Value = { List Label };

    ghost view = { λ list. list.labels.items };
}

impl Labels {
    /// The labels of a phrase's events. An error is want of memory. Takes time that grows with the
    /// events, once for each branch that is open around them.
    pub fn of(alloc: Global, phrase: &Phrase) -> Result<Labels, NoMemory>
        requires { IsSized (term phrase.now) }
        ensures { IfOk result (λ labels. labels ≡ labels_of (term phrase.now) 0 0) }
    {
        let mut labels = Vec::new(alloc);
        push_labels(
            &mut labels,
            phrase,
            Label {
                first: 0,
                second: 0,
            },
        )?;
        Ok(Labels { labels })
    }

    pub fn items(&self) -> &[Label]
        ensures { result.now ≡ self.now }
    {
        &self.labels
    }

    /// The labels of the event of this number; none exactly when there is no such event.
    pub fn label(&self, event: u32) -> Option<Label>
        ensures { result ≡ slice_get self.now event }
    {
        self.labels.get(event as usize).copied()
    }

    /// Whether one event of the phrase is before another; `false` if either number is not an event of it.
    /// Takes the same time for every phrase.
    pub fn before(&self, first: u32, second: u32) -> bool
        ensures { (phrase : Term) → self.now ≡ labels_of phrase 0 0 → IsTrue result ↔ IsBefore phrase 0 first second }
    {
        self.is_less(first, second)
    }

    /// Whether both labels of an event are less than those of another.
    pub(crate) fn is_less(&self, first: u32, second: u32) -> bool
        ensures { result ≡ is_less self.now first second }
    {
        match (self.label(first), self.label(second)) {
            (Some(earlier), Some(later)) => {
                earlier.first < later.first && earlier.second < later.second
            }
            _ => false,
        }
    }
}

// The label of the event that comes so many after another, in both counts.
fn after(start: Label, count: u32) -> Label
    requires first { start.first + count < 2 ^ 32 }
    requires second { start.second + count < 2 ^ 32 }
    ensures { result ≡ record { first = start.first + count; second = start.second + count } }
{
    Label {
        first: start.first + count,
        second: start.second + count,
    }
}

fn with_second(start: Label, second: u32) -> Label
    ensures { result ≡ record { first = start.first; second = second } }
{
    Label {
        first: start.first,
        second,
    }
}

// Appends the labels of a part of a phrase whose first event has these, and gives the label that
// comes after both its counts. In the second count the right arm of a parallel branch comes first.
fn push_labels(labels: &mut Vec<Label>, phrase: &Phrase, start: Label) -> Result<Label, NoMemory>
    requires first { start.first + event_count (term phrase.now) < 2 ^ 32 }
    requires second { start.second + event_count (term phrase.now) < 2 ^ 32 }
    ensures labels { OnOk result
        (labels.new.items ≡ labels.old.items ++ labels_of (term phrase.now) start.first start.second) }
    ensures next { IfOk result (λ next. next
        ≡ record { first = start.first + event_count (term phrase.now); second = start.second + event_count (term phrase.now) }) }
{
    match phrase {
        Phrase::Cpy
        | Phrase::Sig
        | Phrase::Hsh
        | Phrase::Nul
        | Phrase::Usm(_)
        | Phrase::Kim(_, _) => {
            labels.push(start)?;
            Ok(after(start, 1))
        }
        Phrase::At(_, body) => {
            labels.push(start)?;
            let last = push_labels(labels, body, after(start, 1))?;
            labels.push(last)?;
            Ok(after(last, 1))
        }
        Phrase::Then(left, right) => {
            let middle = push_labels(labels, left, start)?;
            push_labels(labels, right, middle)
        }
        Phrase::Seq(_, left, right) => {
            labels.push(start)?;
            let middle = push_labels(labels, left, after(start, 1))?;
            let last = push_labels(labels, right, middle)?;
            labels.push(last)?;
            Ok(after(last, 1))
        }
        Phrase::Par(_, left, right) => {
            labels.push(start)?;
            let inside = after(start, 1);
            let count = right.events();
            let middle = push_labels(labels, left, with_second(inside, inside.second + count))?;
            let last = push_labels(labels, right, with_second(middle, inside.second))?;
            let last = with_second(last, middle.second);
            labels.push(last)?;
            Ok(after(last, 1))
        }
    }
}
