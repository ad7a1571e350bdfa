ghost use Rattle.std.specs.Prelude.{◌≡◌, ◌≤◌, ◌<◌, ◌^◌, ◌++◌, IfOk, OnOk, length, map};
ghost use Rattle.phrase_tree.specs.Term.{term};
ghost use Rattle.phrase_tree.specs.Numbering.{IsSized};
ghost use Rattle.phrase_tree.specs.Events.{events_of};
ghost use Rattle.event_system.specs.Events.{event_of, kind_of};
ghost use Rattle.order_policy.specs.Claims.{measured_name};
ghost use Rattle.order_policy.specs.Labels.{labels_of};
ghost use Rattle.order_policy.specs.Measured.{measured_at, measured_of};

use crate::claim::Service;
use crate::label::{Label, Labels};
use event_system::{Event, EventKind, list_of};
use phrase_tree::{Name, NoMemory, Phrase, Place};
use std::alloc::Global;

/// A measurement of a phrase, with the labels of its event.
#[derive(Clone, Copy, Debug, PartialEq, Eq)]
pub(crate) struct Measured {
    pub(crate) label: Label,
    pub(crate) service: Service,
}

fn measured_name(kind: &EventKind) -> Option<Name>
    ensures { result ≡ measured_name (kind_of kind.now) }
{
    match kind {
        EventKind::Usm(asp) | EventKind::Kim(_, asp) => Some(asp.name),
        _ => None,
    }
}

// Appends an event, where it is a measurement.
fn push_measured(measured: &mut Vec<Measured>, event: &Event, label: Label) -> Result<(), NoMemory>
    ensures { OnOk result
        (measured.new.items
        ≡ measured.old.items ++ measured_at (measured_name (kind_of event.now.kind)) event.now.place label) }
{
    if let Some(name) = measured_name(&event.kind) {
        let service = Service {
            name,
            place: event.place,
        };
        measured.push(Measured { label, service })?;
    }
    Ok(())
}

fn gather(alloc: Global, events: &[Event], labels: &[Label]) -> Result<Vec<Measured>, NoMemory>
    requires { length events.now ≡ length labels.now }
    ensures { IfOk result (λ measured. measured.items ≡ measured_of (map event_of events.now) labels.now) }
{
    let mut measured = Vec::new(alloc);
    for at in 0..events.len() {
        push_measured(&mut measured, &events[at], labels[at])?;
    }
    Ok(measured)
}

/// The measurements of a phrase that starts at a place, in the order of their numbers, with the labels
/// of their events.
pub(crate) fn measured_of(
    alloc: Global,
    phrase: &Phrase,
    root: Place,
    labels: &Labels,
) -> Result<Vec<Measured>, NoMemory>
    requires sized { IsSized (term phrase.now) }
    requires labels { labels.now ≡ labels_of (term phrase.now) 0 0 }
    ensures { IfOk result (λ measured. measured.items
        ≡ measured_of (events_of (term phrase.now) root 0) (labels_of (term phrase.now) 0 0)) }
{
    let events = list_of(alloc, phrase, root)?;
    gather(alloc, events.items(), labels.items())
}
