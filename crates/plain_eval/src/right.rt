//! The law that ties the records of sessions in rising order to those in any order. Its function does
//! nothing.

ghost use Rattle.std.specs.Prelude.{ℕ, List};
ghost use Rattle.bench_trait.specs.declared.artefacts.Artefact.{Artefact};
ghost use Rattle.session_model.specs.Record.{Record, IsRisingRecord};
ghost use Rattle.session_model.specs.RightRecord.{IsRightRecord};
ghost use Rattle.session_model.specs.Session.{Session};

use bench_trait::Bench;
use event_system::{order_law, trace_law};

/// A record that is right where a session is run in the order of its numbers is right over every order
/// of events: rising numbers are one of the orders in which they may happen.
pub fn rising_records_are_right<B: Bench>()
    ensures { (bench : B) (artefacts : List Artefact) (session : Session) (keys : List (List ℕ × List ℕ)) (found : Record) →
        IsRisingRecord (B.gives bench artefacts) (B.fails bench artefacts) session keys found →
        IsRightRecord (B.gives bench artefacts) (B.fails bench artefacts) session keys found }
{
    order_law();
    trace_law();
}
