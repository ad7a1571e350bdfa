ghost use Rattle.std.specs.Prelude.{◌≡◌, ℕ, List, Some, slice_get};
ghost use Rattle.session_model.specs.Session.{Session};
ghost use Rattle.session_model.specs.Record.{Record};
ghost use Rattle.session_runs.specs.Schedule.{Walked, scheduled};
ghost use Rattle.session_runs.specs.Played.{AskOnly};
ghost use Rattle.session_walk.specs.UnderWay.{AreScheduled};
ghost use Rattle.session_walk.specs.Records.{record_in, AreRecordsOf, AreOfWalk};

use bench_trait::{ArtefactBook, Bench};
use session_runs::{
    fault_law, legal_schedule_law, record_law, rising_law, rising_record_law, schedule_law,
};

/// The law of records of a walk: sessions that stand as a schedule plays them are done or failed, so each
/// has a record; and one record of each of them, in their order, are those of a walk in which the sessions
/// stand like this. It does nothing.
pub fn records_law<B: Bench>(bench: &B, artefacts: &ArtefactBook)
    ensures each { (places : List (List ℕ)) (keys : List (List ℕ × List ℕ)) (sessions : List Session) (number : ℕ) (all : List Walked) (played : ℕ) (walked : Walked) →
        AskOnly places sessions →
        AreScheduled
        (B.gives bench.now artefacts.now)
        (B.fails bench.now artefacts.now)
        (B.starves bench.now artefacts.now)
        places
        keys
        sessions
        number
        all →
        slice_get all played ≡ Some walked →
        (found : Record) × (record_in walked ≡ Some found) }
    ensures are { (places : List (List ℕ)) (keys : List (List ℕ × List ℕ)) (sessions : List Session) (number : ℕ) (all : List Walked) (records : List Record) →
        AskOnly places sessions →
        AreScheduled
        (B.gives bench.now artefacts.now)
        (B.fails bench.now artefacts.now)
        (B.starves bench.now artefacts.now)
        places
        keys
        sessions
        number
        all →
        AreRecordsOf all records →
        (walk : AreOfWalk
        (B.gives bench.now artefacts.now)
        (B.fails bench.now artefacts.now)
        (B.starves bench.now artefacts.now)
        places
        keys
        sessions
        number
        records)
        × (scheduled places keys walk.results sessions number ≡ all) }
{
    fault_law();
    legal_schedule_law(bench, artefacts);
    record_law(bench, artefacts);
    rising_law();
    rising_record_law(bench, artefacts);
    schedule_law();
}
