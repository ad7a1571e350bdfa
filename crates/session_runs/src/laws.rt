ghost use Rattle.std.specs.Prelude.{◌≡◌, ◌+◌, ◌*◌, ◌≤◌, ◌↔◌, ◌⊎◌, ℕ, true, List, [], ◌∷◌, ◌++◌, Some, Result, length, Contains};
ghost use Rattle.phrase_tree.specs.Numbering.{event_count};
ghost use Rattle.bench_trait.specs.declared.bench.MeasureError.{MeasureError};
ghost use Rattle.event_system.specs.Trace.{IsTraceSoFar};
ghost use Rattle.session_model.specs.Session.{Session, session_questions};
ghost use Rattle.session_model.specs.Record.{Record, IsRisingRecord};
ghost use Rattle.session_model.specs.RightRecord.{IsRightRecord};
ghost use Rattle.session_runs.specs.Owner.{owner};
ghost use Rattle.session_runs.specs.Standing.{Block, root, Move, Entry, is_open, is_in_flight, Standing, next};
ghost use Rattle.session_runs.specs.History.{standing_after, IsResult, IsLegal, record_of};
ghost use Rattle.session_runs.specs.MoveOrder.{Ready, ready_of, possible_moves};
ghost use Rattle.session_runs.specs.Schedule.{scheduled};
ghost use Rattle.session_runs.specs.Played.{AsksOnly, AskOnly, ArePlayed, AreOver, AllMeasured, AreLegal};
ghost use Rattle.session_runs.specs.Rising.{IsRising, AreRising};
ghost use Rattle.session_runs.specs.Progress.{CanMake, IsNotStuck, IsAtOneOf, IsTrulyReady, IsAwaited, movers_in};

use bench_trait::{ArtefactBook, Bench};

/// The law of length: a history of a session whose phrase has e events has at most 2e + 2 entries,
/// its opening among them.
pub fn length_law()
    ensures { (session : Session) (keys : List (List ℕ × List ℕ)) (history : List Entry) (standing : Standing) →
        standing_after session keys history ≡ Some standing →
        length history ≤ 2 * event_count session.phrase + 2 }
{}

/// The law of traces: the trace of a history is a trace so far of its phrase.
pub fn trace_law()
    ensures { (session : Session) (keys : List (List ℕ × List ℕ)) (history : List Entry) (standing : Standing) →
        standing_after session keys history ≡ Some standing →
        IsTraceSoFar session.phrase 0 standing.trace }
{}

/// The law of progress: while a session is open, every pass can make a move, or an ask is in flight; and
/// if the places given are all that its phrase asks, such a move is listed.
pub fn progress_law()
    ensures possible { (session : Session) (keys : List (List ℕ × List ℕ)) (history : List Entry) (standing : Standing) (pass : ℕ) →
        standing_after session keys history ≡ Some standing →
        standing.state ≡ is_open →
        IsNotStuck session keys standing pass }
    ensures listed { (session : Session) (keys : List (List ℕ × List ℕ)) (places : List (List ℕ)) (history : List Entry) (standing : Standing) →
        AsksOnly places session.phrase →
        standing_after session keys history ≡ Some standing →
        standing.state ≡ is_open →
        (1 ≤ length (possible_moves places standing)) ⊎ (1 ≤ length standing.in_flight) }
{}

/// The law of choice: after every history at most one configuration can move in each block, so that a
/// history alone fixes how its session stands.
pub fn choice_law()
    ensures { (session : Session) (keys : List (List ℕ × List ℕ)) (history : List Entry) (standing : Standing) (block : Block) →
        standing_after session keys history ≡ Some standing →
        movers_in block (ready_of standing.configuration) ≤ 1 }
{}

/// The law of listing: the moves that are listed are those that every pass can make, a delivery only if
/// its place is one of those given; and each configuration that is ready can make its step, which is of
/// the event that goes with it.
pub fn listing_law()
    ensures listed { (session : Session) (keys : List (List ℕ × List ℕ)) (places : List (List ℕ)) (history : List Entry) (standing : Standing) (pass : ℕ) (move : Move) →
        standing_after session keys history ≡ Some standing →
        Contains (possible_moves places standing) move ↔ (CanMake session keys standing pass move × IsAtOneOf places move) }
    ensures ready { (session : Session) (keys : List (List ℕ × List ℕ)) (history : List Entry) (standing : Standing) (pass : ℕ) (one : Ready) →
        standing_after session keys history ≡ Some standing →
        standing.state ≡ is_open →
        Contains (ready_of standing.configuration) one →
        IsTrulyReady session keys standing pass one }
{}

/// The law of results: while a session is open, an ask in flight is one of the session's own questions,
/// and each result for it can come next from the pass that asked; with an answer its event happens.
pub fn result_law()
    ensures { (session : Session) (keys : List (List ℕ × List ℕ)) (history : List Entry) (standing : Standing) (pass : ℕ) (event : ℕ) →
        standing_after session keys history ≡ Some standing →
        standing.state ≡ is_open →
        is_in_flight standing.in_flight pass event ≡ true →
        IsAwaited session keys standing pass event }
{}

/// The law of owners: a configuration that is ready for an event is in the block that owns the event.
pub fn owner_law()
    ensures { (session : Session) (keys : List (List ℕ × List ℕ)) (history : List Entry) (standing : Standing) (one : Ready) (event : ℕ) →
        standing_after session keys history ≡ Some standing →
        Contains (ready_of standing.configuration) one →
        one.event ≡ Some event →
        owner session.phrase root 0 event ≡ Some one.block }
{}

/// The law of schedules: as the schedule of a number plays the sessions of a job, with the results
/// given, they have histories that they can have, and none of them is open in the end unless one is
/// starved.
pub fn schedule_law()
    ensures { (places : List (List ℕ)) (keys : List (List ℕ × List ℕ)) (results : ℕ → ℕ → Result (List ℕ) MeasureError) (sessions : List Session) (number : ℕ) →
        AskOnly places sessions →
        ArePlayed keys results 0 sessions (scheduled places keys results sessions number)
        × AreOver (scheduled places keys results sessions number) }
{}

/// The law of legal schedules: as a schedule plays the sessions of a job, they have legal histories if
/// the results that stand in these are those of a bench.
pub fn legal_schedule_law<B: Bench>(bench: &B, artefacts: &ArtefactBook)
    ensures { (places : List (List ℕ)) (keys : List (List ℕ × List ℕ)) (results : ℕ → ℕ → Result (List ℕ) MeasureError) (sessions : List Session) (number : ℕ) →
        AskOnly places sessions →
        AllMeasured
        (λ ask answer. B.gives bench.now artefacts.now ask answer)
        (λ ask fault. B.fails bench.now artefacts.now ask fault)
        (λ ask. B.starves bench.now artefacts.now ask)
        results
        0
        (scheduled places keys results sessions number) →
        AreLegal
        (λ ask answer. B.gives bench.now artefacts.now ask answer)
        (λ ask fault. B.fails bench.now artefacts.now ask fault)
        (λ ask. B.starves bench.now artefacts.now ask)
        keys
        sessions
        (scheduled places keys results sessions number) }
{}

/// The law of rising schedules: as schedule number 0 plays the sessions of a job, the events of each
/// happen in the order of their numbers, and an event that fails is the next one.
pub fn rising_law()
    ensures { (places : List (List ℕ)) (keys : List (List ℕ × List ℕ)) (results : ℕ → ℕ → Result (List ℕ) MeasureError) (sessions : List Session) →
        AskOnly places sessions → AreRising (scheduled places keys results sessions 0) }
{}

/// The law of growth: a legal history with one more entry is legal exactly when the entry can come next
/// and, if it is a result, is one of the bench's for its question. So a history is legal entry by
/// entry.
pub fn growth_law<B: Bench>(bench: &B, artefacts: &ArtefactBook)
    ensures { (session : Session) (keys : List (List ℕ × List ℕ)) (history : List Entry) (standing : Standing) (entry : Entry) (then_stands : Standing) →
        IsLegal
        (λ ask answer. B.gives bench.now artefacts.now ask answer)
        (λ ask fault. B.fails bench.now artefacts.now ask fault)
        (λ ask. B.starves bench.now artefacts.now ask)
        session
        keys
        history
        standing →
        IsLegal
        (λ ask answer. B.gives bench.now artefacts.now ask answer)
        (λ ask fault. B.fails bench.now artefacts.now ask fault)
        (λ ask. B.starves bench.now artefacts.now ask)
        session
        keys
        (history ++ entry ∷ [])
        then_stands
        ↔ ((next session keys standing entry ≡ Some then_stands)
        × IsResult
        (λ ask answer. B.gives bench.now artefacts.now ask answer)
        (λ ask fault. B.fails bench.now artefacts.now ask fault)
        (λ ask. B.starves bench.now artefacts.now ask)
        (session_questions session)
        entry) }
{}

/// The law of records: the record of a legal history that is done or failed is right, whatever the bench.
pub fn record_law<B: Bench>(bench: &B, artefacts: &ArtefactBook)
    ensures { (session : Session) (keys : List (List ℕ × List ℕ)) (history : List Entry) (standing : Standing) (found : Record) →
        IsLegal
        (λ ask answer. B.gives bench.now artefacts.now ask answer)
        (λ ask fault. B.fails bench.now artefacts.now ask fault)
        (λ ask. B.starves bench.now artefacts.now ask)
        session
        keys
        history
        standing →
        record_of session standing standing.state ≡ Some found →
        IsRightRecord
        (λ ask answer. B.gives bench.now artefacts.now ask answer)
        (λ ask fault. B.fails bench.now artefacts.now ask fault)
        session
        keys
        found }
{}

/// The law of rising records: if the events of a legal history happened in the order of their numbers,
/// its record is right in that order.
pub fn rising_record_law<B: Bench>(bench: &B, artefacts: &ArtefactBook)
    ensures { (session : Session) (keys : List (List ℕ × List ℕ)) (history : List Entry) (standing : Standing) (found : Record) →
        IsLegal
        (λ ask answer. B.gives bench.now artefacts.now ask answer)
        (λ ask fault. B.fails bench.now artefacts.now ask fault)
        (λ ask. B.starves bench.now artefacts.now ask)
        session
        keys
        history
        standing →
        IsRising standing →
        record_of session standing standing.state ≡ Some found →
        IsRisingRecord
        (λ ask answer. B.gives bench.now artefacts.now ask answer)
        (λ ask fault. B.fails bench.now artefacts.now ask fault)
        session
        keys
        found }
{}
