ghost use Rattle.std.specs.Prelude.{◌≡◌, ◌≤◌, ◌↔◌, ◌+◌, ◌*◌, ℕ, List, length};
ghost use Rattle.phrase_tree.specs.Numbering.{event_count};
ghost use Rattle.evidence_types.specs.Evidence.{Evidence};
ghost use Rattle.machine_tables.specs.Tables.{over, Tables};
ghost use Rattle.session_model.specs.Session.{Session, session_questions};
ghost use Rattle.session_runs.specs.Standing.{root, Entry, is_done, Standing};
ghost use Rattle.session_tables.specs.Played.{IsPlayed};

/// The law of ends: a session is done with a value exactly where its root is over with that value.
pub fn over_law()
    ensures { (session : Session) (keys : List (List ℕ × List ℕ)) (history : List Entry) (standing : Standing) (tables : Tables) (value : Evidence) →
        IsPlayed session keys history standing tables →
        (standing.state ≡ is_done value) ↔ (tables.blocks root ≡ over value) }
{}

/// The law of bounds: a history has at most 2e + 2 entries if the phrase has e events; the events that
/// happened and the asks in flight are together at most e; and there are no more answers than questions.
pub fn bounds_law()
    ensures entries { (session : Session) (keys : List (List ℕ × List ℕ)) (history : List Entry) (standing : Standing) (tables : Tables) →
        IsPlayed session keys history standing tables → length history ≤ 2 * event_count session.phrase + 2 }
    ensures events { (session : Session) (keys : List (List ℕ × List ℕ)) (history : List Entry) (standing : Standing) (tables : Tables) →
        IsPlayed session keys history standing tables →
        length tables.trace + length standing.in_flight ≤ event_count session.phrase }
    ensures answers { (session : Session) (keys : List (List ℕ × List ℕ)) (history : List Entry) (standing : Standing) (tables : Tables) →
        IsPlayed session keys history standing tables →
        length tables.answers ≤ length (session_questions session) }
{}
