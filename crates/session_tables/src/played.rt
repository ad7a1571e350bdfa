ghost use Rattle.std.specs.Prelude.{◌≡◌, ◌↔◌, ℕ, List, [], ◌∷◌, Some, length};
ghost use Rattle.evidence_types.specs.Evidence.{nonce};
ghost use Rattle.evidence_types.specs.Measure.{IsLight};
ghost use Rattle.avm_compile.specs.Program.{program_of};
ghost use Rattle.machine_tables.specs.Tables.{Tables, step_tables, opening_tables};
ghost use Rattle.session_model.specs.Session.{Session};
ghost use Rattle.session_runs.specs.Standing.{Entry, opened, Standing, opening, makings};
ghost use Rattle.session_runs.specs.Light.{IsShort};
ghost use Rattle.session_runs.specs.Progress.{CanCome};
ghost use Rattle.session_tables.specs.Played.{IsPlayed, IsPlayedOn, CanTake};

/// The law of played sessions: a light session that is opened is one, with the tables of its opening. One
/// entry more can come next exactly where the tables take it, and then the session is one after it.
pub fn played_law()
    ensures opens { (session : Session) (keys : List (List ℕ × List ℕ)) →
        IsLight session.phrase →
        length session.nonce ≡ 16 →
        IsPlayed
        session
        keys
        (opened ∷ [])
        (opening session)
        (opening_tables (program_of session.phrase session.root) (nonce session.nonce)) }
    ensures goes_on { (session : Session) (keys : List (List ℕ × List ℕ)) (history : List Entry) (standing : Standing) (tables later : Tables) (entry : Entry) →
        IsPlayed session keys history standing tables →
        IsShort entry →
        step_tables (program_of session.phrase session.root) (makings session keys) tables entry ≡ Some later →
        IsPlayedOn session keys history standing entry later }
    ensures can { (session : Session) (keys : List (List ℕ × List ℕ)) (history : List Entry) (standing : Standing) (tables : Tables) (entry : Entry) →
        IsPlayed session keys history standing tables →
        CanCome session keys standing entry
        ↔ CanTake (program_of session.phrase session.root) (makings session keys) tables entry }
{}
