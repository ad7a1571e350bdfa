ghost use Rattle.std.specs.Prelude.{◌≡◌, ℕ, List, Some};
ghost use Rattle.evidence_types.specs.Answer.{FitsAnswer};
ghost use Rattle.avm_compile.specs.Program.{program_of};
ghost use Rattle.machine_tables.specs.Tables.{Tables};
ghost use Rattle.machine_tables.specs.Allowed.{MayRun, MayDeliver, MayAnswer};
ghost use Rattle.session_model.specs.Session.{Session};
ghost use Rattle.session_runs.specs.Standing.{Block, Entry, is_open, Standing, makings};
ghost use Rattle.session_tables.specs.Played.{IsPlayed};

/// The law of allowed steps: while a light session is open, each of its blocks may run: what its machine
/// holds then fits a bundle, and an arm that it starts isn't started. The block that asked for an event may
/// get each answer of at most 1,024 bytes. And after every history the block of the request that is first
/// at a place isn't started, so that it may be delivered.
pub fn allowed_law()
    ensures runs { (session : Session) (keys : List (List ℕ × List ℕ)) (history : List Entry) (standing : Standing) (tables : Tables) (name : Block) →
        IsPlayed session keys history standing tables →
        standing.state ≡ is_open →
        MayRun (program_of session.phrase session.root) (makings session keys) tables name }
    ensures delivers { (session : Session) (keys : List (List ℕ × List ℕ)) (history : List Entry) (standing : Standing) (tables : Tables) (place : List ℕ) →
        IsPlayed session keys history standing tables → MayDeliver tables place }
    ensures answers { (session : Session) (keys : List (List ℕ × List ℕ)) (history : List Entry) (standing : Standing) (tables : Tables) (event pass : ℕ) (name : Block) (bytes : List ℕ) →
        IsPlayed session keys history standing tables →
        standing.state ≡ is_open →
        tables.in_flight event ≡ Some (pass, name) →
        FitsAnswer bytes →
        MayAnswer tables event bytes name }
{}
