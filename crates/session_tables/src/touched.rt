ghost use Rattle.std.specs.Prelude.{◌≡◌, ℕ, List, Some};
ghost use Rattle.machine_tables.specs.Tables.{Tables, next_of, step_tables, tables_after};
ghost use Rattle.evidence_types.specs.Evidence.{nonce};
ghost use Rattle.avm_compile.specs.Program.{program_of};
ghost use Rattle.session_model.specs.Session.{Session};
ghost use Rattle.session_runs.specs.Standing.{Block, Entry, is_open, makings};
ghost use Rattle.session_tables.specs.Touched.{touched, changed_at, any_waits, waits_after};

/// The law of touched blocks: after an entry that leaves a session open, each block can do next what it
/// could before, but for those that the entry touches: the block that runs, asks or gets its answer, the
/// block that starts, and the block that waits for one that ends. And a request waits at a place just
/// where one did, but that a send's place gains it, and a delivery's place keeps it only where a second
/// waits.
pub fn touched_law()
    ensures blocks { (session : Session) (keys : List (List ℕ × List ℕ)) (history : List Entry) (old new : Tables) (entry : Entry) (block : Block) →
        tables_after (program_of session.phrase session.root) (makings session keys) (nonce session.nonce) history ≡ Some old →
        step_tables (program_of session.phrase session.root) (makings session keys) old entry ≡ Some new →
        new.state ≡ is_open →
        next_of new block ≡ changed_at (touched (program_of session.phrase session.root) old entry) (next_of new) (next_of old) block }
    ensures places { (session : Session) (keys : List (List ℕ × List ℕ)) (old new : Tables) (entry : Entry) (place : List ℕ) →
        step_tables (program_of session.phrase session.root) (makings session keys) old entry ≡ Some new →
        any_waits (new.requests place) ≡ waits_after old entry place }
{}
