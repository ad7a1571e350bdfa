ghost use Rattle.std.specs.Prelude.{◌≡◌, ℕ, Bool, List, ◌∷◌, Some, length};
ghost use Rattle.evidence_types.specs.Answer.{FitsAnswer};
ghost use Rattle.evidence_types.specs.Bytes.{FitsBundle};
ghost use Rattle.evidence_types.specs.Measure.{IsLight};
ghost use Rattle.avm_code.specs.declared.instr.Instr.{Instr};
ghost use Rattle.avm_compile.specs.Program.{program_of};
ghost use Rattle.machine_tables.specs.Row.{Local, measured};
ghost use Rattle.machine_tables.specs.Tables.{running, Tables, block_name};
ghost use Rattle.avm_code.specs.Order.{place_called};
ghost use Rattle.session_model.specs.Session.{Session};
ghost use Rattle.session_runs.specs.Standing.{Block, Entry, is_open, Standing, makings};
ghost use Rattle.session_runs.specs.History.{standing_after};
ghost use Rattle.session_runs.specs.Light.{AreShort};
ghost use Rattle.session_tables.specs.Shown.{IsShown};
ghost use Rattle.session_tables.specs.NextFits.{NextFits, IsAsking};

/// The law of light blocks: while a session is open whose phrase is nowhere oversize, whose nonce has 16
/// bytes and whose answers have at most 1,024, what the next instruction of each block makes fits a
/// bundle, and what the block's machine holds after it does too. The block that waits for an answer runs,
/// and its next instruction is the measurement; so what every answer of at most 1,024 bytes makes there
/// fits a bundle.
pub fn fits_law()
    ensures made { (session : Session) (keys : List (List ℕ × List ℕ)) (history : List Entry) (standing : Standing) (tables : Tables) (name : Block) (for_request : Bool) (local : Local) (instr : Instr) (rest : List Instr) →
        IsLight session.phrase →
        length session.nonce ≡ 16 →
        AreShort history →
        standing_after session keys history ≡ Some standing →
        standing.state ≡ is_open →
        IsShown tables standing →
        tables.blocks name ≡ running for_request local →
        local.rest ≡ instr ∷ rest →
        NextFits
        (record { place = place_called (program_of session.phrase session.root) (block_name name); from = makings session keys })
        tables
        instr
        local }
    ensures asked { (session : Session) (keys : List (List ℕ × List ℕ)) (history : List Entry) (standing : Standing) (tables : Tables) (event pass : ℕ) (name : Block) →
        standing_after session keys history ≡ Some standing →
        standing.state ≡ is_open →
        IsShown tables standing →
        tables.in_flight event ≡ Some (pass, name) →
        IsAsking event (tables.blocks name) }
    ensures answered { (session : Session) (keys : List (List ℕ × List ℕ)) (history : List Entry) (standing : Standing) (tables : Tables) (event pass : ℕ) (name : Block) (for_request : Bool) (local : Local) (instr : Instr) (rest : List Instr) (bytes : List ℕ) →
        IsLight session.phrase →
        length session.nonce ≡ 16 →
        AreShort history →
        standing_after session keys history ≡ Some standing →
        standing.state ≡ is_open →
        IsShown tables standing →
        tables.in_flight event ≡ Some (pass, name) →
        tables.blocks name ≡ running for_request local →
        local.rest ≡ instr ∷ rest →
        FitsAnswer bytes →
        FitsBundle (measured instr bytes local.evidence) }
{}
