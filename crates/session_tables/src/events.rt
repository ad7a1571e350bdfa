ghost use Rattle.std.specs.Prelude.{◌≡◌, ◌<◌, ℕ, Bool, List, ◌∷◌, Option, None, Some, Contains};
ghost use Rattle.phrase_tree.specs.Numbering.{event_count};
ghost use Rattle.avm_code.specs.declared.instr.Instr.{Instr};
ghost use Rattle.avm_code.specs.Order.{place_called};
ghost use Rattle.avm_compile.specs.Program.{program_of};
ghost use Rattle.machine_tables.specs.Row.{Local};
ghost use Rattle.machine_tables.specs.Tables.{not_started, running, Tables, block_name, next_of};
ghost use Rattle.session_model.specs.Session.{Session};
ghost use Rattle.session_runs.specs.Moves.{Step, ask as ask_step};
ghost use Rattle.session_runs.specs.Room.{events_answered};
ghost use Rattle.session_runs.specs.Standing.{Block, of, Entry, is_open, Standing};
ghost use Rattle.session_tables.specs.Played.{IsPlayed};
ghost use Rattle.session_tables.specs.Questions.{AsksItsQuestion, AsksNext};

/// The law of free events: while a session is open, no two of its blocks are for the same event next, and
/// no event that is next is asked for already. The events that are next or asked for, and the numbers of
/// the blocks that have started, are numbers of the phrase's events; and what is asked for hasn't been
/// answered.
pub fn free_law()
    ensures one { (session : Session) (keys : List (List ℕ × List ℕ)) (history : List Entry) (standing : Standing) (tables : Tables) (name other : Block) (step other_step : Step) (event : ℕ) →
        IsPlayed session keys history standing tables →
        standing.state ≡ is_open →
        next_of tables name ≡ Some (step, Some event) →
        next_of tables other ≡ Some (other_step, Some event) →
        name ≡ other }
    ensures unasked { (session : Session) (keys : List (List ℕ × List ℕ)) (history : List Entry) (standing : Standing) (tables : Tables) (name : Block) (step : Step) (event : ℕ) →
        IsPlayed session keys history standing tables →
        standing.state ≡ is_open →
        next_of tables name ≡ Some (step, Some event) →
        tables.in_flight event ≡ None }
    ensures events { (session : Session) (keys : List (List ℕ × List ℕ)) (history : List Entry) (standing : Standing) (tables : Tables) (name : Block) (step : Step) (event : ℕ) →
        IsPlayed session keys history standing tables →
        standing.state ≡ is_open →
        next_of tables name ≡ Some (step, Some event) →
        event < event_count session.phrase }
    ensures blocks { (session : Session) (keys : List (List ℕ × List ℕ)) (history : List Entry) (standing : Standing) (tables : Tables) (number : ℕ) (step : Step) (event : Option ℕ) →
        IsPlayed session keys history standing tables →
        next_of tables (of number) ≡ Some (step, event) →
        number < event_count session.phrase }
    ensures started { (session : Session) (keys : List (List ℕ × List ℕ)) (history : List Entry) (standing : Standing) (tables : Tables) (number : ℕ) →
        IsPlayed session keys history standing tables →
        (tables.blocks (of number) ≡ not_started → ⊥) →
        number < event_count session.phrase }
    ensures asked { (session : Session) (keys : List (List ℕ × List ℕ)) (history : List Entry) (standing : Standing) (tables : Tables) (event pass : ℕ) (name : Block) →
        IsPlayed session keys history standing tables →
        tables.in_flight event ≡ Some (pass, name) →
        event < event_count session.phrase }
    ensures unanswered { (session : Session) (keys : List (List ℕ × List ℕ)) (history : List Entry) (standing : Standing) (tables : Tables) (event pass : ℕ) (name : Block) →
        IsPlayed session keys history standing tables →
        tables.in_flight event ≡ Some (pass, name) →
        Contains (events_answered tables.answers) event →
        ⊥ }
{}

/// The law of own questions: where a block is for asking next, or has asked while the session is open, its
/// next instruction measures that event, and the session's question of it is that of the block's place and
/// of the measurement.
pub fn own_question_law()
    ensures next { (session : Session) (keys : List (List ℕ × List ℕ)) (history : List Entry) (standing : Standing) (tables : Tables) (event : ℕ) (name : Block) →
        IsPlayed session keys history standing tables →
        next_of tables name ≡ Some (ask_step, Some event) →
        AsksNext
        session
        (place_called (program_of session.phrase session.root) (block_name name))
        event
        (tables.blocks name) }
    ensures asked { (session : Session) (keys : List (List ℕ × List ℕ)) (history : List Entry) (standing : Standing) (tables : Tables) (event pass : ℕ) (name : Block) →
        IsPlayed session keys history standing tables →
        standing.state ≡ is_open →
        tables.in_flight event ≡ Some (pass, name) →
        AsksNext
        session
        (place_called (program_of session.phrase session.root) (block_name name))
        event
        (tables.blocks name) }
    ensures instr { (session : Session) (keys : List (List ℕ × List ℕ)) (history : List Entry) (standing : Standing) (tables : Tables) (name : Block) (for_request : Bool) (local : Local) (instr : Instr) (rest : List Instr) →
        IsPlayed session keys history standing tables →
        tables.blocks name ≡ running for_request local →
        local.rest ≡ instr ∷ rest →
        AsksItsQuestion session (place_called (program_of session.phrase session.root) (block_name name)) instr }
{}
