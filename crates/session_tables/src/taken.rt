ghost use Rattle.std.specs.Prelude.{◌≡◌, ◌↔◌, ℕ, true, List, Option, Some, Contains};
ghost use Rattle.bench_trait.specs.declared.bench.BenchFault.{BenchFault};
ghost use Rattle.avm_code.specs.declared.program.Block.{Block as CodeBlock};
ghost use Rattle.avm_compile.specs.Program.{program_of};
ghost use Rattle.machine_tables.specs.Tables.{Tables, put_ask, step_tables, next_of};
ghost use Rattle.session_model.specs.Session.{Session};
ghost use Rattle.session_model.specs.Value.{Makings};
ghost use Rattle.session_runs.specs.Moves.{Step, ask as ask_step};
ghost use Rattle.session_runs.specs.Standing.{Block, Move, ask, deliver, Entry, played, answered, failed, starved, is_open, has_failed, has_starved, is_in_flight, Standing, makings};
ghost use Rattle.session_runs.specs.MoveOrder.{move_by, possible_moves};
ghost use Rattle.session_runs.specs.Progress.{IsAtOneOf};
ghost use Rattle.session_tables.specs.Touched.{any_waits};
ghost use Rattle.session_tables.specs.Played.{IsPlayed, CanTake};
ghost use Rattle.session_tables.specs.Takes.{TakesStep, IsAskedBy, stopped_at};

/// The law of steps: while a session is open, its machines can take a step of a block exactly where the
/// block's next instruction is for such a step, and the step adds its event: to the events that happened, or
/// to the asks in flight, and then it changes nothing else. They can take a delivery exactly where a request
/// waits at the place. What they can take of the moves between the places given is what is listed.
pub fn steps_law()
    ensures takes { (program : List CodeBlock) (from : Makings) (tables : Tables) (pass : ℕ) (name : Block) (step : Step) (event : Option ℕ) →
        tables.state ≡ is_open →
        next_of tables name ≡ Some (step, event) →
        TakesStep program from tables pass name step event }
    ensures next { (program : List CodeBlock) (from : Makings) (tables : Tables) (pass : ℕ) (name : Block) (step : Step) →
        tables.state ≡ is_open →
        CanTake program from tables (played pass (move_by step name)) →
        (event : Option ℕ) × (next_of tables name ≡ Some (step, event)) }
    ensures asks { (program : List CodeBlock) (from : Makings) (tables : Tables) (pass : ℕ) (name : Block) (event : ℕ) →
        tables.state ≡ is_open →
        next_of tables name ≡ Some (ask_step, Some event) →
        step_tables program from tables (played pass (ask name))
        ≡ Some (record tables { in_flight = put_ask event (Some (pass, name)) tables.in_flight }) }
    ensures delivers { (program : List CodeBlock) (from : Makings) (tables : Tables) (pass : ℕ) (place : List ℕ) →
        tables.state ≡ is_open →
        CanTake program from tables (played pass (deliver place)) ↔ (any_waits (tables.requests place) ≡ true) }
    ensures moves { (session : Session) (keys : List (List ℕ × List ℕ)) (history : List Entry) (standing : Standing) (tables : Tables) (places : List (List ℕ)) (pass : ℕ) (move : Move) →
        IsPlayed session keys history standing tables →
        Contains (possible_moves places standing) move
        ↔ (CanTake (program_of session.phrase session.root) (makings session keys) tables (played pass move)
        × IsAtOneOf places move) }
{}

/// The law of results taken: while a session is open, its machines can take an answer, a fault or want of
/// memory exactly where the ask is in flight and the pass asked for it; a fault and want of memory leave all
/// but the ask and the state. A pass has an ask in flight exactly where the machines say so, even once the
/// session isn't open any more.
pub fn results_law()
    ensures answers { (session : Session) (keys : List (List ℕ × List ℕ)) (history : List Entry) (standing : Standing) (tables : Tables) (pass event : ℕ) (bytes : List ℕ) →
        IsPlayed session keys history standing tables →
        standing.state ≡ is_open →
        CanTake (program_of session.phrase session.root) (makings session keys) tables (answered pass event bytes)
        ↔ IsAskedBy pass (tables.in_flight event) }
    ensures fails { (program : List CodeBlock) (from : Makings) (tables : Tables) (pass event : ℕ) (fault : BenchFault) →
        tables.state ≡ is_open →
        CanTake program from tables (failed pass event fault) ↔ IsAskedBy pass (tables.in_flight event) }
    ensures starves { (program : List CodeBlock) (from : Makings) (tables : Tables) (pass event : ℕ) →
        tables.state ≡ is_open →
        CanTake program from tables (starved pass event) ↔ IsAskedBy pass (tables.in_flight event) }
    ensures after_fault { (program : List CodeBlock) (from : Makings) (tables : Tables) (pass event : ℕ) (fault : BenchFault) →
        tables.state ≡ is_open →
        IsAskedBy pass (tables.in_flight event) →
        step_tables program from tables (failed pass event fault)
        ≡ Some (stopped_at event (has_failed event fault) tables) }
    ensures after_want { (program : List CodeBlock) (from : Makings) (tables : Tables) (pass event : ℕ) →
        tables.state ≡ is_open →
        IsAskedBy pass (tables.in_flight event) →
        step_tables program from tables (starved pass event) ≡ Some (stopped_at event (has_starved event) tables) }
    ensures flies { (session : Session) (keys : List (List ℕ × List ℕ)) (history : List Entry) (standing : Standing) (tables : Tables) (pass event : ℕ) →
        IsPlayed session keys history standing tables →
        (is_in_flight standing.in_flight pass event ≡ true) ↔ IsAskedBy pass (tables.in_flight event) }
{}
