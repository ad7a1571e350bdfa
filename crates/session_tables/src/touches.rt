ghost use Rattle.std.specs.Prelude.{◌≡◌, ℕ, Bool, List, ◌∷◌, None, Some};
ghost use Rattle.avm_code.specs.declared.instr.Instr.{Instr};
ghost use Rattle.evidence_types.specs.Evidence.{Evidence};
ghost use Rattle.machine_tables.specs.Row.{Local};
ghost use Rattle.machine_tables.specs.Tables.{running, Tables};
ghost use Rattle.session_model.specs.Session.{Session};
ghost use Rattle.session_runs.specs.Standing.{Block, run, deliver, Entry, played, is_open, Standing, next};
ghost use Rattle.session_runs.specs.History.{standing_after};
ghost use Rattle.session_runs.specs.Touches.{needs_request, touch_of, sent_by};
ghost use Rattle.session_tables.specs.Shown.{IsShown};
ghost use Rattle.session_tables.specs.TouchedAt.{touched_at};

/// The law of touches by instructions: a possible move of a block sends or needs the request or reply
/// that the block's next instruction does, and what it sends is the evidence that its machine holds; and
/// while a session is open, a delivery needs the request that is first at its place, and sends nothing.
pub fn touches_law()
    ensures runs { (session : Session) (keys : List (List ℕ × List ℕ)) (history : List Entry) (standing after : Standing) (tables : Tables) (pass : ℕ) (name : Block) (for_request : Bool) (local : Local) (instr : Instr) (rest : List Instr) →
        standing_after session keys history ≡ Some standing →
        IsShown tables standing →
        next session keys standing (played pass (run name)) ≡ Some after →
        tables.blocks name ≡ running for_request local →
        local.rest ≡ instr ∷ rest →
        (touch_of standing (run name) ≡ (touched_at name for_request instr local).touch)
        × (sent_by standing (run name) ≡ (touched_at name for_request instr local).sent) }
    ensures delivered { (standing : Standing) (tables : Tables) (place : List ℕ) (request : ℕ × Evidence) (rest : List (ℕ × Evidence)) →
        standing.state ≡ is_open →
        IsShown tables standing →
        tables.requests place ≡ request ∷ rest →
        (touch_of standing (deliver place) ≡ needs_request request.0) × (sent_by standing (deliver place) ≡ None) }
{}
