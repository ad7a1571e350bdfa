//! What the lists of an agenda are to the tables of a session.
ghost use Rattle.std.specs.Prelude.{◌≡◌, ◌∷◌, [], ℕ, List, Option, None, Some, false};
ghost use Rattle.std.specs.List.{AllByRecursion};
ghost use Rattle.evidence_types.specs.Evidence.{Evidence, nonce};
ghost use Rattle.avm_code.specs.declared.program.Block.{Block as CodeBlock};
ghost use Rattle.avm_compile.specs.Program.{program_of};
ghost use Rattle.machine_tables.specs.Tables.{Tables, next_of, opening_tables, step_tables, tables_after};
ghost use Rattle.session_model.specs.Session.{Session};
ghost use Rattle.session_runs.specs.Standing.{Block, root, Entry, is_open, Standing, makings};
ghost use Rattle.session_runs.specs.Ordered.{AreApart};
ghost use Rattle.session_runs.specs.History.{standing_after};
ghost use Rattle.session_runs.specs.MoveOrder.{possible_moves};
ghost use Rattle.session_agenda.specs.declared.agenda.Agenda.{Agenda};
ghost use Rattle.session_agenda.specs.declared.moves.Update.{Update};
ghost use Rattle.session_agenda.specs.declared.moves.PlaceUpdate.{PlaceUpdate};
ghost use Rattle.session_agenda.specs.Kept.{next_by, waits_by, IsKept};
ghost use Rattle.session_agenda.specs.Listed.{silent_of, events_of};
ghost use Rattle.session_agenda.specs.Placed.{placed_moves, Follows};
ghost use Rattle.session_agenda.specs.Told.{Tells};
ghost use Rattle.session_agenda.specs.Updated.{updated, Says, AreOfOwnEvents, Become, waits_now};
ghost use Rattle.session_tables.specs.Shown.{IsShown};
ghost use Rattle.session_tables.specs.Agenda.{Lists, IsAgenda, listed_moves};

use session_tables::{agenda_law, touched_law};

/// The law of lists: the two lists of blocks of an agenda are what its blocks can do next, in order.
pub fn listed_law()
    ensures { (agenda : Agenda) → IsKept agenda → Lists (next_by agenda) (silent_of agenda) (events_of agenda) }
{}

/// The law of followed tables: if an agenda says what the tables of a session's machines say, its two
/// lists of blocks are those of these tables, its moves are the ones that these list, and while the
/// session is open they are its possible moves, in their order.
pub fn followed_law()
    ensures blocks { (agenda : Agenda) (tables : Tables) (places : List (List ℕ)) →
        IsKept agenda → Follows agenda tables places → IsAgenda tables (silent_of agenda) (events_of agenda) }
    ensures moves { (agenda : Agenda) (tables : Tables) (places : List (List ℕ)) →
        IsKept agenda → Follows agenda tables places →
        placed_moves places agenda ≡ listed_moves tables places (silent_of agenda) (events_of agenda) }
    ensures possible { (session : Session) (keys : List (List ℕ × List ℕ)) (history : List Entry) (standing : Standing) (agenda : Agenda) (tables : Tables) (places : List (List ℕ)) →
        standing_after session keys history ≡ Some standing →
        standing.state ≡ is_open →
        IsShown tables standing →
        IsKept agenda →
        Follows agenda tables places →
        possible_moves places standing ≡ placed_moves places agenda }
{
    agenda_law();
}

/// The law of telling: an agenda that follows the tables of a session's machines follows them after an
/// entry too, if it is told what the blocks that the entry touches can do next then, and of the place of
/// a send or a delivery. `before` is the agenda ahead of the telling and `after` the one behind it, with
/// what `Agenda::follow` ensures of them.
pub fn told_law()
    ensures blocks { (session : Session) (keys : List (List ℕ × List ℕ)) (history : List Entry) (old new : Tables) (entry : Entry) (places : List (List ℕ)) (before : Agenda) (blocks : List Update) (place : Option PlaceUpdate) →
        tables_after (program_of session.phrase session.root) (makings session keys) (nonce session.nonce) history ≡ Some old →
        step_tables (program_of session.phrase session.root) (makings session keys) old entry ≡ Some new →
        new.state ≡ is_open →
        AreOfOwnEvents (next_of new) →
        Follows before old places →
        Tells (program_of session.phrase session.root) places old new entry blocks place →
        Become (next_by before) blocks (next_of new) }
    ensures follows { (session : Session) (keys : List (List ℕ × List ℕ)) (old new : Tables) (entry : Entry) (places : List (List ℕ)) (before after : Agenda) (blocks : List Update) (place : Option PlaceUpdate) →
        step_tables (program_of session.phrase session.root) (makings session keys) old entry ≡ Some new →
        AreApart (List ℕ) places →
        Follows before old places →
        Tells (program_of session.phrase session.root) places old new entry blocks place →
        ((block : Block) → next_by after block ≡ next_of new block) →
        ((index : ℕ) → waits_by after index ≡ waits_now place (waits_by before) index) →
        Follows after new places }
{
    touched_law();
}

/// The law of the opening: an agenda of which no block can do anything and no request waits follows the
/// tables of a session just opened once it is told what the root can do next.
pub fn opening_law()
    ensures blocks { (program : List CodeBlock) (evidence : Evidence) (before : Agenda) (blocks : List Update) →
        ((block : Block) → next_by before block ≡ None) →
        updated blocks ≡ root ∷ [] →
        AllByRecursion (Says (next_of (opening_tables program evidence))) blocks →
        Become (next_by before) blocks (next_of (opening_tables program evidence)) }
    ensures follows { (program : List CodeBlock) (evidence : Evidence) (places : List (List ℕ)) (after : Agenda) →
        ((block : Block) → next_by after block ≡ next_of (opening_tables program evidence) block) →
        ((index : ℕ) → waits_by after index ≡ false) →
        Follows after (opening_tables program evidence) places }
{}
