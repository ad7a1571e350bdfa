//! What the laws of sessions say of a core and its steps.
ghost use Rattle.std.specs.Prelude.{◌≡◌, ◌<◌, ℕ, List, Option, Some, IfSome};
ghost use Rattle.std.specs.List.{AllByRecursion};
ghost use Rattle.session_model.specs.Session.{Session};
ghost use Rattle.session_runs.specs.Light.{IsShort};
ghost use Rattle.session_runs.specs.Standing.{Block, Entry, Standing, makings};
ghost use Rattle.avm_code.specs.declared.instr.BlockName.{BlockName};
ghost use Rattle.machine_tables.specs.Tables.{Tables, next_of, step_tables};
ghost use Rattle.machine_world.specs.declared.world.World.{World};
ghost use Rattle.session_agenda.specs.declared.agenda.Agenda.{Agenda};
ghost use Rattle.session_agenda.specs.declared.moves.Update.{Update};
ghost use Rattle.session_agenda.specs.declared.moves.PlaceUpdate.{PlaceUpdate};
ghost use Rattle.session_agenda.specs.Kept.{next_by, waits_by};
ghost use Rattle.session_agenda.specs.Placed.{Follows};
ghost use Rattle.session_agenda.specs.Updated.{updated, Says, Become, HasRoomToMark, waits_now};
ghost use Rattle.session_book.specs.declared.book.SessionBook.{SessionBook};
ghost use Rattle.session_book.specs.declared.entry.Ending.TheVariants as ending;
ghost use Rattle.session_core.specs.declared.steps.Core.{Core};
ghost use Rattle.session_core.specs.Core.{program_in, tables_at, tables_in, IsCoreAt};
ghost use Rattle.session_core.specs.Steps.{IsLeft, HasTaken, IsBehind, CanNoteAll, told_names};

use session_agenda::told_law;
use session_tables::{bounds_law, free_law, played_law};

/// The law of entries taken: where machines and a book are left by a step that is one of the tables, they
/// are those of the session after the entry.
pub(crate) fn taking_law()
    ensures { (session : Session) (keys : List (List ℕ × List ℕ)) (places : List (List ℕ)) (standing : Standing) (entry : Entry) (old : Core) (world : World) (book : SessionBook) →
        IsCoreAt session keys places standing old →
        IsShort entry →
        step_tables (program_in session) (makings session keys) (tables_in old) entry ≡ Some (tables_at world book) →
        IsLeft keys entry old world book →
        HasTaken session keys places (tables_in old) entry world book }
{
    played_law();
}

/// The law of telling a core's agenda: what its blocks can do next now is what the agenda becomes, for which
/// it has room; and then it follows the tables.
pub(crate) fn telling_law()
    ensures becomes { (session : Session) (keys : List (List ℕ × List ℕ)) (places : List (List ℕ)) (first : BlockName) (second : Option BlockName) (place : Option PlaceUpdate) (core : Core) (updates : List Update) →
        IsBehind session keys places first second place core →
        core.book.ending ≡ ending.Open →
        updated updates ≡ told_names first second →
        AllByRecursion (Says (next_of (tables_in core))) updates →
        Become (next_by core.agenda) updates (next_of (tables_in core)) }
    ensures room { (session : Session) (keys : List (List ℕ × List ℕ)) (places : List (List ℕ)) (first : BlockName) (second : Option BlockName) (place : Option PlaceUpdate) (core : Core) (updates : List Update) →
        IsBehind session keys places first second place core →
        core.book.ending ≡ ending.Open →
        AllByRecursion (Says (next_of (tables_in core))) updates →
        AllByRecursion (HasRoomToMark core.agenda) updates × IfSome place (λ update. update.place < core.agenda.places.bound) }
    ensures follows { (session : Session) (keys : List (List ℕ × List ℕ)) (places : List (List ℕ)) (first : BlockName) (second : Option BlockName) (place : Option PlaceUpdate) (core : Core) (updates : List Update) (after : Agenda) →
        IsBehind session keys places first second place core →
        core.book.ending ≡ ending.Open →
        updated updates ≡ told_names first second →
        AllByRecursion (Says (next_of (tables_in core))) updates →
        ((block : Block) → next_by after block ≡ next_of (tables_in core) block) →
        ((index : ℕ) → waits_by after index ≡ waits_now place (waits_by core.agenda) index) →
        Follows after (tables_in core) places }
{
    told_law();
    free_law();
}

/// The law of room: where the tables can take an entry, the book has room for it, for the events that have
/// happened then, and for the answers.
pub(crate) fn room_law()
    ensures { (session : Session) (keys : List (List ℕ × List ℕ)) (places : List (List ℕ)) (standing : Standing) (entry : Entry) (old : Core) (later : Tables) →
        IsCoreAt session keys places standing old →
        IsShort entry →
        step_tables (program_in session) (makings session keys) (tables_in old) entry ≡ Some later →
        CanNoteAll old.book later }
{
    played_law();
    bounds_law();
}
