//! What the laws of sessions say of what a core tells.
ghost use Rattle.std.specs.Prelude.{◌≡◌, ℕ, List};
ghost use Rattle.session_model.specs.Session.{Session};
ghost use Rattle.session_runs.specs.Standing.{is_open, Standing};
ghost use Rattle.session_runs.specs.MoveOrder.{possible_moves, asks_in_order};
ghost use Rattle.session_agenda.specs.Placed.{placed_moves};
ghost use Rattle.session_book.specs.Kept.{asks_of};
ghost use Rattle.session_core.specs.declared.steps.Core.{Core};
ghost use Rattle.session_core.specs.Core.{IsCoreAt};

use session_agenda::followed_law;
use session_book::{SessionBook, asked_law};
use session_tables::agenda_law;

/// The moves of an open core's agenda are the possible moves of its session.
pub(crate) fn moves_law()
    ensures { (session : Session) (keys : List (List ℕ × List ℕ)) (places : List (List ℕ)) (standing : Standing) (core : Core) →
        IsCoreAt session keys places standing core →
        standing.state ≡ is_open →
        possible_moves places standing ≡ placed_moves places core.agenda }
{
    followed_law();
}

/// The asks in flight of a core's book are those of its session, in their order.
pub(crate) fn asks_law(book: &SessionBook)
    ensures { (session : Session) (keys : List (List ℕ × List ℕ)) (places : List (List ℕ)) (standing : Standing) (core : Core) →
        IsCoreAt session keys places standing core →
        core.book ≡ book.now →
        asks_in_order standing.in_flight ≡ asks_of book.now }
{
    agenda_law();
    asked_law(book);
}
