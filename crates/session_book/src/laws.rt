ghost use Rattle.std.specs.Prelude.{List};
ghost use Rattle.evidence_types.specs.Evidence.{Evidence};
ghost use Rattle.machine_world.specs.declared.world.World.{World};
ghost use Rattle.machine_world.specs.Cells.{tables_of};
ghost use Rattle.session_tables.specs.Agenda.{AreAsked};
ghost use Rattle.session_book.specs.declared.book.SessionBook.{SessionBook};
ghost use Rattle.session_book.specs.Kept.{asks_of, book_of};

use crate::book::SessionBook;

/// The law of asks: the asks in flight of a book are listed in the order of their events, just those of
/// the tables for which a world and the book stand.
pub fn asked_law(_book: &SessionBook)
    ensures { (world : World) (values : List Evidence) → AreAsked (tables_of world (book_of values _book.now)) (asks_of _book.now) }
{
    _book.in_flight_rises();
}
