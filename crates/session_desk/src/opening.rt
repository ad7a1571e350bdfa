//! A desk is opened with a cell for each session. The passes of a cell are dealt out, one to each pass of
//! the desk.
ghost use Rattle.std.specs.Prelude.{◌≡◌, ◌<◌, ◌≤◌, ◌∷◌, ◌++◌, [], ℕ, List, Some, IfOk, OnOk, length, slice_get};
ghost use Rattle.atomic_table.specs.Seated.{TableId};
ghost use Rattle.turn_cell.specs.declared.pass.CellPass.{CellPass as Seat};
ghost use Rattle.turn_cell.specs.Passes.{cell_id};
ghost use Rattle.session_book.specs.declared.entry.Entry.{Entry};
ghost use Rattle.session_core.specs.declared.opened.Opened.{Opened};
ghost use Rattle.session_core.specs.Session.{Seen};
ghost use Rattle.session_desk.specs.Views.{Known};
ghost use Rattle.session_desk.specs.Seats.{IsSeat};
ghost use Rattle.session_desk.specs.Opening.{AreOpened, AreSeatedFrom};

use crate::pass::Pass;
use bench_trait::Bench;
use phrase_tree::NoMemory;
use session_core::Session;
use std::alloc::Global;
use turn_cell::{CellPass, TurnCell};

/// As many passes as this, with no seat yet.
pub(crate) fn fresh<'a, B: Bench>(alloc: Global, count: u32) -> Result<Vec<Pass<'a, B>>, NoMemory>
    ensures { IfOk result (λ passes. AreOpened [] count [] passes.items) }
{
    let mut passes = Vec::new(alloc);
    for number in 0..count {
        passes.push(Pass::new(alloc, number))?;
    }
    Ok(passes)
}

/// Gives each pass the seat of its index.
fn deal<'a, B: Bench>(
    passes: &mut Vec<Pass<'a, B>>,
    mut seats: Vec<CellPass<Session<'a, B>>>,
) -> Result<(), NoMemory>
    requires count { length seats.items ≡ length passes.old.items }
    requires seats { (at : ℕ) (pass : Known (Opened B)) (seat : Seat (Seen (Opened B)) (Opened B) Entry) →
        slice_get passes.old.items at ≡ Some pass → slice_get seats.items at ≡ Some seat → IsSeat pass.number seat }
    ensures { OnOk result (AreSeatedFrom 0 passes.old.items seats.entry.items passes.new.items) }
{
    while let Some(seat) = seats.pop() {
        let at = seats.len();
        let pass = &mut passes[at];
        match pass.sit(seat) {
            Ok(()) => {}
            Err(_) => return Err(NoMemory),
        }
    }
    Ok(())
}

/// Opens a cell for a session, and gives each pass a seat at it.
pub(crate) fn add<'a, B: Bench>(
    alloc: Global,
    session: Session<'a, B>,
    passes: &mut Vec<Pass<'a, B>>,
    count: u32,
) -> Result<TurnCell<Session<'a, B>>, NoMemory>
    requires some { 0 < count }
    requires opened { session.items ≡ [] }
    requires numbered { (at : ℕ) (pass : Known (Opened B)) → slice_get passes.old.items at ≡ Some pass → pass.number ≡ at }
    requires count { length passes.old.items ≡ count }
    ensures { IfOk result (λ cell. (desk : List TableId) (sessions : List (Seen (Opened B))) →
        AreOpened sessions count desk passes.old.items → AreOpened (sessions ++ session.entry ∷ []) count (desk ++ cell_id cell ∷ []) passes.new.items) }
{
    match TurnCell::open(alloc, session, count) {
        Ok((cell, seats)) => match deal(passes, seats) {
            Ok(()) => Ok(cell),
            Err(_) => Err(NoMemory),
        },
        Err(_) => Err(NoMemory),
    }
}
