// The cell, and its three calls.
ghost use Rattle.std.specs.Prelude.{◌≡◌, ◌^◌, ◌≤◌, ◌<◌, IfOk, IfErr};
ghost use Rattle.turn_cell.specs.Steps.{word_after};

use crate::chronicle::Chronicle;
use crate::pass::{CellPass, Known, Ticket};
use crate::rule::{GivesBack, Makes, Tries, Turns};
use atomic_table::{Refused, Seat, Table, TableRule};
use std::alloc::Global;
use std::snapshot::Snapshot;

// The number of the last taking. When it ends the turn is worn out.
const LAST: u64 = 1 << 63;

/// The table of a cell. It is separate from the cell, since it requires nothing of the state.
#[derive(Drop)]
pub struct Shelf<S, V, K, P: TableRule<S, V, K>> {
    pub(crate) table: Table<S, V, K, P, Global>,
    ghost small: { (table.shared.table_id.words ≡ 1) × (table.shared.table_id.slots ≡ 1) },
}

/// A cell, which keeps one state. Word 0 is 2 t while the turn is free after t takings, and 2 t - 1 while the taking of
/// number t has it. Slot 0 has the state while the turn is free.
#[derive(Drop)]
pub struct TurnCell<S: Chronicle> {
    pub(crate) shelf: Shelf<Option<S>, Known<S::Opening, S::Item>, Snapshot<S>, Turns>,
}

/// There was no memory. The state comes back.
#[derive(Drop)]
pub struct Unopened<S: Drop> {
    pub state: S,
}

// The word at which the taking of this number ends.
fn word_after_taking(taking: u64) -> u64
    requires { taking ≤ 2 ^ 63 }
    ensures { result ≡ word_after taking }
{
    if taking == LAST { u64::MAX } else { 2 * taking }
}

impl<S: Chronicle> TurnCell<S> {
    ghost use Rattle.std.specs.Prelude.{[], false, true, IfSome, IfNone};
    ghost use Rattle.turn_cell.specs.History.{IsOpening, Extends};
    ghost use Rattle.turn_cell.specs.Passes.{number, opening, holds, got, first_state, MadeBy, Knows, AreNew, Takes, Loses, Puts};
    ghost use Rattle.turn_cell.specs.Steps.{maker, after_one_more, newcomer};

    /// A cell that keeps this state, and as many passes of it as there are seats, in the order of their numbers.
    pub fn open(
        alloc: Global,
        state: S,
        seats: u32,
    ) -> Result<(TurnCell<S>, Vec<CellPass<S>>), Unopened<S>>
        requires seats { 0 < seats }
        requires opening { IsOpening (S.history state) }
        ensures ok { IfOk result (λ opened. AreNew (S.history state) seats opened.0 opened.1.items) }
        ensures first { IfOk result (λ opened. first_state opened.0 ≡ state) }
        ensures err { IfErr result (λ unopened. unopened.state ≡ state) }
    {
        let Ok(mut passes) = Vec::with_capacity(alloc, seats as usize) else {
            return Err(Unopened { state });
        };
        let (cell, mut maker) = TurnCell::lay(alloc, state)?;
        for _ in 0..seats {
            passes.push_reserved(cell.make(&mut maker));
        }
        Ok((cell, passes))
    }

    // The cell, and the seat that makes its passes.
    fn lay(
        alloc: Global,
        state: S,
    ) -> Result<(TurnCell<S>, Seat<Option<S>, Known<S::Opening, S::Item>>), Unopened<S>>
        requires { IsOpening (S.history state) }
        ensures ok { IfOk result (λ laid. (laid.1.table_id ≡ laid.0.shelf.table.shared.table_id) × (laid.1.id ≡ 0) × (laid.1.me.0 ≡ maker (S.history state)) × (first_state laid.0 ≡ state)) }
        ensures err { IfErr result (λ unopened. unopened.state ≡ state) }
    {
        let about = Snapshot::of(&state);
        let Ok(mut slots) = Vec::with_capacity(alloc, 1) else {
            return Err(Unopened { state });
        };
        slots.push_reserved(Some(state));
        match Table::new(alloc, &[0], slots, &about) {
            Ok((table, maker)) => Ok((
                TurnCell {
                    shelf: Shelf { table },
                },
                maker,
            )),
            Err(Refused { mut slots }) => match slots.pop() {
                Some(Some(state)) => Err(Unopened { state }),
                _ => unreachable!(),
            },
        }
    }

    // One pass more.
    fn make(&self, maker: &mut Seat<Option<S>, Known<S::Opening, S::Item>>) -> CellPass<S>
        requires table { (maker.old.table_id ≡ self.now.shelf.table.shared.table_id) × (maker.old.id ≡ 0) }
        requires seen { IsOpening maker.old.me.0.seen }
        ensures maker { (maker.new.table_id ≡ maker.old.table_id) × (maker.new.id ≡ maker.old.id) × (maker.new.me.0 ≡ after_one_more maker.old.me.0) }
        ensures pass { MadeBy self.now result × (result.ticket.seat.me.0 ≡ newcomer maker.old.me.0) }
    {
        let seat = self.shelf.table.shared.split_seat::<Makes>(maker);
        CellPass {
            ticket: Ticket { seat, last: 0 },
        }
    }

    /// The state, if the turn is free. It does not wait, and takes no memory.
    pub fn take(&self, pass: &mut CellPass<S>) -> Option<S>
        requires made { MadeBy self.now pass.old }
        requires idle { holds pass.old ≡ false }
        ensures made { MadeBy self.now pass.new }
        ensures knows { Knows pass.new }
        ensures some { IfSome result (λ state. Takes (S.history state) pass.old pass.new) }
        ensures none { IfNone result (Loses pass.old pass.new) }
    {
        let shared = &self.shelf.table.shared;
        let ticket = &mut pass.ticket;
        let found = shared.fetch_or::<Tries>(&mut ticket.seat, 0, 1);
        if found % 2 != 0 {
            return None;
        }
        ticket.last = found / 2 + 1;
        shared.exchange(&mut ticket.seat, 0, None)
    }

    /// Puts the state back and gives up the turn. It does not wait, and takes no memory.
    pub fn put(&self, pass: &mut CellPass<S>, state: S)
        requires made { MadeBy self.now pass.old }
        requires holding { holds pass.old ≡ true }
        requires extends { Extends (number pass.old) (got pass.old) (S.history state) }
        ensures made { MadeBy self.now pass.new }
        ensures knows { Knows pass.new }
        ensures puts { Puts (S.history state) pass.old pass.new }
    {
        let shared = &self.shelf.table.shared;
        let ticket = &mut pass.ticket;
        match shared.exchange(&mut ticket.seat, 0, Some(state)) {
            None => {}
            Some(_) => unreachable!(),
        }
        shared.store::<GivesBack>(&mut ticket.seat, 0, word_after_taking(ticket.last));
    }
}
