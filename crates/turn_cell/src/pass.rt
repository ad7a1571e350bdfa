// What a pass knows, and the pass itself.
ghost use Rattle.std.specs.Prelude.{◌≡◌, ◌≢◌, ◌^◌, ◌≤◌, true, false, [], ◌∷◌, None};
ghost use Rattle.turn_cell.specs.History.{opening_of, made_by};

use crate::chronicle::{Chronicle, Entry};
use atomic_table::Seat;
use std::collections::LinkedList;

/// What a seat at the table knows. No value of it is made.
pub struct Known<O, I> {
    // The seat that makes the passes has this, and its number is the count of those that it made.
    pub makes: bool,
    pub number: u32,
    pub seen: LinkedList<Entry<O, I>>,
    pub mine: LinkedList<Entry<O, I>>,
    pub holds: bool,
    pub got: LinkedList<Entry<O, I>>,
    pub takings: u64,
    pub last: u64,
    pub losses: u64,
    pub met: u64,
}

/// The seat of a pass. It is separate from the pass, since it requires nothing of the state.
#[derive(Drop)]
pub struct Ticket<S, O, I> {
    pub(crate) seat: Seat<Option<S>, Known<O, I>>,
    pub(crate) last: u64,
    ghost last_is: { last ≡ seat.me.0.last },
    ghost in_range: { last ≤ 2 ^ 63 },
    ghost begins: { opening_of seat.me.0.seen ≢ None },
    ghost own: { seat.me.0.mine ≡ made_by seat.me.0.number seat.me.0.seen },
    ghost no_maker: { seat.me.0.makes ≡ false },
    ghost idle: { seat.me.0.holds ≡ false → seat.me.1 ≡ [] },
    ghost holding: { seat.me.0.holds ≡ true → seat.me.1 ≡ (0, None) ∷ [] },
}

/// One of those who take turns at a cell, with what it knows. It has one number at run time, that of its last taking.
#[derive(Drop)]
pub struct CellPass<S: Chronicle> {
    pub(crate) ticket: Ticket<S, S::Opening, S::Item>,
}

impl<S: Chronicle> CellPass<S> {
    ghost use Rattle.turn_cell.specs.Passes.{Knows};

    /// What holds of a pass at every moment.
    pub fn knows(&self)
        ensures { Knows self.now }
    {
        let _ = &self.ticket;
    }
}
