ghost use Rattle.std.specs.Prelude.{◌≡◌, ℕ, [], Some, OnOk, slice_get};
ghost use Rattle.session_core.specs.declared.opened.Opened.{Opened};
ghost use Rattle.session_desk.specs.Views.{View, IsKnown};
ghost use Rattle.session_desk.specs.Seats.{IsSeat};
ghost use Rattle.session_desk.specs.Opening.{seated};

use bench_trait::Bench;
use phrase_tree::NoMemory;
use session_core::Session;
use std::alloc::Global;
use std::marker::Model;
use turn_cell::CellPass;

/// One of those who take turns at the sessions of a desk.
#[derive(Drop)]
pub struct Pass<'a, B: Bench> {
    pub(crate) number: u32,
    pub(crate) seats: Vec<CellPass<Session<'a, B>>>,
}

impl<'a, B: Bench> Model for Pass<'a, B> {
    ghost use Rattle.std.specs.Coded.{codes};
    ghost use Rattle.phrase_tree.specs.contracts.phrase.Phrase as trees;
    ghost use Rattle.atomic_table.specs.Seated.{table_id_coded};
    ghost use Rattle.session_core.specs.declared.opened.Opened.{Opened};
    ghost use Rattle.session_desk.specs.Views.{Known};
    ghost use Rattle.session_desk.specs.Seats.{views_of, AreSeats};

    ghost Value = { Known (Opened B) };

    ghost coded = { Prim.hlevel (codes, trees.the_row.coded, table_id_coded) };

    ghost view = { λ p. record { number = p.number; views = views_of p.seats.items } };

    ghost invariant = { λ p. AreSeats p.number p.seats.items };
}

impl<'a, B: Bench> Pass<'a, B> {
    /// A law: what holds of a pass at every moment, of each session.
    pub fn knows(&self)
        ensures { (at : ℕ) (view : View (Opened B)) → slice_get self.now.views at ≡ Some view → IsKnown self.now.number view }
    {
        let _ = &self.seats;
    }

    /// A pass with no seat yet.
    pub(crate) fn new(alloc: Global, number: u32) -> Pass<'a, B>
        ensures { result ≡ record { number = number; views = [] } }
    {
        Pass {
            number,
            seats: Vec::new(alloc),
        }
    }

    /// The number of the pass, which is its place among the desk's passes.
    pub fn number(&self) -> usize
        ensures { result ≡ self.now.number }
    {
        self.number as usize
    }

    /// Takes a seat more, at the last session's cell.
    pub(crate) fn sit(&mut self, seat: CellPass<Session<'a, B>>) -> Result<(), NoMemory>
        requires { IsSeat self.old.number seat }
        ensures { OnOk result (self.new ≡ seated self.old seat.entry) }
    {
        match self.seats.push(seat) {
            Ok(()) => Ok(()),
            Err(_) => Err(NoMemory),
        }
    }
}
