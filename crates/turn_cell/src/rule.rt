// The rule of the table, and what each kind of step tells.
use crate::chronicle::Chronicle;
use crate::pass::Known;
use atomic_table::{Play, Split, TableRule};
use std::snapshot::Snapshot;

pub struct Turns;

impl<S: Chronicle> TableRule<Option<S>, Known<S::Opening, S::Item>, Snapshot<S>> for Turns {
    ghost use Rattle.turn_cell.specs.Rule.{Ruled};
    ghost use Rattle.turn_cell.specs.Steps.{maker};

    ghost holds = { λ key. Ruled S.history (S.history key.value) };

    ghost first = { λ key. maker (S.history key.value) };
}

// One more pass is made.
pub struct Makes;

impl<O, I> Split<Known<O, I>> for Makes {
    ghost use Rattle.turn_cell.specs.Steps.{after_one_more, newcomer};

    ghost left = { after_one_more };

    ghost right = { newcomer };
}

// The word is made odd.
pub struct Tries;

impl<S: Chronicle> Play<Option<S>, Known<S::Opening, S::Item>> for Tries {
    ghost use Rattle.turn_cell.specs.Steps.{tried};

    ghost then = { tried S.history };
}

// The turn is given back.
pub struct GivesBack;

impl<S: Chronicle> Play<Option<S>, Known<S::Opening, S::Item>> for GivesBack {
    ghost use Rattle.turn_cell.specs.Steps.{gave};

    ghost then = { gave S.history };
}
