// A small chronicle, which borrows its opening and keeps a list of pass numbers. By it the tests, and the edits that the
// check must refuse, show how a state is extended under the turn.
ghost use Rattle.std.specs.Prelude.{◌≡◌, ◌+◌, [], ◌∷◌, ◌++◌, IfOk, MatchBool};
ghost use Rattle.turn_cell.specs.declared.chronicle.Entry.TheVariants.{Made};
ghost use Rattle.turn_cell.specs.Passes.{mine, losses, IsReady};

use crate::cell::TurnCell;
use crate::chronicle::Chronicle;
use crate::pass::CellPass;
use std::alloc::{AllocError, Global};

/// What a diary is opened with.
pub struct Begun<'a, T> {
    pub text: &'a T,
}

/// The numbers of the passes that had it, one for each entry.
pub struct Diary<'a, T> {
    pub text: &'a T,
    pub numbers: Vec<u32>,
}

impl<'a, T> Drop for Diary<'a, T> {
    fn drop(self) {
        let Self { text: _, numbers } = self;
        drop(numbers);
    }
}

impl<'a, T> Chronicle for Diary<'a, T> {
    ghost use Rattle.std.specs.Prelude.{◌∷◌, map, refl};
    ghost use Rattle.turn_cell.specs.declared.chronicle.Entry.TheVariants.{Opened};
    ghost use Rattle.turn_cell.specs.History.{entries};

    type Opening = Begun<'a, T>;

    type Item = ();

    ghost history = { λ d. Opened (record { text = d.text }) ∷ entries (map (λ n. (n, tt)) d.numbers.items) };

    ghost begins = { λ d. record { opening = record { text = d.text }; items = map (λ n. (n, tt)) d.numbers.items; is = refl } };
}

impl<'a, T> Diary<'a, T> {
    /// A diary with its opening alone.
    pub fn new(alloc: Global, text: &'a T) -> Diary<'a, T>
        ensures text { result.text.now ≡ text.now }
        ensures numbers { result.numbers.items ≡ [] }
    {
        Diary {
            text,
            numbers: Vec::new(alloc),
        }
    }
}

/// One entry more, if the turn is free and there is memory for it.
pub fn append<'a, T>(
    cell: &TurnCell<Diary<'a, T>>,
    pass: &mut CellPass<Diary<'a, T>>,
    by: u32,
) -> Result<bool, AllocError>
    requires { IsReady cell.now pass.old by }
    ensures ready { IsReady cell.now pass.new by }
    ensures added { IfOk result (λ added. MatchBool added (mine pass.new ≡ mine pass.old ++ Made by tt ∷ []) (losses pass.new ≡ losses pass.old + 1)) }
{
    let Some(mut diary) = cell.take(pass) else {
        return Ok(false);
    };
    let pushed = diary.numbers.push(by);
    cell.put(pass, diary);
    pushed?;
    Ok(true)
}
