ghost use Rattle.std.specs.Prelude.{◌≡◌, ◌<◌, IfOk, Some, length, slice_get};
ghost use Rattle.std.specs.List.{remove};
ghost use Rattle.session_model.specs.Record.{numbers_below};

use phrase_tree::NoMemory;
use std::alloc::Global;
use std::marker::Model;

/// The numbers of the sessions that are open, in order.
///
/// Dropping one shifts those behind it; everything else takes constant time. No call but `of` takes
/// memory.
#[derive(Debug, Drop)]
pub struct Going {
    numbers: Vec<u32>,
}

impl Model for Going {
    ghost use Rattle.std.specs.Prelude.{ℕ, List};

    ghost Value = { List ℕ };

    ghost view = { λ going. going.numbers.items };

    ghost invariant = { λ going. Unit {0} };
}

impl Going {
    /// The numbers below a count, all of them.
    pub fn of(alloc: Global, count: u32) -> Result<Going, NoMemory>
        ensures { IfOk result (λ going. going ≡ numbers_below count) }
    {
        let mut numbers = Vec::with_capacity(alloc, count as usize)?;
        for number in 0..count {
            numbers.push(number)?;
        }
        Ok(Going { numbers })
    }

    /// How many there are.
    pub fn count(&self) -> usize
        ensures { result ≡ length self.now }
    {
        self.numbers.len()
    }

    /// The one at an index below their count.
    pub fn nth(&self, index: usize) -> u32
        requires { index < length self.now }
        ensures { slice_get self.now index ≡ Some result }
    {
        self.numbers[index]
    }

    /// Drops the one at an index below their count.
    pub fn drop_at(&mut self, index: usize)
        requires { index < length self.old }
        ensures { self.new ≡ remove self.old index }
    {
        self.numbers.remove(index);
    }
}
