ghost use Rattle.std.specs.Prelude.{◌≡◌, ◌<◌};
ghost use Rattle.session_runs.specs.Schedule.{draw, first_from, stirred};

use std::marker::Model;

/// What a schedule draws from.
#[derive(Debug, Drop)]
pub struct Draws {
    from: Option<u32>,
}

impl Model for Draws {
    ghost use Rattle.std.specs.Prelude.{ℕ, Option};

    ghost Value = { Option ℕ };

    ghost view = { λ draws. draws.from };

    ghost invariant = { λ draws. Unit {0} };
}

impl Draws {
    /// What the schedule of a number draws from first: the number 0 has a schedule that draws 0 always.
    pub fn first(number: u32) -> Draws
        ensures { result ≡ first_from number }
    {
        Draws {
            from: number.checked_sub(1),
        }
    }

    /// Draws a number below this count, which isn't 0. Of one alone nothing is drawn.
    pub fn draw(&mut self, count: usize) -> usize
        requires { 0 < count }
        ensures drawn { result ≡ (draw count self.old).drawn }
        ensures below { result < count }
        ensures from { self.new ≡ (draw count self.old).from }
    {
        if count == 1 {
            return 0;
        }
        match self.from {
            None => 0,
            Some(x) => {
                let next = stirred(x);
                self.from = Some(next);
                (next / 65536) as usize % count
            }
        }
    }
}

/// The number behind this one.
fn stirred(x: u32) -> u32
    ensures { result ≡ stirred x }
{
    x.wrapping_mul(1664525).wrapping_add(1013904223)
}
