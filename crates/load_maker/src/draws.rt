ghost use Rattle.std.specs.Prelude.{◌≡◌, ◌<◌, ◌≤◌, Some};
ghost use Rattle.session_runs.specs.Schedule.{draw, stirred};

use std::marker::Model;

/// What the numbers for a made job are drawn from.
#[derive(Drop)]
pub(crate) struct Draws {
    from: u32,
}

impl Model for Draws {
    ghost use Rattle.std.specs.Prelude.{ℕ, Option, Some};

    ghost Value = { Option ℕ };

    ghost view = { λ draws. Some draws.from };

    ghost invariant = { λ draws. Unit {0} };
}

impl Draws {
    /// What the job of a number is drawn from.
    pub(crate) fn first(number: u32) -> Draws
        ensures { result ≡ Some number }
    {
        Draws { from: number }
    }

    /// Draws a number below this count, which is at least 2.
    pub(crate) fn draw(&mut self, count: u32) -> u32
        requires { 2 ≤ count }
        ensures drawn { result ≡ (draw count self.old).drawn }
        ensures below { result < count }
        ensures from { self.new ≡ (draw count self.old).from }
    {
        let next = stirred(self.from);
        self.from = next;
        next / 65536 % count
    }
}

/// The number behind this one.
fn stirred(x: u32) -> u32
    ensures { result ≡ stirred x }
{
    x.wrapping_mul(1664525).wrapping_add(1013904223)
}
