/// What is wrong with a list of numbers that should be a trace. Positions count from 0.
#[derive(Clone, Copy, Debug, PartialEq, Eq)]
pub enum TraceFault {
    /// The number at a position is not an event.
    Strange { at: u32 },
    /// The number at a position appeared before.
    Repeated { at: u32 },
    /// The event at a position has direct predecessors that haven't appeared yet; `needs` is the least
    /// of them.
    Early { at: u32, event: u32, needs: u32 },
    /// The least event that is missing.
    Missing { event: u32 },
}
