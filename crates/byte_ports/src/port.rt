ghost use Rattle.std.specs.Prelude.{◌≡◌, ℕ, ◌<◌, ◌≤◌, List, length, Option, IfOk, OnErr};
ghost use Rattle.byte_ports.specs.Port.{Reads, Rose, Writes};

/// The port met a fault, and its count of faults rose.
#[derive(Clone, Copy, Debug, PartialEq, Eq)]
pub struct PortFailed;

/// Bytes that come in.
pub trait Source {
    /// The bytes that are left, if the source tells them. Whether it does never changes.
    ghost left: { Self → Option (List ℕ) };

    /// How many faults it met. The count never falls, and stands still at the last number of 64 bits.
    ghost faults: { Self → ℕ };

    /// Puts the next bytes at the front of `buf`, and says how many; none are given only at the end.
    /// After a fault the bytes left are as before.
    fn read(&mut self, buf: &mut [u8]) -> Result<usize, PortFailed>
        requires { 0 < length buf.old }
        ensures count { IfOk result (λ count. count ≤ length buf.new) }
        ensures bytes { Reads (left self.old) (left self.new) result buf.new }
        ensures faults { faults self.old ≤ faults self.new }
        ensures failed { OnErr result (Rose (faults self.old) (faults self.new)) };
}

/// Bytes that go out.
pub trait Sink {
    /// The bytes that were taken, if the sink tells them. Whether it does never changes.
    ghost taken: { Self → Option (List ℕ) };

    /// How many faults it met. The count never falls, and stands still at the last number of 64 bits.
    ghost faults: { Self → ℕ };

    /// Takes one or more of the first bytes of `piece`, and says how many. Taking none is a fault of
    /// the device. After a fault, nothing of this piece was taken.
    fn write(&mut self, piece: &[u8]) -> Result<usize, PortFailed>
        requires { 0 < length piece.now }
        ensures count { IfOk result (λ count. count ≤ length piece.now) }
        ensures some { IfOk result (λ count. 0 < count) }
        ensures bytes { Writes (taken self.old) (taken self.new) result piece.now }
        ensures faults { faults self.old ≤ faults self.new }
        ensures failed { OnErr result (Rose (faults self.old) (faults self.new)) };
}
