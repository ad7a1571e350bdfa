ghost use Rattle.std.specs.Prelude.{◌≡◌, ◌+◌, ◌<◌, ◌≤◌, [], length, take, Some, IfOk, OnErr, min};
ghost use Rattle.byte_ports.specs.Port.{Reads, Rose, Writes};

use crate::port::{PortFailed, Sink, Source};
use std::alloc::Global;
use std::marker::Model;

/// How a port in memory behaves: how many bytes it gives or takes at most in one call, and which of its
/// calls fail. Calls are counted from 0; past the last number of 64 bits, all calls have that number.
#[derive(Debug, Drop)]
pub struct Behaviour {
    most: usize,
    failing: Vec<u64>,
    calls: u64,
    faults: u64,
}

impl Model for Behaviour {
    ghost use Rattle.std.specs.Prelude.{◌<◌};
    ghost use Rattle.byte_ports.specs.Memory.{Behaviour as Habits};

    ghost Value = { Habits };

    ghost view = { λ b. record { most = b.most; failing = b.failing.items; calls = b.calls; faults = b.faults } };

    ghost invariant = { λ b. 0 < b.most };
}

impl Behaviour {
    ghost use Rattle.byte_ports.specs.Memory.{Calls};
    ghost use Rattle.byte_ports.specs.Port.{last_count};

    /// At most `most` bytes a call, at least one; the calls with the numbers in `failing` fail.
    pub fn of(most: usize, failing: Vec<u64>) -> Behaviour
        requires { 0 < most }
        ensures { result ≡ record { most = most; failing = failing.items; calls = 0; faults = 0 } }
    {
        Behaviour {
            most,
            failing,
            calls: 0,
            faults: 0,
        }
    }

    /// How many of its calls failed.
    pub fn faults(&self) -> u64
        ensures { result ≡ self.now.faults }
    {
        self.faults
    }

    /// Counts a call for `len` bytes, and says how many of them it may have; an error if the call
    /// fails.
    fn call(&mut self, len: usize) -> Result<usize, PortFailed>
        ensures called { Calls self.old self.new result len }
        ensures some { IfOk result (λ count. 0 < len → 0 < count) }
        ensures never_falls { self.old.faults ≤ self.new.faults }
    {
        let call = self.calls;
        self.calls = self.calls.saturating_add(1);
        if self.failing.contains(&call) {
            return Err(self.fail());
        }
        Ok(len.min(self.most))
    }

    /// Counts a fault.
    fn fail(&mut self) -> PortFailed
        ensures counted { self.new ≡ record self.old { faults = min (self.old.faults + 1) last_count } }
        ensures never_falls { self.old.faults ≤ self.new.faults }
    {
        self.faults = self.faults.saturating_add(1);
        PortFailed
    }
}

/// A source in memory, which tells its bytes.
#[derive(Debug, Drop)]
pub struct MemSource {
    bytes: Vec<u8>,
    at: usize,
    behaviour: Behaviour,
}

impl Model for MemSource {
    ghost use Rattle.std.specs.Prelude.{◌≤◌, length, drop};
    ghost use Rattle.byte_ports.specs.Memory.{MemoryPort};

    ghost Value = { MemoryPort };

    ghost view = { λ s. record { bytes = drop s.at s.bytes.items; behaviour = s.behaviour } };

    ghost invariant = { λ s. s.at ≤ length s.bytes.items };
}

impl MemSource {
    /// A source that gives these bytes.
    pub fn of(bytes: Vec<u8>, behaviour: Behaviour) -> MemSource
        ensures { result ≡ record { bytes = bytes.items; behaviour = behaviour } }
    {
        MemSource {
            bytes,
            at: 0,
            behaviour,
        }
    }

    /// The bytes that it has left.
    pub fn left(&self) -> &[u8]
        ensures { result.now ≡ self.now.bytes }
    {
        &self.bytes[self.at..]
    }

    /// How many of its calls failed.
    pub fn faults(&self) -> u64
        ensures { result ≡ self.now.behaviour.faults }
    {
        self.behaviour.faults()
    }
}

impl Source for MemSource {
    ghost left = { λ s. Some s.bytes };

    ghost faults = { λ s. s.behaviour.faults };

    ghost use Rattle.byte_ports.specs.Memory.{Calls};

    fn read(&mut self, buf: &mut [u8]) -> Result<usize, PortFailed>
        requires { 0 < length buf.old }
        ensures count { IfOk result (λ count. count ≤ length buf.new) }
        ensures bytes { Reads (Some self.old.bytes) (Some self.new.bytes) result buf.new }
        ensures faults { self.old.behaviour.faults ≤ self.new.behaviour.faults }
        ensures failed { OnErr result (Rose self.old.behaviour.faults self.new.behaviour.faults) }
        ensures called { Calls self.old.behaviour self.new.behaviour result (min (length buf.old) (length self.old.bytes)) }
    {
        let left = self.bytes.len() - self.at;
        let count = self.behaviour.call(buf.len().min(left))?;
        copy_front(buf, &self.bytes[self.at..], count);
        self.at += count;
        Ok(count)
    }
}

/// Copies the first `count` bytes of a piece to the front of a buffer.
fn copy_front(buf: &mut [u8], piece: &[u8], count: usize)
    requires in_buffer { count ≤ length buf.old }
    requires in_piece { count ≤ length piece.now }
    ensures { take count buf.new ≡ take count piece.now }
{
    buf[..count].copy_from_slice(&piece[..count]);
}

/// A sink in memory, which tells its bytes. Want of memory is a fault of the device.
#[derive(Debug, Drop)]
pub struct MemSink {
    bytes: Vec<u8>,
    behaviour: Behaviour,
}

impl Model for MemSink {
    ghost use Rattle.byte_ports.specs.Memory.{MemoryPort};

    ghost Value = { MemoryPort };

    ghost view = { λ s. record { bytes = s.bytes.items; behaviour = s.behaviour } };
}

impl MemSink {
    /// A sink that has taken nothing yet.
    pub fn of(alloc: Global, behaviour: Behaviour) -> MemSink
        ensures { result ≡ record { bytes = []; behaviour = behaviour } }
    {
        MemSink {
            bytes: Vec::new(alloc),
            behaviour,
        }
    }

    /// The bytes that it took.
    pub fn taken(&self) -> &[u8]
        ensures { result.now ≡ self.now.bytes }
    {
        &self.bytes
    }

    /// How many of its calls failed.
    pub fn faults(&self) -> u64
        ensures { result ≡ self.now.behaviour.faults }
    {
        self.behaviour.faults()
    }
}

impl Sink for MemSink {
    ghost taken = { λ s. Some s.bytes };

    ghost faults = { λ s. s.behaviour.faults };

    ghost use Rattle.byte_ports.specs.Memory.{CallsForMemory};

    fn write(&mut self, piece: &[u8]) -> Result<usize, PortFailed>
        requires { 0 < length piece.now }
        ensures count { IfOk result (λ count. count ≤ length piece.now) }
        ensures some { IfOk result (λ count. 0 < count) }
        ensures bytes { Writes (Some self.old.bytes) (Some self.new.bytes) result piece.now }
        ensures faults { self.old.behaviour.faults ≤ self.new.behaviour.faults }
        ensures failed { OnErr result (Rose self.old.behaviour.faults self.new.behaviour.faults) }
        ensures called { CallsForMemory self.old.behaviour self.new.behaviour result (length piece.now) }
    {
        let count = self.behaviour.call(piece.len())?;
        if self.bytes.extend_from_slice(&piece[..count]).is_err() {
            return Err(self.behaviour.fail());
        }
        Ok(count)
    }
}
