ghost use Rattle.std.specs.Prelude.{◌≡◌, ◌≤◌, ◌++◌, IsOk, OnErr};
ghost use Rattle.byte_ports.specs.Port.{Rose};
ghost use Rattle.byte_ports.specs.Writing.{WritesAll};

use crate::port::Sink;

/// The sink met a fault before all was written.
#[derive(Clone, Copy, Debug, PartialEq, Eq)]
pub struct WriteFault;

/// Writes all the bytes in order, and offers all that is left at each write. After a fault, a prefix of
/// them was taken. Takes no memory.
pub fn write_all_of<K: Sink>(sink: &mut K, bytes: &[u8]) -> Result<(), WriteFault>
    ensures bytes { WritesAll (K.taken sink.old) (K.taken sink.new) result bytes.now }
    ensures faults { K.faults sink.old ≤ K.faults sink.new }
    ensures fault { OnErr result (Rose (K.faults sink.old) (K.faults sink.new)) }
{
    let mut written: usize = 0;
    while written < bytes.len() {
        match sink.write(&bytes[written..]) {
            Ok(count) => written += count,
            Err(_) => return Err(WriteFault),
        }
    }
    Ok(())
}
