ghost use Rattle.std.specs.Prelude.{◌≡◌, ◌+◌, ◌^◌, ◌<◌, ◌≤◌, length, take, drop, Err, IfOk, OnOk, OnErr};
ghost use Rattle.byte_ports.specs.Port.{Reads, Rose};
ghost use Rattle.byte_ports.specs.Reading.{ReadsToEnd};

use crate::bytes::Bytes;
use crate::port::{PortFailed, Source};
use std::alloc::{AllocError, Global};

/// Why a source was not read to its end.
#[derive(Clone, Copy, Debug, PartialEq, Eq)]
pub enum ReadAllError {
    /// The source met a fault.
    ReadFault,
    /// The source gave more bytes than the limit.
    TooLong,
    NoMemory,
}

/// The size of the first buffer, in bytes. A buffer that is full is doubled.
const FIRST_BUFFER: usize = 65536;

/// All that the source gives up to its end, at most `limit` bytes. It reads in pieces as large as
/// the buffer has room for, straight into the one buffer that it hands back, and stops at the first
/// read that passes the limit. Takes time linear in the bytes.
pub fn read_all<S: Source>(alloc: Global, source: &mut S, limit: u32) -> Result<Bytes, ReadAllError>
    ensures bytes { ReadsToEnd (S.left source.old) (S.left source.new) limit result }
    ensures faults { S.faults source.old ≤ S.faults source.new }
    ensures fault { result ≡ Err ReadAllError.ReadFault → Rose (S.faults source.old) (S.faults source.new) }
{
    let mut buffer = Vec::new(alloc);
    let mut filled: usize = 0;
    while filled <= limit as usize {
        if make_room(&mut buffer, filled).is_err() {
            return Err(ReadAllError::NoMemory);
        }
        match read_more(source, &mut buffer, filled) {
            Err(_) => return Err(ReadAllError::ReadFault),
            Ok(0) => {
                buffer.truncate(filled);
                return Ok(Bytes::of(buffer));
            }
            Ok(count) => filled += count,
        }
    }
    Err(ReadAllError::TooLong)
}

/// Makes the buffer longer if it is full.
fn make_room(buffer: &mut Vec<u8>, filled: usize) -> Result<(), AllocError>
    requires within { filled ≤ length buffer.old.items }
    requires small { filled < 2 ^ 32 }
    ensures ok { OnOk result (filled < length buffer.new.items) }
    ensures within { filled ≤ length buffer.new.items }
    ensures kept { take filled buffer.new.items ≡ take filled buffer.old.items }
{
    if filled < buffer.len() {
        return Ok(());
    }
    buffer.resize(filled + filled.max(FIRST_BUFFER), 0)
}

/// Reads into the buffer, after the part that is filled.
fn read_more<S: Source>(
    source: &mut S,
    buffer: &mut Vec<u8>,
    filled: usize,
) -> Result<usize, PortFailed>
    requires { filled < length buffer.old.items }
    ensures count { IfOk result (λ count. filled + count ≤ length buffer.new.items) }
    ensures kept { take filled buffer.new.items ≡ take filled buffer.old.items }
    ensures bytes { Reads (S.left source.old) (S.left source.new) result (drop filled buffer.new.items) }
    ensures faults { S.faults source.old ≤ S.faults source.new }
    ensures failed { OnErr result (Rose (S.faults source.old) (S.faults source.new)) }
{
    read_into(source, buffer.as_mut_slice(), filled)
}

fn read_into<S: Source>(
    source: &mut S,
    buffer: &mut [u8],
    filled: usize,
) -> Result<usize, PortFailed>
    requires { filled < length buffer.old }
    ensures count { IfOk result (λ count. filled + count ≤ length buffer.new) }
    ensures kept { take filled buffer.new ≡ take filled buffer.old }
    ensures bytes { Reads (S.left source.old) (S.left source.new) result (drop filled buffer.new) }
    ensures faults { S.faults source.old ≤ S.faults source.new }
    ensures failed { OnErr result (Rose (S.faults source.old) (S.faults source.new)) }
{
    source.read(&mut buffer[filled..])
}
