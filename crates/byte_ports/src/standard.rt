ghost use Rattle.std.specs.Prelude.{◌≡◌, ◌<◌, ◌≤◌, length, take, None, IfOk, IfSome, OnErr};
ghost use Rattle.std.specs.Io.KnownBytes.{Appends, ReadConsumes};
ghost use Rattle.byte_ports.specs.Port.{Reads, Rose, Writes};

use crate::port::{PortFailed, Sink, Source};
use std::io::{Read, Write};

/// Standard input as a source: a thin adapter over a reader, such as that of `rt.reader()`. It does not
/// tell its bytes.
#[derive(Drop)]
pub struct StdSource<R: Read + Drop> {
    reader: R,
    faults: u64,
}

impl<R: Read + Drop> StdSource<R> {
    ghost use Rattle.byte_ports.specs.Standard.{reader_of, source_faults};

    /// A source over this reader, which has met no fault yet.
    pub fn over(reader: R) -> StdSource<R>
        ensures reader { reader_of result ≡ reader }
        ensures new { source_faults result ≡ 0 }
    {
        StdSource { reader, faults: 0 }
    }
}

impl<R: Read + Drop> Source for StdSource<R> {
    ghost left = { λ _. None };

    ghost use Rattle.byte_ports.specs.Standard.{CountsFaults, reader_of, source_faults};

    ghost faults = { source_faults };

    fn read(&mut self, buf: &mut [u8]) -> Result<usize, PortFailed>
        requires { 0 < length buf.old }
        ensures count { IfOk result (λ count. count ≤ length buf.new) }
        ensures bytes { Reads None None result buf.new }
        ensures faults { source_faults self.old ≤ source_faults self.new }
        ensures failed { OnErr result (Rose (source_faults self.old) (source_faults self.new)) }
        ensures counted { CountsFaults (source_faults self.old) (source_faults self.new) result }
        ensures of_the_reader { ReadConsumes (R.remaining (reader_of self.old)) (R.remaining (reader_of self.new)) result buf.new }
    {
        match self.reader.read(buf) {
            Ok(count) => Ok(count),
            Err(_) => {
                self.faults = self.faults.saturating_add(1);
                Err(PortFailed)
            }
        }
    }
}

/// Standard output as a sink: a thin adapter over a writer, such as that of `rt.stdout()`, which it
/// flushes after each write. It does not tell its bytes.
#[derive(Drop)]
pub struct StdSink<W: Write + Drop> {
    writer: W,
    faults: u64,
}

impl<W: Write + Drop> StdSink<W> {
    ghost use Rattle.byte_ports.specs.Standard.{writer_of, sink_faults};

    /// A sink over this writer, which has met no fault yet.
    pub fn over(writer: W) -> StdSink<W>
        ensures writer { writer_of result ≡ writer }
        ensures new { sink_faults result ≡ 0 }
    {
        StdSink { writer, faults: 0 }
    }
}

fn write_and_flush<W: Write + Drop>(writer: &mut W, piece: &[u8]) -> Option<usize>
    ensures count { IfSome result (λ count. (0 < count) × (count ≤ length piece.now)) }
    ensures bytes { IfSome result (λ count. Appends (W.contents writer.old) (W.contents writer.new) (take count piece.now)) }
{
    let Ok(count) = writer.write(piece) else {
        return None;
    };
    if count == 0 || writer.flush().is_err() {
        return None;
    }
    Some(count)
}

impl<W: Write + Drop> Sink for StdSink<W> {
    ghost taken = { λ _. None };

    ghost use Rattle.byte_ports.specs.Standard.{CountsFaults, writer_of, sink_faults};

    ghost faults = { sink_faults };

    fn write(&mut self, piece: &[u8]) -> Result<usize, PortFailed>
        requires { 0 < length piece.now }
        ensures count { IfOk result (λ count. count ≤ length piece.now) }
        ensures some { IfOk result (λ count. 0 < count) }
        ensures bytes { Writes None None result piece.now }
        ensures faults { sink_faults self.old ≤ sink_faults self.new }
        ensures failed { OnErr result (Rose (sink_faults self.old) (sink_faults self.new)) }
        ensures counted { CountsFaults (sink_faults self.old) (sink_faults self.new) result }
        ensures to_the_writer { IfOk result (λ count. Appends (W.contents (writer_of self.old)) (W.contents (writer_of self.new)) (take count piece.now)) }
    {
        match write_and_flush(&mut self.writer, piece) {
            Some(count) => Ok(count),
            None => {
                self.faults = self.faults.saturating_add(1);
                Err(PortFailed)
            }
        }
    }
}
