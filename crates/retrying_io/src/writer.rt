ghost use Rattle.std.specs.Prelude.{◌≡◌};

use crate::RETRIES;
use std::io::{ErrorKind, Result, Write};

/// A writer whose writes and flushes are made again where a signal interrupted them.
#[derive(Drop)]
pub struct RetryingWriter<W: Write + Drop> {
    writer: W,
}

impl<W: Write + Drop> RetryingWriter<W> {
    ghost use Rattle.retrying_io.specs.Retrying.{writer_of};

    /// What is written to it is written to this writer.
    pub fn over(writer: W) -> RetryingWriter<W>
        ensures { writer_of result ≡ writer }
    {
        RetryingWriter { writer }
    }
}

impl<W: Write + Drop> Write for RetryingWriter<W> {
    ghost use Rattle.retrying_io.specs.Retrying.{writer_of};

    ghost contents = { λ writer. W.contents (writer_of writer) };

    #[tactic(auto, using(crate::proofs::Tries::written_then))]
    fn write(&mut self, buf: &[u8]) -> Result<usize> {
        for _ in 0..RETRIES {
            match self.writer.write(buf) {
                Err(error) if error.kind() == ErrorKind::Interrupted => {}
                ended => return ended,
            }
        }
        self.writer.write(buf)
    }

    fn flush(&mut self) -> Result<()> {
        for _ in 0..RETRIES {
            match self.writer.flush() {
                Err(error) if error.kind() == ErrorKind::Interrupted => {}
                ended => return ended,
            }
        }
        self.writer.flush()
    }
}
