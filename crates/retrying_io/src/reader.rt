ghost use Rattle.std.specs.Prelude.{◌≡◌};

use crate::RETRIES;
use std::io::{ErrorKind, Read, Result};

/// A reader whose reads are made again where a signal interrupted them.
#[derive(Drop)]
pub struct RetryingReader<R: Read + Drop> {
    reader: R,
}

impl<R: Read + Drop> RetryingReader<R> {
    ghost use Rattle.retrying_io.specs.Retrying.{reader_of};

    /// The same bytes as those of this reader.
    pub fn over(reader: R) -> RetryingReader<R>
        ensures { reader_of result ≡ reader }
    {
        RetryingReader { reader }
    }
}

impl<R: Read + Drop> Read for RetryingReader<R> {
    ghost use Rattle.retrying_io.specs.Retrying.{reader_of};

    ghost remaining = { λ reader. R.remaining (reader_of reader) };

    #[tactic(auto, using(crate::proofs::Tries::read_then))]
    fn read(&mut self, buf: &mut [u8]) -> Result<usize> {
        for _ in 0..RETRIES {
            match self.reader.read(buf) {
                Err(error) if error.kind() == ErrorKind::Interrupted => {}
                ended => return ended,
            }
        }
        self.reader.read(buf)
    }
}
