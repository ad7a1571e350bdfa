use crate::{RetryingReader, RetryingWriter};
use std::io::{Error, ErrorKind, Read, Result, Write};
use std::test::Fail;

/// Answers this error so many times, and then takes and gives what it is asked for.
#[derive(Drop)]
struct Failing {
    kind: ErrorKind,
    left: u32,
    calls: u32,
}

impl Failing {
    fn of(kind: ErrorKind, left: u32) -> Failing {
        Failing {
            kind,
            left,
            calls: 0,
        }
    }

    fn call(&mut self) -> Result<()> {
        self.calls = self.calls.saturating_add(1);
        if self.left == 0 {
            return Ok(());
        }
        self.left -= 1;
        Err(Error::from(self.kind))
    }
}

impl Read for Failing {
    fn read(&mut self, buf: &mut [u8]) -> Result<usize> {
        match self.call() {
            Ok(()) => Ok(buf.len()),
            Err(error) => Err(error),
        }
    }
}

impl Write for Failing {
    fn write(&mut self, buf: &[u8]) -> Result<usize> {
        match self.call() {
            Ok(()) => Ok(buf.len()),
            Err(error) => Err(error),
        }
    }

    fn flush(&mut self) -> Result<()> {
        self.call()
    }
}

/// The kind of the error, how often it is met, whether the call ends well, and the calls made.
const CASES: [(ErrorKind, u32, bool, u32); 8] = [
    (ErrorKind::Interrupted, 0, true, 1),
    (ErrorKind::Interrupted, 1, true, 2),
    (ErrorKind::Interrupted, 63, true, 64),
    (ErrorKind::Interrupted, 64, true, 65),
    (ErrorKind::Interrupted, 65, false, 65),
    (ErrorKind::Interrupted, 1000, false, 65),
    (ErrorKind::Other, 1, false, 1),
    (ErrorKind::BrokenPipe, 1, false, 1),
];

#[test]
fn a_read_is_made_again_after_signals_alone(rt: HostRuntime) -> std::result::Result<(), Fail> {
    for (kind, left, ends, calls) in CASES {
        let mut failing = Failing::of(kind, left);
        let mut buf = [0; 7];
        match RetryingReader::over(&mut failing).read(&mut buf) {
            Ok(count) => assert!(rt; ends && count == 7, "{left} times"),
            Err(error) => assert!(rt; !ends && error.kind() == kind, "{left} times"),
        }
        assert_eq!(rt; failing.calls, calls, "{left} times");
    }
    Ok(())
}

#[test]
fn a_write_is_made_again_after_signals_alone(rt: HostRuntime) -> std::result::Result<(), Fail> {
    for (kind, left, ends, calls) in CASES {
        let mut failing = Failing::of(kind, left);
        match RetryingWriter::over(&mut failing).write(&[1, 2, 3]) {
            Ok(count) => assert!(rt; ends && count == 3, "{left} times"),
            Err(error) => assert!(rt; !ends && error.kind() == kind, "{left} times"),
        }
        assert_eq!(rt; failing.calls, calls, "{left} times");
    }
    Ok(())
}

#[test]
fn a_flush_is_made_again_after_signals_alone(rt: HostRuntime) -> std::result::Result<(), Fail> {
    for (kind, left, ends, calls) in CASES {
        let mut failing = Failing::of(kind, left);
        match RetryingWriter::over(&mut failing).flush() {
            Ok(()) => assert!(rt; ends, "{left} times"),
            Err(error) => assert!(rt; !ends && error.kind() == kind, "{left} times"),
        }
        assert_eq!(rt; failing.calls, calls, "{left} times");
    }
    Ok(())
}
