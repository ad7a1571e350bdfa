use crate::{
    Behaviour, Bytes, MemSink, MemSource, PortFailed, ReadAllError, Source, StdSink, StdSource,
    WriteFault, read_all, write_all_of,
};
use std::alloc::{AllocError, Global};
use std::io::{Error, ErrorKind, Read, Result as IoResult};
use std::test::Fail;

/// The bytes 0, 1, 2 and so on, as many as asked for; after 250 they start again.
fn counting(alloc: Global, len: u32) -> Result<Vec<u8>, AllocError> {
    let mut bytes = vec![in alloc]?;
    for at in 0..len {
        bytes.push((at % 251) as u8)?;
    }
    Ok(bytes)
}

#[test]
fn a_source_is_read_to_its_end_or_to_the_limit(rt: HostRuntime) -> Result<(), Fail> {
    let alloc = rt.alloc();
    // bytes, at most in a call, the call that fails, the limit; then the refusal, bytes left, faults
    for (len, most, fails, limit, refusal, left, faults) in [
        (0, 1, 9, 0, None, 0, 0),
        (1, 1, 9, 0, Some(ReadAllError::TooLong), 0, 0),
        (10, 1, 99, 10, None, 0, 0),
        (10, 3, 99, 10, None, 0, 0),
        (10, 1000, 99, 11, None, 0, 0),
        (10, 1, 99, 9, Some(ReadAllError::TooLong), 0, 0),
        (10, 1, 99, 4, Some(ReadAllError::TooLong), 5, 0),
        (10, 3, 99, 4, Some(ReadAllError::TooLong), 4, 0),
        (200_000, 50_000, 99, 200_000, None, 0, 0),
        (200_000, 1_000_000, 99, 4_194_304, None, 0, 0),
        (10, 3, 0, 10, Some(ReadAllError::ReadFault), 10, 1),
        (10, 3, 1, 10, Some(ReadAllError::ReadFault), 7, 1),
        (10, 3, 4, 10, Some(ReadAllError::ReadFault), 0, 1),
        (10, 3, 5, 10, None, 0, 0),
        (10, 3, 2, 4, Some(ReadAllError::TooLong), 4, 0),
    ] {
        assert!(rt; most > 0);
        let behaviour = Behaviour::of(most, vec![in alloc; fails]?);
        let mut source = MemSource::of(counting(alloc, len)?, behaviour);
        match read_all(alloc, &mut source, limit) {
            Ok(bytes) => {
                assert_eq!(rt; refusal, None, "{len} bytes by {most}, at most {limit}");
                assert_eq!(rt; bytes.items(), counting(alloc, len)?.as_slice());
            }
            Err(error) => {
                assert_eq!(rt;
                    refusal,
                    Some(error),
                    "{len} bytes by {most}, at most {limit}"
                );
            }
        }
        assert_eq!(rt;
            source.left().len(),
            left,
            "{len} bytes by {most}, at most {limit}"
        );
        assert_eq!(rt;
            source.faults(),
            faults,
            "{len} bytes by {most}, at most {limit}"
        );
    }
    Ok(())
}

#[test]
fn a_sink_takes_all_or_the_front_before_a_fault(rt: HostRuntime) -> Result<(), Fail> {
    let alloc = rt.alloc();
    // bytes, at most in a call, the call that fails; then whether all is written, bytes taken, faults
    for (len, most, fails, outcome, taken, faults) in [
        (0, 1, 0, Ok(()), 0, 0),
        (10, 1, 99, Ok(()), 10, 0),
        (10, 3, 99, Ok(()), 10, 0),
        (10, 3, 4, Ok(()), 10, 0),
        (10, 1000, 1, Ok(()), 10, 0),
        (10, 3, 0, Err(WriteFault), 0, 1),
        (10, 3, 1, Err(WriteFault), 3, 1),
        (10, 3, 3, Err(WriteFault), 9, 1),
    ] {
        assert!(rt; most > 0);
        let mut sink = MemSink::of(alloc, Behaviour::of(most, vec![in alloc; fails]?));
        let written = write_all_of(&mut sink, counting(alloc, len)?.as_slice());
        assert_eq!(rt;
            written,
            outcome,
            "{len} bytes by {most}, call {fails} fails"
        );
        assert_eq!(rt; sink.taken(), counting(alloc, taken)?.as_slice());
        assert_eq!(rt;
            sink.faults(),
            faults,
            "{len} bytes by {most}, call {fails} fails"
        );
    }
    Ok(())
}

/// A reader that always fails.
#[derive(Drop)]
struct Broken;

impl Read for Broken {
    fn read(&mut self, _buf: &mut [u8]) -> IoResult<usize> {
        Err(Error::from(ErrorKind::Other))
    }
}

#[test]
fn standard_ports_carry_what_lies_behind_them(rt: HostRuntime) -> Result<(), Fail> {
    let alloc = rt.alloc();
    let text = counting(alloc, 300)?;
    let mut source = StdSource::over(text.as_slice());
    match read_all(alloc, &mut source, 300) {
        Ok(bytes) => assert_eq!(rt; bytes.items(), text.as_slice()),
        Err(_) => assert!(rt; false, "300 bytes within the limit"),
    }
    let mut end = [0u8; 4];
    assert_eq!(rt; source.read(&mut end), Ok(0));
    let mut long = StdSource::over(text.as_slice());
    assert!(rt; read_all(alloc, &mut long, 299).is_err());
    let mut broken = StdSource::over(Broken);
    assert_eq!(rt; broken.read(&mut end), Err(PortFailed));
    let mut written = vec![in alloc]?;
    {
        let mut sink = StdSink::over(&mut written);
        assert_eq!(rt; write_all_of(&mut sink, text.as_slice()), Ok(()));
    }
    assert_eq!(rt; written.as_slice(), text.as_slice());
    // Room for four bytes: a fifth is not taken.
    let mut room = [9u8; 4];
    {
        let mut full = StdSink::over(room.as_mut_slice());
        assert_eq!(rt; write_all_of(&mut full, text.as_slice()), Err(WriteFault));
    }
    assert_eq!(rt; room, [0, 1, 2, 3]);
    Ok(())
}

#[test]
fn bytes_hold_what_they_are_given(rt: HostRuntime) -> Result<(), Fail> {
    let mut bytes = Bytes::of(vec![in rt.alloc(); 7, 0]?);
    assert_eq!(rt; bytes.push(255), Ok(()));
    assert_eq!(rt; bytes.items(), [7, 0, 255].as_slice());
    Ok(())
}
