use super::*;
use byte_ports::Bytes;
use phrase_tree::NoMemory;
use std::alloc::{AllocError, Global};
use std::test::Fail;

const NONCE: [u8; 16] = [
    240, 241, 242, 243, 244, 245, 246, 247, 248, 249, 250, 251, 252, 253, 254, 255,
];

/// The bytes of a request of the name 258 with a bundle of three bytes.
const REQUEST: [u8; 28] = [
    0, 0, 0, 24, 1, 240, 241, 242, 243, 244, 245, 246, 247, 248, 249, 250, 251, 252, 253, 254, 255,
    0, 0, 1, 2, 170, 187, 204,
];

/// The bytes of a reply of the greatest name, without a bundle.
const REPLY: [u8; 25] = [
    0, 0, 0, 21, 2, 240, 241, 242, 243, 244, 245, 246, 247, 248, 249, 250, 251, 252, 253, 254, 255,
    255, 255, 255, 255,
];

/// So many bytes of value 7, of a bundle that fits a frame.
fn sevens(alloc: Global, count: usize) -> Result<Bytes, AllocError> {
    let mut bytes = Vec::new(alloc);
    bytes.resize(count, 7)?;
    Ok(Bytes::of(bytes))
}

fn frame(reply: bool, name: u32, bundle: Bytes) -> Frame {
    Frame {
        reply,
        nonce: NONCE,
        name,
        bundle,
    }
}

/// Feeds bytes in pieces of a size, and takes the frames between them, whose bytes are put one after the
/// other. What is returned with them is the first answer that is no frame, once all is fed.
fn through(alloc: Global, bytes: &[u8], size: usize) -> Option<(Vec<u8>, Result<(), FrameError>)> {
    let mut reader = FrameReader::open(alloc);
    let mut given = Vec::new(alloc);
    let mut at: usize = 0;
    let mut last = Ok(());
    for _ in 0..bytes.len() {
        let end = at.saturating_add(size).min(bytes.len());
        if at < end {
            reader.feed(&bytes[at..end]).ok()?;
            at = end;
        }
        last = take_all(alloc, &mut reader, &mut given)?;
    }
    Some((given, last))
}

/// Takes the frames that a reader has, at most nine.
fn take_all(
    alloc: Global,
    reader: &mut FrameReader,
    given: &mut Vec<u8>,
) -> Option<Result<(), FrameError>> {
    for _ in 0..9 {
        match reader.next() {
            Ok(NextFrame::Whole(frame)) => put(alloc, &frame, given)?,
            Ok(NextFrame::More) => return Some(Ok(())),
            Err(error) => return Some(Err(error)),
        }
    }
    None
}

/// Appends the bytes of a frame.
fn put(alloc: Global, frame: &Frame, given: &mut Vec<u8>) -> Option<()> {
    if frame.bundle.items().len() > BUNDLE_MOST {
        return None;
    }
    let bytes = write_frame(alloc, frame).ok()?;
    given.extend_from_slice(bytes.items()).ok()
}

#[test]
fn the_bytes_of_a_frame_are_as_the_format_says(rt: HostRuntime) -> Result<(), Fail> {
    let alloc = rt.alloc();
    let bundle = Bytes::of(vec![in alloc; 170, 187, 204]?);
    let request = frame(false, 258, bundle);
    assert!(rt; request.bundle.items().len() <= BUNDLE_MOST);
    let bytes = write_frame(alloc, &request).map_err(|_| "memory")?;
    assert_eq!(rt; bytes.items(), REQUEST.as_slice());
    let reply = frame(true, u32::MAX, sevens(alloc, 0)?);
    assert!(rt; reply.bundle.items().len() <= BUNDLE_MOST);
    let bytes = write_frame(alloc, &reply).map_err(|_| "memory")?;
    assert_eq!(rt; bytes.items(), REPLY.as_slice());
    Ok(())
}

#[test]
fn frames_come_whole_however_their_bytes_are_cut(rt: HostRuntime) -> Result<(), Fail> {
    let alloc = rt.alloc();
    // A request, a reply, the request again, and the front of a reply.
    let mut bytes = Vec::new(alloc);
    bytes.extend_from_slice(&REQUEST)?;
    bytes.extend_from_slice(&REPLY)?;
    bytes.extend_from_slice(&REQUEST)?;
    let whole = bytes.len();
    bytes.extend_from_slice(&REPLY[..24])?;
    for size in 1..bytes.len() {
        let (given, last) = through(alloc, &bytes, size).ok_or("memory")?;
        assert_eq!(rt; last, Ok(()), "pieces of {size}");
        assert!(rt; whole <= bytes.len());
        assert_eq!(rt; given.as_slice(), &bytes[..whole], "pieces of {size}");
    }
    Ok(())
}

#[test]
fn a_reader_says_which_byte_is_bad_and_stays_there(rt: HostRuntime) -> Result<(), Fail> {
    let alloc = rt.alloc();
    // what is fed behind a reply; where a frame is bad, counted from that frame
    for (bytes, bad) in [
        ([0, 0, 0, 20].as_slice(), Some(0u64)),
        ([0, 0, 0, 21].as_slice(), None),
        ([0, 4, 0, 30].as_slice(), None),
        ([0, 4, 0, 31].as_slice(), Some(0)),
        ([255, 255, 255, 255].as_slice(), Some(0)),
        ([255, 255, 255].as_slice(), None),
        ([0, 0, 0, 21, 3].as_slice(), Some(4)),
        ([0, 0, 0, 21, 0].as_slice(), Some(4)),
        ([0, 0, 0, 20, 3].as_slice(), Some(0)),
        ([0, 0, 0, 21, 1].as_slice(), None),
        ([].as_slice(), None),
    ] {
        for ahead in [0usize, 25] {
            assert!(rt; ahead <= REPLY.len());
            let mut reader = FrameReader::open(alloc);
            let mut given = Vec::new(alloc);
            reader.feed(&REPLY[..ahead]).map_err(|_| "memory")?;
            let wanted = match bad {
                Some(offset) => Err(FrameError::BadFrame {
                    at: (ahead as u64).saturating_add(offset),
                }),
                None => Ok(()),
            };
            for byte in bytes {
                reader.feed(&[*byte]).map_err(|_| "memory")?;
            }
            let first = take_all(alloc, &mut reader, &mut given).ok_or("memory")?;
            assert_eq!(rt; first, wanted, "{bytes:?} at {ahead}");
            assert_eq!(rt; given.len(), ahead);
            // Nothing that comes later mends a bad frame.
            if bad.is_some() {
                reader.feed(&REQUEST).map_err(|_| "memory")?;
                let again = take_all(alloc, &mut reader, &mut given).ok_or("memory")?;
                assert_eq!(rt; again, wanted, "{bytes:?} at {ahead}");
            }
        }
    }
    Ok(())
}

#[test]
fn the_longest_frame_is_written_and_read(rt: HostRuntime) -> Result<(), Fail> {
    let alloc = rt.alloc();
    let longest = frame(true, 0, sevens(alloc, BUNDLE_MOST)?);
    assert!(rt; longest.bundle.items().len() <= BUNDLE_MOST);
    let bytes = write_frame(alloc, &longest).map_err(|_| "memory")?;
    assert_eq!(rt; bytes.items().len(), 262_178);
    for size in [1, 7, 65_536, 262_178] {
        let (given, last) = through(alloc, bytes.items(), size).ok_or("memory")?;
        assert_eq!(rt; last, Ok(()), "pieces of {size}");
        assert_eq!(rt; given.as_slice(), bytes.items(), "pieces of {size}");
    }
    Ok(())
}

#[test]
fn many_frames_are_read_in_pieces_of_one_byte(rt: HostRuntime) -> Result<(), Fail> {
    let alloc = rt.alloc();
    let mut reader = FrameReader::open(alloc);
    let mut given = Vec::new(alloc);
    for _ in 0..2000 {
        for byte in &REQUEST {
            assert_eq!(rt; reader.feed(&[*byte]), Ok::<(), NoMemory>(()));
            let all = take_all(alloc, &mut reader, &mut given).ok_or("memory")?;
            assert_eq!(rt; all, Ok(()));
        }
    }
    assert_eq!(rt; given.len(), 2000 * REQUEST.len());
    one_frame();
    pieces_law();
    Ok(())
}
