ghost use Rattle.std.specs.Prelude.{◌<◌, length};
ghost use Rattle.evidence_codec.specs.Scanned.{IsReader};

use super::*;
use evidence_types::Value;
use std::alloc::{AllocError, Global};
use std::test::*;

/// The bundle of a nonce.
const OF_THE_NONCE: [u8; 26] = [
    67, 80, 76, 66, 1, 0, 0, 0, 17, 1, 0, 1, 2, 3, 4, 5, 6, 7, 8, 9, 10, 11, 12, 13, 14, 15,
];

/// The bundle of a measurement over the nonce.
const MEASURED: [u8; 35] = [
    67, 80, 76, 66, 1, 0, 0, 0, 26, 2, 0, 0, 0, 0, 0, 2, 170, 187, 1, 0, 1, 2, 3, 4, 5, 6, 7, 8, 9,
    10, 11, 12, 13, 14, 15,
];

/// The bundle of two measurements in parallel, one over the nonce and one over empty evidence.
const IN_PARALLEL: [u8; 44] = [
    67, 80, 76, 66, 1, 0, 0, 0, 35, 7, 2, 0, 0, 0, 1, 0, 1, 17, 1, 0, 1, 2, 3, 4, 5, 6, 7, 8, 9,
    10, 11, 12, 13, 14, 15, 2, 0, 0, 0, 2, 0, 1, 34, 0,
];

/// The bundle of two measurements in sequence, one over empty evidence and one over the nonce.
const IN_SEQUENCE: [u8; 44] = [
    67, 80, 76, 66, 1, 0, 0, 0, 35, 6, 2, 0, 0, 0, 1, 0, 1, 17, 0, 2, 0, 0, 0, 2, 0, 1, 34, 1, 0,
    1, 2, 3, 4, 5, 6, 7, 8, 9, 10, 11, 12, 13, 14, 15,
];

/// A bundle of all eight forms: the pair of a seal over a measurement of a target, and of a sequential
/// pair of a hash and empty evidence.
const OF_ALL_FORMS: [u8; 113] = [
    67, 80, 76, 66, 1, 0, 0, 0, 104, 7, 4, 0, 0, 0, 3, 238, 238, 238, 238, 238, 238, 238, 238, 238,
    238, 238, 238, 238, 238, 238, 238, 238, 238, 238, 238, 238, 238, 238, 238, 238, 238, 238, 238,
    238, 238, 238, 238, 3, 0, 0, 0, 2, 0, 3, 97, 98, 99, 1, 0, 1, 2, 3, 4, 5, 6, 7, 8, 9, 10, 11,
    12, 13, 14, 15, 6, 5, 255, 255, 255, 254, 119, 119, 119, 119, 119, 119, 119, 119, 119, 119,
    119, 119, 119, 119, 119, 119, 119, 119, 119, 119, 119, 119, 119, 119, 119, 119, 119, 119, 119,
    119, 119, 119, 0,
];

/// The bundle of version 2 of a measurement over the nonce, with the mark 0.
const MARKED: [u8; 36] = [
    67, 80, 76, 66, 2, 0, 0, 0, 27, 2, 0, 0, 0, 0, 0, 0, 2, 170, 187, 1, 0, 1, 2, 3, 4, 5, 6, 7, 8,
    9, 10, 11, 12, 13, 14, 15,
];

/// The bundle of version 2 of two measurements in parallel, with the marks 1 and 255.
const MARKED_IN_PARALLEL: [u8; 46] = [
    67, 80, 76, 66, 2, 0, 0, 0, 37, 7, 2, 0, 0, 0, 1, 1, 0, 1, 17, 1, 0, 1, 2, 3, 4, 5, 6, 7, 8, 9,
    10, 11, 12, 13, 14, 15, 3, 0, 0, 0, 2, 255, 0, 1, 34, 0,
];

fn fault(alloc: Global, bytes: &[u8]) -> Option<DecodeError> {
    decode(alloc, bytes).err()
}

fn fault_of_either(alloc: Global, bytes: &[u8]) -> Option<DecodeError> {
    decode_any(alloc, bytes).err()
}

fn bad(at: u32, kind: BadKind) -> Option<DecodeError> {
    Some(DecodeError::Bad { at, kind })
}

/// Nested measurements with empty answers, and empty evidence under the last.
fn nested(alloc: Global, measurements: u32) -> Result<Vec<u8>, AllocError>
    requires { measurements < 2000 }
{
    let mut bytes = Vec::from_slice(alloc, &[67, 80, 76, 66, 1])?;
    bytes.extend_from_slice(&(measurements * 7 + 1).to_be_bytes())?;
    for _ in 0..measurements {
        bytes.extend_from_slice(&[2, 0, 0, 0, 0, 0, 0])?;
    }
    bytes.push(0)?;
    Ok(bytes)
}

fn again(alloc: Global, bytes: &[u8]) -> bool {
    let Ok(value) = decode(alloc, bytes) else {
        return false;
    };
    let Ok(bundle) = encode(alloc, &value) else {
        return false;
    };
    bundle.items() == bytes
}

fn again_in_its_version(alloc: Global, bytes: &[u8]) -> bool {
    let Ok(found) = decode_any(alloc, bytes) else {
        return false;
    };
    let written = match &found.marks {
        None => encode(alloc, &found.value),
        Some(marks) => encode_marked(alloc, &found.value, marks.items()),
    };
    let Ok(bundle) = written else {
        return false;
    };
    bundle.items() == bytes
}

#[test]
fn bundles_are_read_and_written_again(rt: HostRuntime) -> Result<(), Fail> {
    let deepest = nested(rt.alloc(), 1024)?;
    let bundles = [
        OF_THE_NONCE.as_slice(),
        MEASURED.as_slice(),
        IN_PARALLEL.as_slice(),
        IN_SEQUENCE.as_slice(),
        OF_ALL_FORMS.as_slice(),
        deepest.as_slice(),
    ];
    for bundle in bundles {
        assert!(rt; again(rt.alloc(), bundle));
        assert!(rt; again_in_its_version(rt.alloc(), bundle));
    }
    assert!(rt; again_in_its_version(rt.alloc(), &MARKED));
    assert!(rt; again_in_its_version(rt.alloc(), &MARKED_IN_PARALLEL));
    Ok(())
}

#[test]
fn a_measurement_is_read(rt: HostRuntime) -> Result<(), Fail> {
    for bundle in [MEASURED.as_slice(), MARKED.as_slice()] {
        let Ok(found) = decode_any(rt.alloc(), bundle) else {
            return Err(Fail::from("a bundle"));
        };
        let Value::Usm(event, answer, under) = &found.value else {
            return Err(Fail::from("a measurement"));
        };
        assert_eq!(rt; *event, 0);
        assert_eq!(rt; answer.bytes(), [0xaa, 0xbb].as_slice());
        assert!(rt; matches!(&**under, Value::Nonce(_)));
    }
    Ok(())
}

#[test]
fn the_first_fault_is_named(rt: HostRuntime) -> Result<(), Fail> {
    for len in 0..26 {
        let short = bad(len as u32, BadKind::Short);
        assert_eq!(rt; fault(rt.alloc(), &OF_THE_NONCE[..len]), short);
        assert_eq!(rt; fault_of_either(rt.alloc(), &OF_THE_NONCE[..len]), short);
    }
    let edits = [
        (8, 0x12, 26, BadKind::Length),
        (8, 0x10, 25, BadKind::Length),
        (4, 3, 4, BadKind::Tag),
        (9, 8, 9, BadKind::Tag),
    ];
    for (index, byte, at, kind) in edits {
        let mut bytes = OF_THE_NONCE;
        bytes[index] = byte;
        assert_eq!(rt; fault(rt.alloc(), &bytes), bad(at, kind));
        assert_eq!(rt; fault_of_either(rt.alloc(), &bytes), bad(at, kind));
    }
    let mut longer = Vec::from_slice(rt.alloc(), &OF_THE_NONCE)?;
    longer.push(0)?;
    assert_eq!(rt; fault(rt.alloc(), &longer), bad(26, BadKind::Rest));
    assert_eq!(rt;
        fault_of_either(rt.alloc(), &longer),
        bad(26, BadKind::Rest)
    );
    let too_deep = nested(rt.alloc(), 1026)?;
    assert_eq!(rt; fault(rt.alloc(), &too_deep), bad(7184, BadKind::Deep));
    assert_eq!(rt;
        fault_of_either(rt.alloc(), &too_deep),
        bad(7184, BadKind::Deep)
    );
    let mut of_version_2 = OF_THE_NONCE;
    of_version_2[4] = 2;
    assert_eq!(rt; fault(rt.alloc(), &of_version_2), bad(4, BadKind::Tag));
    assert_eq!(rt; fault_of_either(rt.alloc(), &of_version_2), None);
    Ok(())
}

/// Gives the reader a piece of a bundle. The bytes of the heads that it ends are appended.
fn feed(reader: &mut Reader, piece: &[u8], heads: &mut Vec<u8>) -> Result<(), AllocError>
    requires { IsReader reader.old }
    ensures { IsReader reader.new }
{
    for byte in piece {
        reader.take(*byte);
        if let Some(head) = reader.head() {
            let (prefix, tail) = head.bytes();
            heads.extend_from_slice(&prefix)?;
            heads.extend_from_slice(tail)?;
        }
    }
    Ok(())
}

/// Whether a reader that is given these bytes in pieces of this size says of them what `decode_any` says.
fn agrees_in_pieces(alloc: Global, bytes: &[u8], size: usize) -> Result<bool, AllocError>
    requires { 0 < size }
{
    let mut reader = Reader::open(true);
    let mut heads = Vec::new(alloc);
    for piece in bytes.chunks(size) {
        feed(&mut reader, piece, &mut heads)?;
    }
    Ok(match (decode_any(alloc, bytes), reader.finish()) {
        (Ok(found), Ok(version)) => {
            found.marks.is_some() == (version == Version::Marked)
                && bytes.len() >= 9
                && heads.as_slice() == &bytes[9..]
        }
        (Err(DecodeError::Bad { at, kind }), Err(first)) => at == first.at && kind == first.kind,
        _ => false,
    })
}

/// Whether that is so in pieces of 1, 2, 7 and 64.
fn agrees(alloc: Global, bytes: &[u8]) -> Result<bool, AllocError> {
    let mut all = true;
    for size in [1, 2, 7, 64] {
        all = agrees_in_pieces(alloc, bytes, size)? && all;
    }
    Ok(all)
}

fn changed(alloc: Global, bundle: &[u8], index: usize, byte: u8) -> Result<Vec<u8>, AllocError>
    requires { index < length bundle.now }
{
    let mut bytes = Vec::from_slice(alloc, bundle)?;
    bytes[index] = byte;
    Ok(bytes)
}

/// Whether that is so of this bundle with one of its bytes changed, each in turn, so many times. The new
/// bytes come from a fixed generator of numbers.
fn agrees_when_changed(alloc: Global, bundle: &[u8], times: u32) -> Result<bool, AllocError>
    requires { 0 < length bundle.now }
{
    let mut state: u32 = 1;
    let mut all = true;
    for turn in 0..times {
        state = state.wrapping_mul(1_103_515_245).wrapping_add(12_345);
        let index = turn as usize % bundle.len();
        let bytes = changed(alloc, bundle, index, (state >> 24) as u8)?;
        all = agrees(alloc, &bytes)? && all;
    }
    Ok(all)
}

#[test]
fn pieces_are_read_as_the_whole_is(rt: HostRuntime) -> Result<(), Fail> {
    for bundle in [
        OF_THE_NONCE.as_slice(),
        MEASURED.as_slice(),
        IN_PARALLEL.as_slice(),
        OF_ALL_FORMS.as_slice(),
        MARKED_IN_PARALLEL.as_slice(),
    ] {
        assert!(rt; agrees_when_changed(rt.alloc(), bundle, 4000)?);
    }
    Ok(())
}
