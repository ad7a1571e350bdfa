ghost use Rattle.std.specs.Prelude.{◌≡◌, ◌+◌, ◌*◌, ◌≤◌, ◌<◌, length, IfOk};
ghost use Rattle.evidence_types.specs.Bytes.{encoding, nesting};
ghost use Rattle.evidence_store.specs.Kept.{value_at};

use super::*;
use crate::node::Node;
use evidence_types::Answer;
use phrase_tree::{Name, NoMemory, Place};
use seal_hmac::Key;
use std::test::Fail;

const NONCE: [u8; 16] = [0, 1, 2, 3, 4, 5, 6, 7, 8, 9, 10, 11, 12, 13, 14, 15];

fn begun(store: &mut Store, nonce: &[u8; 16]) -> Result<EvId, NoMemory>
    ensures within { IfOk result (λ id. id < length store.new.values) }
    ensures longer { length store.old.values ≤ length store.new.values }
    ensures size { IfOk result (λ id. length (encoding (value_at store.new.values id)) ≡ 17) }
    ensures depth { IfOk result (λ id. nesting (value_at store.new.values id) ≡ 1) }
{
    match store.nonce(nonce) {
        Ok(id) => Ok(id),
        Err(_) => Err(NoMemory),
    }
}

/// Adds an answer of event 0.
fn scanned(store: &mut Store, answer: &Answer, under: EvId) -> Result<EvId, NoMemory>
    requires within { under < length store.old.values }
    requires small { length (encoding (value_at store.old.values under)) ≤ 1000 }
    requires shallow { nesting (value_at store.old.values under) ≤ 1000 }
    ensures within { IfOk result (λ id. id < length store.new.values) }
    ensures longer { length store.old.values ≤ length store.new.values }
    ensures size { IfOk result (λ id. length (encoding (value_at store.new.values id)) ≤ 2031) }
    ensures depth { IfOk result (λ id. nesting (value_at store.new.values id) ≤ 1001) }
{
    let _few = answer.bytes();
    match store.measured(0, false, answer, under) {
        Ok(id) => Ok(id),
        Err(_) => Err(NoMemory),
    }
}

/// Adds the seal of a place at event 1.
fn signed(store: &mut Store, place: Place, key: &Key, under: EvId) -> Result<EvId, NoMemory>
    requires within { under < length store.old.values }
    requires small { length (encoding (value_at store.old.values under)) ≤ 3000 }
    requires shallow { nesting (value_at store.old.values under) ≤ 1001 }
    ensures { IfOk result (λ id. id < length store.new.values) }
{
    match store.sealed(1, place, &NONCE, key, under) {
        Ok(id) => Ok(id),
        Err(_) => Err(NoMemory),
    }
}

/// Adds the pair of a value and itself.
fn doubled(store: &mut Store, under: EvId) -> Result<EvId, NoMemory>
    requires within { under < length store.old.values }
    requires small { length (encoding (value_at store.old.values under)) ≤ 100000 }
    requires shallow { nesting (value_at store.old.values under) ≤ 1000 }
    ensures within { IfOk result (λ id. id < length store.new.values) }
    ensures size { IfOk result (λ id. length (encoding (value_at store.new.values id)) ≡ 1 + 2 * length (encoding (value_at store.old.values under))) }
    ensures depth { IfOk result (λ id. nesting (value_at store.new.values id) ≡ 1 + nesting (value_at store.old.values under)) }
{
    match store.pair(false, under, under) {
        Ok(id) => Ok(id),
        Err(_) => Err(NoMemory),
    }
}

fn fourfold(store: &mut Store, under: EvId) -> Result<EvId, NoMemory>
    requires within { under < length store.old.values }
    requires small { length (encoding (value_at store.old.values under)) ≤ 40000 }
    requires shallow { nesting (value_at store.old.values under) ≤ 900 }
    ensures within { IfOk result (λ id. id < length store.new.values) }
    ensures size { IfOk result (λ id. length (encoding (value_at store.new.values id)) ≡ 3 + 4 * length (encoding (value_at store.old.values under))) }
    ensures depth { IfOk result (λ id. nesting (value_at store.new.values id) ≡ 2 + nesting (value_at store.old.values under)) }
{
    let twice = match doubled(store, under) {
        Ok(id) => id,
        Err(_) => return Err(NoMemory),
    };
    match doubled(store, twice) {
        Ok(id) => Ok(id),
        Err(_) => Err(NoMemory),
    }
}

// The seal and the hash were computed by Python's hmac and hashlib, from the messages written out.
#[test]
fn bundles_are_those_of_values_written_out(rt: HostRuntime) -> Result<(), Fail> {
    let bank = Name::read("bank").ok_or("bank")?;
    let key = Key::read(&NONCE).ok_or("bank's key")?;
    let answer = Answer::of(&[0xaa, 0xbb]).ok_or("an answer")?;
    let mut store = Store::open(rt.alloc(), 7)?;
    let nothing = store.empty()?;
    assert_eq!(rt;
        store.emit(nothing)?.items(),
        b"CPLB\x01\0\0\0\x01\0".as_slice()
    );
    let nonce = begun(&mut store, &NONCE)?;
    let measured = scanned(&mut store, &answer, nonce)?;
    assert_eq!(rt;
        store.emit(measured)?.items(),
        b"CPLB\x01\0\0\0\x1a\x02\0\0\0\0\0\x02\xaa\xbb\x01\0\x01\x02\x03\x04\x05\x06\x07\x08\x09\x0a\x0b\x0c\x0d\x0e\x0f".as_slice()
    );
    let sealed = signed(&mut store, bank, &key, measured)?;
    assert_eq!(rt;
        store.emit(sealed)?.items(),
        b"CPLB\x01\0\0\0\x3f\x04\0\0\0\x01\xbf\x3d\x4b\xf0\x59\xe1\x39\x94\x9e\xbb\xf6\x7a\x3c\xdd\xf4\xcb\x94\x91\x80\x0b\x55\x5a\x03\x67\xc1\xf2\xff\xe4\xba\x66\x29\x31\x02\0\0\0\0\0\x02\xaa\xbb\x01\0\x01\x02\x03\x04\x05\x06\x07\x08\x09\x0a\x0b\x0c\x0d\x0e\x0f".as_slice()
    );
    let nonce = begun(&mut store, &NONCE)?;
    let both = doubled(&mut store, nonce)?;
    let hashed = store.hashed(4, both)?;
    assert_eq!(rt;
        store.emit(hashed)?.items(),
        b"CPLB\x01\0\0\0\x25\x05\0\0\0\x04\xee\xb3\xe2\xab\x6a\x60\xf3\xb4\x7e\x37\x44\x22\x80\x6b\xa6\x1f\x40\x31\x2d\x27\xba\x55\xf9\xb4\x94\xcc\xdd\x98\x38\xf2\x6a\x69".as_slice()
    );
    Ok(())
}

// The hash was computed by Python's hashlib from all 18,431 bytes of the value.
#[test]
fn a_value_may_have_far_more_bytes_than_nodes(rt: HostRuntime) -> Result<(), Fail> {
    let mut store = Store::open(rt.alloc(), 0)?;
    store.reserve(3)?;
    let top = begun(&mut store, &NONCE)?;
    let top = fourfold(&mut store, top)?;
    let top = fourfold(&mut store, top)?;
    let top = fourfold(&mut store, top)?;
    let top = fourfold(&mut store, top)?;
    let top = fourfold(&mut store, top)?;
    assert_eq!(rt; store.emit(top)?.items().len(), 18440);
    let hashed = store.hashed(7, top)?;
    assert_eq!(rt;
        store.emit(hashed)?.items(),
        b"CPLB\x01\0\0\0\x25\x05\0\0\0\x07\x85\x8f\xfe\xd7\xa1\x99\xd9\x28\xe8\xbb\xc7\xe0\x40\x2d\x81\xc2\x5e\x99\x0f\x5c\x53\x70\x58\x14\x69\xe6\xa3\x9c\x60\x78\x5a\x73".as_slice()
    );
    Ok(())
}

#[test]
fn answers_of_all_lengths_stand_in_one_store(rt: HostRuntime) -> Result<(), Fail> {
    let short = Answer::of(&[0xaa, 0xbb]).ok_or("two bytes")?;
    let longer = Answer::of(&[1, 2, 3, 4, 5]).ok_or("five bytes")?;
    let none = Answer::of(&[]).ok_or("no bytes")?;
    let mut bytes = Vec::new(rt.alloc());
    bytes.resize(512, 0x5a)?;
    bytes.resize(1024, 0xa5)?;
    let longest = Answer::of(&bytes).ok_or("1,024 bytes")?;
    let mut store = Store::open(rt.alloc(), 1)?;
    let nonce = begun(&mut store, &NONCE)?;
    let of_short = scanned(&mut store, &short, nonce)?;
    let nonce = begun(&mut store, &NONCE)?;
    let of_longest = scanned(&mut store, &longest, nonce)?;
    assert_eq!(rt;
        store.emit(of_short)?.items(),
        b"CPLB\x01\0\0\0\x1a\x02\0\0\0\0\0\x02\xaa\xbb\x01\0\x01\x02\x03\x04\x05\x06\x07\x08\x09\x0a\x0b\x0c\x0d\x0e\x0f".as_slice()
    );
    let mut expected = Vec::new(rt.alloc());
    expected.extend_from_slice(b"CPLB\x01\0\0\x04\x18\x02\0\0\0\0\x04\0")?;
    expected.extend_from_slice(&bytes)?;
    expected.extend_from_slice(
        b"\x01\0\x01\x02\x03\x04\x05\x06\x07\x08\x09\x0a\x0b\x0c\x0d\x0e\x0f",
    )?;
    assert_eq!(rt; store.emit(of_longest)?.items(), expected.as_slice());
    let nonce = begun(&mut store, &NONCE)?;
    let of_none = scanned(&mut store, &none, nonce)?;
    let nonce = begun(&mut store, &NONCE)?;
    let of_longer = scanned(&mut store, &longer, nonce)?;
    assert_eq!(rt;
        store.emit(of_longer)?.items(),
        b"CPLB\x01\0\0\0\x1d\x02\0\0\0\0\0\x05\x01\x02\x03\x04\x05\x01\0\x01\x02\x03\x04\x05\x06\x07\x08\x09\x0a\x0b\x0c\x0d\x0e\x0f".as_slice()
    );
    assert_eq!(rt;
        store.emit(of_none)?.items(),
        b"CPLB\x01\0\0\0\x18\x02\0\0\0\0\0\0\x01\0\x01\x02\x03\x04\x05\x06\x07\x08\x09\x0a\x0b\x0c\x0d\x0e\x0f".as_slice()
    );
    Ok(())
}

#[test]
fn a_node_takes_at_most_48_bytes(rt: HostRuntime) -> Result<(), Fail> {
    assert!(rt; size_of::<Node>() <= 48);
    Ok(())
}
