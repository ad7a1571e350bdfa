use super::*;
use crate::bytes::zeros;
use phrase_tree::Name;
use sha2::{Digest, Sha256};
use std::test::Fail;

/// Bytes that repeat only after 251.
fn pattern<const N: usize>() -> [u8; N] {
    let mut bytes = zeros::<N>();
    for at in 0..N {
        bytes[at] = (at % 251 * 7 % 251) as u8;
    }
    bytes
}

// The first two are test cases 1 and 2 of RFC 4231; the others were computed by Python's hmac.
#[test]
fn codes_are_those_of_other_programs(rt: HostRuntime) {
    let keys = pattern::<128>();
    let ask: &[u8] = b"what do ya want for nothing?";
    let rows: [(&[u8], &[u8], &[u8; 32]); 6] = [
        (
            &[0x0b; 20],
            b"Hi There",
            b"\xb0\x34\x4c\x61\xd8\xdb\x38\x53\x5c\xa8\xaf\xce\xaf\x0b\xf1\x2b\x88\x1d\xc2\x00\xc9\x83\x3d\xa7\x26\xe9\x37\x6c\x2e\x32\xcf\xf7",
        ),
        (
            b"Jefe",
            ask,
            b"\x5b\xdc\xc1\x46\xbf\x60\x75\x4e\x6a\x04\x24\x26\x08\x95\x75\xc7\x5a\x00\x3f\x08\x9d\x27\x39\x83\x9d\xec\x58\xb9\x64\xec\x38\x43",
        ),
        (
            &keys[..16],
            ask,
            b"\x44\x6b\xac\xdb\x4c\x02\xa0\x7f\xf8\x66\xb1\x9b\x91\x5b\x0d\x63\x22\xe8\xc8\x81\xfc\x5c\x45\x4b\x8c\x08\xbc\x2b\x66\xb7\xd0\x71",
        ),
        (
            &keys[..64],
            ask,
            b"\x21\xfe\x44\xf3\xeb\x6b\x0a\x0d\xe9\xb2\xea\x78\xbf\x15\x5f\x98\x98\x47\x9e\xe0\xdb\x78\xbd\xdb\xe4\xa3\xd8\x12\xc6\xa4\x92\x59",
        ),
        (
            &keys[..65],
            ask,
            b"\xdd\x95\xc8\x4c\x5b\x99\x59\xa1\xe6\x7f\xc9\xd6\xbf\xf8\xd3\x10\xe6\x5c\xf9\x4f\xbd\xd1\xf9\x0c\x16\x63\xb0\xef\x35\xa8\x4b\xb2",
        ),
        (
            &keys,
            ask,
            b"\xce\xb9\xe8\x7c\xcb\x23\x9a\x9e\x44\x2f\x6d\x08\x64\x87\xd5\xbd\xb1\x49\xd9\x24\xdd\xee\xb4\x51\xf8\x85\x45\x30\xe2\x6e\x49\xe0",
        ),
    ];
    for (key, text, code) in rows {
        assert!(rt; same(&mac(key, text), code), "a key of {} bytes", key.len());
    }
    assert_eq!(rt;
        mac(&keys[..65], ask),
        mac(&Sha256::digest(&keys[..65]), ask)
    );
}

// The code was computed by Python's hmac.
#[test]
fn a_code_is_the_same_however_the_text_is_cut(rt: HostRuntime) {
    let text = pattern::<1000>();
    let code =
        b"\x33\xbf\xdc\x58\xdd\xfc\x32\x26\xe6\x64\xa8\x83\x22\x12\x0e\x64\xa0\xff\x6b\xbe\xaa\xe5\x0f\xf7\x17\xa3\x7c\xd7\xb0\xaa\x28\xd6";
    let keyed = Mac::new(&pattern::<64>());
    for cut in 0..1001 {
        let mut mac = keyed.copy();
        mac.update(&text[..cut]);
        mac.update(&text[cut..]);
        assert_eq!(rt; mac.finish(), *code, "cut at {cut}");
    }
    let mut mac = keyed;
    for byte in text {
        mac.update(&[byte]);
    }
    assert_eq!(rt; mac.finish(), *code, "byte by byte");
}

#[test]
fn keys_have_16_to_128_bytes(rt: HostRuntime) {
    let bytes = pattern::<129>();
    for (len, is_key) in [
        (0, false),
        (15, false),
        (16, true),
        (64, true),
        (128, true),
        (129, false),
    ] {
        match Key::read(&bytes[..len]) {
            Some(key) => assert!(rt; is_key && key.bytes() == &bytes[..len], "{len} bytes"),
            None => assert!(rt; !is_key, "{len} bytes"),
        }
    }
}

#[test]
fn a_ring_finds_the_first_key_of_a_place(rt: HostRuntime) -> Result<(), Fail> {
    let bytes = pattern::<48>();
    let bank = Name::read("bank").ok_or("bank")?;
    let shop = Name::read("shop").ok_or("shop")?;
    let first = Key::read(&bytes[..16]).ok_or("first")?;
    let second = Key::read(&bytes[16..32]).ok_or("second")?;
    let third = Key::read(&bytes[32..]).ok_or("third")?;
    let mut pairs = Vec::new(rt.alloc());
    pairs.push((bank, first))?;
    pairs.push((shop, second))?;
    pairs.push((bank, third))?;
    let ring = KeyRing::of(pairs);
    assert_eq!(rt; ring.items().len(), 3);
    assert_eq!(rt; ring.find(bank).ok_or("bank")?.bytes(), &bytes[..16]);
    assert_eq!(rt; ring.find(shop).ok_or("shop")?.bytes(), &bytes[16..32]);
    assert!(rt; ring.find(Name::read("q").ok_or("q")?).is_none());
    Ok(())
}

// The seals and the hash were computed by Python's hmac and hashlib, from the messages written out.
#[test]
fn seals_and_hashes_are_those_of_the_messages_written_out(rt: HostRuntime) -> Result<(), Fail> {
    let bank = Name::read("bank").ok_or("bank")?;
    let q = Name::read("q").ok_or("q")?;
    let nonce = *b"\x00\x01\x02\x03\x04\x05\x06\x07\x08\x09\x0a\x0b\x0c\x0d\x0e\x0f";
    let key_of_bank = Key::read(&nonce).ok_or("bank's key")?;
    let key_of_q = Key::read(
        b"\x10\x11\x12\x13\x14\x15\x16\x17\x18\x19\x1a\x1b\x1c\x1d\x1e\x1f",
    ).ok_or("q's key")?;
    let at_bank: &[u8] =
        b"\x02\x00\x00\x00\x00\x00\x02\xaa\xbb\x01\x00\x01\x02\x03\x04\x05\x06\x07\x08\x09\x0a\x0b\x0c\x0d\x0e\x0f";
    let at_q: &[u8] =
        b"\x02\x00\x00\x00\x01\x00\x01\x11\x01\x00\x01\x02\x03\x04\x05\x06\x07\x08\x09\x0a\x0b\x0c\x0d\x0e\x0f";
    let pair: &[u8] =
        b"\x06\x01\x00\x01\x02\x03\x04\x05\x06\x07\x08\x09\x0a\x0b\x0c\x0d\x0e\x0f\x01\x00\x01\x02\x03\x04\x05\x06\x07\x08\x09\x0a\x0b\x0c\x0d\x0e\x0f";
    let seal_of_bank =
        b"\xbf\x3d\x4b\xf0\x59\xe1\x39\x94\x9e\xbb\xf6\x7a\x3c\xdd\xf4\xcb\x94\x91\x80\x0b\x55\x5a\x03\x67\xc1\xf2\xff\xe4\xba\x66\x29\x31";
    let seal_of_q =
        b"\x5f\x39\x25\x31\xf1\x39\x86\x17\xf9\x75\xa0\xd0\xdf\x3d\xe9\xb7\x6e\xdd\x1e\xb0\xfc\xa7\x77\xa0\xde\xf3\x2b\x46\x2d\x76\xfc\x44";
    let hash_of_pair =
        b"\xee\xb3\xe2\xab\x6a\x60\xf3\xb4\x7e\x37\x44\x22\x80\x6b\xa6\x1f\x40\x31\x2d\x27\xba\x55\xf9\xb4\x94\xcc\xdd\x98\x38\xf2\x6a\x69";
    assert_eq!(rt; seal(&key_of_bank, bank, &nonce, 1, at_bank), *seal_of_bank);
    assert_eq!(rt; seal(&key_of_q, q, &nonce, 2, at_q), *seal_of_q);
    assert_eq!(rt; hash(pair), *hash_of_pair);
    let mut digester = Digester::seal_with(Mac::new(key_of_bank.bytes()), bank, &nonce, 1);
    for byte in at_bank {
        digester.update(&[*byte]);
    }
    assert_eq!(rt; digester.finish(), *seal_of_bank, "byte by byte");
    Ok(())
}

#[test]
fn bytes_are_the_same_only_where_all_are(rt: HostRuntime) {
    let bytes = pattern::<32>();
    assert!(rt; same(&bytes, &bytes));
    for at in 0..32 {
        let mut other = bytes;
        other[at] ^= 0x80;
        assert!(rt; !same(&bytes, &other), "byte {at}");
    }
}
