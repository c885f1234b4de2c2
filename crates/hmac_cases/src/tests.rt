// A digest stands as its four big-endian 64-bit parts.
ghost use Rattle.std.specs.Prelude.{◌≤◌, length};

use super::tables::{DIGESTS, MACS};
use hmac::{Key, Mac};
use hmac4::{Request, mac_four};
use sha256::digest;
use std::array;
use std::test::Fail;

fn parts(d: [u8; 32]) -> [u64; 4] {
    let (eights, _) = d.as_chunks::<8>();
    array::from_fn(|i| u64::from_be_bytes(eights[i]))
}

fn folded(d: [u8; 32]) -> u64 {
    parts(d).iter().fold(0, |all, part| all ^ *part)
}

// A key of at most 32 bytes, with zeros after it. HMAC takes it as it would the shorter key.
fn key(short: &[u8]) -> Mac
    requires { length short.now ≤ 32 }
{
    let mut bytes = [0; 32];
    let end = short.len();
    bytes[..end].copy_from_slice(short);
    Mac::new(bytes)
}

// The examples that NIST publishes with FIPS 180: the empty message, 24 bits, 448 bits and a million letters.
#[test]
fn fips_180(rt: HostRuntime) -> Result<(), Fail> {
    let empty = [
        0xe3b0c44298fc1c14,
        0x9afbf4c8996fb924,
        0x27ae41e4649b934c,
        0xa495991b7852b855,
    ];
    let abc = [
        0xba7816bf8f01cfea,
        0x414140de5dae2223,
        0xb00361a396177a9c,
        0xb410ff61f20015ad,
    ];
    let two_blocks = [
        0x248d6a61d20638b8,
        0xe5c026930c3e6039,
        0xa33ce45964ff2167,
        0xf6ecedd419db06c1,
    ];
    let million = [
        0xcdc76e5c9914fb92,
        0x81a1c7e284d73e67,
        0xf1809a48a497200e,
        0x046d39ccc7112cd0,
    ];
    let letters = vec![in rt.alloc(); b'a'; 1_000_000]?;
    assert_eq!(rt; parts(digest(b"")), empty);
    assert_eq!(rt; parts(digest(b"abc")), abc);
    assert_eq!(rt;
        parts(digest(b"abcdbcdecdefdefgefghfghighijhijkijkljklmklmnlmnomnopnopq")),
        two_blocks
    );
    assert_eq!(rt; parts(digest(&letters)), million);
    Ok(())
}

// RFC 4231's test cases whose keys have at most 32 bytes: 1 to 5. Case 5 is published cut to 128 bits.
#[test]
fn rfc_4231(rt: HostRuntime) {
    let one = [
        0xb0344c61d8db3853,
        0x5ca8afceaf0bf12b,
        0x881dc200c9833da7,
        0x26e9376c2e32cff7,
    ];
    let two = [
        0x5bdcc146bf60754e,
        0x6a042426089575c7,
        0x5a003f089d273983,
        0x9dec58b964ec3843,
    ];
    let three = [
        0x773ea91e36800e46,
        0x854db8ebd09181a7,
        0x2959098b3ef8c122,
        0xd9635514ced565fe,
    ];
    let four = [
        0x82558a389a443c0e,
        0xa4cc819899f2083a,
        0x85f0faa3e578f807,
        0x7a2e3ff46729665b,
    ];
    let counted = [
        1, 2, 3, 4, 5, 6, 7, 8, 9, 10, 11, 12, 13, 14, 15, 16, 17, 18, 19, 20, 21, 22, 23, 24, 25,
    ];
    let five = key(&[0x0c; 20]).mac(b"Test With Truncation").bytes();
    assert_eq!(rt; parts(key(&[0x0b; 20]).mac(b"Hi There").bytes()), one);
    assert_eq!(rt;
        parts(key(b"Jefe").mac(b"what do ya want for nothing?").bytes()),
        two
    );
    assert_eq!(rt; parts(key(&[0xaa; 20]).mac(&[0xdd; 50]).bytes()), three);
    assert_eq!(rt; parts(key(&counted).mac(&[0xcd; 50]).bytes()), four);
    let [first, second, _, _] = parts(five);
    assert_eq!(rt; first, 0xa3b6167473100ee0);
    assert_eq!(rt; second, 0x6e0c796c2955552b);
}

fn message() -> [u8; 130] {
    array::from_fn(|i| ((7 * i + 1) % 256) as u8)
}

// The key 0, 1, .. 31.
fn counted_key() -> Mac {
    Mac::new(array::from_fn(|i| i as u8))
}

// Every length from 0 to 130, against OpenSSL's answers (vectors.py), by one-shot calls and by a kept key.
#[test]
fn lengths(rt: HostRuntime) {
    let m = message();
    let mac = counted_key();
    let kept = Key::new(mac);
    for n in 0..131 {
        let text = &m[0..n];
        assert_eq!(rt; folded(digest(text)), DIGESTS[n]);
        assert_eq!(rt; folded(mac.mac(text).bytes()), MACS[n]);
        assert_eq!(rt; folded(kept.mac(text).bytes()), MACS[n]);
    }
}

// Four at once, of lengths on both sides of the bound under which they share the lanes.
#[test]
fn fours(rt: HostRuntime) {
    let m = message();
    let key = counted_key();
    for n in 0..60 {
        let messages = [&m[..n], &m[..59 - n], &m[..n / 2], &m[..5]];
        let [w, x, y, z] = mac_four(messages.map(|message| Request { key, message }));
        assert_eq!(rt; folded(w.bytes()), MACS[n]);
        assert_eq!(rt; folded(x.bytes()), MACS[59 - n]);
        assert_eq!(rt; folded(y.bytes()), MACS[n / 2]);
        assert_eq!(rt; folded(z.bytes()), MACS[5]);
    }
}

// A tie is the MAC of the byte 3 and the other's bytes, and `same` sees a difference in any byte.
#[test]
fn ties(rt: HostRuntime) {
    let a = key(b"a");
    let tie = a.tie(key(b"b"));
    let mut joined = [0; 33];
    joined[0] = 3;
    joined[1] = b'b';
    assert!(rt; tie.same(a.mac(&joined)));
    for i in 0..32 {
        let mut bytes = tie.bytes();
        bytes[i] ^= 0x10;
        assert!(rt; !tie.same(Mac::new(bytes)));
    }
}

#[test]
fn debug_shows_no_bytes(rt: HostRuntime) -> Result<(), Fail> {
    let mac = key(b"a");
    let kept = Key::new(mac);
    let shown = format!(in rt.alloc(); "{mac:?} {kept:?}")?;
    assert!(rt; shown.as_bytes() == b"Mac(..) Key(..)".as_slice());
    Ok(())
}
