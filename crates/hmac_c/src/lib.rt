// The functions of `hmac` for C: a slice is a pointer and then a length.
// Each fills `out` and answers true, or answers false and writes nothing where a key or `out` has not its length.
#![tactic(auto)]

ghost use Rattle.std.specs.Prelude.{◌≡◌, ◌++◌, length, take, drop, Decides, MatchBool};
ghost use Rattle.hmac.specs.Hmac.{hmac_of};
ghost use Rattle.sha256.specs.Sha256.{sha256};

use hmac::Mac;
use hmac4::{Request, mac_four};

// The SHA-256 digest of a message; `out` has 32 bytes.
#[unsafe(no_mangle)]
pub extern "C" fn hmac_c_sha256(message: &[u8], out: &mut [u8]) -> bool
    ensures value { MatchBool result (out.new ≡ sha256 message.now) (out.new ≡ out.old) }
    ensures fills { Decides result (length out.old ≡ 32) }
{
    if out.len() != 32 {
        return false;
    }
    out.copy_from_slice(&sha256::digest(message));
    true
}

// The MAC of a message; the key and `out` have 32 bytes.
#[unsafe(no_mangle)]
pub extern "C" fn hmac_c_mac(key: &[u8], message: &[u8], out: &mut [u8]) -> bool
    ensures value { MatchBool result (out.new ≡ hmac_of key.now message.now) (out.new ≡ out.old) }
    ensures fills { Decides result ((length key.now ≡ 32) × (length out.old ≡ 32)) }
{
    let Ok(key) = <[u8; 32]>::try_from(key) else {
        return false;
    };
    if out.len() != 32 {
        return false;
    }
    out.copy_from_slice(&Mac::new(key).mac(message).bytes());
    true
}

// A message under a key, from its bytes.
fn request<'a>(key: &[u8; 32], message: &'a [u8]) -> Request<'a>
    ensures key { result.key.bytes ≡ key.now }
    ensures message { result.message.now ≡ message.now }
{
    Request {
        key: Mac::new(*key),
        message,
    }
}

// The MACs of four messages, one after the other; the four keys and `out` have 128 bytes. C has no slice of slices, so that the
// messages are four parameters.
#[unsafe(no_mangle)]
pub extern "C" fn hmac_c_mac_four(
    keys: &[u8],
    a: &[u8],
    b: &[u8],
    c: &[u8],
    d: &[u8],
    out: &mut [u8],
) -> bool
    ensures value { MatchBool result (out.new ≡ hmac_of (take 32 keys.now) a.now ++ (hmac_of (take 32 (drop 32 keys.now)) b.now ++ (hmac_of (take 32 (drop 64 keys.now)) c.now ++ hmac_of (take 32 (drop 96 keys.now)) d.now))) (out.new ≡ out.old) }
    ensures fills { Decides result ((length keys.now ≡ 128) × (length out.old ≡ 128)) }
{
    let ([p, q, r, s], []) = keys.as_chunks::<32>() else {
        return false;
    };
    if out.len() != 128 {
        return false;
    }
    let macs = mac_four([request(p, a), request(q, b), request(r, c), request(s, d)]);
    out.copy_from_slice(macs.map(Mac::bytes).as_flattened());
    true
}
