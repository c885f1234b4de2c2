// HMAC-SHA-256 of four short messages at once, each in a lane of its own.
#![tactic(auto)]

ghost use Rattle.hmac.specs.declared.Mac.{Mac};
ghost use Rattle.hmac.specs.Hmac.{hmac_of};
ghost use Rattle.hmac4.specs.Lanes.{IsKeyOf};
ghost use Rattle.hmac4.specs.declared.Request.{Request};
ghost use Rattle.std.specs.Prelude.{◌≡◌, map};

mod lanes;

use hmac::Mac;
use lanes::{gather, macs, scatter};
use sha256::words::{from_bytes, short_block, to_bytes};
use std::array;

// A message, and the key that it is to be authenticated under.
#[derive(Clone, Copy, Debug)]
pub struct Request<'a> {
    pub key: Mac,
    pub message: &'a [u8],
}

// The MACs of four messages, each the answer of `Mac::mac`. They are computed together where each message has under 56 bytes,
// and else one at a time.
pub fn mac_four(requests: [Request; 4]) -> [Mac; 4]
    ensures { map (λ (m : Mac). m.bytes) result ≡ map (λ (r : Request). hmac_of r.key.bytes r.message.now) requests.entry }
{
    let [Some(p), Some(q), Some(r), Some(s)] = requests.map(|r| short_block(r.message)) else {
        return requests.map(|r| r.key.mac(r.message));
    };
    let keys = requests.map(
        |r: Request| -> [u32; 8]
            ensures { IsKeyOf r.entry.key.bytes result }
        { from_bytes(r.key.bytes()) },
    );
    let v = macs(gather(keys), gather([p, q, r, s]));
    array::from_fn(|l| Mac::new(to_bytes(scatter(v, l))))
}
