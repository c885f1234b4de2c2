// Four MACs at once: keys, messages and digests carried over to the lanes and back.
ghost use Rattle.std.specs.Prelude.{◌≡◌, ℕ, ◌<◌, List, [], ◌∷◌, length, replicate, slice_index, slice_index_or};
ghost use Rattle.sha256.specs.Blocks.{remaining};
ghost use Rattle.hmac.specs.Hmac.{hmac_of};
ghost use Rattle.sha256.specs.Sha256.{words, bytes};
ghost use Rattle.hmac4.specs.Lanes.{IsKeyOf, lane};

use hmac::midstates::{INNER, OUTER, key_block, outer_block};
use sha256::compress::compress_lanes;
use sha256::constants::INITIAL;
use std::array;
use std::simd::prelude::*;

// The words of four rows, one row to a lane.
pub(crate) fn gather<const N: usize>(rows: [[u32; N]; 4]) -> [u32x4; N]
    ensures { (l : ℕ) → l < 4 → length (slice_index_or rows.entry l []) ≡ N → lane l result ≡ slice_index_or rows.entry l [] }
{
    let [p, q, r, s] = rows;
    // One by one, as `map` over the rows would owe a bound on their size.
    array::from_fn(
        |i: usize| -> u32x4
            requires { i < N }
            ensures { result ≡ slice_index p i ∷ slice_index q i ∷ slice_index r i ∷ slice_index s i ∷ [] }
        { u32x4::from_array([p[i], q[i], r[i], s[i]]) },
    )
}

// The eight words of lane l.
pub(crate) fn scatter(v: [u32x4; 8], l: usize) -> [u32; 8]
    requires { l < 4 }
    ensures { result ≡ lane l v }
{
    v.map(
        |x: u32x4| -> u32
            requires { l < 4 }
            ensures { result ≡ slice_index x l }
        { x.to_array()[l] },
    )
}

// The words of four MACs, from the words of each key, and the one block of each message.
pub(crate) fn macs(keys: [u32x4; 8], blocks: [u32x4; 16]) -> [u32x4; 8]
    ensures { (l : ℕ) (key m : List ℕ) → l < 4 → IsKeyOf key (lane l keys) → length m < 56 → lane l blocks ≡ words 16 (remaining 64 m) → bytes (lane l result) ≡ hmac_of key m }
{
    let start = INITIAL.map(
        |x: u32| -> u32x4
            ensures { result ≡ replicate 4 x }
        { u32x4::splat(x) },
    );
    let inner = compress_lanes(start, key_block(keys, INNER));
    let outer = compress_lanes(start, key_block(keys, OUTER));
    let digest = compress_lanes(inner, blocks);
    compress_lanes(outer, outer_block(digest))
}
