// HMAC's two hashes, each taken up after the key's block. The blocks are made for every kind of word: in each lane they are those
// of one key and one digest.
ghost use Rattle.std.specs.Prelude.{◌≡◌, ℕ, ◌*◌, ◌<◌, List, [], ◌∷◌, ◌++◌, map, length, replicate, bit_xor, slice_index};
ghost use Rattle.hmac.specs.Midstates.{midstate, mac_from};
ghost use Rattle.sha256.specs.Sha256.{words, bytes};

use sha256::blocks::finish;
use sha256::compress::compress;
use sha256::constants::INITIAL;
use sha256::word::Word;
use sha256::words::to_bytes;

// The bytes that a key is mixed with for the inner and the outer hash, each four times over.
pub const INNER: u32 = 0x36363636;

pub const OUTER: u32 = 0x5c5c5c5c;

// The block of a key, from its words, mixed with `pad`. At a type parameter `map` would ask
// callers for a bound on the words' size.
pub fn key_block<W: Word>(key: [W; 8], pad: u32) -> [W; 16]
    ensures { (l : ℕ) → l < W.lanes → map (W.lane l) result ≡ map (λ x. bit_xor x pad) (map (W.lane l) key) ++ replicate 8 pad }
{
    let p = W::splat(pad);
    let [a, b, c, d, e, f, g, h] = key;
    [
        a.xor(p),
        b.xor(p),
        c.xor(p),
        d.xor(p),
        e.xor(p),
        f.xor(p),
        g.xor(p),
        h.xor(p),
        p,
        p,
        p,
        p,
        p,
        p,
        p,
        p,
    ]
}

// The block of the outer hash, from the words of a digest: 32 bytes and their padding. Written out it is no longer than filled in
// place by place, and shows the block whole.
pub fn outer_block<W: Word>(v: [W; 8]) -> [W; 16]
    ensures { (l : ℕ) → l < W.lanes → map (W.lane l) result ≡ map (W.lane l) v ++ 0x80000000 ∷ 0 ∷ 0 ∷ 0 ∷ 0 ∷ 0 ∷ 0 ∷ 768 ∷ [] }
{
    let one = W::splat(0x80000000);
    let zero = W::splat(0);
    let bits = W::splat(768);
    let [a, b, c, d, e, f, g, h] = v;
    [
        a, b, c, d, e, f, g, h, one, zero, zero, zero, zero, zero, zero, bits,
    ]
}

// The hash value after a key's block, which is mixed with the byte that `pad` repeats.
pub(crate) fn midstate(key: [u32; 8], pad: u32) -> [u32; 8]
    ensures { (c : ℕ) (key_bytes : List ℕ) → c < 256 → pad ≡ c * 0x01010101 → length key_bytes ≡ 32 → ((i : ℕ) → slice_index key_bytes i < 256) → key ≡ words 8 key_bytes → result ≡ midstate c key_bytes }
{
    compress(INITIAL, key_block(key, pad))
}

// The MAC of a message, from the midstates of a key.
pub(crate) fn mac_from(inner: [u32; 8], outer: [u32; 8], message: &[u8]) -> [u8; 32]
    ensures { result ≡ mac_from inner outer message.now }
{
    let digest = finish(inner, 1, message);
    to_bytes(compress(outer, outer_block(digest)))
}
