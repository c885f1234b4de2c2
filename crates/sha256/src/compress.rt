// The compression of SHA-256 (FIPS 180-4, section 6.2.2), for every kind of word: in each lane it is that of one block.
// Rounds and schedule go on by sixteen, and are written out four by four: in a loop the variables would change places in each
// turn, which costs a tenth to a fifth of the speed.
ghost use Rattle.std.specs.Prelude.{◌≡◌, ℕ, ◌+◌, ◌<◌, ◌≤◌, List, map, length, bit_xor};
ghost use Rattle.sha256.specs.Sha256.{◌⊞◌, Ch, Maj, rotr, shr, round, compressed};
ghost use Rattle.sha256.specs.Stages.{advanced, window, Underway};
ghost use Rattle.std.specs.Simd.Lanes.{zip2};

use super::constants::K;
use super::word::Word;

fn ch<W: Word>(x: W, y: W, z: W) -> W
    ensures { (l : ℕ) → l < W.lanes → W.lane l result ≡ Ch (W.lane l x) (W.lane l y) (W.lane l z) }
{
    x.and(y).xor(x.not().and(z))
}

fn maj<W: Word>(x: W, y: W, z: W) -> W
    ensures { (l : ℕ) → l < W.lanes → W.lane l result ≡ Maj (W.lane l x) (W.lane l y) (W.lane l z) }
{
    x.and(y).xor(x.and(z)).xor(y.and(z))
}

// Σ₀ and Σ₁, by the counts of their rotations.
fn big_sigma<W: Word, const A: u32, const B: u32, const C: u32>(x: W) -> W
    requires { (0 < A) × (A < 32) × (0 < B) × (B < 32) × (0 < C) × (C < 32) }
    ensures { (l : ℕ) → l < W.lanes → W.lane l result ≡ bit_xor (bit_xor (rotr A (W.lane l x)) (rotr B (W.lane l x))) (rotr C (W.lane l x)) }
{
    x.rotate_right(A)
        .xor(x.rotate_right(B))
        .xor(x.rotate_right(C))
}

// σ₀ and σ₁, by the counts of their rotations and of their shift.
fn sigma<W: Word, const A: u32, const B: u32, const C: u32>(x: W) -> W
    requires { (0 < A) × (A < 32) × (0 < B) × (B < 32) × (C < 32) }
    ensures { (l : ℕ) → l < W.lanes → W.lane l result ≡ bit_xor (bit_xor (rotr A (W.lane l x)) (rotr B (W.lane l x))) (shr C (W.lane l x)) }
{
    x.rotate_right(A)
        .xor(x.rotate_right(B))
        .xor(x.shift_right(C))
}

// One round over the working variables a to h.
fn round<W: Word>(v: [W; 8], k: u32, w: W) -> [W; 8]
    ensures { (l : ℕ) → l < W.lanes → map (W.lane l) result ≡ round k (W.lane l w) (map (W.lane l) v) }
{
    let [a, b, c, d, e, f, g, h] = v;
    let t1 = h
        .plus(big_sigma::<W, 6, 11, 25>(e))
        .plus(ch(e, f, g))
        .plus(W::splat(k))
        .plus(w);
    let t2 = big_sigma::<W, 2, 13, 22>(a).plus(maj(a, b, c));
    [t1.plus(t2), a, b, c, d.plus(t1), e, f, g]
}

// The next sixteen words of the message schedule, moved on by one. Written out: in a `for` loop one word takes twice the time, and
// for `array::from_fn`, which is as fast, no proof closed.
fn advance<W: Word>(w: [W; 16]) -> [W; 16]
    ensures { (l : ℕ) → l < W.lanes → map (W.lane l) result ≡ advanced (map (W.lane l) w) }
{
    let [
        w0,
        w1,
        w2,
        w3,
        w4,
        w5,
        w6,
        w7,
        w8,
        w9,
        w10,
        w11,
        w12,
        w13,
        w14,
        w15,
    ] = w;
    let next = sigma::<W, 17, 19, 10>(w14)
        .plus(w9)
        .plus(sigma::<W, 7, 18, 3>(w1))
        .plus(w0);
    [
        w1, w2, w3, w4, w5, w6, w7, w8, w9, w10, w11, w12, w13, w14, w15, next,
    ]
}

// Round t + j, by the word at j of the sixteen from t on. The variables, the words and the place stand beside one another in these
// three functions alone; a struct of them would be made anew at each step.
#[inline(always)]
fn step<W: Word>(v: [W; 8], w: [W; 16], t: usize, j: usize) -> [W; 8]
    requires t { t ≤ 48 }
    requires j { j < 16 }
    ensures { (l : ℕ) (block h : List ℕ) → l < W.lanes → Underway t j block h (map (W.lane l) v) (map (W.lane l) w) → Underway t (j + 1) block h (map (W.lane l) result) (map (W.lane l) w) }
{
    round(v, K[t + j], w[j])
}

#[inline(always)]
fn four_steps<W: Word>(v: [W; 8], w: [W; 16], t: usize, j: usize) -> [W; 8]
    requires t { t ≤ 48 }
    requires j { j ≤ 12 }
    ensures { (l : ℕ) (block h : List ℕ) → l < W.lanes → Underway t j block h (map (W.lane l) v) (map (W.lane l) w) → Underway t (j + 4) block h (map (W.lane l) result) (map (W.lane l) w) }
{
    let v = step(v, w, t, j);
    let v = step(v, w, t, j + 1);
    let v = step(v, w, t, j + 2);
    step(v, w, t, j + 3)
}

#[inline(always)]
fn sixteen_steps<W: Word>(v: [W; 8], w: [W; 16], t: usize) -> [W; 8]
    requires { t ≤ 48 }
    ensures { (l : ℕ) (block h : List ℕ) → l < W.lanes → Underway t 0 block h (map (W.lane l) v) (map (W.lane l) w) → Underway t 16 block h (map (W.lane l) result) (map (W.lane l) w) }
{
    let v = four_steps(v, w, t, 0);
    let v = four_steps(v, w, t, 4);
    let v = four_steps(v, w, t, 8);
    four_steps(v, w, t, 12)
}

#[inline(always)]
fn advance_four<W: Word>(w: [W; 16]) -> [W; 16]
    ensures { (l t : ℕ) (block : List ℕ) → l < W.lanes → length block ≡ 16 → map (W.lane l) w ≡ window t block → map (W.lane l) result ≡ window (t + 4) block }
{
    advance(advance(advance(advance(w))))
}

#[inline(always)]
fn advance_sixteen<W: Word>(w: [W; 16]) -> [W; 16]
    ensures { (l t : ℕ) (block : List ℕ) → l < W.lanes → length block ≡ 16 → map (W.lane l) w ≡ window t block → map (W.lane l) result ≡ window (t + 16) block }
{
    advance_four(advance_four(advance_four(advance_four(w))))
}

// The hash value h with the working variables v added. For `array::from_fn` over arrays of a type parameter no proof closed.
fn sum<W: Word>(h: [W; 8], v: [W; 8]) -> [W; 8]
    ensures { (l : ℕ) → l < W.lanes → map (W.lane l) result ≡ zip2 ◌⊞◌ (map (W.lane l) h) (map (W.lane l) v) }
{
    [
        h[0].plus(v[0]),
        h[1].plus(v[1]),
        h[2].plus(v[2]),
        h[3].plus(v[3]),
        h[4].plus(v[4]),
        h[5].plus(v[5]),
        h[6].plus(v[6]),
        h[7].plus(v[7]),
    ]
}

// The hash values after a block of sixteen words in each lane.
pub fn compress_lanes<W: Word>(h: [W; 8], block: [W; 16]) -> [W; 8]
    ensures { (l : ℕ) → l < W.lanes → map (W.lane l) result ≡ compressed (map (W.lane l) h) (map (W.lane l) block) }
{
    let mut v = h;
    let mut w = block;
    for i in 0..3 {
        v = sixteen_steps(v, w, 16 * i);
        w = advance_sixteen(w);
    }
    sum(h, sixteen_steps(v, w, 48))
}

// The hash value after a block of sixteen words.
pub fn compress(h: [u32; 8], block: [u32; 16]) -> [u32; 8]
    ensures { result ≡ compressed h block }
{
    compress_lanes(h, block)
}
