// The words that a compression works on: one of 32 bits, or several side by side, each in a lane of its own.
ghost use Rattle.std.specs.Prelude.{◌≡◌, ℕ, ◌<◌, bit_and, bit_xor, slice_index};
ghost use Rattle.sha256.specs.Sha256.{◌⊞◌, complement, rotr, shr};

use std::simd::prelude::*;

pub trait Word: Copy {
    ghost lanes: { ℕ };

    ghost lane: { ℕ → Self → ℕ };

    // The same word in each lane.
    fn splat(word: u32) -> Self
        ensures { (l : ℕ) → l < lanes → lane l result ≡ word };

    fn plus(self, other: Self) -> Self
        ensures { (l : ℕ) → l < lanes → lane l result ≡ lane l self ⊞ lane l other };

    fn xor(self, other: Self) -> Self
        ensures { (l : ℕ) → l < lanes → lane l result ≡ bit_xor (lane l self) (lane l other) };

    fn and(self, other: Self) -> Self
        ensures { (l : ℕ) → l < lanes → lane l result ≡ bit_and (lane l self) (lane l other) };

    fn not(self) -> Self
        ensures { (l : ℕ) → l < lanes → lane l result ≡ complement (lane l self) };

    fn rotate_right(self, n: u32) -> Self
        requires { (0 < n) × (n < 32) }
        ensures { (l : ℕ) → l < lanes → lane l result ≡ rotr n (lane l self) };

    fn shift_right(self, n: u32) -> Self
        requires { n < 32 }
        ensures { (l : ℕ) → l < lanes → lane l result ≡ shr n (lane l self) };
}

impl Word for u32 {
    ghost lanes = { 1 };

    ghost lane = { λ _ x. x };

    fn splat(word: u32) -> u32 {
        word
    }

    fn plus(self, other: u32) -> u32 {
        self.wrapping_add(other)
    }

    fn xor(self, other: u32) -> u32 {
        self ^ other
    }

    fn and(self, other: u32) -> u32 {
        self & other
    }

    fn not(self) -> u32 {
        !self
    }

    fn rotate_right(self, n: u32) -> u32 {
        u32::rotate_right(self, n)
    }

    fn shift_right(self, n: u32) -> u32 {
        self >> n
    }
}

impl Word for u32x4 {
    ghost lanes = { 4 };

    ghost lane = { λ l v. slice_index v l };

    fn splat(word: u32) -> u32x4 {
        u32x4::splat(word)
    }

    fn plus(self, other: u32x4) -> u32x4 {
        self + other
    }

    fn xor(self, other: u32x4) -> u32x4 {
        self ^ other
    }

    fn and(self, other: u32x4) -> u32x4 {
        self & other
    }

    fn not(self) -> u32x4 {
        !self
    }

    // Plain vectors have no rotation.
    fn rotate_right(self, n: u32) -> u32x4 {
        (self >> u32x4::splat(n)) | (self << u32x4::splat(32 - n))
    }

    fn shift_right(self, n: u32) -> u32x4 {
        self >> u32x4::splat(n)
    }
}
