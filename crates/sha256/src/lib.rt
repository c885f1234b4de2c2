// SHA-256 (FIPS 180-4, RFC 6234) of messages of every length. The contracts pin each result by the definitions of specs/Sha256.antt.
#![tactic(auto)]

ghost use Rattle.std.specs.Prelude.{◌≡◌, ℕ, ◌%◌, ◌<◌, length, slice_index};
ghost use Rattle.sha256.specs.Sha256.{padded, sha256};

pub mod blocks;
pub mod compress;
pub mod constants;
pub mod word;
pub mod words;

use blocks::finish;
use constants::INITIAL;
use words::to_bytes;

// The digest of a message: 32 bytes.
pub fn digest(message: &[u8]) -> [u8; 32]
    ensures value { result ≡ sha256 message.now }
    ensures bytes { (length (sha256 message.now) ≡ 32) × ((i : ℕ) → slice_index (sha256 message.now) i < 256) }
    ensures whole { length (padded message.now) % 64 ≡ 0 }
{
    to_bytes(finish(INITIAL, 0, message))
}
