// Words from bytes and bytes from words, for code that starts from a midstate or hashes several messages at once.
ghost use Rattle.std.specs.Prelude.{◌≡◌, ◌<◌, ◌≤◌, length, MatchOption};
ghost use Rattle.sha256.specs.Blocks.{remaining};
ghost use Rattle.sha256.specs.Sha256.{words, bytes};

use super::blocks::{self, opened, sealed};

// The words of 32 bytes.
pub fn from_bytes(bytes: [u8; 32]) -> [u32; 8]
    ensures { result ≡ words 8 bytes }
{
    blocks::words(&bytes)
}

// The one block that a message of under 56 bytes makes after a first block.
pub fn short_block(message: &[u8]) -> Option<[u32; 16]>
    ensures { MatchOption result (56 ≤ length message.now) (λ b. (length message.now < 56) × (b ≡ words 16 (remaining 64 message.now))) }
{
    if message.len() >= 56 {
        return None;
    }
    let bits = (64 + message.len() as u64) * 8;
    Some(sealed(opened(message), bits))
}

// The bytes of a hash value.
pub fn to_bytes(v: [u32; 8]) -> [u8; 32]
    ensures { result ≡ bytes v }
{
    let mut out = [0; 32];
    out.copy_from_slice(v.map(u32::to_be_bytes).as_flattened());
    out
}
