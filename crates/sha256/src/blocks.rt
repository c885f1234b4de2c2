// Messages as blocks: words, the hash value over whole blocks, and the padding of the last ones.
ghost use Rattle.std.specs.Prelude.{◌≡◌, ◌-◌, ◌*◌, ◌<◌, ◌≤◌, ◌∷◌, ◌++◌, length, take, replicate};
ghost use Rattle.sha256.specs.Blocks.{finished};
ghost use Rattle.sha256.specs.Sha256.{words, compressed, eight};
ghost use Rattle.std.specs.List.{fold};

use super::compress::compress;
use std::array;

// The first N words, each with its high byte first.
pub(crate) fn words<const N: usize>(b: &[u8]) -> [u32; N]
    requires { 4 * N ≤ length b.now }
    ensures { result ≡ words N b.now }
{
    let (fours, _) = b.as_chunks::<4>();
    array::from_fn(|i| u32::from_be_bytes(fours[i]))
}

// The hash value after some blocks.
fn absorb(h: [u32; 8], blocks: &[[u8; 64]]) -> [u32; 8]
    ensures { result ≡ fold (λ h b. compressed h (words 16 b)) h blocks.now }
{
    blocks.iter().fold(
        h,
        |h: [u32; 8], block: &[u8; 64]| -> [u32; 8]
            ensures { result ≡ compressed h (words 16 block.now) }
        { compress(h, words(block)) },
    )
}

// The words of a last block, of which the last two are the message's length in bits.
pub(crate) fn sealed(block: [u8; 64], bits: u64) -> [u32; 16]
    ensures { result ≡ words 16 (take 56 block ++ eight bits) }
{
    let mut block = block;
    block[56..].copy_from_slice(&bits.to_be_bytes());
    words(&block)
}

// The rest of a message, the bit 1, and zeros up to a block.
pub(crate) fn opened(rest: &[u8]) -> [u8; 64]
    requires { length rest.now < 64 }
    ensures { result ≡ rest.now ++ 128 ∷ replicate (63 - length rest.now) 0 }
{
    let mut block = [0; 64];
    let end = rest.len();
    block[..end].copy_from_slice(rest);
    block[end] = 128;
    block
}

// The hash value after the rest of a message, of which the first `blocks` blocks are in h already.
pub fn finish(h: [u32; 8], blocks: u64, message: &[u8]) -> [u32; 8]
    ensures { result ≡ finished (64 * blocks) message.now h }
{
    let (whole, rest) = message.as_chunks::<64>();
    let h = absorb(h, whole);
    let bytes = blocks.wrapping_mul(64).wrapping_add(message.len() as u64);
    let bits = bytes.wrapping_mul(8);
    let block = opened(rest);
    if rest.len() < 56 {
        compress(h, sealed(block, bits))
    } else {
        let h = compress(h, words(&block));
        compress(h, sealed([0; 64], bits))
    }
}
