// Decimal numbers. Zeros in front count for nothing, and there is no sign.
ghost use Rattle.std.specs.Prelude.{◌≡◌, ℕ};
ghost use Rattle.std.proofs.Common.{lit≤};
ghost use Rattle.texts.specs.Numerals.{is_numeral, number_of, number_in, Holds};

use crate::Cause;

/// The unsigned numbers that people type, of at most 32 bits.
pub trait Unsigned: TryFrom<u32> {
    // The greatest of them.
    ghost most: { ℕ };

    ghost value: { ℕ → Self };

    ghost holds: { Holds Self.try_from_gives most value };
}

impl Unsigned for u8 {
    ghost most = { 255 };

    ghost value = { λ n. n };

    ghost holds = { record { wide = lit≤ tt; each = λ n r h. h } };
}

impl Unsigned for u16 {
    ghost most = { 65535 };

    ghost value = { λ n. n };

    ghost holds = { record { wide = lit≤ tt; each = λ n r h. h } };
}

impl Unsigned for u32 {
    ghost most = { 4294967295 };

    ghost value = { λ n. n };

    ghost holds = { record { wide = lit≤ tt; each = λ n r h. h } };
}

fn is_numeral(word: &str) -> bool
    ensures { result ≡ is_numeral word.now }
{
    !word.is_empty() && word.bytes().all(|byte| byte.is_ascii_digit())
}

// A number of 32 bits.
fn wide_number(word: &str) -> Result<u32, Cause>
    ensures { result ≡ number_of 4294967295 word.now }
{
    if !is_numeral(word) {
        return Err(Cause::NotANumber);
    }
    word.parse::<u32>().map_err(|_| Cause::TooLarge)
}

/// A number of one of these types.
pub fn number<N: Unsigned>(word: &str) -> Result<N, Cause>
where
    N::Error: Drop,
    ensures { result ≡ number_in N.most N.value word.now }
{
    N::try_from(wide_number(word)?).map_err(|_| Cause::TooLarge)
}
