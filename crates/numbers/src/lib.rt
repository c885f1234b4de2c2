// Numbers of a fixed width at the front of lent slices, high byte first.
#![tactic(auto)]

ghost use Rattle.numbers.specs.Bytes.{two_bytes, four_bytes};
ghost use Rattle.numbers.specs.Lent.{ReadsFront, WritesFront};
ghost use Rattle.numbers.specs.Number.{NumberLaws};
ghost use Rattle.numbers.specs.Widths.{two_bytes_laws, four_bytes_laws};
ghost use Rattle.std.specs.Prelude.{◌≡◌, ℕ, List};

/// A number of `N` bytes.
pub trait Number<const N: usize>: Copy {
    // Its bytes, high byte first.
    ghost bytes_of: { Self → List ℕ };

    /// Its bytes.
    fn to_bytes(self) -> [u8; N]
        ensures { result ≡ bytes_of self };

    /// The number that these bytes are.
    fn from_bytes(bytes: &[u8; N]) -> Self
        ensures { bytes_of result ≡ bytes.now };

    // There are `N`, and numbers with the same bytes are the same.
    ghost laws: { NumberLaws N bytes_of };
}

impl Number<2> for u16 {
    ghost bytes_of = { two_bytes };

    ghost laws = { two_bytes_laws };

    fn to_bytes(self) -> [u8; 2] {
        u16::to_be_bytes(self)
    }

    fn from_bytes(bytes: &[u8; 2]) -> u16 {
        u16::from_be_bytes(*bytes)
    }
}

impl Number<4> for u32 {
    ghost bytes_of = { four_bytes };

    ghost laws = { four_bytes_laws };

    fn to_bytes(self) -> [u8; 4] {
        u32::to_be_bytes(self)
    }

    fn from_bytes(bytes: &[u8; 4]) -> u32 {
        u32::from_be_bytes(*bytes)
    }
}

/// The number that the first bytes are, and the rest; `None` if there are too few.
pub fn read<T: Number<N>, const N: usize>(bytes: &[u8]) -> Option<(T, &[u8])>
    ensures { ReadsFront N T.bytes_of bytes.now result }
{
    let (first, rest) = bytes.split_first_chunk::<N>()?;
    Some((T::from_bytes(first), rest))
}

/// Writes the number to the first bytes, and says how many they are. `None` if there are too few, and then nothing is written.
pub fn put<T: Number<N>, const N: usize>(out: &mut [u8], number: T) -> Option<usize>
    ensures { WritesFront (T.bytes_of number) out.old out.new result }
{
    *out.first_chunk_mut::<N>()? = number.to_bytes();
    Some(N)
}
