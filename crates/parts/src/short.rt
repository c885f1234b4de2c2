// A short row of bytes, by value: so many of them, each from one value to another.
ghost use Rattle.std.specs.Prelude.{◌≡◌, ◌≤◌, ◌++◌, true, false, length, take, drop, MatchOption};
ghost use Rattle.std.specs.List.{list_all};
ghost use Rattle.parts.specs.Limits.{is_short, within};

/// From `LEAST` to `MOST` bytes, each from `LOW` to `HIGH`.
// A line and a wish are passed by value and hold no heap: `ArrayVec` is not `Copy`, and `ArrayString` holds only UTF-8.
#[derive(Clone, Copy)]
pub struct Short<const LEAST: usize, const MOST: usize, const LOW: u8, const HIGH: u8> {
    bytes: [u8; MOST],
    count: usize,
    ghost fits: { count ≤ length bytes },
    ghost possible: { is_short LEAST MOST LOW HIGH (take count bytes) ≡ true },
}

impl<const LEAST: usize, const MOST: usize, const LOW: u8, const HIGH: u8> Short<
    LEAST,
    MOST,
    LOW,
    HIGH,
> {
    /// `None` if these are too few or too many, or one can't be.
    pub fn new(bytes: &[u8]) -> Option<Self>
        ensures { MatchOption result (is_short LEAST MOST LOW HIGH bytes.now ≡ false) (λ s. take s.count s.bytes ≡ bytes.now) }
    {
        let count = bytes.len();
        if !Self::can_be(bytes) {
            return None;
        }
        let mut held = [0; MOST];
        put_front(&mut held, bytes);
        Some(Short { bytes: held, count })
    }

    fn can_be(bytes: &[u8]) -> bool
        ensures { result ≡ is_short LEAST MOST LOW HIGH bytes.now }
    {
        (LEAST..=MOST).contains(&bytes.len()) && all_within(bytes, LOW, HIGH)
    }

    pub fn as_slice(&self) -> &[u8]
        ensures { result.now ≡ take self.now.count self.now.bytes }
    {
        &self.bytes[..self.count]
    }
}

fn all_within(bytes: &[u8], low: u8, high: u8) -> bool
    ensures { result ≡ list_all (within low high) bytes.now }
{
    bytes.iter().all(|byte| (low..=high).contains(byte))
}

fn put_front(room: &mut [u8], bytes: &[u8])
    requires { length bytes.now ≤ length room.old }
    ensures { room.new ≡ bytes.now ++ drop (length bytes.now) room.old }
{
    room[..bytes.len()].copy_from_slice(bytes);
}
