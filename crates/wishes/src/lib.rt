// Wishes in bytes: read, asked for their range, written.
#![tactic(auto)]

ghost use Rattle.std.specs.Prelude.{◌≡◌, ◌<◌, true, ◌++◌, length, MatchOption};
ghost use Rattle.numbers.specs.Lent.{WritesFront};
ghost use Rattle.parts.specs.Limits.{in_range};
ghost use Rattle.std.specs.Option.{option_map};
ghost use Rattle.std.specs.Bool.{then_some};
ghost use Rattle.wishes.specs.Format.{wish_bytes};
ghost use Rattle.wishes.specs.Reading.{wish_of};
ghost use Rattle.wishes.specs.Views.{wish_view, raw_view, wish_read};

pub mod laws;
mod wish;

use parts::Name;
pub use wish::{RawWish, Wish};

/// The kind of a wish, its first byte. There follow museum (1 byte), day (2), minute (2), persons (1), how many letters (1), each (1).
// No other kind is told apart from it here, so it is a number and no enum.
const WISH_KIND: u8 = 21;

/// Reads a wish at the front by its lengths alone, and gives the bytes that follow it; `None`, if there is none, is the fault `Shape`.
pub fn read_wish(bytes: &[u8]) -> Option<(RawWish<'_>, &[u8])>
    ensures { wish_read result ≡ wish_of bytes.now }
{
    let [kind, museum, rest @ ..] = bytes else {
        return None;
    };
    if *kind != WISH_KIND {
        return None;
    }
    let (day, rest) = numbers::read(rest)?;
    let (minute, rest) = numbers::read(rest)?;
    let [persons, count, rest @ ..] = rest else {
        return None;
    };
    let (name, rest) = rest.split_at_checked(usize::from(*count))?;
    let wish = RawWish {
        museum: *museum,
        day,
        minute,
        persons: *persons,
        name,
    };
    Some((wish, rest))
}

impl RawWish<'_> {
    /// The wish, if it is in range; `None` is the fault `Range`.
    pub fn in_range(self) -> Option<Wish>
        ensures { option_map wish_view result ≡ then_some (in_range (raw_view self.entry)) (raw_view self.entry) }
    {
        let RawWish {
            museum,
            day,
            minute,
            persons,
            name,
        } = self;
        if !(1..=200).contains(&museum)
            || day < 1
            || minute > 1439
            || !(1..=200).contains(&persons)
        {
            return None;
        }
        let name = Name::new(name)?;
        Some(Wish {
            museum,
            day,
            minute,
            persons,
            name,
        })
    }
}

impl Wish {
    /// How many bytes it has.
    pub fn len(self) -> usize
        ensures { result ≡ length (wish_bytes (wish_view self)) }
    {
        8 + self.name.as_slice().len()
    }

    /// Writes its bytes at the front, and says how many they are. `None` if there is no room, and then nothing is written.
    pub fn write(self, out: &mut [u8]) -> Option<usize>
        ensures writes { WritesFront (wish_bytes (wish_view self)) out.old out.new result }
        ensures possible { in_range (wish_view self) ≡ true }
    {
        // Place by place, as what is lent can't be appended to (no heap).
        let name = self.name.as_slice();
        let length = self.len();
        if out.len() < length {
            return None;
        }
        out[0] = WISH_KIND;
        out[1] = self.museum;
        numbers::put(&mut out[2..4], self.day)?;
        numbers::put(&mut out[4..6], self.minute)?;
        out[6] = self.persons;
        // That it fits is proved: by `try_from` there would be a branch that can't be met.
        out[7] = name.len() as u8;
        out[8..length].copy_from_slice(name);
        Some(length)
    }
}
