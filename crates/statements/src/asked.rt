// The wish of a statement.
ghost use Rattle.std.specs.Prelude.{◌≡◌};
ghost use Rattle.wishes.specs.Views.{raw_view};
ghost use Rattle.statements.specs.Views.{asked_view};
ghost use Rattle.trouble.specs.Told.{Told};
ghost use Rattle.words.specs.Wishes.{wish_in};

use crate::Trouble;
use lines::RawWish;
use std::alloc::Global;
use words::parse_wish;

/// A wish as it was typed, which may be out of range: that is told when it is played.
// It is not one struct with `RawWish`, generic in the name: that one's fields are public, and these are private, so that only what
// was typed is an `Asked`.
#[derive(Drop)]
pub struct Asked {
    museum: u8,
    day: u16,
    minute: u16,
    persons: u8,
    name: Vec<u8>,
}

impl Asked {
    pub fn raw(&self) -> RawWish<'_>
        ensures { raw_view result ≡ asked_view self.now }
    {
        RawWish {
            museum: self.museum,
            day: self.day,
            minute: self.minute,
            persons: self.persons,
            name: self.name.as_slice(),
        }
    }
}

/// Reads a wish, in range or not.
pub fn asked_in(heap: Global, text: &str) -> Result<Asked, Trouble>
    ensures { Told asked_view result (wish_in text.now) }
{
    let raw = parse_wish(text)?;
    let name = Vec::from_slice(heap, raw.name)?;
    Ok(Asked {
        museum: raw.museum,
        day: raw.day,
        minute: raw.minute,
        persons: raw.persons,
        name,
    })
}
