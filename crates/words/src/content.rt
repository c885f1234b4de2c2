// What stands after a line's first word.
ghost use Rattle.std.specs.Prelude.{◌≡◌};
ghost use Rattle.words.specs.Lines.{museums_of, span_of, name_of, key_of};
ghost use Rattle.words.specs.Results.{museums_read, span_read, name_read, key_read};

use arrayvec::ArrayVec;
use lines::{KeyNumber, Museums, Name, Span};
use texts::{Cause, number};

/// Numbers with commas between them, as `3,4`.
pub fn museums_of(word: &str) -> Result<Museums, Cause>
    ensures { museums_read result ≡ museums_of word.now }
{
    let mut list = ArrayVec::<u8, 8>::new();
    for part in word.split(',') {
        if list.is_full() {
            return Err(Cause::TooManyMuseums);
        }
        list.push(number(part)?);
    }
    Museums::new(list.as_slice()).ok_or(Cause::NoSuchMuseum)
}

/// The first and the last number, as `10-20`.
pub fn span_of(word: &str) -> Result<Span, Cause>
    ensures { span_read result ≡ span_of word.now }
{
    let (from, to) = word.split_once('-').ok_or(Cause::NotASpan)?;
    Span::new(number(from)?, number(to)?).ok_or(Cause::Backward)
}

pub fn name_of(word: &str) -> Result<Name, Cause>
    ensures { name_read result ≡ name_of word.now }
{
    let letters = word.as_bytes();
    if letters.len() > 32 {
        return Err(Cause::LongName);
    }
    Name::new(letters).ok_or(Cause::BadLetter)
}

/// The number of a key.
pub fn key_of(word: &str) -> Result<KeyNumber, Cause>
    ensures { key_read result ≡ key_of word.now }
{
    KeyNumber::new(number(word)?).ok_or(Cause::NoSuchKey)
}
