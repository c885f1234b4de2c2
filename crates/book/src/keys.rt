// One key of a book: read behind others, and put with them.
ghost use Rattle.book.specs.Booking.{with_key};
ghost use Rattle.book.specs.Keys.{taken, new_key};
ghost use Rattle.book.specs.Entries.{key_view};
ghost use Rattle.book.specs.Views.{book_view};
ghost use Rattle.rows.specs.Due.{ReadAs};
ghost use Rattle.std.specs.Prelude.{◌≡◌, false, MatchResult};

use crate::held::Book;
use codec::{Coded, Kind, read_kind};
use hmac::Mac;
use lines::{Fault, KeyNumber};
use rows::Reader;
use std::alloc::AllocError;
use tickets::YesKey;

// The next key of a book. A number that is taken is a fault before its secret is read.
pub fn read_key(reader: &mut Reader<'_>, book: &Book) -> Result<YesKey, Fault>
    ensures { ReadAs (new_key (book_view book.now).keys).read key_view reader.old.rest.now result reader.new.rest.now }
{
    read_kind(reader, Kind::Key as u8)?;
    let number = KeyNumber::read(reader)?;
    if book.secret(number).is_some() {
        return Err(Fault::Unreadable);
    }
    let secret = Mac::read(reader)?;
    Ok(YesKey { number, secret })
}

impl Book {
    // One key more, whose number is free.
    pub(crate) fn put(&mut self, key: YesKey) -> Result<(), AllocError>
        requires { taken (book_view self.old).keys key.number.number ≡ false }
        ensures { MatchResult result
            (λ _. book_view self.new ≡ with_key (book_view self.old) (key_view key))
            (λ _. book_view self.new ≡ book_view self.old) }
    {
        self.keys.insert(key.number, key.secret)?;
        Ok(())
    }
}
