// The house's book: its own key, and the keys of yeses that it knows, looked up by number, read and written.
#![tactic(auto)]

ghost use Rattle.book.specs.Booking.{book_of, book_bytes};
ghost use Rattle.book.specs.Keys.{secret_in};
ghost use Rattle.book.specs.Laws.{BookExact, OneOfANumber};
ghost use Rattle.book.specs.Entries.{key_view, secret_view};
ghost use Rattle.book.specs.Views.{book_view, Added};
ghost use Rattle.std.specs.Prelude.{◌≡◌, [], IfOk};
ghost use Rattle.trouble.specs.Told.{Told};

mod held;
mod keys;

use codec::{Coded, Kind, read_kind};
pub use held::{AddError, Book};
use hmac::Mac;
use indexmap::IndexMap;
use keys::read_key;
use lines::{Fault, KeyNumber};
use numbers::Number;
use rows::Reader;
use showing::Unread;
use std::alloc::{AllocError, Global};
use tickets::YesKey;

impl Book {
    /// A book of this house that has no keys yet.
    pub fn new(heap: Global, house: Mac) -> Book
        ensures { book_view result ≡ record { house = house.bytes; keys = [] } }
    {
        Book {
            house,
            keys: IndexMap::new(heap),
        }
    }

    pub fn house(&self) -> Mac
        ensures { result ≡ self.now.house }
    {
        self.house
    }

    /// The secret of the key with this number.
    #[tactic(auto, using(crate::proofs::Looked::looked_up))]
    pub fn secret(&self, number: KeyNumber) -> Option<Mac>
        ensures { secret_view result ≡ secret_in (book_view self.now).keys number.number }
    {
        self.keys.get(&number).copied()
    }

    /// One key more, at the end. Where its number is taken, or there is no memory, nothing changes.
    pub fn add(&mut self, key: YesKey) -> Result<(), AddError>
        ensures { Added (book_view self.old) (key_view key) (book_view self.new) result }
    {
        // By the map's `entry` there would be two ways of putting a key, as `read_book` puts keys whose
        // numbers it has looked up already.
        if self.secret(key.number).is_some() {
            return Err(AddError::Taken);
        }
        self.put(key)?;
        Ok(())
    }

    // It is read with a heap, so it is no `Coded`; a trait for writing alone would save a line or two here and in what is shown.
    pub fn to_bytes(&self, heap: Global) -> Result<Vec<u8>, AllocError>
        ensures { IfOk result (λ v. v.items ≡ book_bytes (book_view self.now)) }
    {
        let mut out = Vec::new(heap);
        out.push(Kind::Book as u8)?;
        out.extend_from_slice(&self.house.bytes())?;
        // That the count fits two bytes is proved, so that it is cast.
        out.extend_from_slice(&(self.keys.len() as u16).to_bytes())?;
        for (number, secret) in &self.keys {
            let key = YesKey {
                number: *number,
                secret: *secret,
            };
            key.write(&mut out)?;
        }
        Ok(out)
    }
}

/// Reads the book that these bytes are as a whole, to its end or its first fault.
pub fn read_book(heap: Global, bytes: &[u8]) -> Result<Book, Unread>
    ensures { Told book_view result (book_of bytes.now) }
{
    let mut reader = Reader::new(bytes);
    read_kind(&mut reader, Kind::Book as u8)?;
    let house = Mac::read(&mut reader)?;
    let count = reader.number::<u16, _>().ok_or(Fault::Shape)?;
    let mut book = Book::new(heap, house);
    // In a chain, the closure would change the reader, and a proof learns nothing of what a closure changes.
    for _ in 0..count {
        let key = read_key(&mut reader, &book)?;
        book.put(key)?;
    }
    if !reader.is_empty() {
        return Err(Fault::Shape.into());
    }
    Ok(book)
}

/// A book is read back as it was, and only that is read.
pub fn book_exact()
    ensures { BookExact }
{}

/// No two keys of a book have one number, and a second one is a fault as soon as its number is read.
pub fn one_of_a_number()
    ensures { OneOfANumber }
{}
