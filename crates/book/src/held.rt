// The struct by itself, as the specs that its methods cite name it.
ghost use Rattle.std.specs.Prelude.{◌≡◌, true};
ghost use Rattle.book.specs.Keys.{apart};
ghost use Rattle.book.specs.Entries.{keys_view};
ghost use Rattle.book.specs.declared.held.AddError.TheVariants.{NoMemory};

use hmac::Mac;
use indexmap::IndexMap;
use lines::KeyNumber;
use std::alloc::AllocError;

/// The house's book: its own key, and the keys of yeses that it knows, each secret by its number, of which no two
/// are one, in the order in which they came.
#[derive(Drop)]
pub struct Book {
    pub(crate) house: Mac,
    pub(crate) keys: IndexMap<KeyNumber, Mac>,
    ghost apart: { apart (keys_view keys.entries) ≡ true },
}

/// Why a key was not added.
#[derive(Clone, Copy, PartialEq, Eq, Debug)]
pub enum AddError {
    /// A key of the book has its number.
    Taken,
    NoMemory,
}

impl From<AllocError> for AddError {
    ghost from_gives = { λ _ e. e ≡ NoMemory };

    fn from(_error: AllocError) -> AddError {
        AddError::NoMemory
    }
}
