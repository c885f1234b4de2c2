// What people type, cut into words, labels and numbers.
//
// Spaces, tabs and carriage returns part words, as many as there are. Numbers are decimal digits; zeros in front count for
// nothing.
#![tactic(auto)]

ghost use Rattle.std.specs.Prelude.{◌≡◌};
ghost use Rattle.trouble.specs.declared.Trouble.TheVariants.{Unreadable};

mod cut;
mod labels;
mod numeral;
mod wording;

pub use cut::{GAPS, head_and_tail, last_word, next_word, only_word, optional_word, word_and_rest};
pub use labels::{after_label, only_after, pair_after};
pub use numeral::{Unsigned, number};
use trouble::Trouble;

/// Why a text can't be read: one list for all that people type, so that a reader hands on what those below it tell.
#[derive(Clone, Copy, PartialEq, Eq, Debug)]
pub enum Cause {
    /// Another word should stand there.
    UnknownWord,
    MissingWord,
    TooManyWords,
    /// Not just decimal digits.
    NotANumber,
    /// More than the number's place can hold.
    TooLarge,
    /// No museum has this number.
    NoSuchMuseum,
    TooManyMuseums,
    /// No key can have this number.
    NoSuchKey,
    /// Not two numbers with `-` between them.
    NotASpan,
    /// A span that ends before it begins.
    Backward,
    /// Something else than a small letter, a to z, in a name.
    BadLetter,
    LongName,
}

impl From<Cause> for Trouble<Cause> {
    ghost from_gives = { λ cause t. t ≡ Unreadable cause };

    fn from(cause: Cause) -> Trouble<Cause> {
        Trouble::Unreadable(cause)
    }
}
