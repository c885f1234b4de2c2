// What people are told of a cause.
ghost use Rattle.std.specs.Prelude.{Some};
ghost use Rattle.texts.specs.Wording.{worded};

use crate::Cause;
use std::fmt;

impl fmt::Display for Cause {
    ghost output = { λ c. Some (worded c) };

    fn fmt<W: fmt::Write>(&self, f: &mut fmt::Formatter<W>) -> fmt::Result {
        let text = match self {
            Cause::UnknownWord => "unknown word",
            Cause::MissingWord => "a word is missing",
            Cause::TooManyWords => "too many words",
            Cause::NotANumber => "not a number",
            Cause::TooLarge => "the number is too large",
            Cause::NoSuchMuseum => "museums have numbers from 1 to 200",
            Cause::TooManyMuseums => "more than 8 museums",
            Cause::NoSuchKey => "keys have numbers up to 4095",
            Cause::NotASpan => "a span is two numbers with - between them",
            Cause::Backward => "the span ends before it begins",
            Cause::BadLetter => "a name has only the letters a to z",
            Cause::LongName => "a name has at most 32 letters",
        };
        f.write_str(text)
    }
}
