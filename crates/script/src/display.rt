// What people are told. No word of the script goes into it, since a seed is secret.
ghost use Rattle.std.specs.Prelude.{◌≡◌, Some};
ghost use Rattle.script.specs.Wording.{worded};

use crate::Cause;
use std::fmt;
use std::fmt::Display;

impl fmt::Display for Cause {
    ghost output = { λ c. Some (worded c) };

    fn fmt<W: fmt::Write>(&self, f: &mut fmt::Formatter<W>) -> fmt::Result {
        match self {
            Cause::Words(cause) => cause.fmt(f),
            Cause::LateHouse => f.write_str("house must come first"),
        }
    }
}
