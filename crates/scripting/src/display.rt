// What people are told of a line that can't be read.
ghost use Rattle.std.specs.Prelude.{Some, codes, decimal};
ghost use Rattle.std.specs.Fmt.{◌++?◌};

use crate::Fault;
use std::fmt;

impl<C: fmt::Display> fmt::Display for Fault<C> {
    ghost output = { λ f. Some (decimal f.line) ++? Some (codes ": ") ++? C.output f.cause };

    fn fmt<W: fmt::Write>(&self, f: &mut fmt::Formatter<W>) -> fmt::Result {
        let line = self.line;
        let cause = &self.cause;
        write!(f, "{line}: {cause}")
    }
}
