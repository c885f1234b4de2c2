// Rows of lines compared as they are carried: a derive would compare what the arrays hold behind the last line, too.
ghost use Rattle.std.specs.Prelude.{◌==◌};
ghost use Rattle.std.specs.Ordering.{on};
ghost use Rattle.std.specs.Cmp.Lexicographic.{pointwise};
ghost use Rattle.std.proofs.Common.{rules};
ghost use Rattle.std.specs.Cmp.Rules.{comparing};
ghost use Rattle.rows.specs.Row.{carried};

use crate::row::Lines;

impl PartialEq for Lines {
    ghost eq = { on carried (pointwise ◌==◌) };

    ghost laws = { Prim.search (comparing, rules) };

    fn eq(&self, other: &Lines) -> bool {
        self.wire() == other.wire()
    }
}

impl Eq for Lines {
    ghost laws = { Prim.search (comparing, rules) };
}
