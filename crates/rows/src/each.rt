// The lines of a row, one after the other.
ghost use Rattle.std.specs.Prelude.{◌≡◌, ◌≤◌, length};
ghost use Rattle.std.specs.Iterator.{YieldsFirstRef, item_count};
ghost use Rattle.rows.specs.Each.{lines_left};
ghost use Rattle.rows.specs.Row.{rows};

use crate::row::Lines;

/// The lines that are left, each handed on as a part of the row.
#[derive(Drop)]
pub struct Each<'a> {
    lines: &'a Lines,
    at: usize,
}

impl Lines {
    /// Its lines, from the first on.
    pub fn iter(&self) -> Each<'_>
        ensures lines { lines_left result ≡ rows self.now }
        ensures bound { length (lines_left result) ≤ 32 }
    {
        Each { lines: self, at: 0 }
    }
}

impl<'a> Iterator for Each<'a> {
    type Item = &'a [u8];

    ghost next_gives = { YieldsFirstRef lines_left };

    ghost remaining = { item_count lines_left };

    fn next(&mut self) -> Option<&'a [u8]> {
        let line = self.lines.line(self.at)?;
        self.at += 1;
        Some(line)
    }
}
