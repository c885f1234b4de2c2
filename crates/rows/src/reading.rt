// Reading a row of lines.
ghost use Rattle.std.specs.Prelude.{◌≡◌, Ok, Err, IfOk, MatchOption};
ghost use Rattle.lines.specs.declared.Fault.TheVariants.{Shape};
ghost use Rattle.rows.specs.Due.{ReadAs};
ghost use Rattle.rows.specs.Row.{rows};
ghost use Rattle.rows.specs.Rowing.{part_at, row_at};

use crate::adding::most_lines;
use crate::reader::Reader;
use crate::row::Lines;
use lines::{Fault, Place};

impl<'a> Reader<'a> {
    // The bytes behind their length, which are a part of the input.
    fn counted(&mut self) -> Option<&'a [u8]>
        ensures { MatchOption result
            (part_at self.old.rest.now ≡ Err Shape)
            (λ p. part_at self.old.rest.now ≡ Ok (p.now, self.new.rest.now)) }
    {
        let size = self.byte()?;
        self.part(usize::from(size))
    }

    /// A row of lines: a count, and each line behind its length.
    pub fn row(&mut self, place: Place) -> Result<Lines, Fault>
        ensures read { ReadAs (row_at place) rows self.old.rest.now result self.new.rest.now }
        ensures place { IfOk result (λ ls. ls.place ≡ place) }
    {
        let count = self.byte().ok_or(Fault::Shape)?;
        if usize::from(count) > most_lines(place) {
            return Err(Fault::TooMany);
        }
        let mut lines = Lines::new(place);
        // In a chain, the closure would change the row and the reader, and a proof learns nothing of what a closure changes.
        for _ in 0..count {
            let line = self.counted().ok_or(Fault::Shape)?;
            lines.push(line)?;
        }
        Ok(lines)
    }
}
