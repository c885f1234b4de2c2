// Making a row longer, and its lines. Lengths are cast down by `as`, as it is proved that they fit: `try_from` would add a refusal that
// can't be.
ghost use Rattle.std.specs.Prelude.{◌≡◌, ℕ, ◌+◌, ◌<◌, ◌≤◌, List, [], ◌∷◌, ◌++◌, length, drop, MatchOption, slice_index_or};
ghost use Rattle.rows.specs.Due.{ChangedAs};
ghost use Rattle.rows.specs.Row.{rows};
ghost use Rattle.rows.specs.Standing.{most_at, pushed};
ghost use Rattle.rows.specs.Wire.{wire};

use crate::row::Lines;
use lines::{Fault, Place, read_line};

/// How many lines a ticket, and limits a yes, has at the most.
pub fn most_lines(place: Place) -> usize
    ensures { result ≡ most_at place }
{
    match place {
        Place::Ticket => 32,
        Place::Yes => 16,
    }
}

impl Lines {
    pub fn new(place: Place) -> Lines
        ensures lines { rows result ≡ [] }
        ensures place { result.place ≡ place }
    {
        Lines {
            place,
            bytes: [0; 1120],
            marks: [0; 33],
            count: 0,
        }
    }

    pub fn len(&self) -> usize
        ensures value { result ≡ length (rows self.now) }
        ensures bound { result ≤ 32 }
    {
        self.count
    }

    /// All lines as they are carried, each behind its length: two rows are one where these bytes are the same.
    pub fn wire(&self) -> &[u8]
        ensures { result.now ≡ wire (rows self.now) }
    {
        let used = usize::from(self.marks[self.count]);
        &self.bytes[0..used]
    }

    /// Line i, handed on as a part of the row.
    pub fn line(&self, i: usize) -> Option<&[u8]>
        ensures { MatchOption result (length (rows self.now) ≤ i) (λ l. (i < length (rows self.now)) × (l.now ≡ slice_index_or (rows self.now) i [])) }
    {
        if i >= self.count {
            return None;
        }
        let from = usize::from(self.marks[i]) + 1;
        let to = usize::from(self.marks[i + 1]);
        Some(&self.bytes[from..to])
    }

    /// One line more, at the end. Where it can't be read, may not stand here, or the row is full, nothing changes.
    pub fn push(&mut self, line: &[u8]) -> Result<(), Fault>
        ensures added { ChangedAs rows (pushed self.old.place (rows self.old) line.now) self.old result self.new }
        ensures place { self.new.place ≡ self.old.place }
    {
        let read = read_line(line)?;
        if !read.may_stand(self.place) {
            return Err(Fault::Unreadable);
        }
        let count = self.count;
        if count >= most_lines(self.place) {
            return Err(Fault::TooMany);
        }
        let used = usize::from(self.marks[count]);
        let size = put_line(&mut self.bytes[used..], line);
        self.marks[count + 1] = (used + size) as u16;
        self.count = count + 1;
        Ok(())
    }
}

// Writes a line behind its length at the front of what is lent, and tells how many bytes that took.
fn put_line(out: &mut [u8], line: &[u8]) -> usize
    requires { (length line.now < 256) × (length line.now < length out.old) }
    ensures value { result ≡ 1 + length line.now }
    ensures after { out.new ≡ (length line.now ∷ line.now) ++ drop (1 + length line.now) out.old }
{
    let size = line.len();
    out[0] = size as u8;
    out[1..1 + size].copy_from_slice(line);
    1 + size
}
