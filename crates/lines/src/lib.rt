// Lines: what they are, what they mean for a wish, and their bytes.
#![tactic(auto)]

ghost use Rattle.lines.specs.Format.{line_bytes};
ghost use Rattle.lines.specs.Meaning.{holds_for, may_stand};
ghost use Rattle.lines.specs.Reading.{fault_number, line_of};
ghost use Rattle.lines.specs.Shapes.{Tells};
ghost use Rattle.lines.specs.Views.{limit_view, line_view, line_read};
ghost use Rattle.numbers.specs.Lent.{WritesFront};
ghost use Rattle.std.specs.Prelude.{◌≡◌, length, Ok};
ghost use Rattle.trouble.specs.declared.Trouble.TheVariants.{Unreadable};
ghost use Rattle.wishes.specs.Views.{wish_view};

mod kinds;
pub mod laws;
mod reading;
mod writing;

use kinds::Kind;
use numbers::Number;
pub use parts::{KeyNumber, Museums, Name, Span};
use reading::read_content;
use trouble::Trouble;
pub use wishes::{RawWish, Wish, read_wish};
use writing::write_line;

/// What is wrong with bytes that can't be read, each with its number.
#[derive(Clone, Copy, PartialEq, Eq, Debug)]
pub enum Fault {
    /// An unknown kind, or an input that ends early or late.
    Shape = 1,
    /// A line that can't be: a museum, a key, a count or a letter out of range, a length that is not its kind's, a span that ends before it begins.
    Unreadable = 2,
    /// More lines, limits, yeses or given things than there may be.
    TooMany = 3,
    /// A wish out of range.
    Range = 4,
}

impl From<Fault> for u8 {
    ghost from_gives = { λ fault n. n ≡ fault_number fault };

    fn from(fault: Fault) -> u8 {
        fault as u8
    }
}

impl From<Fault> for Trouble<Fault> {
    ghost from_gives = { λ fault t. t ≡ Unreadable fault };

    fn from(fault: Fault) -> Trouble<Fault> {
        Trouble::Unreadable(fault)
    }
}

/// What must hold of a wish (a first-party caveat).
#[derive(Clone, Copy)]
pub enum Limit {
    /// The museum is one of these.
    Museums(Museums),
    /// The day lies in this span.
    Days(Span),
    /// The minute of the day lies in this span.
    Minutes(Span),
    /// There are at most so many persons.
    Persons(u8),
    /// The name is this.
    Name(Name),
}

/// What stands on a ticket or a yes (a caveat).
#[derive(Clone, Copy)]
pub enum Line {
    Limit(Limit),
    /// The holder of this key must say yes (a third-party caveat).
    Else(KeyNumber),
}

/// What a line stands on.
#[derive(Clone, Copy, PartialEq, Eq, Debug)]
pub enum Place {
    Ticket,
    Yes,
}

/// Reads a line that is just these bytes. No bytes and an unknown kind are `Shape`, all else that is no line is `Unreadable`.
pub fn read_line(bytes: &[u8]) -> Result<Line, Fault>
    ensures value { line_read result ≡ line_of bytes.now }
    ensures told { Tells bytes.now (line_read result) }
{
    let [kind, content @ ..] = bytes else {
        return Err(Fault::Shape);
    };
    let kind = Kind::try_from(*kind)?;
    read_content(kind, content).ok_or(Fault::Unreadable)
}

impl Limit {
    /// Whether the limit holds for the wish.
    pub fn holds(self, wish: Wish) -> bool
        ensures { result ≡ holds_for (limit_view self) (wish_view wish) }
    {
        match self {
            Limit::Museums(museums) => museums.as_slice().contains(&wish.museum),
            Limit::Days(days) => days.contains(wish.day),
            Limit::Minutes(minutes) => minutes.contains(wish.minute),
            Limit::Persons(most) => wish.persons <= most,
            Limit::Name(name) => name.as_slice() == wish.name.as_slice(),
        }
    }
}

impl Line {
    /// Whether such a line may stand there: this is the one table of which line may stand where.
    pub fn may_stand(self, place: Place) -> bool
        ensures { result ≡ may_stand place (line_view self) }
    {
        match (place, self) {
            (Place::Ticket, _) => true,
            (Place::Yes, Line::Limit(_)) => true,
            (Place::Yes, Line::Else(_)) => false,
        }
    }

    /// How many bytes it has.
    pub fn len(self) -> usize
        ensures { result ≡ length (line_bytes (line_view self)) }
    {
        match self {
            Line::Limit(limit) => limit.len(),
            Line::Else(_) => 3,
        }
    }

    /// Writes its bytes at the front, and says how many they are. `None` if there is no room, and then nothing is written.
    pub fn write(self, out: &mut [u8]) -> Option<usize>
        ensures writes { WritesFront (line_bytes (line_view self)) out.old out.new result }
        ensures back { line_of (line_bytes (line_view self)) ≡ Ok (line_view self) }
    {
        match self {
            Line::Limit(limit) => limit.write(out),
            Line::Else(key) => write_line(Kind::Else, &key.get().to_bytes(), &[], out),
        }
    }
}
