// The first byte of a line, which says what it is.
ghost use Rattle.std.specs.Prelude.{◌≡◌};
ghost use Rattle.lines.specs.Kinds.{kind_number, KindRead};

use crate::Fault;

/// What a line is, and what follows its kind.
#[derive(Clone, Copy, PartialEq, Eq, Debug)]
pub enum Kind {
    /// The museum is one of these: how many (1 byte), each (1).
    Museums = 1,
    /// Days from, to (2 and 2 bytes).
    Days = 2,
    /// Minutes from, to (2 and 2 bytes).
    Minutes = 3,
    /// At most so many persons (1 byte).
    Persons = 4,
    /// The name is: how many letters (1 byte), each (1).
    Name = 5,
    /// The holder of a key must say yes: its number (2 bytes).
    Else = 6,
}

impl From<Kind> for u8 {
    ghost from_gives = { λ kind n. n ≡ kind_number kind };

    fn from(kind: Kind) -> u8 {
        kind as u8
    }
}

impl TryFrom<u8> for Kind {
    type Error = Fault;

    ghost try_from_gives = { KindRead };

    fn try_from(number: u8) -> Result<Kind, Fault> {
        match number {
            1 => Ok(Kind::Museums),
            2 => Ok(Kind::Days),
            3 => Ok(Kind::Minutes),
            4 => Ok(Kind::Persons),
            5 => Ok(Kind::Name),
            6 => Ok(Kind::Else),
            _ => Err(Fault::Shape),
        }
    }
}
