// Why the program ends with status 1.
ghost use Rattle.std.specs.Prelude.{◌≡◌, Some, ◌≢◌};
ghost use Rattle.office.specs.Wording.{reason_worded};
ghost use Rattle.std.specs.declared.io.ErrorKind.TheVariants.{InvalidData, OutOfMemory};
ghost use Rattle.office.specs.declared.reasons.Reason.TheVariants.{Argument, Input, NotText, NoMemory};

use script::Fault;
use std::alloc::AllocError;
use std::fmt;
use std::fmt::Display;
use std::io::ErrorKind;

#[derive(Clone, Copy, PartialEq, Eq, Debug)]
pub enum Reason {
    Argument,
    Input,
    NotText,
    Output,
    NoMemory,
    /// A line of the script can't be read.
    Script(Fault),
}

impl fmt::Display for Reason {
    ghost output = { λ r. Some (reason_worded r) };

    fn fmt<W: fmt::Write>(&self, f: &mut fmt::Formatter<W>) -> fmt::Result {
        match self {
            Reason::Argument => f.write_str("office takes no argument but --help"),
            Reason::Input => f.write_str("standard input can't be read"),
            Reason::NotText => f.write_str("standard input is not UTF-8 text"),
            Reason::Output => f.write_str("standard output can't be written"),
            Reason::NoMemory => f.write_str("no memory"),
            Reason::Script(fault) => fault.fmt(f),
        }
    }
}

impl From<AllocError> for Reason {
    ghost from_gives = { λ _ r. r ≡ NoMemory };

    fn from(_error: AllocError) -> Reason {
        Reason::NoMemory
    }
}

// Why standard input could not be read. One kind of error is another reason here than among arguments, so that neither
// is a `From`.
pub fn of_input(kind: ErrorKind) -> Reason
    ensures text { kind ≡ InvalidData → result ≡ NotText }
    ensures memory { kind ≡ OutOfMemory → result ≡ NoMemory }
    ensures other { (kind ≢ InvalidData) → (kind ≢ OutOfMemory) → result ≡ Input }
{
    match kind {
        ErrorKind::InvalidData => Reason::NotText,
        ErrorKind::OutOfMemory => Reason::NoMemory,
        _ => Reason::Input,
    }
}

// Why the arguments could not be read: where memory suffices, one of them is no text, and so is not `--help`.
pub fn of_arguments(kind: ErrorKind) -> Reason
    ensures memory { kind ≡ OutOfMemory → result ≡ NoMemory }
    ensures other { (kind ≢ OutOfMemory) → result ≡ Argument }
{
    match kind {
        ErrorKind::OutOfMemory => Reason::NoMemory,
        _ => Reason::Argument,
    }
}
