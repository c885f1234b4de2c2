// What tickets and yeses say, without their MACs. The structs stand by themselves, as the specs that their methods cite name them.
ghost use Rattle.std.specs.Prelude.{◌≡◌, ◌≤◌, true};
ghost use Rattle.tickets.specs.Places.{on_ticket, on_yes};

use lines::KeyNumber;
use rows::Lines;

/// A ticket's number and lines, of which there is one at least.
#[derive(Clone, Copy, PartialEq, Eq)]
pub struct TicketBody {
    pub number: u32,
    pub lines: Lines,
    ghost stands: { on_ticket lines.place ≡ true },
    ghost some: { 1 ≤ lines.count },
}

/// The number of a yes's key, and its limits.
#[derive(Clone, Copy)]
pub struct YesBody {
    pub key: KeyNumber,
    pub limits: Lines,
    ghost stands: { on_yes limits.place ≡ true },
}
