// Tickets compared as byte strings: a number, and the lines as they are carried.
ghost use Rattle.narrow.specs.Can.{same_ticket, extends};
ghost use Rattle.tickets.specs.Views.{ticket_body};
ghost use Rattle.std.specs.Prelude.{◌≡◌};

use crate::bodies::TicketBody;

impl TicketBody {
    /// Whether the two are one ticket: `==`, in the words of the model.
    pub fn same(&self, other: &TicketBody) -> bool
        ensures { result ≡ same_ticket (ticket_body self.now) (ticket_body other.now) }
    {
        self == other
    }

    /// Whether this is the other ticket, or the other with lines added. As a line begins with its length, its bytes then begin with the
    /// other's.
    pub fn extends(&self, other: &TicketBody) -> bool
        ensures { result ≡ extends (ticket_body self.now) (ticket_body other.now) }
    {
        self.number == other.number && self.lines.wire().starts_with(other.lines.wire())
    }
}
