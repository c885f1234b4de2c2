// Tickets and yeses made longer.
ghost use Rattle.rows.specs.Due.{ChangedAs};
ghost use Rattle.std.proofs.Common.{refl};
ghost use Rattle.tickets.specs.Stays.{right_line, right_limit};
ghost use Rattle.tickets.specs.Made.{Secrets, Right, ATicket, AYes};
ghost use Rattle.tickets.specs.Making.{added, ticket_longer, yes_longer};
ghost use Rattle.tickets.specs.Views.{ticket_body, yes_body, maced_view};
ghost use Rattle.narrow.specs.Ticket.{Ticket as TicketView, Yes as YesView};

use crate::WithMac;
use crate::bodies::{TicketBody, YesBody};
use crate::body::Body;
use lines::Fault;

impl Body for TicketBody {
    ghost View = { TicketView };

    ghost view = { ticket_body };

    ghost longer = { ticket_longer };

    ghost thing = { ATicket };

    ghost carries = { λ m. refl };

    ghost stays_right = { right_line };

    /// A line that can't be read is refused, and one more than a ticket has room for.
    fn push(&mut self, line: &[u8]) -> Result<(), Fault> {
        self.lines.push(line)
    }
}

impl Body for YesBody {
    ghost View = { YesView };

    ghost view = { yes_body };

    ghost longer = { yes_longer };

    ghost thing = { AYes };

    ghost carries = { λ m. refl };

    ghost stays_right = { right_limit };

    /// A limit that can't be read is refused, and an else, and one more than a yes has room for.
    fn push(&mut self, limit: &[u8]) -> Result<(), Fault> {
        self.limits.push(limit)
    }
}

impl<B: Body> WithMac<B> {
    /// One line more, at the end. Where the body refuses it (it can't be read, may not stand there, or there is no room), nothing changes.
    pub fn add(&mut self, line: &[u8]) -> Result<(), Fault>
        ensures added { ChangedAs (maced_view B.view) (added B.longer (maced_view B.view self.old) line.now) self.old result self.new }
        ensures right { (s : Secrets) → Right s (B.thing (maced_view B.view self.old)) → Right s (B.thing (maced_view B.view self.new)) }
    {
        self.body.push(line)?;
        self.mac = self.mac.mac(line);
        Ok(())
    }
}
