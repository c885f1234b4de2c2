// Each kind of thing: a ticket, a yes, a tied yes as it is shown and as it is passed on, a key.
ghost use Rattle.codec.specs.Things.{maced, tied, passed, key};
ghost use Rattle.narrow.specs.Term.{Bytes};
ghost use Rattle.narrow.specs.Ticket as model;
ghost use Rattle.std.specs.Prelude.{ℕ};
ghost use Rattle.tickets.specs.Making.{Maced, Tied};
ghost use Rattle.tickets.specs.Views.{ticket_body, maced_view, tied_view};

use crate::bodies::{read_content, write_content};
use crate::coded::Coded;
use crate::fields::read_kind;
use crate::kind::Kind;
use hmac::Mac;
use lines::{Fault, KeyNumber};
use rows::Reader;
use std::alloc::AllocError;
use tickets::{PassedYes, TicketBody, TiedYes, WithMac, YesKey};

/// Tickets and yeses: a body, and its MAC.
impl<B: Coded + Drop> Coded for WithMac<B> {
    ghost View = { Maced B.View };

    ghost view = { maced_view B.view };

    ghost format = { maced B.format };

    fn read(reader: &mut Reader<'_>) -> Result<WithMac<B>, Fault> {
        let body = B::read(reader)?;
        let mac = Mac::read(reader)?;
        Ok(WithMac { body, mac })
    }

    fn write(&self, out: &mut Vec<u8>) -> Result<(), AllocError> {
        self.body.write(out)?;
        self.mac.write(out)
    }
}

impl Coded for TiedYes {
    ghost View = { Tied };

    ghost view = { tied_view };

    ghost format = { tied };

    fn read(reader: &mut Reader<'_>) -> Result<TiedYes, Fault> {
        read_kind(reader, Kind::Tied as u8)?;
        let body = read_content(reader)?;
        let tie = Mac::read(reader)?;
        Ok(TiedYes { body, tie })
    }

    fn write(&self, out: &mut Vec<u8>) -> Result<(), AllocError> {
        out.push(Kind::Tied as u8)?;
        write_content(out, &self.body)?;
        self.tie.write(out)
    }
}

// This and the next differ only in their kind and their types. As one impl they would be of a generic pair with a kind, whose
// fields would have no names.
impl Coded for PassedYes {
    ghost View = { model.Ticket × Tied };

    ghost view = { λ p. (ticket_body p.ticket, tied_view p.yes) };

    ghost format = { passed };

    fn read(reader: &mut Reader<'_>) -> Result<PassedYes, Fault> {
        read_kind(reader, Kind::Passed as u8)?;
        let ticket = TicketBody::read(reader)?;
        let yes = TiedYes::read(reader)?;
        Ok(PassedYes { ticket, yes })
    }

    fn write(&self, out: &mut Vec<u8>) -> Result<(), AllocError> {
        out.push(Kind::Passed as u8)?;
        self.ticket.write(out)?;
        self.yes.write(out)
    }
}

impl Coded for YesKey {
    ghost View = { ℕ × Bytes };

    ghost view = { λ k. (k.number.number, k.secret.bytes) };

    ghost format = { key };

    fn read(reader: &mut Reader<'_>) -> Result<YesKey, Fault> {
        read_kind(reader, Kind::Key as u8)?;
        let number = KeyNumber::read(reader)?;
        let secret = Mac::read(reader)?;
        Ok(YesKey { number, secret })
    }

    fn write(&self, out: &mut Vec<u8>) -> Result<(), AllocError> {
        out.push(Kind::Key as u8)?;
        self.number.write(out)?;
        self.secret.write(out)
    }
}
