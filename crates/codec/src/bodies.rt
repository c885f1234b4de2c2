// What tickets and yeses say, without their MACs.
ghost use Rattle.std.specs.Prelude.{◌∷◌, length};
ghost use Rattle.codec.specs.Things.{ticket_body_format, yes_body_format, yes_content, yes_kind};
ghost use Rattle.codec.specs.Whole.{Appends};
ghost use Rattle.narrow.specs.Ticket as model;
ghost use Rattle.rows.specs.Due.{ReadAs};
ghost use Rattle.rows.specs.Row.{rows};
ghost use Rattle.rows.specs.Wire.{wire};
ghost use Rattle.tickets.specs.Views.{ticket_body, yes_body};

use crate::coded::Coded;
use crate::fields::read_kind;
use crate::kind::Kind;
use lines::{Fault, KeyNumber, Place};
use numbers::Number;
use rows::{Lines, Reader};
use std::alloc::AllocError;
use tickets::{TicketBody, YesBody};

impl Coded for TicketBody {
    ghost View = { model.Ticket };

    ghost view = { ticket_body };

    ghost format = { ticket_body_format };

    fn read(reader: &mut Reader<'_>) -> Result<TicketBody, Fault> {
        read_kind(reader, Kind::Ticket as u8)?;
        let number = reader.number().ok_or(Fault::Shape)?;
        let lines = reader.row(Place::Ticket)?;
        if lines.len() == 0 {
            return Err(Fault::Unreadable);
        }
        Ok(TicketBody { number, lines })
    }

    fn write(&self, out: &mut Vec<u8>) -> Result<(), AllocError> {
        out.push(Kind::Ticket as u8)?;
        out.extend_from_slice(&self.number.to_bytes())?;
        write_row(out, &self.lines)
    }
}

impl Coded for YesBody {
    ghost View = { model.Yes };

    ghost view = { yes_body };

    ghost format = { yes_body_format yes_kind };

    fn read(reader: &mut Reader<'_>) -> Result<YesBody, Fault> {
        read_kind(reader, Kind::Yes as u8)?;
        read_content(reader)
    }

    fn write(&self, out: &mut Vec<u8>) -> Result<(), AllocError> {
        out.push(Kind::Yes as u8)?;
        write_content(out, self)
    }
}

// A yes's body behind its kind, which may be that of a yes or that of a tied one.
pub fn read_content(reader: &mut Reader<'_>) -> Result<YesBody, Fault>
    ensures { ReadAs yes_content.read yes_body reader.old.rest.now result reader.new.rest.now }
{
    let key = KeyNumber::read(reader)?;
    let limits = reader.row(Place::Yes)?;
    Ok(YesBody { key, limits })
}

pub fn write_content(out: &mut Vec<u8>, body: &YesBody) -> Result<(), AllocError>
    ensures { Appends (yes_content.write (yes_body body.now)) out.old.items result out.new.items }
{
    body.key.write(out)?;
    write_row(out, &body.limits)
}

// A count, and the lines as they are carried. That the count fits a byte is proved, so that it is cast.
fn write_row(out: &mut Vec<u8>, lines: &Lines) -> Result<(), AllocError>
    ensures { Appends (length (rows lines.now) ∷ wire (rows lines.now)) out.old.items result out.new.items }
{
    out.push(lines.len() as u8)?;
    out.extend_from_slice(lines.wire())
}
