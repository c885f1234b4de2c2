// What is shown to the house, in bytes.
#![tactic(auto)]

ghost use Rattle.codec.specs.Format.{counted};
ghost use Rattle.codec.specs.Things.{tied};
ghost use Rattle.narrow.specs.Policy.{most_yeses};
ghost use Rattle.showing.specs.Laws.{ShownExact};
ghost use Rattle.showing.specs.Showing.{shown, shown_of};
ghost use Rattle.showing.specs.Views.{shown_view};
ghost use Rattle.std.specs.Prelude.{◌≤◌, map, vec_len, IfOk};
ghost use Rattle.tickets.specs.Views.{tied_view};
ghost use Rattle.trouble.specs.Told.{Told};

mod shown;
mod writing;

use codec::{Coded, Kind};
use lines::Fault;
use rows::Reader;
pub use shown::Shown;
use std::alloc::Global;
use tickets::{Ticket, TiedYes};
use trouble::Trouble;
use wishes::read_wish;

/// Why something was not read: its bytes have a fault, or there was no memory for it.
pub type Unread = Trouble<Fault>;

/// Reads what is shown from these bytes as a whole, to its end or its first fault. Whether the wish is in range is asked last.
pub fn read_shown(heap: Global, bytes: &[u8]) -> Result<Shown, Unread>
    ensures { Told shown_view result (shown_of bytes.now) }
{
    let rest = bytes
        .strip_prefix(&[Kind::Shown as u8])
        .ok_or(Fault::Shape)?;
    let (raw, rest) = read_wish(rest).ok_or(Fault::Shape)?;
    let mut reader = Reader::new(rest);
    let ticket = Ticket::read(&mut reader)?;
    let yeses = read_yeses(heap, &mut reader)?;
    if !reader.is_empty() {
        return Err(Fault::Shape.into());
    }
    let wish = raw.in_range().ok_or(Fault::Range)?;
    Ok(Shown {
        wish,
        ticket,
        yeses,
    })
}

// A count, and so many tied yeses.
fn read_yeses(heap: Global, reader: &mut Reader<'_>) -> Result<Vec<TiedYes>, Unread>
    ensures read { Told (λ v. (map tied_view v.items, reader.new.rest.now)) result ((counted most_yeses tied).read reader.old.rest.now) }
    ensures few { IfOk result (λ v. vec_len v ≤ 32) }
{
    let count = reader.byte().ok_or(Fault::Shape)?;
    if count > 32 {
        return Err(Fault::TooMany.into());
    }
    let mut yeses = Vec::new(heap);
    // In a chain, the closure would change the reader, and a proof learns nothing of what a closure changes.
    for _ in 0..count {
        let yes = TiedYes::read(reader)?;
        yeses.push(yes)?;
    }
    Ok(yeses)
}

/// What is shown is read back as it was, and only that is read.
pub fn shown_exact()
    ensures { ShownExact }
{}
