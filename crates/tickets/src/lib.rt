// Tickets and yeses: made, made longer, and tied. Lines can be added by anybody, and none can be taken off, as each is MACed under the
// MAC before.
#![tactic(auto)]

ghost use Rattle.numbers.specs.Bytes.{four_bytes};
ghost use Rattle.std.specs.Prelude.{◌≡◌, IfOk};
ghost use Rattle.tickets.specs.Made.{Secrets, Right, ATicket, AYes, ATied, AKey};
ghost use Rattle.tickets.specs.Making.{new_ticket, new_yes, tied};
ghost use Rattle.tickets.specs.Views.{ticket_body, ticket_view, yes_view, tied_view, ticket_made};

mod bodies;
mod body;
mod comparing;
mod growing;
pub mod laws;

pub use bodies::{TicketBody, YesBody};
pub use body::Body;
use hmac::Mac;
use lines::{Fault, KeyNumber, Place};
use numbers::Number;
use rows::Lines;

/// What a body says, and the MAC of its last line.
#[derive(Clone, Copy)]
pub struct WithMac<B> {
    pub body: B,
    pub mac: Mac,
}

/// A ticket (a macaroon).
pub type Ticket = WithMac<TicketBody>;

/// A yes (a discharge macaroon).
pub type Yes = WithMac<YesBody>;

/// A yes tied (bound) to a ticket: neither MAC can be worked out from its tie, so that it serves with just this ticket. It is no
/// `WithMac`, as nothing is added to it and it isn't tied again.
#[derive(Clone, Copy)]
pub struct TiedYes {
    pub body: YesBody,
    pub tie: Mac,
}

/// A tied yes as it is passed on: with the ticket that it is tied to, without that one's MAC.
#[derive(Clone, Copy)]
pub struct PassedYes {
    pub ticket: TicketBody,
    pub yes: TiedYes,
}

/// A key of yeses, by its number.
#[derive(Clone, Copy)]
pub struct YesKey {
    pub number: KeyNumber,
    pub secret: Mac,
}

impl Ticket {
    /// A new ticket of the house, with its first line. A line that can't be read or may not stand there is refused.
    pub fn new(house: Mac, number: u32, first: &[u8]) -> Result<Ticket, Fault>
        ensures value { ticket_made result ≡ new_ticket house.bytes (four_bytes number) first.now }
        ensures right { IfOk result (λ t. (s : Secrets) → s.house ≡ house.bytes → Right s (ATicket (ticket_view t))) }
    {
        let mut lines = Lines::new(Place::Ticket);
        lines.push(first)?;
        let start = house.mac(&number.to_bytes());
        let mac = start.mac(first);
        let body = TicketBody { number, lines };
        Ok(Ticket { body, mac })
    }

    /// The yes tied to this ticket, as it is passed on.
    pub fn tie(&self, yes: &Yes) -> PassedYes
        ensures ticket { result.ticket ≡ self.now.body }
        ensures yes { tied_view result.yes ≡ tied (ticket_view self.now) (yes_view yes.now) }
        ensures right { (s : Secrets) → Right s (ATicket (ticket_view self.now)) → Right s (AYes (yes_view yes.now)) → Right s (ATied (ticket_body result.ticket) (tied_view result.yes)) }
    {
        let tie = self.mac.tie(yes.mac);
        let body = yes.body;
        PassedYes {
            ticket: self.body,
            yes: TiedYes { body, tie },
        }
    }
}

impl YesKey {
    /// A new yes under this key, without limits.
    pub fn yes(self) -> Yes
        ensures value { yes_view result ≡ new_yes self.number.number self.secret.bytes }
        ensures right { (s : Secrets) → Right s (AKey self.number.number self.secret.bytes) → Right s (AYes (yes_view result)) }
    {
        let limits = Lines::new(Place::Yes);
        let body = YesBody {
            key: self.number,
            limits,
        };
        let mac = self.secret.mac(&[1]);
        Yes { body, mac }
    }
}
