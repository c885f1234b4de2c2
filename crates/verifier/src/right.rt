// The stage of MACs: whether what is shown is right under the house's keys.
ghost use Rattle.std.specs.Prelude.{◌≡◌, ◌∷◌, map, Err, MatchResult, slice_index_or};
ghost use Rattle.narrow.specs.Rows.{all};
ghost use Rattle.hmac.specs.declared.Mac.{Mac};
ghost use Rattle.narrow.specs.Term.{Bytes};
ghost use Rattle.narrow.specs.Ticket.{ticket_mac, yes_message};
ghost use Rattle.narrow.specs.TermBytes.{bytes_of};
ghost use Rattle.rows.specs.Row.{rows};
ghost use Rattle.showing.specs.Views.{shown_view};
ghost use Rattle.tickets.specs.Made.{by_hmac};
ghost use Rattle.tickets.specs.Making.{Tied};
ghost use Rattle.tickets.specs.Views.{ticket_body, tied_view};
ghost use Rattle.verifier.specs.Chain.{chained};
ghost use Rattle.verifier.specs.Stages.{secrets, Passes, known_tie};
ghost use Rattle.verifier.specs.Verdict.{known_keys, verdict_on};

use crate::Refusal;
use crate::macs::{Macs, work_out};
use book::Book;
use hmac::Mac;
use numbers::Number;
use showing::Shown;
use tickets::{TicketBody, TiedYes, YesBody};

/// What is shown and is right, with all MACs of its ticket.
#[derive(Drop)]
pub struct Right {
    pub shown: Shown,
    pub macs: Macs,
}

/// Works out all MACs and ties anew, and holds what is shown to them.
pub fn check(book: &Book, shown: Shown) -> Result<Right, Refusal>
    ensures { MatchResult result
        (λ k. (k.shown ≡ shown) × Passes (secrets book.now) (shown_view shown))
        (λ f. verdict_on (secrets book.now) (shown_view shown) ≡ Err f) }
{
    let macs = ticket_macs(book, &shown.ticket.body);
    let last = macs.last();
    if !last.same(shown.ticket.mac) {
        return Err(Refusal::WrongMac);
    }
    let yeses = shown.yeses.as_slice();
    if !all_known(book, yeses) {
        return Err(Refusal::UnknownKey);
    }
    if !all_tied(book, last, yeses) {
        return Err(Refusal::WrongTie);
    }
    Ok(Right { shown, macs })
}

// From the MAC of its number on.
fn ticket_macs(book: &Book, ticket: &TicketBody) -> Macs
    ensures { (d : Mac) → (slice_index_or result.each result.count d).bytes ≡ bytes_of (by_hmac (secrets book.now)) (ticket_mac (ticket_body ticket.now)) }
{
    let start = book.house().mac(&ticket.number.to_bytes());
    work_out(start, &ticket.lines)
}

// The house knows the key of each.
fn all_known(book: &Book, yeses: &[TiedYes]) -> bool
    ensures { result ≡ known_keys (secrets book.now) (map tied_view yeses.now) }
{
    yeses.iter().all(|yes| book.secret(yes.body.key).is_some())
}

// The house knows the key of each, and each is tied to the ticket that has this MAC.
fn all_tied(book: &Book, ticket: Mac, yeses: &[TiedYes]) -> bool
    ensures { result ≡ all (known_tie (secrets book.now) ticket.bytes) (map tied_view yeses.now) }
{
    yeses.iter().all(|yes| is_tied(book, ticket, yes))
}

fn is_tied(book: &Book, ticket: Mac, yes: &TiedYes) -> bool
    ensures { result ≡ known_tie (secrets book.now) ticket.bytes (tied_view yes.now) }
{
    let Some(secret) = book.secret(yes.body.key) else {
        return false;
    };
    ticket.tie(yes_mac(secret, &yes.body)).same(yes.tie)
}

// From the MAC of a byte 1 on.
fn yes_mac(secret: Mac, yes: &YesBody) -> Mac
    ensures { result.bytes ≡ chained secret.bytes (yes_message ∷ rows yes.now.limits) }
{
    work_out(secret.mac(&[1]), &yes.limits).last()
}
