// The house's verdict on what is shown.
#![tactic(auto)]

ghost use Rattle.showing.specs.Views.{shown_view};
ghost use Rattle.std.specs.Prelude.{◌≡◌, Ok, IfOk};
ghost use Rattle.verifier.specs.Laws.{LetThrough, Why, ThroughExactly, VerdictExactly, LineNoMore};
ghost use Rattle.verifier.specs.Stages.{secrets, Unreadable};
ghost use Rattle.verifier.specs.Verdict.{by_lines, verdict_on, verdict};
ghost use Rattle.verifier.specs.declared.Refusal.TheVariants.{Unmet};

mod macs;
mod right;

use book::Book;
pub use judging::Failing;
use judging::judge;
use lines::Fault;
pub use macs::Macs;
pub use right::{Right, check};
use showing::{Shown, Unread, read_shown};
use std::alloc::{AllocError, Global};

/// Why a wish is not let through. Numbers and places are given by `refusal_number` and `refusal_place` in specs/.
#[derive(Clone, Copy, PartialEq, Eq, Debug)]
pub enum Refusal {
    /// The bytes can't be read, or the wish is out of range.
    Unread(Fault),
    /// The ticket's MAC isn't right.
    WrongMac,
    /// A yes of a key that the house doesn't know.
    UnknownKey,
    /// A yes whose tie isn't right.
    WrongTie,
    /// A line that isn't met.
    Unmet(Failing),
}

impl From<Failing> for Refusal {
    ghost from_gives = { λ failing r. r ≡ Unmet failing };

    fn from(failing: Failing) -> Refusal {
        Refusal::Unmet(failing)
    }
}

/// What the house says: the wish is let through, or it is refused.
pub type Verdict = Result<(), Refusal>;

/// What the house remembers from one wish to the next: nothing, today.
#[derive(Clone, Copy)]
pub struct State;

/// The house's verdict on any bytes whatever, and what it remembers after. It is read; then its MACs are worked out anew; then its
/// lines are judged.
pub fn admit(
    heap: Global,
    book: &Book,
    state: State,
    bytes: &[u8],
) -> Result<(Verdict, State), AllocError>
    ensures verdict { IfOk result (λ p. p.0 ≡ verdict (secrets book.now) bytes.now) }
    ensures through { IfOk result (λ p. (p.0 ≡ Ok tt → LetThrough (secrets book.now) bytes.now) × (LetThrough (secrets book.now) bytes.now → p.0 ≡ Ok tt)) }
    ensures why { IfOk result (λ p. Why (secrets book.now) bytes.now p.0) }
{
    match read_shown(heap, bytes) {
        Ok(shown) => Ok((verdict_on(book, shown), state)),
        Err(unread) => not_read(unread, state),
    }
}

// What can't be read is refused.
fn not_read(unread: Unread, state: State) -> Result<(Verdict, State), AllocError>
    ensures { Unreadable unread state result }
{
    match unread {
        Unread::Unreadable(fault) => Ok((Err(Refusal::Unread(fault)), state)),
        Unread::NoMemory => Err(AllocError),
    }
}

// The verdict on what could be read.
fn verdict_on(book: &Book, shown: Shown) -> Verdict
    ensures { result ≡ verdict_on (secrets book.now) (shown_view shown) }
{
    by_lines(&check(book, shown)?)
}

// The stage of lines, after that of MACs.
fn by_lines(right: &Right) -> Verdict
    ensures { result ≡ by_lines (shown_view right.now.shown) }
{
    let shown = &right.shown;
    judge(shown.wish, &shown.ticket.body, shown.yeses.as_slice())?;
    Ok(())
}

/// A wish is let through exactly if what is shown is right and the model lets it through.
pub fn through_exactly()
    ensures { ThroughExactly }
{}

/// An answer is given exactly if its condition holds.
pub fn verdict_exactly()
    ensures { VerdictExactly }
{}

/// A line more lets no more through.
pub fn line_no_more()
    ensures { LineNoMore }
{}
