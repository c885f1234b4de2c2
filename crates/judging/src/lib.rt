// Whether the lines of a ticket are met, for a wish and the yeses that come with it.
#![tactic(auto)]

ghost use Rattle.judging.specs.Judged.{judged};
ghost use Rattle.judging.specs.Laws.{Judges, JudgedRight};
ghost use Rattle.judging.specs.Views.{bodies};
ghost use Rattle.lines.specs.Meaning.{says};
ghost use Rattle.rows.specs.Row.{rows};
ghost use Rattle.wishes.specs.Views.{wish_view};
ghost use Rattle.std.specs.Prelude.{◌≡◌, Bool, position};
ghost use Rattle.std.specs.Borrow.{Bor};
ghost use Rattle.narrow.specs.Term.{Bytes};

mod case;

use case::Case;
use rows::Lines;
use tickets::{TicketBody, TiedYes};
use wishes::Wish;

/// A line that isn't met. Places are counted from 0.
#[derive(Clone, Copy, PartialEq, Eq, Debug)]
pub enum Failing {
    /// A limit that doesn't hold.
    LimitFails(usize),
    /// An else without a yes.
    NoYes(usize),
    /// An else for which no yes's limits all hold.
    NoneHolds(usize),
}

/// Judges the lines: limits first, then elses without a yes, then elses for which no yes holds; of each the nearest to the beginning.
pub fn judge(wish: Wish, ticket: &TicketBody, yeses: &[TiedYes]) -> Result<(), Failing>
    ensures value { result ≡ judged (says (wish_view wish)) (rows ticket.now.lines) (bodies yeses.now) }
    ensures right { Judges (says (wish_view wish)) (rows ticket.now.lines) (bodies yeses.now) }
{
    let case = Case { wish, yeses };
    let lines = &ticket.lines;
    if let Some(place) = first_failing(lines, |line| case.limit_fails(line)) {
        return Err(Failing::LimitFails(place));
    }
    if let Some(place) = first_failing(lines, |line| case.no_yes(line)) {
        return Err(Failing::NoYes(place));
    }
    if let Some(place) = first_failing(lines, |line| case.none_holds(line)) {
        return Err(Failing::NoneHolds(place));
    }
    Ok(())
}

// The place of the first line that fails.
// By hand, as a rule of the project asks for a loop here that is left by its label (docs/DECISIONS.md, "How each place looks").
fn first_failing<F: Fn(&[u8]) -> bool>(lines: &Lines, fails: F) -> Option<usize>
    requires { F.IsAlwaysCallable fails }
    ensures { (test : Bytes → Bool) → ((x : Bor Bytes) (b : Bool) → F.post fails x b → b ≡ test x.now) → result ≡ position test (rows lines.now) }
{
    let mut failing = None;
    'lines: for (place, line) in lines.iter().enumerate() {
        if fails(line) {
            failing = Some(place);
            break 'lines;
        }
    }
    failing
}

/// A judgement is told exactly if its cause holds, and a wish is let through exactly if all lines are met.
pub fn judged_right()
    ensures { JudgedRight }
{}
