// What lines are judged for: whether one fails there.
ghost use Rattle.judging.specs.Judged.{some_yes, some_holds, limit_fails, else_fails};
ghost use Rattle.judging.specs.Views.{bodies};
ghost use Rattle.lines.specs.Meaning.{says};
ghost use Rattle.narrow.specs.Policy.{holds, met, no_key};
ghost use Rattle.tickets.specs.Views.{yes_body};
ghost use Rattle.wishes.specs.Views.{wish_view};
ghost use Rattle.std.specs.Prelude.{◌≡◌};

use lines::{KeyNumber, Line, read_line};
use tickets::{TiedYes, YesBody};
use wishes::Wish;

/// A wish, and the yeses that come with it.
#[derive(Clone, Copy)]
pub struct Case<'a> {
    pub wish: Wish,
    pub yeses: &'a [TiedYes],
}

impl Case<'_> {
    /// The line is a limit that doesn't hold, or can't be read.
    pub fn limit_fails(&self, line: &[u8]) -> bool
        ensures { result ≡ limit_fails (says (wish_view self.now.wish) line.now) }
    {
        let Ok(line) = read_line(line) else {
            return true;
        };
        match line {
            Line::Limit(limit) => !limit.holds(self.wish),
            Line::Else(_) => false,
        }
    }

    /// The line is an else without a yes.
    pub fn no_yes(&self, line: &[u8]) -> bool
        ensures { result ≡ else_fails (some_yes (bodies self.now.yeses.now)) (says (wish_view self.now.wish) line.now) }
    {
        match read_line(line) {
            Ok(Line::Else(key)) => !self.some_yes(key),
            _ => false,
        }
    }

    /// The line is an else for which no yes's limits all hold.
    // A match in both: with `is_some_and` on the else's key, each closure would say in a clause of its own what its function ensures.
    pub fn none_holds(&self, line: &[u8]) -> bool
        ensures { result ≡ else_fails (some_holds (says (wish_view self.now.wish)) (bodies self.now.yeses.now)) (says (wish_view self.now.wish) line.now) }
    {
        match read_line(line) {
            Ok(Line::Else(key)) => !self.some_holds(key),
            _ => false,
        }
    }

    // There is a yes of the key.
    fn some_yes(&self, key: KeyNumber) -> bool
        ensures { result ≡ some_yes (bodies self.now.yeses.now) key.number }
    {
        self.yeses.iter().any(|yes| yes.body.key == key)
    }

    // There is a yes of the key all of whose limits hold.
    fn some_holds(&self, key: KeyNumber) -> bool
        ensures { result ≡ some_holds (says (wish_view self.now.wish)) (bodies self.now.yeses.now) key.number }
    {
        self.yeses
            .iter()
            .any(|yes| yes.body.key == key && self.holds(&yes.body))
    }

    // All limits of the yes hold.
    fn holds(&self, yes: &YesBody) -> bool
        ensures { result ≡ holds (says (wish_view self.now.wish)) (yes_body yes.now) }
    {
        yes.limits.iter().all(|line| self.is_met(line))
    }

    // The line is a limit that holds.
    fn is_met(&self, line: &[u8]) -> bool
        ensures { result ≡ met no_key (says (wish_view self.now.wish) line.now) }
    {
        let Ok(line) = read_line(line) else {
            return false;
        };
        match line {
            Line::Limit(limit) => limit.holds(self.wish),
            Line::Else(_) => false,
        }
    }
}
