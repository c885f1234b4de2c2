// The laws of making and adding. Each function only carries a theorem: its contract is the statement.
ghost use Rattle.tickets.specs.Laws.{MadeRight, AddedLast};

/// All that is made from a house's secrets, by making, adding and tying, has the bytes of its own term.
pub fn made_right()
    ensures { MadeRight }
{}

/// A line is added at the end, and all that was there before stays.
pub fn added_last()
    ensures { AddedLast }
{}
