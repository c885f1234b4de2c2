// What tickets and yeses have in common: a row of lines, to which more are added at the end.
ghost use Rattle.lines.specs.declared.Fault.{Fault};
ghost use Rattle.narrow.specs.Term.{Bytes};
ghost use Rattle.rows.specs.Due.{ChangedAs};
ghost use Rattle.std.specs.Prelude.{◌≡◌, Result};
ghost use Rattle.tickets.specs.Made.{Thing, carried, StaysRight};
ghost use Rattle.tickets.specs.Making.{Maced};

use lines::Fault;

/// What is said under a MAC.
pub trait Body {
    // the type that it has in the model
    ghost View: { Type 0 };

    // what it is there
    ghost view: { Self → View };

    // it with one line more, or why that can't be
    ghost longer: { View → Bytes → Result View Fault };

    // what it is as a thing that somebody has
    ghost thing: { Maced View → Thing };

    // that thing's 32 bytes are its MAC
    ghost carries: { (m : Maced View) → carried (thing m) ≡ m.mac };

    /// One line more, at the end. Where it is refused, nothing changes.
    fn push(&mut self, line: &[u8]) -> Result<(), Fault>
        ensures { ChangedAs view (longer (view self.old) line.now) self.old result self.new };

    // with that line MACed under the MAC before, what was right is right
    ghost stays_right: { StaysRight longer thing };
}
