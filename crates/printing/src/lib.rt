// Lines and wishes as people read them, in the words that they type.
#![tactic(auto)]

ghost use Rattle.parts.specs.Items.{items};
ghost use Rattle.lines.specs.Views.{limit_view, line_view};
ghost use Rattle.wishes.specs.Views.{wish_view};
ghost use Rattle.std.specs.Fmt.{WritesOnOk};
ghost use Rattle.std.specs.Prelude.{◌≡◌, Some};
ghost use Rattle.printing.specs.Printed.{list_words, limit_words, line_words, wish_words};

use lines::{Limit, Line, Name, Wish};
use std::fmt;
use std::str::from_utf8;

/// A line, a limit or a wish to be printed in words, as `format!(in heap; "{}", Words(line))`.
#[derive(Drop)]
pub struct Words<T: Drop>(pub T);

impl fmt::Display for Words<Line> {
    ghost output = { λ l. Some (line_words (line_view l.0)) };

    fn fmt<W: fmt::Write>(&self, f: &mut fmt::Formatter<W>) -> fmt::Result {
        match self.0 {
            Line::Limit(limit) => write!(f, "{}", Words(limit)),
            Line::Else(key) => write!(f, "else {}", key.get()),
        }
    }
}

impl fmt::Display for Words<Limit> {
    ghost output = { λ l. Some (limit_words (limit_view l.0)) };

    fn fmt<W: fmt::Write>(&self, f: &mut fmt::Formatter<W>) -> fmt::Result {
        match self.0 {
            Limit::Museums(museums) => {
                f.write_str("museums ")?;
                write_list(museums.as_slice(), f)
            }
            Limit::Days(days) => write!(f, "days {}-{}", days.from, days.to),
            Limit::Minutes(minutes) => write!(f, "minutes {}-{}", minutes.from, minutes.to),
            Limit::Persons(most) => write!(f, "persons {most}"),
            Limit::Name(name) => match text_of(&name) {
                "" => f.write_str("name"),
                text => write!(f, "name {text}"),
            },
        }
    }
}

impl fmt::Display for Words<Wish> {
    ghost output = { λ w. Some (wish_words (wish_view w.0)) };

    fn fmt<W: fmt::Write>(&self, f: &mut fmt::Formatter<W>) -> fmt::Result {
        let wish = self.0;
        write!(
            f,
            "museum {} day {} minute {} persons {}",
            wish.museum, wish.day, wish.minute, wish.persons
        )?;
        match text_of(&wish.name) {
            "" => Ok(()),
            text => write!(f, " name {text}"),
        }
    }
}

fn write_list<W: fmt::Write>(numbers: &[u8], f: &mut fmt::Formatter<W>) -> fmt::Result
    ensures { WritesOnOk W.write_str_gives f.old result (list_words numbers.now) f.new }
{
    let [first, rest @ ..] = numbers else {
        return Ok(());
    };
    write!(f, "{first}")?;
    for number in rest {
        write!(f, ",{number}")?;
    }
    Ok(())
}

// Its letters as text: they are ASCII, so they are UTF-8.
fn text_of(name: &Name) -> &str
    ensures { result.now ≡ items name.now }
{
    from_utf8(name.as_slice()).unwrap()
}
