// What people type and read for a line and for a wish.
//
//     museums 3,4    days 10-20    minutes 540-1020    persons 2    name ada    else 5
//     museum 3 day 9 minute 600 persons 2 name ada
//
// Numbers are decimal digits; zeros in front are read and never printed. Spaces, tabs and carriage returns part words, as
// many as there are. `name` with no word is the empty name, and a wish may leave `name` off.
#![tactic(auto)]

ghost use Rattle.texts.specs.Cuts.{words_of};
ghost use Rattle.words.specs.Lines.{limit_of, line_in};
ghost use Rattle.words.specs.Means.{Told, WishTold};
ghost use Rattle.words.specs.Results.{limit_parsed, line_parsed};
ghost use Rattle.words.specs.Wishes.{wish_parsed, wish_in};
ghost use Rattle.std.specs.Prelude.{◌≡◌};

mod content;
mod field;
pub mod laws;

pub use content::key_of;
use content::{museums_of, name_of, span_of};
use field::{field, name_field};
use lines::{Limit, Line, RawWish};
pub use printing::Words;
pub use texts::Cause;
use texts::{number, only_word, optional_word, word_and_rest};

/// Reads a line from its words.
pub fn parse_line(text: &str) -> Result<Line, Cause>
    ensures value { line_parsed result ≡ line_in text.now }
    ensures told { Told (words_of text.now) (line_parsed result) }
{
    let (kind, rest) = word_and_rest(text)?;
    match kind {
        "else" => only_word(rest).and_then(key_of).map(Line::Else),
        _ => parse_limit(kind, rest).map(Line::Limit),
    }
}

/// Reads a wish from its words, in range or not.
///
/// What is refused here is only what a `RawWish` can't hold: a museum or persons above 255, a day or a minute above 65535.
/// Whether the wish is in range, its name too, is for `RawWish::in_range` to say.
pub fn parse_wish(text: &str) -> Result<RawWish<'_>, Cause>
    ensures value { wish_parsed result ≡ wish_in text.now }
    ensures told { WishTold (words_of text.now) (wish_parsed result) }
{
    let (museum, rest) = field("museum", text)?;
    let (day, rest) = field("day", rest)?;
    let (minute, rest) = field("minute", rest)?;
    let (persons, rest) = field("persons", rest)?;
    let name = name_field(rest)?.as_bytes();
    Ok(RawWish {
        museum,
        day,
        minute,
        persons,
        name,
    })
}

// Reads a limit from its first word and what follows it.
fn parse_limit(kind: &str, rest: &str) -> Result<Limit, Cause>
    ensures { limit_parsed result ≡ limit_of kind.now (words_of rest.now) }
{
    match kind {
        "museums" => only_word(rest).and_then(museums_of).map(Limit::Museums),
        "days" => only_word(rest).and_then(span_of).map(Limit::Days),
        "minutes" => only_word(rest).and_then(span_of).map(Limit::Minutes),
        // Rattle hands no generic function over by its name, so that a closure stands for it.
        "persons" => only_word(rest)
            .and_then(|word| number(word))
            .map(Limit::Persons),
        "name" => optional_word(rest).and_then(name_of).map(Limit::Name),
        _ => Err(Cause::UnknownWord),
    }
}
