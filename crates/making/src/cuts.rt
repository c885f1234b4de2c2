// Where the text of a statement that makes something is cut.
ghost use Rattle.std.specs.Prelude.{◌≡◌};
ghost use Rattle.making.specs.Cuts.{ending, lines_in, limits_in, parts_in};
ghost use Rattle.making.specs.Views.{parts_read};
ghost use Rattle.statements.specs.Views.{lines_view};
ghost use Rattle.trouble.specs.Told.{Told};
ghost use Rattle.texts.specs.Results.{cut_read};

use lines::Line;
use statements::Trouble;
use std::alloc::Global;
use texts::{Cause, head_and_tail, last_word, next_word, pair_after};
use words::parse_line;

/// The parts of `LABEL NAME = WORD: FRONT END PERSON`.
#[derive(Clone, Copy)]
pub struct Making<'a> {
    pub name: &'a str,
    pub word: &'a str,
    pub front: &'a str,
    pub person: &'a str,
}

pub fn parts_of<'a>(label: &str, end: &str, text: &'a str) -> Result<Making<'a>, Cause>
    ensures { parts_read result ≡ parts_in label.now end.now text.now }
{
    let (head, tail) = head_and_tail(text)?;
    let (name, word) = pair_after(label, "=", head)?;
    let (front, person) = ending_in(end, tail)?;
    Ok(Making {
        name,
        word,
        front,
        person,
    })
}

// What stands before the last two words, of which the first is the label, and the second of them.
fn ending_in<'a>(label: &str, text: &'a str) -> Result<(&'a str, &'a str), Cause>
    ensures { cut_read result ≡ ending label.now text.now }
{
    let (rest, person) = last_word(text).ok_or(Cause::MissingWord)?;
    let (front, word) = last_word(rest).ok_or(Cause::MissingWord)?;
    if word != label {
        return Err(Cause::UnknownWord);
    }
    Ok((front, person))
}

/// Lines with `;` between them, one at least.
pub fn lines_in(heap: Global, text: &str) -> Result<Vec<Line>, Trouble>
    ensures { Told lines_view result (lines_in text.now) }
{
    let mut lines = Vec::new(heap);
    for part in text.split(';') {
        lines.push(parse_line(part)?)?;
    }
    Ok(lines)
}

/// The same, or none.
pub fn limits_in(heap: Global, text: &str) -> Result<Vec<Line>, Trouble>
    ensures { Told lines_view result (limits_in text.now) }
{
    match next_word(text) {
        None => Ok(Vec::new(heap)),
        Some(_) => lines_in(heap, text),
    }
}
