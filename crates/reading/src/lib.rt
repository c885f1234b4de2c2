// One statement of a script, read from the text of its line.
//
//     house SEED                                  give X from PERSON to PERSON
//     key K to PERSON                             give key K from PERSON to PERSON
//     ticket T = NUMBER: LINE; LINE to PERSON     tie Z = Y to T by PERSON
//     yes Y = K: LIMIT; LIMIT by PERSON           wish PERSON: WISH
//     add X = OLD: LINE; LINE by PERSON           show PERSON T Z Z ..: WISH
//
// Names and persons are any words. A statement with a colon is cut at its first one into head and tail. The heap stands
// beside the text, as in the library: a reader that held both would be made anew for each part of a line.
#![tactic(auto)]

ghost use Rattle.reading.specs.Forms.{said_by, said_in};
ghost use Rattle.statements.specs.Views.{stated};
ghost use Rattle.trouble.specs.Told.{Told};
ghost use Rattle.std.specs.Option.{option_map};

mod passed;
mod wished;

use making::{read_add, read_ticket, read_tie, read_yes};
use passed::{read_give, read_house, read_key};
use statements::{Statement, Trouble};
use std::alloc::Global;
use texts::{Cause, next_word};
use wished::{read_show, read_wish};

/// Reads the statement of a line without its comment; none where the line has no word.
pub fn read_statement(heap: Global, text: &str) -> Result<Option<Statement>, Trouble>
    ensures { Told (option_map stated) result (said_in text.now) }
{
    let Some((first, _)) = next_word(text) else {
        return Ok(None);
    };
    Ok(Some(read_by(heap, first, text)?))
}

// The first word says which statement it is.
#[tactic(auto, using(crate::proofs::FirstWords::said_at), unfolding(crate::specs::Forms::said_by))]
fn read_by(heap: Global, first: &str, text: &str) -> Result<Statement, Trouble>
    ensures { Told stated result (said_by first.now text.now) }
{
    match first {
        "house" => read_house(heap, text),
        "key" => read_key(heap, text),
        "ticket" => read_ticket(heap, text),
        "yes" => read_yes(heap, text),
        "add" => read_add(heap, text),
        "tie" => read_tie(heap, text),
        "give" => read_give(heap, text),
        "wish" => read_wish(heap, text),
        "show" => read_show(heap, text),
        _ => Err(Cause::UnknownWord.into()),
    }
}
