// The statements that ask the house.
ghost use Rattle.reading.specs.Forms.{wish_said, show_said};
ghost use Rattle.std.specs.Prelude.{Ok};
ghost use Rattle.statements.specs.Views.{stated, names_view};
ghost use Rattle.trouble.specs.Told.{Told};
ghost use Rattle.texts.specs.Cuts.{words_of};

use statements::{Statement, Trouble, asked_in, owned_pair};
use std::alloc::Global;
use texts::{GAPS, after_label, head_and_tail, only_after, word_and_rest};

pub fn read_wish(heap: Global, text: &str) -> Result<Statement, Trouble>
    ensures { Told stated result (wish_said text.now) }
{
    let (head, tail) = head_and_tail(text)?;
    let person = only_after("wish", head)?;
    let wish = asked_in(heap, tail)?;
    Ok(Statement::Wish {
        person: String::from_str(heap, person)?,
        wish,
    })
}

pub fn read_show(heap: Global, text: &str) -> Result<Statement, Trouble>
    ensures { Told stated result (show_said text.now) }
{
    let (head, tail) = head_and_tail(text)?;
    let (person, rest) = after_label("show", head)?;
    let (ticket, rest) = word_and_rest(rest)?;
    let wish = asked_in(heap, tail)?;
    let tied = names_in(heap, rest)?;
    let (person, ticket) = owned_pair(heap, person, ticket)?;
    Ok(Statement::Show {
        person,
        ticket,
        tied,
        wish,
    })
}

// All words: the parts between gaps that are not empty.
fn names_in(heap: Global, text: &str) -> Result<Vec<String>, Trouble>
    ensures { Told names_view result (Ok (words_of text.now)) }
{
    let mut names = Vec::new(heap);
    for word in text.split(GAPS) {
        if word.is_empty() {
            continue;
        }
        names.push(String::from_str(heap, word)?)?;
    }
    Ok(names)
}
