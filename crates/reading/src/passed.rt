// The statements by which the house is opened, and by which keys and things are given.
ghost use Rattle.reading.specs.Forms.{house_said, key_said, gift_said, give_said};
ghost use Rattle.reading.specs.Views.{gift_view};
ghost use Rattle.statements.specs.Views.{stated};
ghost use Rattle.trouble.specs.Told.{Told};
ghost use Rattle.texts.specs.Cuts.{words_of};

use statements::{Gift, Statement, Trouble, owned_pair};
use std::alloc::Global;
use texts::{after_label, only_after, pair_after, word_and_rest};
use words::key_of;

pub fn read_house(heap: Global, text: &str) -> Result<Statement, Trouble>
    ensures { Told stated result (house_said (words_of text.now)) }
{
    let seed = only_after("house", text)?;
    Ok(Statement::House(String::from_str(heap, seed)?))
}

pub fn read_key(heap: Global, text: &str) -> Result<Statement, Trouble>
    ensures { Told stated result (key_said (words_of text.now)) }
{
    let (key, person) = pair_after("key", "to", text)?;
    Ok(Statement::Key {
        key: key_of(key)?,
        person: String::from_str(heap, person)?,
    })
}

// `give X` or `give key K`, and what follows it.
fn read_gift<'a>(heap: Global, text: &'a str) -> Result<(Gift, &'a str), Trouble>
    ensures { Told gift_view result (gift_said (words_of text.now)) }
{
    let (name, rest) = after_label("give", text)?;
    if name != "key" {
        return Ok((Gift::Thing(String::from_str(heap, name)?), rest));
    }
    let (key, rest) = word_and_rest(rest)?;
    Ok((Gift::Key(key_of(key)?), rest))
}

pub fn read_give(heap: Global, text: &str) -> Result<Statement, Trouble>
    ensures { Told stated result (give_said (words_of text.now)) }
{
    let (what, rest) = read_gift(heap, text)?;
    let (from, to) = pair_after("from", "to", rest)?;
    let (from, to) = owned_pair(heap, from, to)?;
    Ok(Statement::Give { what, from, to })
}
