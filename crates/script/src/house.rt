// The language whose one statement is `house SEED`.
ghost use Rattle.std.specs.Prelude.{false};
ghost use Rattle.script.specs.Rules.{Said, sense, house_sense, sense_placed};
ghost use Rattle.script.specs.Views.{stated};
ghost use Rattle.texts.specs.Cuts.{words_of};
ghost use Rattle.trouble.specs.Told.{Told};

use crate::{Cause, Statement};
use scripting::Language;
use std::alloc::Global;
use texts::{next_word, only_word};
use trouble::Trouble;

pub struct HouseOnly;

impl Language for HouseOnly {
    type Statement = Statement;

    type Cause = Cause;

    ghost Said = { Said };

    ghost stated = { stated };

    ghost alone = { λ code. sense false (words_of code) };

    ghost sense = { λ begun code. sense begun (words_of code) };

    fn read(heap: Global, code: &str, begun: bool) -> Result<Option<Statement>, Trouble<Cause>> {
        let Some((first, rest)) = next_word(code) else {
            return Ok(None);
        };
        match first {
            "house" => Ok(Some(read_house(heap, rest, begun)?)),
            _ => Err(Cause::Words(texts::Cause::UnknownWord).into()),
        }
    }

    ghost placed = { λ begun code. sense_placed begun (words_of code) };
}

// `house SEED`, of which `text` is what follows `house`.
fn read_house(heap: Global, text: &str, begun: bool) -> Result<Statement, Trouble<Cause>>
    ensures { Told stated result (house_sense begun (words_of text.now)) }
{
    if begun {
        return Err(Cause::LateHouse.into());
    }
    let seed = only_word(text).map_err(Cause::Words)?;
    Ok(Statement::House(String::from_str(heap, seed)?))
}
