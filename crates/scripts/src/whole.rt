// The language of all statements, of which the first opens the house and no other does.
ghost use Rattle.std.specs.Prelude.{◌≡◌};
ghost use Rattle.scripts.specs.Rules.{alone, opens, sense, placed_alone};
ghost use Rattle.scripts.specs.Views.{in_words};
ghost use Rattle.statements.specs.Said.{Said};
ghost use Rattle.statements.specs.Views.{stated};

use crate::Cause;
use reading::read_statement;
use scripting::Language;
use statements::Statement;
use std::alloc::Global;
use trouble::Trouble;

pub struct AllStatements;

impl Language for AllStatements {
    type Statement = Statement;

    type Cause = Cause;

    ghost Said = { Said };

    ghost stated = { stated };

    ghost alone = { alone };

    ghost sense = { sense };

    fn read(heap: Global, code: &str, begun: bool) -> Result<Option<Statement>, Trouble<Cause>> {
        let Some(statement) = read_statement(heap, code).map_err(in_words)? else {
            return Ok(None);
        };
        if opens_house(&statement) == begun {
            return Err(Cause::HouseFirst.into());
        }
        Ok(Some(statement))
    }

    ghost placed = { λ begun code. placed_alone begun (alone code) };
}

fn opens_house(statement: &Statement) -> bool
    ensures { result ≡ opens (stated statement.now) }
{
    matches!(statement, Statement::House(_))
}

// What is told of a statement, as it is told of a script. A `From` would stand with one of the two types, which are of other crates.
fn in_words(trouble: statements::Trouble) -> Trouble<Cause>
    ensures { result ≡ in_words trouble }
{
    match trouble {
        Trouble::Unreadable(cause) => Trouble::Unreadable(Cause::Words(cause)),
        Trouble::NoMemory => Trouble::NoMemory,
    }
}
