// The statements by which tickets, yeses and ties are made.
//
//     ticket T = NUMBER: LINE; LINE to PERSON     add X = OLD: LINE; LINE by PERSON
//     yes Y = K: LIMIT; LIMIT by PERSON           tie Z = Y to T by PERSON
//
// The first colon cuts the first three into head and tail, and the tail ends in `to PERSON` or `by PERSON`, its last two
// words. Lines are parted by `;`; only a yes may have none.
#![tactic(auto)]

ghost use Rattle.making.specs.Forms.{ticket_said, yes_said, add_said, tie_said};
ghost use Rattle.statements.specs.Views.{stated};
ghost use Rattle.trouble.specs.Told.{Told};
ghost use Rattle.texts.specs.Cuts.{words_of};

mod cuts;

use cuts::{limits_in, lines_in, parts_of};
use statements::{Statement, Trouble, owned_pair};
use std::alloc::Global;
use texts::{after_label, number, pair_after};
use words::key_of;

/// `ticket T = NUMBER: LINE; LINE to PERSON`
pub fn read_ticket(heap: Global, text: &str) -> Result<Statement, Trouble>
    ensures { Told stated result (ticket_said text.now) }
{
    let parts = parts_of("ticket", "to", text)?;
    let number = number(parts.word)?;
    let lines = lines_in(heap, parts.front)?;
    let (name, person) = owned_pair(heap, parts.name, parts.person)?;
    Ok(Statement::Ticket {
        name,
        number,
        lines,
        person,
    })
}

/// `yes Y = K: LIMIT; LIMIT by PERSON`
pub fn read_yes(heap: Global, text: &str) -> Result<Statement, Trouble>
    ensures { Told stated result (yes_said text.now) }
{
    let parts = parts_of("yes", "by", text)?;
    let key = key_of(parts.word)?;
    let limits = limits_in(heap, parts.front)?;
    let (name, person) = owned_pair(heap, parts.name, parts.person)?;
    Ok(Statement::Yes {
        name,
        key,
        limits,
        person,
    })
}

/// `add X = OLD: LINE; LINE by PERSON`
pub fn read_add(heap: Global, text: &str) -> Result<Statement, Trouble>
    ensures { Told stated result (add_said text.now) }
{
    let parts = parts_of("add", "by", text)?;
    let lines = lines_in(heap, parts.front)?;
    let (name, old) = owned_pair(heap, parts.name, parts.word)?;
    let person = String::from_str(heap, parts.person)?;
    Ok(Statement::Add {
        name,
        old,
        lines,
        person,
    })
}

/// `tie Z = Y to T by PERSON`
pub fn read_tie(heap: Global, text: &str) -> Result<Statement, Trouble>
    ensures { Told stated result (tie_said (words_of text.now)) }
{
    let (name, rest) = after_label("tie", text)?;
    let (yes, rest) = after_label("=", rest)?;
    let (ticket, person) = pair_after("to", "by", rest)?;
    let (name, yes) = owned_pair(heap, name, yes)?;
    let (ticket, person) = owned_pair(heap, ticket, person)?;
    Ok(Statement::Tie {
        name,
        yes,
        ticket,
        person,
    })
}
