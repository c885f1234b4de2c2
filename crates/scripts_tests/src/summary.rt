// What was read of a script, in words again.
use lines::Line;
use scripts::read_script;
use statements::{Asked, Gift, Statement};
use std::alloc::{AllocError, Global};
use words::Words;

/// The statements with their lines' numbers, and the fault.
pub fn summary(heap: Global, text: &str) -> Result<String, AllocError> {
    let script = read_script(heap, text)?;
    let mut said = String::new(heap);
    for numbered in script.statements.iter() {
        let line = numbered.line;
        let statement = statement_said(heap, &numbered.statement)?;
        said.push_str(format!(in heap; "{line} {statement}\n")?.as_str())?;
    }
    if let Some(fault) = script.fault {
        said.push_str(format!(in heap; "{fault}")?.as_str())?;
    }
    Ok(said)
}

fn statement_said(heap: Global, statement: &Statement) -> Result<String, AllocError> {
    match statement {
        Statement::House(seed) => format!(in heap; "house {seed}"),
        Statement::Key { key, person } => format!(in heap; "key {} to {person}", key.get()),
        Statement::Tie {
            name,
            yes,
            ticket,
            person,
        } => format!(in heap; "tie {name} = {yes} to {ticket} by {person}"),
        Statement::Give { what, from, to } => given_said(heap, what, from, to),
        Statement::Wish { person, wish } => {
            let wish = wish_said(heap, wish)?;
            format!(in heap; "wish {person}: {wish}")
        }
        Statement::Show {
            person,
            ticket,
            tied,
            wish,
        } => {
            let tied = names_said(heap, tied.as_slice())?;
            let wish = wish_said(heap, wish)?;
            format!(in heap; "show {person} {ticket}{tied}: {wish}")
        }
        _ => made_said(heap, statement),
    }
}

// A ticket, a yes or a thing with lines added.
fn made_said(heap: Global, statement: &Statement) -> Result<String, AllocError> {
    match statement {
        Statement::Ticket {
            name,
            number,
            lines,
            person,
        } => {
            let lines = lines_said(heap, lines.as_slice())?;
            format!(in heap; "ticket {name} = {number}: {lines} to {person}")
        }
        Statement::Yes {
            name,
            key,
            limits,
            person,
        } => {
            let key = key.get();
            let limits = lines_said(heap, limits.as_slice())?;
            format!(in heap; "yes {name} = {key}: {limits} by {person}")
        }
        Statement::Add {
            name,
            old,
            lines,
            person,
        } => {
            let lines = lines_said(heap, lines.as_slice())?;
            format!(in heap; "add {name} = {old}: {lines} by {person}")
        }
        _ => String::from_str(heap, "another statement"),
    }
}

fn given_said(heap: Global, what: &Gift, from: &String, to: &String) -> Result<String, AllocError> {
    match what {
        Gift::Thing(name) => format!(in heap; "give {name} from {from} to {to}"),
        Gift::Key(key) => format!(in heap; "give key {} from {from} to {to}", key.get()),
    }
}

// Unlike the names, the first line has nothing before it.
fn lines_said(heap: Global, lines: &[Line]) -> Result<String, AllocError> {
    let mut said = String::new(heap);
    for line in lines {
        if !said.is_empty() {
            said.push_str("; ")?;
        }
        said.push_str(format!(in heap; "{}", Words(*line))?.as_str())?;
    }
    Ok(said)
}

fn names_said(heap: Global, names: &[String]) -> Result<String, AllocError> {
    let mut said = String::new(heap);
    for name in names {
        said.push_str(format!(in heap; " {name}")?.as_str())?;
    }
    Ok(said)
}

fn wish_said(heap: Global, asked: &Asked) -> Result<String, AllocError> {
    match asked.raw().in_range() {
        Some(wish) => format!(in heap; "{}", Words(wish)),
        None => String::from_str(heap, "out of range"),
    }
}
