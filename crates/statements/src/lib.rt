// What a statement of a script is.
#![tactic(auto)]

ghost use Rattle.std.specs.Prelude.{◌≡◌, IfOk, string_bytes};

mod asked;

pub use asked::{Asked, asked_in};
use lines::{KeyNumber, Line};
use std::alloc::{AllocError, Global};
use texts::Cause;

/// One thing that a script asks for, on a line of its own.
#[derive(Drop)]
pub enum Statement {
    /// `house SEED` opens the house. All of its keys are worked out from the seed, a word, so that a script plays the same each time.
    House(String),
    /// `key K to PERSON`: the house gives the key.
    Key {
        key: KeyNumber,
        person: String,
    },
    /// `ticket T = NUMBER: LINE; LINE to PERSON`: the house gives a ticket, which is called T from there on.
    Ticket {
        name: String,
        number: u32,
        lines: Vec<Line>,
        person: String,
    },
    /// `yes Y = K: LIMIT; LIMIT by PERSON`: made under key K. An else among the limits is told when it is played.
    Yes {
        name: String,
        key: KeyNumber,
        limits: Vec<Line>,
        person: String,
    },
    /// `add X = OLD: LINE; LINE by PERSON`: a ticket or a yes with lines added.
    Add {
        name: String,
        old: String,
        lines: Vec<Line>,
        person: String,
    },
    /// `tie Z = Y to T by PERSON`: the yes tied to just that ticket.
    Tie {
        name: String,
        yes: String,
        ticket: String,
        person: String,
    },
    /// `give X from PERSON to PERSON`.
    Give {
        what: Gift,
        from: String,
        to: String,
    },
    /// `wish PERSON: WISH`.
    Wish {
        person: String,
        wish: Asked,
    },
    /// `show PERSON T Z Z ..: WISH`: just this ticket and these tied yeses are shown.
    Show {
        person: String,
        ticket: String,
        tied: Vec<String>,
        wish: Asked,
    },
}

/// What is given: the thing of a name, or a key.
#[derive(Drop)]
pub enum Gift {
    Thing(String),
    Key(KeyNumber),
}

/// Why a statement, or a part of one, could not be read.
pub type Trouble = trouble::Trouble<Cause>;

/// Two words, as strings of their own.
pub fn owned_pair(heap: Global, first: &str, second: &str) -> Result<(String, String), AllocError>
    ensures { IfOk result (λ p. (string_bytes p.0 ≡ first.now) × (string_bytes p.1 ≡ second.now)) }
{
    let first = String::from_str(heap, first)?;
    Ok((first, String::from_str(heap, second)?))
}
