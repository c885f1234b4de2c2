// Texts with a statement a line, read into numbered statements, in whatever language the statements are.
//
// `#` begins a comment, which goes to the line's end. A line that says nothing is counted.
#![tactic(auto)]

ghost use Rattle.std.specs.Prelude.{◌≡◌, ℕ, Bool, List, IfOk, Option, Result};
ghost use Rattle.std.specs.Option.{option_map};
ghost use Rattle.scripting.specs.Laws.{AsAlone, LineByLine, CommentsAside};
ghost use Rattle.scripting.specs.Rules.{lines_in, uncommented, reads};
ghost use Rattle.scripting.specs.Views.{told};
ghost use Rattle.trouble.specs.Told.{Told};

mod display;

use std::alloc::{AllocError, Global};
use trouble::Trouble;

/// A language of statements, each on a line of its own.
pub trait Language {
    type Statement: Drop;

    /// Why a line can't be read.
    type Cause;

    ghost Said: { Type 0 };

    // What a statement says.
    ghost stated: { Self.Statement → Said };

    // What the code of a line says by itself, and what it says where the line stands: the flag says whether a statement
    // stands before it.
    ghost alone: { List ℕ → Result (Option Said) Self.Cause };

    ghost sense: { Bool → List ℕ → Result (Option Said) Self.Cause };

    /// Reads the code of a line, without its comment; `begun` says that a statement stands before it.
    fn read(
        heap: Global,
        code: &str,
        begun: bool,
    ) -> Result<Option<Self::Statement>, Trouble<Self::Cause>>
        ensures { Told (option_map stated) result (sense begun code.now) };

    ghost placed: { (begun : Bool) (code : List ℕ) → AsAlone (alone code) (sense begun code) };
}

/// A statement and the number of its line. Lines are numbered from 1.
#[derive(Drop)]
pub struct Numbered<S> {
    pub line: usize,
    pub statement: S,
}

/// A line that can't be read.
#[derive(Clone, Copy, PartialEq, Eq, Debug)]
pub struct Fault<C> {
    pub line: usize,
    pub cause: C,
}

/// The statements before the first line that can't be read, in their order, and that line, if there is one.
#[derive(Drop)]
pub struct Script<S, C> {
    pub statements: Vec<Numbered<S>>,
    pub fault: Option<Fault<C>>,
}

/// Reads any text whatever; only want of memory is an error.
///
/// `line_by_line`: the statements are those of the lines before the fault, each read by itself, and each of these lines can
/// be read. `comments_aside`: without a comment the script reads the same.
pub fn read_script<L: Language>(
    heap: Global,
    text: &str,
) -> Result<Script<L::Statement, L::Cause>, AllocError>
    ensures rules { IfOk result (λ s. told L.stated s ≡ reads L.sense text.now) }
    ensures line_by_line { IfOk result (λ s. LineByLine L.alone L.sense (lines_in text.now) (told L.stated s)) }
    ensures comments_aside { IfOk result (λ s. CommentsAside L.sense text.now (told L.stated s)) }
{
    let mut statements = Vec::new(heap);
    for (i, line) in text.split('\n').enumerate() {
        let number = i + 1;
        let begun = !statements.is_empty();
        match L::read(heap, code_of(line), begun) {
            Ok(None) => {}
            Ok(Some(statement)) => statements.push(Numbered {
                line: number,
                statement,
            })?,
            Err(Trouble::Unreadable(cause)) => {
                let fault = Some(Fault {
                    line: number,
                    cause,
                });
                return Ok(Script { statements, fault });
            }
            Err(Trouble::NoMemory) => return Err(AllocError),
        }
    }
    Ok(Script {
        statements,
        fault: None,
    })
}

// What stands before the comment, if there is one.
fn code_of(line: &str) -> &str
    ensures { result.now ≡ uncommented line.now }
{
    let (code, _) = line.split_once('#').unwrap_or((line, ""));
    code
}
