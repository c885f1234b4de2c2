// The text of a script, read into numbered statements.
//
// A script has a statement a line, as the crate `statements` reads them; the first is `house`. `#` begins a comment, which
// goes to the line's end. A line with no word says nothing, and is counted.
#![tactic(auto)]

ghost use Rattle.std.specs.Prelude.{◌≡◌, IfOk};
ghost use Rattle.scripting.specs.Rules.{lines_in};
ghost use Rattle.scripts.specs.Laws.{LineByLine, HouseOpensFirst, CommentsAside};
ghost use Rattle.scripts.specs.Rules.{reads};
ghost use Rattle.scripts.specs.Views.{told};
ghost use Rattle.trouble.specs.declared.Trouble.TheVariants.{Unreadable};

mod display;
mod whole;

use statements::Statement;
use std::alloc::{AllocError, Global};
use trouble::Trouble;
use whole::AllStatements;

/// Why a line can't be read.
#[derive(Clone, Copy, PartialEq, Eq, Debug)]
pub enum Cause {
    /// `house` stands after another statement or a second time, or another statement stands before it.
    HouseFirst,
    /// The statement's words.
    Words(words::Cause),
}

impl From<Cause> for Trouble<Cause> {
    ghost from_gives = { λ cause t. t ≡ Unreadable cause };

    fn from(cause: Cause) -> Trouble<Cause> {
        Trouble::Unreadable(cause)
    }
}

/// A statement and the number of its line. Lines are numbered from 1.
pub type Numbered = scripting::Numbered<Statement>;

/// A line that can't be read.
pub type Fault = scripting::Fault<Cause>;

/// The statements before the first line that can't be read, in their order, and that line, if there is one.
pub type Script = scripting::Script<Statement, Cause>;

/// Reads any text whatever; only want of memory is an error.
///
/// `line_by_line`: the statements are those of the lines before the fault, each read by itself, and each of these lines can
/// be read. `house_first`: the first statement opens the house, and no other does. `comments_aside`: without a comment the
/// script reads the same.
pub fn read_script(heap: Global, text: &str) -> Result<Script, AllocError>
    ensures rules { IfOk result (λ s. told s ≡ reads text.now) }
    ensures line_by_line { IfOk result (λ s. LineByLine (lines_in text.now) (told s)) }
    ensures house_first { IfOk result (λ s. HouseOpensFirst (told s).said) }
    ensures comments_aside { IfOk result (λ s. CommentsAside text.now (told s)) }
{
    scripting::read_script::<AllStatements>(heap, text)
}
