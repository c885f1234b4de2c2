// The text of a script, read into numbered statements.
//
// A script has a statement a line. `#` begins a comment, which goes to the line's end. Words are parted by spaces, tabs and
// carriage returns. A line with no word says nothing, and is counted.
#![tactic(auto)]

ghost use Rattle.std.specs.Prelude.{◌≡◌, IfOk};
ghost use Rattle.script.specs.Laws.{LineByLine, CommentsAside};
ghost use Rattle.script.specs.Rules.{reads};
ghost use Rattle.script.specs.Views.{told};
ghost use Rattle.scripting.specs.Rules.{lines_in};
ghost use Rattle.trouble.specs.declared.Trouble.TheVariants.{Unreadable};

mod display;
mod house;

use house::HouseOnly;
use std::alloc::{AllocError, Global};
use trouble::Trouble;

/// One thing that a script asks for, on a line of its own.
#[derive(Drop)]
pub enum Statement {
    /// `house SEED` opens the house. All of its keys are worked out from the seed, a word, so that a script plays the same each time.
    House(String),
}

/// Why a line can't be read.
// `scripts::Cause` has two cases like these, but its `HouseFirst` is also told of a statement that stands before `house`: one name for
// both would say too much here.
#[derive(Clone, Copy, PartialEq, Eq, Debug)]
pub enum Cause {
    /// The statement's words.
    Words(texts::Cause),
    /// `house` stands after another statement, or a second time.
    LateHouse,
}

impl From<Cause> for Trouble<Cause> {
    ghost from_gives = { λ cause t. t ≡ Unreadable cause };

    fn from(cause: Cause) -> Trouble<Cause> {
        Trouble::Unreadable(cause)
    }
}

/// A statement and the number of its line. Lines are numbered from 1.
pub type Numbered = scripting::Numbered<Statement>;

/// A line that can't be read.
pub type Fault = scripting::Fault<Cause>;

/// The statements before the first line that can't be read, in their order, and that line, if there is one.
pub type Script = scripting::Script<Statement, Cause>;

/// Reads any text whatever; only want of memory is an error.
///
/// `line_by_line`: the statements are those of the lines before the fault, each read by itself, and each of these lines can
/// be read. `comments_aside`: without a comment the script reads the same.
pub fn read_script(heap: Global, text: &str) -> Result<Script, AllocError>
    ensures rules { IfOk result (λ s. told s ≡ reads text.now) }
    ensures line_by_line { IfOk result (λ s. LineByLine (lines_in text.now) (told s)) }
    ensures comments_aside { IfOk result (λ s. CommentsAside text.now (told s)) }
{
    scripting::read_script::<HouseOnly>(heap, text)
}
